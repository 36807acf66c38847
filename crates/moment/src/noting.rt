//! What a step means for the cores.

ghost use Rattle.std.specs.Prelude.{◌≡◌, ◌∷◌, [], IfSome, MatchOption, false, map};
ghost use Rattle.cores.specs.Cores.{Completes};
ghost use Rattle.machine.specs.Completions.{completed_by};
ghost use Rattle.moment.specs.inner.Noting.{AreBusy, AreFree, CanBeNoted, cores_in};
ghost use Rattle.moment.specs.Moments as spec;
ghost use Rattle.lanes.specs.Lanes.{AreAsFree};

use base::{Ask, CacheId, CoreAsk, Outcome, Step};
use cores::Cores;

/// Notes a step of this outcome: a load or a store that its cell took is issued, and a completion finishes what its
/// cache's core has outstanding. It answers whether a core may have turned: a hit is issued and finished at once.
pub(crate) fn note(cores: &mut Cores, step: Step, outcome: Outcome) -> bool
    requires { CanBeNoted step outcome cores.old }
    ensures noted { cores.new ≡ spec.cores_after step outcome cores.old }
    ensures turned { result ≡ false → AreAsFree cores.old cores.new }
{
    let issued = issue(cores, step, outcome);
    let finished = finish(cores, step, outcome);
    match (issued, finished) {
        (None, None) => false,
        (Some(issued), Some(finished)) => issued.0 != finished.0,
        _ => true,
    }
}

/// Issues what a step put, and answers for which core.
fn issue(cores: &mut Cores, step: Step, outcome: Outcome) -> Option<CacheId>
    requires { AreFree (spec.put_by step outcome) cores.old }
    ensures noted { cores.new ≡ spec.with_issued (spec.put_by step outcome) cores.old }
    ensures who { map (λ a. a.core) (spec.put_by step outcome) ≡ cores_in result }
{
    let Some(put) = put_by(step, outcome) else {
        return None;
    };
    cores.issue(put.core, put.ask);
    Some(put.core)
}

/// Finishes what a step completed, and answers for which core.
fn finish(cores: &mut Cores, step: Step, outcome: Outcome) -> Option<CacheId>
    requires { AreBusy (completed_by step outcome) cores.old }
    ensures noted { cores.new ≡ spec.with_finished (completed_by step outcome) cores.old }
    ensures who { map (λ c. c.cache) (completed_by step outcome) ≡ cores_in result }
{
    match outcome {
        Outcome::Load { cache, .. } => {
            cores.finish(cache);
            Some(cache)
        }
        Outcome::Store { cache, .. } => {
            cores.finish(cache);
            Some(cache)
        }
        _ => None,
    }
}

/// The load or store that a step put to its cache, if a cell acted on it.
fn put_by(step: Step, outcome: Outcome) -> Option<CoreAsk>
    ensures put { MatchOption result (spec.put_by step outcome ≡ []) (λ put. spec.put_by step outcome ≡ put ∷ []) }
    ensures completes { IfSome result (λ put. Completes put.ask) }
{
    let Step::Ask { cache, block, ask } = step else {
        return None;
    };
    if ask == Ask::Replace {
        return None;
    }
    match outcome {
        Outcome::Sent | Outcome::Load { .. } | Outcome::Store { .. } => Some(CoreAsk {
            core: cache,
            block,
            ask,
        }),
        _ => None,
    }
}
