//! What the first cache of a pair can do, and where that leads.

ghost use Rattle.std.specs.Prelude.{◌≡◌, ◌↔◌, Bool, Contains, IfOk, IsTrue, OnOk, true};
ghost use Rattle.pairs.specs.Marking.{CanBeFollowed};
ghost use Rattle.pairs.specs.Sights as sights;
ghost use Rattle.closing.specs.inner.Told.{AreAmong, IsTold, TellsAll};

use pairs::{Pair, Party, Rule, Sight, each_rule_is_listed, sight};
use std::alloc::{AllocFailed, Global};
use tables::Tables;

/// A step that a pair sees, the cache besides the first that it concerns, and the pair that it leads to.
#[derive(Clone, Copy, Debug)]
pub struct Followed {
    pub rule: Rule,
    pub concerned: Party,
    pub after: Pair,
}

/// Why the steps of a pair aren't followed.
#[derive(Clone, Copy, Debug)]
pub enum Breach {
    /// Memory was refused.
    NoMemory,
    /// What comes of this rule isn't followed.
    Lost(Rule),
    /// By this rule a blank cell is met, or a load returns what may not be the last store's value.
    Spoilt(Rule),
}

impl<T: Drop> From<AllocFailed<T>> for Breach {
    fn from(_refused: AllocFailed<T>) -> Breach {
        Breach::NoMemory
    }
}

/// All steps of a pair's first cache.
pub(crate) fn steps_of(alloc: Global, tables: &Tables, pair: &Pair) -> Result<Vec<Followed>, Breach>
    requires { CanBeFollowed pair.now }
    ensures { IfOk result (λ steps. TellsAll tables.now pair.now steps.items) }
{
    each_rule_is_listed();
    let mut steps = Vec::new(alloc);
    for rule in &Rule::ALL {
        tell_rule(tables, pair, *rule, &mut steps)?;
    }
    Ok(steps)
}

/// Notes what comes of a rule, whatever is guessed.
fn tell_rule(
    tables: &Tables,
    pair: &Pair,
    rule: Rule,
    steps: &mut Vec<Followed>,
) -> Result<(), Breach>
    requires { CanBeFollowed pair.now }
    ensures told { OnOk result ((guess : Bool) →
        IsTold steps.new.items rule (sights.sight tables.now rule guess pair.now)) }
    ensures kept { OnOk result (AreAmong steps.old.items steps.new.items) }
{
    tell(steps, rule, sight(tables, rule, false, pair))?;
    tell(steps, rule, sight(tables, rule, true, pair))?;
    Ok(())
}

/// Notes what comes of a rule.
fn tell(steps: &mut Vec<Followed>, rule: Rule, seen: Sight) -> Result<(), Breach>
    ensures told { OnOk result (IsTold steps.new.items rule seen) }
    ensures kept { OnOk result (AreAmong steps.old.items steps.new.items) }
{
    match seen {
        Sight::Unmoved | Sight::Spoilt(Party::Third) => Ok(()),
        Sight::Lost => Err(Breach::Lost(rule)),
        Sight::Spoilt(_) => Err(Breach::Spoilt(rule)),
        Sight::Seen(concerned, after) => {
            let step = Followed {
                rule,
                concerned,
                after,
            };
            if !ends_with(steps, &step) {
                steps.push(step)?;
            }
            Ok(())
        }
    }
}

/// Whether a step is the last of these.
fn ends_with(steps: &[Followed], step: &Followed) -> bool
    ensures { IsTrue result → Contains steps.now step.now }
{
    match steps.last() {
        Some(last) => last.is_same(step),
        None => false,
    }
}

impl Followed {
    fn is_same(&self, other: &Followed) -> bool
        ensures { IsTrue result ↔ (self.now ≡ other.now) }
    {
        self.rule.is_same(other.rule)
            & (self.concerned == other.concerned)
            & self.after.is_same(&other.after)
    }
}
