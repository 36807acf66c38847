//! What is known of a trial on its way.

ghost use Rattle.std.specs.Prelude.{◌≡◌, ◌<◌, ◌≤◌, ℕ, Option, Some, None, length};
ghost use Rattle.monitor.specs.declared.violation.Violation.{Violation};
ghost use Rattle.scenario.specs.Tree.{Tree};
ghost use Rattle.trials.specs.inner.Going.{Chooses, Course, GoesOn, IsGoing, IsVerdictAtRest, MakesAndNotes, Starts};
ghost use Rattle.trials.specs.Terms.{Terms};
ghost use Rattle.trials.specs.Trial.{IsTrial};
ghost use Rattle.trials.specs.declared.verdict.Verdict.{Verdict};
ghost use Rattle.trials.specs.declared.verdict.Verdict.TheVariants.{Cut};

/// A law: a trial goes on from its start, choice by choice, until it ends.
pub(crate) fn trials_go_on()
    ensures start { (terms : Terms) (tree : Tree) (number : ℕ) (c : Course) → Starts terms tree number c → IsGoing terms tree number c }
    ensures goes_on { (terms : Terms) (tree : Tree) (number : ℕ) (c chosen made : Course) (k : ℕ) (violation : Option Violation) →
        IsGoing terms tree number c → length c.recording.entries < terms.limit → Chooses c (Some k) chosen → MakesAndNotes chosen k made violation →
        GoesOn terms tree number made violation }
    ensures at_rest { (terms : Terms) (tree : Tree) (number : ℕ) (c chosen : Course) (verdict : Verdict) →
        IsGoing terms tree number c → length c.recording.entries ≤ terms.limit → Chooses c None chosen → IsVerdictAtRest chosen.moment verdict →
        IsTrial terms tree number chosen.recording verdict }
    ensures cut { (terms : Terms) (tree : Tree) (number : ℕ) (c chosen : Course) (k : ℕ) →
        IsGoing terms tree number c → length c.recording.entries ≡ terms.limit → Chooses c (Some k) chosen →
        IsTrial terms tree number chosen.recording Cut }
{
    monitor::one_step_more_may_have_the_first();
    scenario::alike_trees_stay_alike();
    schedule::alike_trees_give_the_same_choices();
    schedule::draws_follow_the_words();
}
