//! Violations are what isn't safe.

ghost use Rattle.std.specs.Prelude.{◌≡◌, ◌↔◌, ◌+◌, ◌++◌, ◌∷◌, [], ℕ, List, None, Option, length, take};
ghost use Rattle.base.specs.Extent.{Extent, IsWithinLimits};
ghost use Rattle.base.specs.declared.step.Step.{Step};
ghost use Rattle.machine.specs.Coherence.{Safe};
ghost use Rattle.machine.specs.Restraint.{AreRestrained};
ghost use Rattle.tables.specs.Tables.{Tables};
ghost use Rattle.monitor.specs.Scenes.{HasNone, IsViolation};
ghost use Rattle.monitor.specs.Watching.{scene_after};
ghost use Rattle.monitor.specs.declared.violation.Violation.{Violation};
ghost use Rattle.monitor.specs.Violations.{HasNoViolation, IsFirstViolation, AnswersFirst};

use crate::laws::blank_has_a_place;

/// Steps have no violation exactly where they are safe. Else the first one is at the last step of the shortest front of
/// them that isn't.
pub fn violations_are_what_isnt_safe()
    ensures none { (shape : Extent) (tables : Tables) (opening : List ℕ) (steps : List Step) →
        HasNoViolation shape tables opening steps ↔ Safe shape tables opening steps }
    ensures before { (shape : Extent) (tables : Tables) (opening : List ℕ) (steps : List Step) (number : ℕ) (violation : Violation) →
        IsFirstViolation shape tables opening steps number violation → Safe shape tables opening (take number steps) }
    ensures behind { (shape : Extent) (tables : Tables) (opening : List ℕ) (steps : List Step) (number : ℕ) (violation : Violation) →
        IsFirstViolation shape tables opening steps number violation → ¬ Safe shape tables opening (take (number + 1) steps) }
    ensures answer { (shape : Extent) (tables : Tables) (opening : List ℕ) (steps : List Step) (found : Option (ℕ × Violation)) →
        AnswersFirst shape tables opening steps found → (found ≡ None ↔ Safe shape tables opening steps) }
{
    blank_has_a_place();
}

/// Under restrained tables, of which the protocol's own are some, no steps have a violation.
pub fn no_violation_under_restrained_tables()
    ensures none { (shape : Extent) (tables : Tables) (opening : List ℕ) (steps : List Step) → AreRestrained tables → IsWithinLimits shape →
        length opening ≡ shape.blocks → HasNoViolation shape tables opening steps }
    ensures answer { (shape : Extent) (tables : Tables) (opening : List ℕ) (steps : List Step) (found : Option (ℕ × Violation)) →
        AreRestrained tables → IsWithinLimits shape → length opening ≡ shape.blocks → AnswersFirst shape tables opening steps found → found ≡ None }
{
    machine::restrained_tables_are_safe();
    violations_are_what_isnt_safe();
}

/// Where no step has a violation, one step more has the first one if it has any.
pub fn one_step_more_may_have_the_first()
    ensures none { (shape : Extent) (tables : Tables) (opening : List ℕ) (steps : List Step) (step : Step) →
        HasNoViolation shape tables opening steps → HasNone (scene_after shape tables opening steps step) →
        HasNoViolation shape tables opening (steps ++ step ∷ []) }
    ensures first { (shape : Extent) (tables : Tables) (opening : List ℕ) (steps : List Step) (step : Step) (violation : Violation) →
        HasNoViolation shape tables opening steps → IsViolation (scene_after shape tables opening steps step) violation →
        IsFirstViolation shape tables opening (steps ++ step ∷ []) (length steps) violation }
{}
