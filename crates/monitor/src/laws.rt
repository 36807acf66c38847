ghost use Rattle.std.specs.Prelude.{◌≡◌, ◌<◌, ◌∷◌, ◌++◌, ℕ, List, IsSome, Some, length, slice_get};
ghost use Rattle.base.specs.Steps.{block_of};
ghost use Rattle.base.specs.Extent.{Extent};
ghost use Rattle.base.specs.declared.step.Outcome.{Outcome};
ghost use Rattle.base.specs.declared.step.Step.{Step};
ghost use Rattle.machine.specs.Machine.{State, after, next, opened};
ghost use Rattle.tables.specs.Tables.{Tables};
ghost use Rattle.world.specs.Looks.{place_at};
ghost use Rattle.machine.specs.Completions.{Completion, HasNoStoreTo, IsStoreTo, completions, due};
ghost use Rattle.monitor.specs.Scenes.{HasNone, IsLookedAt, IsViolation, Scene};
ghost use Rattle.monitor.specs.Watching.{AreDue, made_after, noted_all, scene_after, scene_of};
ghost use Rattle.monitor.specs.declared.violation.Violation.{Violation};

/// Whoever notes the completed stores, from the opening values on, has the values that are due.
///
/// So what a watch that was opened with a world sees after its next step is what there is to see in the world's history.
pub fn watch_knows_what_is_due()
    ensures due { (opening : List ℕ) (steps : List Step) (outcomes : List Outcome) →
        AreDue opening (completions steps outcomes) (noted_all opening steps outcomes) }
    ensures history { (shape : Extent) (tables : Tables) (opening : List ℕ) (before : List Step) (step : Step) →
        scene_of step (made_after shape tables opening before step) (slice_get
        (noted_all opening before (after tables (opened shape opening) before).outcomes) (block_of step))
        ≡ scene_after shape tables opening before step }
{}

/// A due value in words: that of a store with no other store to the block behind it, and the opening value where there is
/// no store at all.
pub fn due_is_the_last_store()
    ensures last_store { (opening : List ℕ) (earlier later : List Completion) (store : Completion) (block : ℕ) →
        block < length opening → IsStoreTo block store → HasNoStoreTo block later → due opening (earlier ++ store ∷ later) block ≡ Some store.value }
    ensures no_store { (opening : List ℕ) (done : List Completion) (block : ℕ) →
        HasNoStoreTo block done → due opening done block ≡ slice_get opening block }
{}

/// Where a step's outcome is blank, the controller that it went to can be named.
pub fn blank_has_a_place()
    ensures { (tables : Tables) (state : State) (step : Step) →
        (next tables state step).outcome ≡ Outcome.Blank → IsSome (place_at (next tables state step).state step) }
{}

/// What was held, absent or idle and what was made in a broken world has no violation.
pub fn nothing_wrong_where_nothing_was_done()
    ensures { (scene : Scene) → ¬ IsLookedAt scene.outcome → HasNone scene }
{}

/// There is one violation at most to be found.
pub fn one_violation_at_most()
    ensures { (scene : Scene) (one other : Violation) → IsViolation scene one → IsViolation scene other → one ≡ other }
{}
