//! What holds of every trial, by what a trial is.

ghost use Rattle.std.specs.Prelude.{◌≡◌, ◌↔◌, ℕ, List};
ghost use Rattle.machine.specs.Coherence.{Safe};
ghost use Rattle.machine.specs.Restraint.{AreRestrained};
ghost use Rattle.machine.specs.Going.{AreNeverStuck};
ghost use Rattle.record.specs.View.{RecordingView, IsLegal, steps_of};
ghost use Rattle.record_lines.specs.declared.entry.Entry.{Entry};
ghost use Rattle.scenario.specs.Tree.{Tree};
ghost use Rattle.trials.specs.Answering.{AnswersInTurn};
ghost use Rattle.moment.specs.Moments.{Moment};
ghost use Rattle.trials.specs.Moments.{IsPath};
ghost use Rattle.trials.specs.Terms.{Terms, AreLawful, RunsAreSafe, RunsAreUnstuck};
ghost use Rattle.trials.specs.Making.{TrialsAreSafe, TrialsAreSound};
ghost use Rattle.trials.specs.Trial.{HasBroken, IsTrial};
ghost use Rattle.trials.specs.declared.verdict.Verdict.{Verdict};

/// Whatever the tables, each core's completions answer its loads and stores in its order.
pub fn cores_are_answered_in_turn()
    ensures { (terms : Terms) (tree : Tree) (number : ℕ) (moments : List Moment) (entries : List Entry) →
        IsPath terms tree number moments entries → AnswersInTurn entries }
{}

/// A trial's recording is legal, and the trial broke exactly where its steps aren't safe.
pub fn trials_break_where_they_arent_safe()
    ensures legal { (terms : Terms) (tree : Tree) (number : ℕ) (recording : RecordingView) (verdict : Verdict) →
        IsTrial terms tree number recording verdict → IsLegal recording }
    ensures broke { (terms : Terms) (tree : Tree) (number : ℕ) (recording : RecordingView) (verdict : Verdict) →
        IsTrial terms tree number recording verdict →
        HasBroken verdict ↔ (¬ Safe terms.shape terms.tables terms.opening (steps_of recording)) }
{
    monitor::violations_are_what_isnt_safe();
}

/// Under tables of which each run is safe no trial breaks, and the completions of each are sequentially consistent; and where none
/// gets stuck either, no trial is stuck. So it is whatever it is that says so of the tables.
pub fn trials_of_safe_runs()
    ensures safe { (terms : Terms) → RunsAreSafe terms → TrialsAreSafe terms }
    ensures sound { (terms : Terms) → RunsAreSafe terms → RunsAreUnstuck terms → TrialsAreSound terms }
{
    cores_are_answered_in_turn();
    trials_break_where_they_arent_safe();
}

/// Under restrained tables, of which the protocol's own are some, no trial breaks, and the completions of each are sequentially
/// consistent.
pub fn trials_under_restrained_tables()
    ensures { (terms : Terms) → AreRestrained terms.tables → AreLawful terms → TrialsAreSafe terms }
{
    machine::restrained_tables_are_safe();
    trials_of_safe_runs();
}

/// Under restrained tables that keep going and serve asks, of which the protocol's own are some, no trial breaks or is stuck.
pub fn trials_under_tables_that_keep_going()
    ensures { (terms : Terms) → AreNeverStuck terms.tables → AreLawful terms → TrialsAreSound terms }
{
    machine::restrained_tables_are_safe();
    machine::restrained_tables_are_unstuck();
    trials_of_safe_runs();
}

/// A number has one trial.
pub fn one_trial_a_number()
    ensures { (terms : Terms) (tree : Tree) (number : ℕ) (one other : RecordingView) (verdict another : Verdict) →
        IsTrial terms tree number one verdict → IsTrial terms tree number other another → (one ≡ other) × (verdict ≡ another) }
{
    monitor::one_violation_at_most();
}
