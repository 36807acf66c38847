ghost use Rattle.std.specs.Prelude.{◌≡◌, ℕ, List, [], length};
ghost use Rattle.base.specs.Extent.{Extent, IsWithinLimits};
ghost use Rattle.base.specs.declared.ids.CacheId.{CacheId};
ghost use Rattle.base.specs.declared.step.Outcome.{Outcome};
ghost use Rattle.base.specs.declared.step.Step.{Step};
ghost use Rattle.machine.specs.declared.decision.Decision.{Decision};
ghost use Rattle.base.specs.declared.controller.protocol.Protocol.{Protocol};
ghost use Rattle.tables.specs.Tables.{Tables, baseline_of};
ghost use Rattle.machine.specs.Coherence.{Met, Safe};
ghost use Rattle.machine.specs.Restraint.{AreRestrained};
ghost use Rattle.machine.specs.Going.{AreNeverStuck, KeepsGoing};
ghost use Rattle.machine.specs.Unstuck.{Unstuck, Flowing};
ghost use Rattle.machine.specs.CoherenceRows.{WorkedJudgements};
ghost use Rattle.machine.specs.WrongTables.{WrongTablesAreRefused};
ghost use Rattle.machine.specs.WrongTables.{DeafSharerIsRestrained, DeafSharerIsStuck, DeafReaderIsRestrained, DeafReaderIsStuck};
ghost use Rattle.machine.specs.WrongTables.{ReadOnlyOwnerKeepsGoing, ReadOnlyOwnerIsStuck};
ghost use Rattle.machine.specs.WrongTables.{PatientDataKeepsGoing, PatientAcksKeepGoing, CrossedWaitsAreRestrained, CrossedWaitsAreStuck};
ghost use Rattle.machine.specs.Block.{BlockState, IsBlockAmong};
ghost use Rattle.machine.specs.Transition.{decision_of, decided_outcome, messages_of, transition};
ghost use Rattle.machine.specs.Machine.{State, IsRefusal, next, opened, after, sent_by};
ghost use Rattle.machine.specs.Rows.{WorkedRows};

/// Runs of the protocol's own tables, worked out step by step.
pub fn worked_rows()
    ensures { WorkedRows }
{}

/// A step's outcome is known before anything is done.
pub fn outcome_is_the_decisions()
    ensures { (tables : Tables) (step : Step) (block : BlockState) → (transition tables step block).outcome ≡ decided_outcome (decision_of tables step block) }
{}

/// A block stays whole: it keeps a line and a link for each cache, and nobody else is named in it.
pub fn blocks_stay_whole()
    ensures { (caches : ℕ) (tables : Tables) (step : Step) (block : BlockState) → IsBlockAmong caches block →
        IsBlockAmong caches (transition tables step block).block }
{}

/// A step that is held, absent, idle, blank or made in a broken world sends nothing.
pub fn nothing_sent_by_a_refusal()
    ensures { (tables : Tables) (state : State) (step : Step) → IsRefusal (next tables state step).outcome → sent_by tables state step ≡ [] }
{}

/// What the definitions of coherence accept and refuse, worked out by hand.
pub fn worked_judgements()
    ensures { WorkedJudgements }
{}

/// Tables with one wrong cell are refused: the definitions of a safe run and of not being stuck say something.
pub fn wrong_tables_are_refused()
    ensures { WrongTablesAreRefused }
{}

/// Under the own tables of each protocol every run of every world is safe: each block always has one
/// writer or many readers, no step meets a blank cell, and each load returns the value of the last
/// store to its block, or the opening value.
pub fn safe()
    ensures { (protocol : Protocol) (shape : Extent) (opening : List ℕ) (steps : List Step) → IsWithinLimits shape → length opening ≡ shape.blocks →
        Safe shape (baseline_of protocol) opening steps }
{}

/// Nor does such a run ever get stuck: in each state that it reaches a block with messages on their
/// way has one that can be delivered, and in a block without any no ask waits and none is held.
pub fn unstuck()
    ensures { (protocol : Protocol) (shape : Extent) (opening : List ℕ) (steps : List Step) → IsWithinLimits shape → length opening ≡ shape.blocks →
        Unstuck (baseline_of protocol) (after (baseline_of protocol) (opened shape opening) steps).state }
{}

/// Every run is safe too under restrained tables: each of their cells holds the protocol's own
/// entry, or a stall, or stands where the own one is blank. No step of such a run comes to a cell
/// where the own entry is blank.
pub fn restrained_tables_are_safe()
    ensures own { (protocol : Protocol) → AreRestrained (baseline_of protocol) }
    ensures safe { (tables : Tables) (shape : Extent) (opening : List ℕ) (steps : List Step) → AreRestrained tables → IsWithinLimits shape →
        length opening ≡ shape.blocks → Safe shape tables opening steps }
    ensures never_met { (tables : Tables) (shape : Extent) (opening : List ℕ) (steps : List Step) (step : Step) → AreRestrained tables →
        IsWithinLimits shape → length opening ≡ shape.blocks → ¬ Met (baseline_of tables.protocol) (after tables (opened shape opening) steps).state step }
{}

/// Nor does a run under restrained tables get stuck where they keep going: each of their stalls is
/// an own one, or stands where no run comes, or is one of those that let messages flow. Then every
/// message on its way is delivered, or another of its block can be; and where asks are served too,
/// nothing is ever stuck.
pub fn restrained_tables_are_unstuck()
    ensures own { (protocol : Protocol) → AreNeverStuck (baseline_of protocol) }
    ensures flowing { (tables : Tables) (shape : Extent) (opening : List ℕ) (steps : List Step) → AreRestrained tables → KeepsGoing tables →
        IsWithinLimits shape → length opening ≡ shape.blocks → Flowing tables (after tables (opened shape opening) steps).state }
    ensures unstuck { (tables : Tables) (shape : Extent) (opening : List ℕ) (steps : List Step) → AreNeverStuck tables →
        IsWithinLimits shape → length opening ≡ shape.blocks → Unstuck tables (after tables (opened shape opening) steps).state }
{}

/// A run under restrained tables can get stuck all the same.
pub fn restraint_can_get_stuck()
    ensures restrained { DeafSharerIsRestrained }
    ensures stuck { DeafSharerIsStuck }
{
    wrong_tables_are_refused();
}

/// Two stalls each of which lets messages flow can get stuck together.
pub fn harmless_stalls_can_cross()
    ensures patient { PatientDataKeepsGoing × PatientAcksKeepGoing }
    ensures crossed { CrossedWaitsAreRestrained × CrossedWaitsAreStuck }
{}

/// Under MSI+E, too, restrained tables can get stuck, and tables that keep going can hold an ask.
pub fn restraint_can_get_stuck_in_e()
    ensures deaf_reader { DeafReaderIsRestrained × DeafReaderIsStuck }
    ensures read_only_owner { ReadOnlyOwnerKeepsGoing × ReadOnlyOwnerIsStuck }
{}
