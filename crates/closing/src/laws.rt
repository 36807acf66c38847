ghost use Rattle.std.specs.Prelude.{◌≡◌, ℕ, List, length};
ghost use Rattle.base.specs.Extent.{Extent, IsWithinLimits};
ghost use Rattle.base.specs.declared.step.Step.{Step};
ghost use Rattle.tables.specs.Tables.{Tables};
ghost use Rattle.machine.specs.Coherence.{Safe};
ghost use Rattle.machine.specs.Machine.{after, opened};
ghost use Rattle.machine.specs.Unstuck.{Flowing, Unstuck};
ghost use Rattle.pairs.specs.declared.pair.Pair.{Pair};
ghost use Rattle.closing.specs.declared.ranked.RankedPair.{RankedPair};
ghost use Rattle.closing.specs.Blamed.{Blamed, ServesAsks};
ghost use Rattle.closing.specs.Closed.{Closed};

/// Every run of every world is safe under tables that have a closed set of pairs.
pub fn closed_tables_are_safe()
    ensures safe { (tables : Tables) (pairs : List Pair) (shape : Extent) (opening : List ℕ) (steps : List Step) → Closed tables pairs →
        IsWithinLimits shape → length opening ≡ shape.blocks → Safe shape tables opening steps }
{}

/// No run of any world gets stuck under tables that have a closed set of pairs, and ranked pairs by which, wherever messages are
/// held, a cache that was served earlier is to blame: every message on its way is delivered, or another of its block can be. Where
/// lines for which nothing is on its way hold no ask, nothing is ever stuck.
pub fn blamed_tables_are_unstuck()
    ensures flowing { (tables : Tables) (pairs : List Pair) (list : List RankedPair) (shape : Extent) (opening : List ℕ) (steps : List Step) →
        Closed tables pairs → Blamed tables list → IsWithinLimits shape → length opening ≡ shape.blocks →
        Flowing tables (after tables (opened shape opening) steps).state }
    ensures unstuck { (tables : Tables) (pairs : List Pair) (list : List RankedPair) (shape : Extent) (opening : List ℕ) (steps : List Step) →
        Closed tables pairs → Blamed tables list → ServesAsks tables list → IsWithinLimits shape → length opening ≡ shape.blocks →
        Unstuck tables (after tables (opened shape opening) steps).state }
{}
