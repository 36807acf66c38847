//! The certificate of changed tables.

ghost use Rattle.std.specs.Prelude.{◌≡◌, ◌↔◌, IfNone, IfSome, MatchBool};
ghost use Rattle.tables.specs.Tables.{baseline_of};
ghost use Rattle.tables.specs.declared.cell_places.CellPlace.{CellPlace};
ghost use Rattle.machine.specs.Going.{KeepsGoing};
ghost use Rattle.machine.specs.Restraint.{AreRestrained};
ghost use Rattle.certify.specs.Certificates.{HoldsOfRuns, IsCertificate, IsFirstAgainst, SaysRestrained};
ghost use Rattle.certify.specs.Standings.{IsAdmitted};
ghost use Rattle.certify.specs.inner.Demands.{Meets};

use crate::going::{holds_ask, is_jam};
use crate::laws::certified_tables_are_safe;
use crate::standings::{Standing, standing_beside};
use closing::{Flow, Refusal, closed_pairs};
use machine::restrained_tables_are_safe;
use std::alloc::Global;
use tables::{CELLS, CellPlace, Tables};

/// What is proved of changed tables, for any number of caches and blocks and any list of steps. A cell that it names is the
/// first one of its kind, in the order of [`CellPlace::at`].
#[derive(Clone, Copy, Debug, PartialEq, Eq)]
pub enum Certificate {
    /// Nothing is: this cell isn't admitted, and no closed list of pairs of caches is known, for this reason. The tables may be
    /// safe all the same.
    NotProved(CellPlace, Refusal),
    /// They are safe: this cell isn't admitted, but a list of so many pairs of caches is closed, each of them in both orders. It
    /// is shown this far that nothing gets stuck.
    ClosedPairs(CellPlace, usize, Flow),
    /// They are safe, and no run under them ever gets stuck.
    NeverStuck,
    /// They are safe, and no message is ever stuck; but this cell holds an ask at a line that waits for nothing, for ever
    /// where no message comes.
    AsksMayBeHeld(CellPlace),
    /// They are safe; but this cell holds a stall of which it isn't proved that messages flow in spite of it.
    MessagesMayGetStuck(CellPlace),
}

/// Which of the answers is proved of these tables, as its definition (`IsCertificate`) says. Of restrained ones each comes exactly
/// where that holds and that of none which promises more does. More may be true: other tables may be safe, and a stall may hold no
/// message that is ever sent. Where the answer isn't `NotProved`, each run under them is safe; where they are restrained, no step of
/// one comes to a cell where the protocol's own entry is blank. Memory is wanted, and so can be refused, of others alone.
pub fn certify(alloc: Global, tables: &Tables) -> Certificate
    ensures answer { IsCertificate tables.now result }
    ensures restrained { SaysRestrained result ↔ AreRestrained tables.now }
    ensures runs { HoldsOfRuns tables.now result }
{
    restrained_tables_are_safe();
    certified_tables_are_safe();
    answer_to(alloc, tables, &Tables::baseline_of(tables.protocol()))
}

/// The answer, where the protocol's own tables are at hand.
fn answer_to(alloc: Global, tables: &Tables, own: &Tables) -> Certificate
    requires { own.now ≡ baseline_of tables.now.protocol }
    ensures { IsCertificate tables.now result }
{
    match first_against(tables, own, Demand::Admission) {
        Some(cell) => answer_by_pairs(alloc, tables, cell),
        None => answer_to_restrained(tables, own),
    }
}

fn answer_by_pairs(alloc: Global, tables: &Tables, cell: CellPlace) -> Certificate
    requires { IsFirstAgainst (IsAdmitted tables.now) cell }
    ensures { IsCertificate tables.now result }
{
    match closed_pairs(alloc, tables) {
        Ok(found) => Certificate::ClosedPairs(cell, found.pairs.len(), found.flow),
        Err(refusal) => Certificate::NotProved(cell, refusal),
    }
}

fn answer_to_restrained(tables: &Tables, own: &Tables) -> Certificate
    requires own { own.now ≡ baseline_of tables.now.protocol }
    requires restrained { AreRestrained tables.now }
    ensures { IsCertificate tables.now result }
{
    match first_against(tables, own, Demand::Flow) {
        Some(cell) => Certificate::MessagesMayGetStuck(cell),
        None => answer_to_flowing(tables, own),
    }
}

fn answer_to_flowing(tables: &Tables, own: &Tables) -> Certificate
    requires own { own.now ≡ baseline_of tables.now.protocol }
    requires restrained { AreRestrained tables.now }
    requires going { KeepsGoing tables.now }
    ensures { IsCertificate tables.now result }
{
    match first_against(tables, own, Demand::Service) {
        Some(cell) => Certificate::AsksMayBeHeld(cell),
        None => Certificate::NeverStuck,
    }
}

/// What is asked of each cell.
#[derive(Clone, Copy)]
enum Demand {
    /// That it is admitted.
    Admission,
    /// That messages flow in spite of its stall, if it holds one.
    Flow,
    /// That it holds no ask of a line that waits for nothing.
    Service,
}

fn first_against(tables: &Tables, own: &Tables, demand: Demand) -> Option<CellPlace>
    requires { own.now ≡ baseline_of tables.now.protocol }
    ensures none { IfNone result ((cell : CellPlace) → Meets tables.now demand cell) }
    ensures some { IfSome result (λ cell. IsFirstAgainst (Meets tables.now demand) cell) }
{
    for number in 0..CELLS {
        let cell = CellPlace::with_number(number);
        if is_against(tables, own, demand, cell) {
            return Some(cell);
        }
    }
    None
}

fn is_against(tables: &Tables, own: &Tables, demand: Demand, cell: CellPlace) -> bool
    requires { own.now ≡ baseline_of tables.now.protocol }
    ensures { MatchBool result (¬ Meets tables.now demand cell) (Meets tables.now demand cell) }
{
    match demand {
        Demand::Admission => matches!(standing_beside(tables, own, cell), Standing::Open),
        Demand::Flow => is_jam(tables, own, cell),
        Demand::Service => holds_ask(tables, own, cell),
    }
}
