//! What a line of a cell spells.

ghost use Rattle.std.specs.Prelude.{◌≡◌, IfSome, MatchOption};
ghost use Rattle.base.specs.Words.{words};
ghost use Rattle.record_lines.specs.Cells.{cell_words, FitsCell};
ghost use Rattle.record_lines.specs.Reading.{IsNoCell};

use crate::cells::Cell;
use base::controller::Side;
use cache_table::CacheChange;
use directory_table::DirectoryChange;

/// The cell that the line of a cell spells.
#[tactic(auto, using(crate::proofs::Alike::no_cell))]
pub fn cell_of(line: &[u8]) -> Option<Cell>
    ensures fits { IfSome result FitsCell }
    ensures cell { MatchOption result (IsNoCell (words line.now)) (λ cell. words line.now ≡ cell_words cell) }
{
    if let Some(change) = CacheChange::read(Side::Cache, line) {
        return Some(Cell::Cache {
            state: change.state,
            event: change.event,
            entry: change.entry,
        });
    }
    match DirectoryChange::read(Side::Directory, line) {
        Some(change) => Some(Cell::Directory {
            state: change.state,
            event: change.event,
            entry: change.entry,
        }),
        None => None,
    }
}
