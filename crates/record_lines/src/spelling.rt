//! Lines of a recording that fit a line of fixed size.

ghost use Rattle.std.specs.Prelude.{◌≡◌, ◌≤◌, length};
ghost use Rattle.record_lines.specs.Cells.{cell_words, FitsCell};
ghost use Rattle.record_lines.specs.Grammar.{FitsEntry};
ghost use Rattle.record_lines.specs.inner.Pieces.{by_text};
ghost use Rattle.record_lines.specs.Text.{line, told_words};

use crate::cells::Cell;
use crate::told::Told;
use base::controller::{Change, Side};
use base::text::Text;

/// The line of an entry, with its end.
#[inline(always)]
#[tactic(auto, using(crate::proofs::Words::told_then))]
pub fn told_line(told: Told) -> Text
    ensures text { result ≡ line (told_words told) }
    ensures short { length result ≤ 192 }
    ensures fits { FitsEntry told.entry }
{
    let entry = told.entry;
    let mut text = by_front(told.owner);
    text.push_step(entry.step);
    text.push(b" = ");
    text.push_outcome(entry.outcome);
    text.push(b"\n");
    text
}

/// What stands in front of an entry that has an owner, with a blank behind it.
#[inline(always)]
fn by_front(owner: Option<u32>) -> Text
    ensures text { result ≡ by_text owner }
    ensures short { length result ≤ 24 }
{
    let mut text = Text::new();
    if let Some(seat) = owner {
        text.push(b"by");
        text.push_number(u64::from(seat));
        text.push(b" ");
    }
    text
}

/// The line of a cell, with its end.
pub fn cell_line(cell: &Cell) -> Text
    ensures text { result ≡ line (cell_words cell.now) }
    ensures short { length result ≤ 192 }
    ensures fits { FitsCell cell.now }
{
    let mut text = match *cell {
        Cell::Cache {
            state,
            event,
            entry,
        } => Change {
            state,
            event,
            entry,
        }
        .text(Side::Cache),
        Cell::Directory {
            state,
            event,
            entry,
        } => Change {
            state,
            event,
            entry,
        }
        .text(Side::Directory),
    };
    text.push(b"\n");
    text
}
