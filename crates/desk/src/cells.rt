//! The cells that results are posted in, one for each number, and the notes that a seat keeps of them. A cell is set
//! once, and a note knows what was set or found there; it takes no bytes.

ghost use Rattle.std.specs.Prelude.{◌≡◌, ◌<◌, length, map, replicate, slice_index_or, slice_set, MatchOption, IfOk, Some, None, true, false};
ghost use Rattle.once_cell.specs.Once.{cell_name, Agrees};

use crate::jobs::Planned;
use base::NoMemory;
use once_cell::race::{Note, OnceBox};
use std::alloc::Global;
use std::marker::{Model, PhantomData};
use trials::TrialResult;

/// A result that is its trial's.
#[derive(Drop)]
pub(crate) struct Posted<D: Planned> {
    pub(crate) result: TrialResult,
    pub(crate) of: PhantomData<D>,
}

impl<D: Planned> Model for Posted<D> {
    ghost use Rattle.trials.specs.declared.verdict.TrialResult.{TrialResult};
    ghost use Rattle.desk.specs.Plans.{IsResultOf};

    ghost Value = { TrialResult };

    ghost view = { λ p. p.result };

    ghost invariant = { λ p. IsResultOf D.plan p.result.number p.result };
}

/// A cell, in which a result may stand.
pub(crate) type Cell<D> = OnceBox<Posted<D>>;

/// What a seat knows of a cell.
pub(crate) type CellNote<D> = Note<Posted<D>>;

pub(crate) fn make_cells<D: Planned>(alloc: Global, count: usize) -> Result<Vec<Cell<D>>, NoMemory>
    ensures { IfOk result (λ cells. length cells.items ≡ count) }
{
    let mut cells = Vec::with_capacity(alloc, count)?;
    for _ in 0..count {
        cells.push(OnceBox::new(alloc))?;
    }
    Ok(cells)
}

pub(crate) fn make_notes<D: Planned>(
    alloc: Global,
    cells: &Vec<Cell<D>>,
) -> Result<Vec<CellNote<D>>, NoMemory>
    ensures cells { IfOk result (λ notes. map (λ n. n.cell) notes.items ≡ map cell_name cells.now.items) }
    ensures known { IfOk result (λ notes. map (λ n. n.known) notes.items ≡ replicate (length cells.now.items) None) }
{
    let mut notes = Vec::with_capacity(alloc, cells.len())?;
    for cell in cells {
        notes.push(cell.note())?;
    }
    Ok(notes)
}

/// Sets a cell, and answers whether that was done. Then its note knows the result; else nothing changed.
pub(crate) fn set_at<D: Planned>(
    cells: &Vec<Cell<D>>,
    notes: &mut Vec<CellNote<D>>,
    place: usize,
    posted: Box<Posted<D>>,
) -> bool
    requires same { map (λ n. n.cell) notes.old.items ≡ map cell_name cells.now.items }
    requires within { place < length cells.now.items }
    ensures cells { map (λ n. n.cell) notes.new.items ≡ map (λ n. n.cell) notes.old.items }
    ensures set { result ≡ true → map (λ n. n.known) notes.new.items ≡ slice_set (map (λ n. n.known) notes.old.items) place (Some posted.value) }
    ensures first { result ≡ true → slice_index_or (map (λ n. n.known) notes.old.items) place None ≡ None }
    ensures not_set { result ≡ false → map (λ n. n.known) notes.new.items ≡ map (λ n. n.known) notes.old.items }
{
    let mut note = notes[place].again();
    if cells[place].set_as(posted, &mut note).is_err() {
        return false;
    }
    notes[place] = note;
    true
}

/// What stands in a cell, which its note then knows.
pub(crate) fn get_at<'a, D: Planned>(
    cells: &'a Vec<Cell<D>>,
    notes: &mut Vec<CellNote<D>>,
    place: usize,
) -> Option<&'a Posted<D>>
    requires same { map (λ n. n.cell) notes.old.items ≡ map cell_name cells.now.items }
    requires within { place < length cells.now.items }
    ensures cells { map (λ n. n.cell) notes.new.items ≡ map (λ n. n.cell) notes.old.items }
    ensures value { MatchOption result
        ((slice_index_or (map (λ n. n.known) notes.old.items) place None ≡ None)
        × (map (λ n. n.known) notes.new.items ≡ map (λ n. n.known) notes.old.items))
        (λ r. (map (λ n. n.known) notes.new.items ≡ slice_set (map (λ n. n.known) notes.old.items) place (Some r.now))
        × Agrees (slice_index_or (map (λ n. n.known) notes.old.items) place None) r.now) }
{
    cells[place].get_as(&mut notes[place])
}

/// What stands in a cell. The notes stay as they are.
pub(crate) fn peek_at<'a, D: Planned>(
    cells: &'a Vec<Cell<D>>,
    notes: &mut Vec<CellNote<D>>,
    place: usize,
) -> Option<&'a Posted<D>>
    requires same { map (λ n. n.cell) notes.old.items ≡ map cell_name cells.now.items }
    requires within { place < length cells.now.items }
    ensures notes { (map (λ n. n.cell) notes.new.items ≡ map (λ n. n.cell) notes.old.items)
        × (map (λ n. n.known) notes.new.items ≡ map (λ n. n.known) notes.old.items) }
    ensures value { MatchOption result
        (slice_index_or (map (λ n. n.known) notes.old.items) place None ≡ None)
        (λ r. Agrees (slice_index_or (map (λ n. n.known) notes.old.items) place None) r.now) }
{
    let mut note = notes[place].again();
    cells[place].get_as(&mut note)
}
