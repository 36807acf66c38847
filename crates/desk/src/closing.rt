//! The end of a desk.

ghost use Rattle.std.specs.Prelude.{◌≡◌, ◌<◌, ◌≤◌, [], ℕ, length, map, replicate, slice_index_or, All, None, Some};
ghost use Rattle.once_cell.specs.Once.{cell_name};
ghost use Rattle.trials.specs.declared.verdict.TrialResult.{TrialResult};
ghost use Rattle.desk.specs.Plans.{IsResultOf};
ghost use Rattle.desk.specs.Seats.{HasPosted, Knows, numbers_of};
ghost use Rattle.desk.specs.Closing.{AreClaimed, Closes};
ghost use Rattle.desk.specs.inner.Keeping.{Collects};

use crate::cells::{Cell, peek_at};
use crate::desks::Desk;
use crate::faults::CloseFault;
use crate::jobs::Planned;
use crate::seats::DeskSeat;
use crate::word::{Token, Word, count_all, merge_token};
use trials::TrialResult;

impl<'j, D: Planned> Desk<'j, D> {
    ghost use Rattle.std.specs.Prelude.{◌≡◌, All, length, IfOk, IfErr};
    ghost use Rattle.desk.specs.Closing.{Closes, IsCloseFault};

    /// Ends the desk, where all its seats are handed in: each posted result at the place of its number, and `None` at
    /// that of a number that no seat has posted. It waits for nobody.
    ///
    /// Where each seat posted what it claimed, and one of them was told that there are no more, every place is filled;
    /// and where every place is filled, the list is that of `batch`.
    ///
    /// It is refused `SeatMissing` exactly where fewer seats are handed in than the desk has. Refused, it hands all
    /// back as it was.
    pub fn close(
        self,
        seats: Vec<DeskSeat<D>>,
    ) -> Result<Vec<Option<TrialResult>>, (CloseFault, Desk<'j, D>, Vec<DeskSeat<D>>)>
        requires { All (λ seat. seat.desk ≡ self.id) seats.items }
        ensures closed { IfOk result (λ places. Closes D.plan self.entry seats.items places.items) }
        ensures refused { IfErr result (λ refused. IsCloseFault self.entry (length seats.items) refused.0
            × (refused.1 ≡ self.entry) × (refused.2.items ≡ seats.items)) }
    {
        if seats.len() < self.seats as usize {
            return Err((CloseFault::SeatMissing, self, seats));
        }
        let Ok(places) = vec![in self.alloc; None; self.cells.len()] else {
            return Err((CloseFault::NoMemory, self, seats));
        };
        Ok(end(self, seats, places))
    }
}

/// Puts what all seats posted into its places.
fn end<'j, D: Planned>(
    desk: Desk<'j, D>,
    mut seats: Vec<DeskSeat<D>>,
    mut places: Vec<Option<TrialResult>>,
) -> Vec<Option<TrialResult>>
    requires seats { All (λ s. s.desk ≡ desk.id) seats.items }
    requires enough { desk.seats ≤ length seats.items }
    requires empty { places.items ≡ replicate (numbers_of desk.id) None }
    ensures { Closes D.plan desk.entry seats.items result.items }
{
    for seat in seats.iter_mut() {
        collect(&desk.cells, seat, &mut places);
    }
    settle(&desk.word, seats);
    places
}

/// Puts what the seat posted into its places.
fn collect<D: Planned>(
    cells: &Vec<Cell<D>>,
    seat: &mut DeskSeat<D>,
    places: &mut Vec<Option<TrialResult>>,
)
    requires same { seat.old.desk.cells ≡ map cell_name cells.now.items }
    requires long { length places.old.items ≡ length cells.now.items }
    ensures seat { seat.new ≡ seat.old }
    ensures long { length places.new.items ≡ length places.old.items }
    ensures places { (k : ℕ) → k < length cells.now.items →
        Collects D.plan seat.old k (slice_index_or places.old.items k None) (slice_index_or places.new.items k None) }
{
    for place in 0..cells.len() {
        if seat.has_posted(place) {
            places[place] = result_at(cells, seat, place);
        }
    }
}

/// The result that the seat posted.
fn result_at<D: Planned>(
    cells: &Vec<Cell<D>>,
    seat: &mut DeskSeat<D>,
    place: usize,
) -> Option<TrialResult>
    requires same { seat.old.desk.cells ≡ map cell_name cells.now.items }
    requires within { place < length cells.now.items }
    requires posted { HasPosted seat.old place }
    ensures seat { seat.new ≡ seat.old }
    ensures found { (r : TrialResult) × (result ≡ Some r) × Knows seat.old place r × IsResultOf D.plan place r }
{
    match peek_at(cells, &mut seat.notes, place) {
        Some(posted) => Some(posted.result),
        None => None,
    }
}

/// All seats' tokens together say which numbers were claimed.
fn settle<D: Planned>(word: &Word, mut seats: Vec<DeskSeat<D>>)
    requires one { word.now.shared.table_id.words ≡ 1 }
    requires these { All (λ s. (s.desk.table ≡ word.now.shared.table_id) × (numbers_of s.desk ≡ word.now.shared.key.count)) seats.items }
    requires enough { (0 < word.now.shared.key.parts) × (word.now.shared.key.parts ≤ length seats.items) }
    ensures { AreClaimed word.now.shared.key.count seats.items }
{
    let Some(seat) = seats.pop() else {
        return;
    };
    let mut token = into_token(seat);
    while let Some(seat) = seats.pop() {
        let other = into_token(seat);
        merge_token(word, &mut token, other);
    }
    count_all(word, &mut token);
}

fn into_token<D: Planned>(seat: DeskSeat<D>) -> Token
    ensures table { result.table_id ≡ seat.desk.table }
    ensures me { result.me ≡ (record { parts = 1; count = numbers_of seat.desk; drawn = seat.claimed; over = seat.told }, []) }
{
    let DeskSeat {
        token,
        told: _,
        stages: _,
        notes: _,
    } = seat;
    token
}
