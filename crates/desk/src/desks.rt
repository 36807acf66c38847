//! Desks, where numbers are claimed and results are posted.

ghost use Rattle.std.specs.Prelude.{◌≡◌, [], length, map, replicate, IfOk};
ghost use Rattle.once_cell.specs.Once.{cell_name};
ghost use Rattle.desk.specs.inner.Drawing.{fresh};
ghost use Rattle.desk.specs.Plans.{plan_of};
ghost use Rattle.desk.specs.Seats.{new_seat, numbers_of};
ghost use Rattle.desk.specs.Opening.{AreWithinLimits, OpensDesk};

use crate::cells::{Cell, Posted, get_at, make_cells, make_notes, set_at};
use crate::faults::{DeskFault, PostFault};
use crate::jobs::{Job, Planned};
use crate::seats::{DeskSeat, NumberStage, make_stages};
use crate::word::{Size, Token, Word, deal_part, draw_number, new_word};
use base::NoMemory;
use std::alloc::Global;
use std::marker::{Model, PhantomData};
use trials::{MOST_TRIALS, TrialResult};

/// The most seats of a desk.
pub const MOST_SEATS: u32 = 64;

/// Where the trials of a batch are shared out: their numbers are claimed, and their results are posted. No call waits
/// for anybody.
#[derive(Drop)]
pub struct Desk<'j, D: Planned> {
    pub(crate) alloc: Global,
    pub(crate) job: &'j Job,
    pub(crate) seats: u32,
    pub(crate) word: Word,
    pub(crate) cells: Vec<Cell<D>>,
}

impl<'j, D: Planned> Model for Desk<'j, D> {
    ghost use Rattle.std.specs.Prelude.{map, length};
    ghost use Rattle.once_cell.specs.Once.{cell_name};
    ghost use Rattle.desk.specs.Plans.{plan_of};
    ghost use Rattle.desk.specs.Seats.{DeskView};
    ghost use Rattle.desk.specs.inner.Keeping.{IsDesk};

    ghost Value = { DeskView };

    ghost view = { λ d. record { id = record { table = d.word.shared.table_id; cells = map cell_name d.cells.items }; seats = d.seats } };

    ghost invariant = { λ d. IsDesk D.plan (plan_of d.job.now) d.word.shared.table_id d.word.shared.key (length d.cells.items) d.seats };
}

impl<'j, D: Planned> Desk<'j, D> {
    ghost use Rattle.std.specs.Prelude.{◌≡◌, IfOk, IfErr, MatchBool, MatchOption, MatchResult};
    ghost use Rattle.desk.specs.Plans.{IsResultOf, plan_of};
    ghost use Rattle.desk.specs.Seats.{told_no_more};
    ghost use Rattle.desk.specs.Opening.{IsDeskFault, OpensDesk};
    ghost use Rattle.desk.specs.Calls.{CanPost, Claims, FindsResult, FindsNoResult, IsPostFault, Posts};

    /// Makes a desk for the trials of numbers 0 to `n` - 1 of a job, and so many seats, which have claimed nothing.
    /// Room for what a seat claims, posts and finds is made here.
    ///
    /// It is refused `TooMany` exactly where `n` is over 1,000,000, else `NoSeats` exactly where there is no seat,
    /// else `TooManySeats` exactly where there are over 64.
    pub fn new(
        alloc: Global,
        job: &'j Job,
        n: u32,
        seats: u32,
    ) -> Result<(Desk<'j, D>, Vec<DeskSeat<D>>), DeskFault>
        requires { D.plan ≡ plan_of job.now }
        ensures made { IfOk result (λ made. OpensDesk n seats made.0 made.1.items) }
        ensures refused { IfErr result (IsDeskFault n seats) }
    {
        if n > MOST_TRIALS {
            return Err(DeskFault::TooMany);
        }
        if seats == 0 {
            return Err(DeskFault::NoSeats);
        }
        if seats > MOST_SEATS {
            return Err(DeskFault::TooManySeats);
        }
        match open_all(alloc, job, n, seats) {
            Ok(made) => Ok(made),
            Err(_) => Err(DeskFault::NoMemory),
        }
    }

    /// Claims the next number, which no other seat has, by one step on the desk's word. It takes no memory. It is
    /// `None` where there are no more; a seat that was told so touches the word no more.
    pub fn claim(&self, seat: &mut DeskSeat<D>) -> Option<u32>
        requires { seat.old.desk ≡ self.now.id }
        ensures { MatchOption result (seat.new ≡ told_no_more seat.old) (λ number. Claims seat.old number seat.new) }
    {
        if seat.told {
            return None;
        }
        match draw_number(&self.word, &mut seat.token, self.cells.len() as u64) {
            Some(number) => {
                seat.stages[number as usize] = NumberStage::Claimed;
                Some(number as u32)
            }
            None => {
                seat.told = true;
                None
            }
        }
    }

    /// Posts the result of a number that the seat has claimed, for all seats to find. A refused call hands the result
    /// back, and changes nothing.
    ///
    /// It is refused `NotYours` exactly where the seat hasn't claimed the number, and else `Already` exactly where it
    /// has posted it.
    pub fn post(
        &self,
        seat: &mut DeskSeat<D>,
        number: u32,
        made: TrialResult,
    ) -> Result<(), (PostFault, TrialResult)>
        requires seat { seat.old.desk ≡ self.now.id }
        requires made { IsResultOf D.plan number made }
        ensures { MatchResult result (λ _. Posts seat.old number made seat.new)
            (λ refused. IsPostFault seat.old number refused.0 × (refused.1 ≡ made) × (seat.new ≡ seat.old)) }
    {
        if let Some(fault) = seat.refusal(number) {
            return Err((fault, made));
        }
        if !self.put(seat, number, made) {
            return Err((PostFault::NoMemory, made));
        }
        Ok(())
    }

    /// Sets the cell of a number that the seat has claimed, and answers whether that was done. Else nothing has
    /// changed.
    fn put(&self, seat: &mut DeskSeat<D>, number: u32, made: TrialResult) -> bool
        requires made { (seat.old.desk ≡ self.now.id) × IsResultOf D.plan number made }
        requires can { CanPost seat.old number }
        ensures { MatchBool result (Posts seat.old number made seat.new) (seat.new ≡ seat.old) }
    {
        let place = number as usize;
        let posted = Posted {
            result: made,
            of: PhantomData,
        };
        let Ok(posted) = Box::new(self.alloc, posted) else {
            return false;
        };
        if !set_at(&self.cells, &mut seat.notes, place, posted) {
            return false;
        }
        seat.stages[place] = NumberStage::Posted;
        true
    }

    /// The result of the number's trial, where the seat has posted it, has found it before, or finds it now.
    pub fn look(&self, seat: &mut DeskSeat<D>, number: u32) -> Option<TrialResult>
        requires { seat.old.desk ≡ self.now.id }
        ensures { MatchOption result (FindsNoResult seat.old number seat.new)
            (λ found. FindsResult D.plan seat.old number found seat.new) }
    {
        let place = number as usize;
        if place >= seat.notes.len() {
            return None;
        }
        // The number never differs. A cell's type doesn't say of which number its result is, so this comparison does.
        match get_at(&self.cells, &mut seat.notes, place) {
            Some(posted) if posted.result.number == number => Some(posted.result),
            _ => None,
        }
    }
}

/// The desk and its seats, where the numbers are within the limits.
fn open_all<'j, D: Planned>(
    alloc: Global,
    job: &'j Job,
    n: u32,
    seats: u32,
) -> Result<(Desk<'j, D>, Vec<DeskSeat<D>>), NoMemory>
    requires plan { D.plan ≡ plan_of job.now }
    requires within { AreWithinLimits n seats }
    ensures { IfOk result (λ made. OpensDesk n seats made.0 made.1.items) }
{
    let (desk, token) = make_desk(alloc, job, n, seats)?;
    let row = deal_seats(&desk, token)?;
    Ok((desk, row))
}

/// The desk, and a token with a part for each seat.
fn make_desk<'j, D: Planned>(
    alloc: Global,
    job: &'j Job,
    n: u32,
    seats: u32,
) -> Result<(Desk<'j, D>, Token), NoMemory>
    requires plan { D.plan ≡ plan_of job.now }
    requires within { AreWithinLimits n seats }
    ensures desk { IfOk result (λ made. (numbers_of made.0.id ≡ n) × (made.0.seats ≡ seats)) }
    ensures token { IfOk result (λ made. (made.1.table_id ≡ made.0.id.table) × (made.1.me ≡ (fresh seats n, []))) }
{
    let size = Size {
        count: u64::from(n),
        parts: u64::from(seats),
    };
    let (word, token) = new_word(alloc, size)?;
    let cells = make_cells(alloc, n as usize)?;
    let desk = Desk {
        alloc,
        job,
        seats,
        word,
        cells,
    };
    Ok((desk, token))
}

/// A seat for each part of a token that nothing was drawn with.
fn deal_seats<D: Planned>(
    desk: &Desk<'_, D>,
    mut token: Token,
) -> Result<Vec<DeskSeat<D>>, NoMemory>
    requires table { token.table_id ≡ desk.now.id.table }
    requires me { token.me ≡ (fresh desk.now.seats (numbers_of desk.now.id), []) }
    ensures { IfOk result (λ row. row.items ≡ replicate desk.now.seats (new_seat desk.now.id)) }
{
    let mut row = Vec::with_capacity(desk.alloc, desk.seats as usize)?;
    for _ in 0..desk.seats {
        let part = deal_part(&desk.word, &mut token);
        row.push_reserved(make_seat(desk.alloc, part, &desk.cells)?);
    }
    Ok(row)
}

/// A seat that has claimed nothing, with a token that has one part.
fn make_seat<D: Planned>(
    alloc: Global,
    token: Token,
    cells: &Vec<Cell<D>>,
) -> Result<DeskSeat<D>, NoMemory>
    requires { token.me ≡ (fresh 1 (length cells.now.items), []) }
    ensures { IfOk result (λ seat. seat ≡ new_seat (record { table = token.table_id; cells = map cell_name cells.now.items })) }
{
    let stages = make_stages(alloc, cells.len())?;
    let notes = make_notes(alloc, cells)?;
    Ok(DeskSeat {
        token,
        told: false,
        stages,
        notes,
    })
}
