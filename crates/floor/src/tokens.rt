//! What ties the seats to the recording under the lock: a word that never changes, and a token in the hall and in each seat. All of
//! it is there for the proofs alone.

ghost use Rattle.floor.specs.inner.Tokens.{AddsEntry, AreTied, HasDealt, IsDealer, IsNewlyDealt, IsSameToken, TellsHistory};

use atomic_table::{Join, Play, Seat as TableSeat, Split, Table, TableRule};
use record::Entry;
use std::alloc::Global;
use std::collections::LinkedList;
use std::mem;

/// What a token knows. No value of it is made.
pub struct TokenView {
    pub keeps: bool,
    pub entries: LinkedList<Entry>,
    pub owners: LinkedList<u32>,
    pub next: u32,
    pub sits: bool,
    pub number: u32,
    pub made: LinkedList<(u64, Entry)>,
}

/// The rule of the word: to each token fits what the hall's knows of the recording.
pub struct Counted;

impl TableRule<Entry, TokenView, ()> for Counted {
    ghost use Rattle.std.specs.Prelude.{[]};
    ghost use Rattle.floor.specs.inner.Tokens.{Fitting, keeper};

    ghost holds = { λ _. Fitting };

    ghost first = { λ _. keeper [] [] 0 };
}

/// An entry is added for a seat: the hall's token, which the seat's has joined, has it in both lists.
pub struct Add;

impl Play<Entry, TokenView> for Add {
    ghost use Rattle.floor.specs.inner.Tokens.{Adds};

    ghost then = { Adds };
}

/// A seat's receipts are compared with the recording: nothing changes.
pub struct Compare;

impl Play<Entry, TokenView> for Compare {
    ghost use Rattle.floor.specs.inner.Tokens.{Compares};

    ghost then = { Compares };
}

/// A token for a new seat splits off the hall's.
pub struct Deal;

impl Split<TokenView> for Deal {
    ghost use Rattle.floor.specs.inner.Tokens.{dealt, newcomer};

    ghost left = { dealt };

    ghost right = { newcomer };
}

/// A seat's token splits off the hall's again, after a turn.
pub struct Stand;

impl Split<TokenView> for Stand {
    ghost use Rattle.floor.specs.inner.Tokens.{stood, risen};

    ghost left = { stood };

    ghost right = { risen };
}

/// A token that knows nothing splits off, to stand where a seat's token was taken from.
pub struct Spare;

impl Split<TokenView> for Spare {
    ghost use Rattle.floor.specs.inner.Tokens.{idle};

    ghost left = { λ v. v };

    ghost right = { λ _. idle };
}

/// A seat's token joins the hall's, for a turn.
pub struct Sit;

impl Join<TokenView> for Sit {
    ghost use Rattle.floor.specs.inner.Tokens.{seated, idle};

    ghost both = { seated };

    ghost spent = { idle };
}

pub type Log = Table<Entry, TokenView, (), Counted, Global>;

pub type Token = TableSeat<Entry, TokenView>;

/// A token for the next seat of an empty recording.
pub fn deal_seat(log: &Log, hall: &mut Token) -> Token
    requires { IsDealer log.now.shared.table_id hall.old }
    ensures hall { HasDealt hall.old hall.new }
    ensures seat { IsNewlyDealt hall.old result }
{
    log.shared.split_seat::<Deal>(hall)
}

/// Adds an entry of the seat to the recording, of which it had what it owns.
pub fn add_entry(log: &Log, hall: &mut Token, seat: &mut Token, entry: &Entry)
    requires { AreTied log.now.shared.table_id hall.old seat.old }
    ensures history { TellsHistory hall.old seat.old }
    ensures added { AddsEntry hall.old seat.old entry.now hall.new seat.new }
{
    let spare = log.shared.split_seat::<Spare>(hall);
    let token = mem::replace(seat, spare);
    log.shared.join_seat::<Sit>(hall, token);
    log.shared
        .compare_exchange_with::<Add>(hall, 0, 0, 0, entry);
    let token = log.shared.split_seat::<Stand>(hall);
    *seat = token;
}

/// What the seat has is what it owns of the recording.
pub fn compare_seat(log: &Log, hall: &mut Token, seat: &mut Token)
    requires { AreTied log.now.shared.table_id hall.old seat.old }
    ensures history { TellsHistory hall.old seat.old }
    ensures same { IsSameToken hall.old hall.new × IsSameToken seat.old seat.new }
{
    let spare = log.shared.split_seat::<Spare>(hall);
    let token = mem::replace(seat, spare);
    log.shared.join_seat::<Sit>(hall, token);
    log.shared.load::<Compare>(hall, 0);
    let token = log.shared.split_seat::<Stand>(hall);
    *seat = token;
}
