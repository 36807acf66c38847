use base::{CoreAsk, Outcome, Step};
use floor::{Chooser, Gate, Naming, Receipt, Wish};
use schedule::Dice;
use std::alloc::{AllocError, Global};

/// How many words the dice draw.
const WORDS: u64 = 1 << 32;

/// Plays at a seat: puts asks in turn, or draws deliveries, as dice choose.
#[derive(Drop)]
pub struct Player {
    asks: Vec<CoreAsk>,
    used: usize,
    asking: bool,
    calls: u32,
    dice: Dice,
}

impl Player {
    /// The player of a seat among so many, which has those of the asks that are of its caches, and makes so many calls.
    pub fn new(
        alloc: Global,
        asks: &[CoreAsk],
        seats: u32,
        seat: u32,
        seed: u64,
        calls: u32,
    ) -> Result<Player, AllocError> {
        let mut own = Vec::new(alloc);
        for ask in asks {
            if ask.core.0.checked_rem(seats) == Some(seat) {
                own.push(*ask)?;
            }
        }
        Ok(Player {
            asks: own,
            used: 0,
            asking: false,
            calls,
            dice: Dice::new(seed, u64::from(seat)),
        })
    }

    /// An ask stays first in line where it was held.
    fn note(&mut self, outcome: Outcome) {
        if self.asking && outcome != Outcome::Held {
            self.used = self.used.saturating_add(1);
        }
    }
}

impl<F: Naming> Chooser<F> for Player {
    fn next(&mut self, last: Option<&Receipt<F>>) -> Option<Wish> {
        if let Some(receipt) = last {
            self.note(receipt.entry().outcome);
        }
        self.calls = self.calls.checked_sub(1)?;
        let word = self.dice.pick(WORDS);
        self.asking = false;
        if word % 2 == 1 {
            return Some(Wish::Any(word / 2));
        }
        match self.asks.get(self.used) {
            None => Some(Wish::Any(word / 2)),
            Some(ask) => {
                self.asking = true;
                Some(Wish::Step(Step::Ask {
                    cache: ask.core,
                    block: ask.block,
                    ask: ask.ask,
                }))
            }
        }
    }
}

/// A gate that lets everybody through.
#[derive(Drop)]
pub struct Open;

impl Gate for Open {
    fn pass(&self, _seat: u32, _call: u32) {}

    fn done(&self, _seat: u32, _call: u32) {}
}
