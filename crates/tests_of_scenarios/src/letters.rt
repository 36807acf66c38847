//! Scenarios of a load, a store and a replacement, and what is offered and taken of them as letters.

use crate::asserting::same;
use base::{Ask, BlockId, CacheId, CoreAsk, NoMemory, Shape};
use scenario::{Rest, Scenario, ScenarioFault};
use std::alloc::Global;
use std::process::Abort;

/// What is offered, whether the scenario may end, which offer is then taken, and which ask that is.
pub type Moment<'m> = (&'m str, bool, usize, Option<char>);

/// The letters of the asks that have one.
const LETTERS: [(CoreAsk, char); 3] = [
    (
        CoreAsk {
            core: CacheId(0),
            block: BlockId(0),
            ask: Ask::Load,
        },
        'L',
    ),
    (
        CoreAsk {
            core: CacheId(0),
            block: BlockId(0),
            ask: Ask::Store(5),
        },
        'S',
    ),
    (
        CoreAsk {
            core: CacheId(1),
            block: BlockId(0),
            ask: Ask::Replace,
        },
        'R',
    ),
];

/// An ask as a letter.
fn letter(ask: CoreAsk) -> Option<char> {
    for (known, letter) in &LETTERS {
        if *known == ask {
            return Some(*letter);
        }
    }
    None
}

pub fn letter_of(ask: Option<CoreAsk>) -> Option<char> {
    match ask {
        Some(ask) => letter(ask),
        None => None,
    }
}

/// The numbers are of two caches and one block.
pub fn try_read(
    rt: &impl Abort,
    alloc: Global,
    text: &str,
) -> Result<Scenario<Global>, ScenarioFault> {
    let shape = Shape::new(2, 1).expect(rt, "a shape");
    Scenario::read(alloc, alloc, text.as_bytes(), shape)
}

pub fn read(rt: &impl Abort, alloc: Global, text: &str) -> Scenario<Global> {
    try_read(rt, alloc, text).expect(rt, "a scenario")
}

/// The letters of a list of offers: each stands at its place, and there are no more than are counted.
fn letters_of<R: Rest>(
    rt: &impl Abort,
    heap: Global,
    rest: &R,
    asks: &[CoreAsk],
) -> Result<String, NoMemory> {
    same(rt, &rest.offer_count(), &asks.len());
    same(rt, &rest.offer_at(asks.len()), &None);
    let mut letters = String::new(heap);
    for (at, ask) in asks.iter().enumerate() {
        same(rt, &rest.offer_at(at), &Some(*ask));
        letters.push(letter(*ask).unwrap_or('?'))?;
    }
    Ok(letters)
}

/// The offers as letters.
pub fn offered<R: Rest>(rt: &impl Abort, heap: Global, rest: &R) -> Result<String, NoMemory> {
    let mut asks = Vec::new(heap);
    rest.offers(&mut asks)?;
    letters_of(rt, heap, rest, asks.as_slice())
}
