use crate::explanation::Explanation;
use crate::rooms::{Counted, tell_room};
use crate::steps::{DueWord, tell_line, tell_wrong, without_return, wrong_in};
use base::{Shape, Step};
use std::alloc::Global;

/// Why a line isn't an ask of a cache and a block of this shape, of at most so many bytes.
pub fn explain_ask(alloc: Global, shape: Shape, most: usize, line: &[u8]) -> Explanation {
    let mut told = Explanation::new(alloc);
    if tell_line(&mut told, most, line) {
        tell_step(&mut told, shape, without_return(line));
    }
    let (caches, blocks) = (shape.caches(), shape.blocks());
    told.line(format_args!(
        "an ask is: ask C B load | ask C B store V | ask C B replace, with C below {caches} and B below {blocks}"
    ));
    told
}

/// Tells why a line isn't an ask of the shape, but for its end.
fn tell_step(told: &mut Explanation, shape: Shape, line: &[u8]) {
    match Step::read(line) {
        None => tell_wrong(told, wrong_in(line, DueWord::Step, true)),
        Some(Step::Ask { cache, block, .. }) => {
            tell_absent(told, shape, Counted::Caches, cache.0);
            tell_absent(told, shape, Counted::Blocks, block.0);
        }
        Some(_) => told.line("it is a delivery, and only asks are due"),
    }
}

fn tell_absent(told: &mut Explanation, shape: Shape, counted: Counted, number: u32) {
    let count = counted.in_shape(shape);
    if number < count {
        return;
    }
    told.line(format_args!(
        "{} {number} isn't there: they are 0 to {}",
        counted.name(),
        count.saturating_sub(1)
    ));
    tell_room(told, counted, u64::from(number), 0);
}
