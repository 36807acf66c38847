use base::{CoreAsk, Shape, Step};
use command_output::{Fault, InputLines, MOST_BYTES};
use std::alloc::Global;
use std::io::Read;

/// The asks that the input is, one a line, for caches and blocks of this shape. Empty lines are left out.
pub fn read_asks<I: Read + Drop>(
    alloc: Global,
    shape: Shape,
    input: I,
) -> Result<Vec<CoreAsk>, Fault> {
    let mut input = InputLines::new(alloc, input)?;
    let mut asks = Vec::new(alloc);
    match add_all(&mut asks, shape, &mut input) {
        Ok(()) => Ok(asks),
        Err(fault) => Err(fault),
    }
}

fn add_all<I: Read + Drop>(
    asks: &mut Vec<CoreAsk>,
    shape: Shape,
    input: &mut InputLines<I>,
) -> Result<(), Fault> {
    for _ in 0..u64::MAX {
        if !input.advance()? {
            break;
        }
        if !input.line().is_empty() {
            let ask = ask_of(input.line(), shape).ok_or(Fault::NotAnAsk(input.number()))?;
            asks.push(ask)?;
        }
        input.pass()?;
    }
    Ok(())
}

fn ask_of(line: &[u8], shape: Shape) -> Option<CoreAsk> {
    if line.len() > MOST_BYTES {
        return None;
    }
    match Step::read(line) {
        Some(Step::Ask { cache, block, ask })
            if cache.0 < shape.caches() && block.0 < shape.blocks() => {
            Some(CoreAsk {
                core: cache,
                block,
                ask,
            })
        }
        _ => None,
    }
}
