//! Lines of an input as what reads recordings gathers them, beside those that the standard library reads: over each input both are
//! the same, up to its first fault.

use crate::asserting::holds;
use crate::plain_lines;
use command_output::{Fault, InputLines, Printer};
use std::alloc::Global;
use std::io;
use std::io::{Read, Write};
use std::process::Abort;

/// How long lines are: many of them about the most bytes that one may have, or about twice as long.
const LENGTHS: [usize; 12] = [0, 1, 5, 40, 198, 199, 200, 201, 202, 401, 402, 403];

/// How many bytes a read brings at most.
const PIECES: [usize; 8] = [1, 7, 199, 200, 201, 4096, 8192, 20000];

/// An input that brings so many bytes at a time, and fails once in front of the rest where there is a fault.
#[derive(Drop)]
struct Pieces<'a> {
    front: &'a [u8],
    rest: &'a [u8],
    most: usize,
    is_to_fail: bool,
}

impl<'a> Read for Pieces<'a> {
    fn read(&mut self, buffer: &mut [u8]) -> io::Result<usize> {
        if self.front.is_empty() && self.is_to_fail {
            self.is_to_fail = false;
            self.front = self.rest;
            return Err(io::Error::from(io::ErrorKind::BrokenPipe));
        }
        let count = buffer.len().min(self.most).min(self.front.len());
        let (now, later) = self.front.split_at(count);
        buffer[..count].copy_from_slice(now);
        self.front = later;
        Ok(count)
    }
}

/// An input of these bytes, that fails once behind so many of them.
fn pieces_of(text: &[u8], most: usize, fault: Option<usize>) -> Pieces<'_> {
    let (front, rest) = text.split_at(fault.unwrap_or(text.len()).min(text.len()));
    Pieces {
        front,
        rest,
        most,
        is_to_fail: fault.is_some(),
    }
}

fn push_line(rt: &impl Abort, text: &mut Vec<u8>, length: usize) {
    for at in 0..length {
        text.push(b'a' + (at % 26) as u8).expect(rt, "memory");
    }
    text.push(b'\n').expect(rt, "memory");
}

/// Seventy lines of lengths that follow from a number, more bytes than are read ahead at once.
fn text_of(rt: &impl Abort, alloc: Global, number: u32) -> Vec<u8> {
    let mut text = Vec::new(alloc);
    let mut word = number;
    for _ in 0..70 {
        word = word.wrapping_mul(1664525).wrapping_add(1013904223);
        push_line(rt, &mut text, LENGTHS[(word >> 16) as usize % 12]);
    }
    text
}

/// Whether a line was read, or `None` where a device failed.
fn came_of(rt: &impl Abort, read: Result<bool, Fault>) -> Option<bool> {
    match read {
        Ok(is_line) => Some(is_line),
        Err(fault) => {
            holds(rt, "a fault", matches!(fault, Fault::Device));
            None
        }
    }
}

/// Reads the next line by both, passes it, and answers whether there was one.
fn advance<'a>(
    rt: &impl Abort,
    input: &mut InputLines<Pieces<'a>>,
    plain: &mut plain_lines::Lines<Pieces<'a>>,
) -> bool {
    let told = plain.advance().ok();
    let found = came_of(rt, input.advance());
    holds(rt, "whether there is a line", found == told);
    if told != Some(true) {
        return false;
    }
    holds(rt, "its number", input.number() == plain.number());
    holds(rt, "its bytes", input.line() == plain.line());
    let is_whole = plain.skip_rest().is_ok();
    holds(rt, "its rest", input.pass().is_ok() == is_whole);
    is_whole
}

/// Reads an input by both, line by line, up to its end or its first fault.
fn compare(rt: &impl Abort, alloc: Global, text: &[u8], most: usize, fault: Option<usize>) {
    let input = pieces_of(text, most, fault);
    let mut plain = plain_lines::Lines::new(alloc, input).expect(rt, "memory");
    let again = pieces_of(text, most, fault);
    let mut input = InputLines::new(alloc, again).expect(rt, "memory");
    for _ in 0..=text.len() {
        if !advance(rt, &mut input, &mut plain) {
            break;
        }
    }
}

/// The lines of a text, with its last LF, without it, and without it and with a fault behind it.
fn compare_ends(rt: &impl Abort, alloc: Global, whole: &[u8]) {
    let open = &whole[..whole.len().saturating_sub(1)];
    for most in &PIECES {
        compare(rt, alloc, whole, *most, None);
        compare(rt, alloc, open, *most, None);
        compare(rt, alloc, open, *most, Some(open.len()));
    }
}

#[test]
fn lines_read_ahead_are_lines(rt: HostRuntime) {
    for number in 0..12 {
        let text = text_of(&rt, rt.alloc(), number);
        compare_ends(&rt, rt.alloc(), text.as_slice());
    }
}

/// Right behind the LF of a line, in a line, and right behind an LF at the end.
#[test]
fn lines_end_at_a_fault(rt: HostRuntime) {
    let text = b"ask 0 0 load\nrequest 0 0\n";
    for most in [1, 7, 4096] {
        for fault in 0..=text.len() {
            compare(&rt, rt.alloc(), text, most, Some(fault));
        }
        compare(&rt, rt.alloc(), b"", most, None);
        compare(&rt, rt.alloc(), b"", most, Some(0));
    }
}

/// An output that fails at once.
#[derive(Drop)]
struct Broken;

impl Write for Broken {
    fn write(&mut self, _bytes: &[u8]) -> io::Result<usize> {
        Err(io::Error::from(io::ErrorKind::BrokenPipe))
    }

    fn flush(&mut self) -> io::Result<()> {
        Ok(())
    }
}

/// Whether what was printed is put out before the next line, if there is one. This leads to a fault, and then there is none.
fn waits_for_next(rt: &impl Abort, alloc: Global, input: &mut InputLines<Pieces<'_>>) -> bool {
    let mut printer = Printer::new(alloc, Broken).expect(rt, "memory");
    printer.line("sent");
    let is_line = matches!(input.advance_behind(&mut printer), Ok(true));
    let waits = printer.has_failed();
    holds(rt, "no line behind a fault", !(waits && is_line));
    waits
}

/// Compares whether the rest of the line behind the first one may have to be waited for, where so many bytes of both are there.
fn waits(rt: &impl Abort, alloc: Global, text: &[u8], there: usize, wanted: bool) {
    let pieces = pieces_of(&text[..there.min(text.len())], 8192, None);
    let mut input = InputLines::new(alloc, pieces).expect(rt, "memory");
    let starts = waits_for_next(rt, alloc, &mut input);
    holds(rt, "the start", starts);
    let is_read = matches!(input.advance(), Ok(true));
    holds(rt, "the first line", is_read && input.pass().is_ok());
    let found = waits_for_next(rt, alloc, &mut input);
    holds(rt, "the second line", found == wanted);
}

#[test]
fn a_part_of_a_line_may_have_to_be_waited_for(rt: HostRuntime) {
    let text = b"ask 0 0 load\nrequest 0 0\nresponse 0 0\n";
    // (the first line has 13 bytes with its LF, and the second one 12)
    for there in 13..=text.len() {
        waits(&rt, rt.alloc(), text, there, there < 25);
    }
}

/// A line that is too long is known to be so by its first 201 bytes.
#[test]
fn a_line_that_is_too_long_is_not_waited_for(rt: HostRuntime) {
    let mut text = Vec::new(rt.alloc());
    push_line(&rt, &mut text, 0);
    push_line(&rt, &mut text, 300);
    waits(&rt, rt.alloc(), text.as_slice(), 201, true);
    waits(&rt, rt.alloc(), text.as_slice(), 202, false);
}
