ghost use Rattle.std.specs.Prelude.{◌≡◌, ◌≤◌, ◌<◌, ◌+◌, ◌-◌, ◌^◌, ◌++◌, [], drop, slice_index_or, length, take, IfOk, MatchOption, MatchResult};
ghost use Rattle.std.specs.Vec.{vec_capacity};
ghost use Rattle.base.specs.Ends.{MarksFault};
ghost use Rattle.record_lines.specs.Refused.{HasNoEnd, IsTooLong};
ghost use Rattle.record_lines.specs.Reading.{AreSomeIf, BeginsWithEnd, Gathers, HasFrontIf, IsEntryTakenOff, IsPassedIf, IsStepTakenOff, IsTakenOff, IsWholeIf};
ghost use Rattle.record_lines.specs.Reading.{Pulls, PullsNone, pending};

use crate::entry::Entry;
use crate::fault::ReadKind;
use crate::parsing::entry_ahead;
use base::{Failed, NoMemory, Source, Step};
use memchr::memchr;
use std::alloc::Global;
use std::marker::Model;

/// The most bytes of a line in any version, without its end.
const MOST_BYTES: usize = 1_400_000;

/// The most bytes of a pull.
pub const MOST_PULLED: usize = 4096;

/// The lines of a source, one after the other. It holds one of them, and the bytes of one pull.
#[derive(Drop)]
pub struct Lines {
    buffer: [u8; MOST_PULLED],
    at: usize,
    end: usize,
    /// How many bytes in front of `at` are the line, where it lies whole in the buffer.
    held: usize,
    /// The line, where it doesn't.
    line: Vec<u8>,
    number: u64,
}

impl Model for Lines {
    ghost use Rattle.std.specs.Prelude.{◌≤◌, ◌-◌, ◌++◌, take, drop, length};
    ghost use Rattle.std.specs.Vec.{vec_capacity};
    ghost use Rattle.record_lines.specs.Refused.{HasNoEnd};
    ghost use Rattle.record_lines.specs.Reading.{Gathered, AreGathered};

    ghost Value = { Gathered };

    ghost view = { λ s. record {
      line = s.line.items ++ take s.held (drop (s.at - s.held) s.buffer);
      ahead = take (s.end - s.at) (drop s.at s.buffer);
      number = s.number;
    } };

    ghost invariant = { λ s. AreGathered s.at s.end s.held s.line.items (take s.held (drop (s.at - s.held) s.buffer)) (vec_capacity s.line) };
}

impl Lines {
    /// No line yet, and room for one.
    pub fn open(alloc: Global) -> Result<Lines, NoMemory>
        ensures { IfOk result (λ lines. lines ≡ record { line = []; ahead = []; number = 0 }) }
    {
        let line = Vec::with_capacity(alloc, MOST_BYTES)?;
        Ok(Lines {
            buffer: [0; MOST_PULLED],
            at: 0,
            end: 0,
            held: 0,
            line,
            number: 0,
        })
    }

    /// What has been gathered of the line.
    pub fn line(&self) -> &[u8]
        ensures { result.now ≡ self.now.line }
    {
        if self.held == 0 {
            return self.line.as_slice();
        }
        &self.buffer[self.at - self.held..self.at]
    }

    /// How many lines were taken off.
    pub fn number(&self) -> u64
        ensures { result ≡ self.now.number }
    {
        self.number
    }

    /// Whether bytes were pulled that don't belong to the line yet.
    pub fn are_bytes_ahead(&self) -> bool
        ensures { AreSomeIf result self.now.ahead }
    {
        !self.buffer[self.at..self.end].is_empty()
    }

    /// Gathers the line as far as its bytes were pulled, and answers whether it is whole.
    ///
    /// It is refused `OverLimit` where the line has more than so many bytes.
    pub fn gather(&mut self, most: usize) -> Result<bool, ReadKind>
        requires { (length self.old.line ≤ most) × (most ≤ 1400000) }
        ensures gathers { Gathers most self.old self.new }
        ensures whole { MatchResult result (λ whole. IsWholeIf whole self.new.ahead)
            (λ kind. (kind ≡ ReadKind.OverLimit) × IsTooLong most (pending self.new)) }
    {
        let count = self.bytes_of_line();
        if count > most - (self.line.len() + self.held) {
            return Err(ReadKind::OverLimit);
        }
        self.add(count);
        Ok(self.are_bytes_ahead())
    }

    /// Gathers the line as far as its bytes were pulled, but no more than so many of them, and answers whether its front is
    /// there: its end is next, or it has as many bytes.
    pub fn gather_front(&mut self, most: usize) -> bool
        requires { most ≤ 1400000 }
        ensures gathers { Gathers most self.old self.new }
        ensures front { HasFrontIf result most self.new }
    {
        let left = most.saturating_sub(self.line.len() + self.held);
        let count = self.bytes_of_line().min(left);
        self.add(count);
        self.are_bytes_ahead() || self.line().len() >= most
    }

    /// Adds so many of the bytes ahead to the line.
    #[inline(always)]
    fn add(&mut self, count: usize)
        requires few { count ≤ length self.old.ahead }
        requires open { HasNoEnd (take count self.old.ahead) }
        requires short { length self.old.line + count ≤ 1400000 }
        ensures line { self.new.line ≡ self.old.line ++ take count self.old.ahead }
        ensures ahead { self.new.ahead ≡ drop count self.old.ahead }
        ensures number { self.new.number ≡ self.old.number }
    {
        self.at += count;
        self.held += count;
        if self.line.is_empty() && self.at < self.end {
            return;
        }
        append(
            &mut self.line,
            &mut self.buffer,
            self.at - self.held,
            self.at,
        );
        self.held = 0;
    }

    /// How many of the bytes ahead stand in front of the first end of a line.
    fn bytes_of_line(&self) -> usize
        ensures within { result ≤ length self.now.ahead }
        ensures open { HasNoEnd (take result self.now.ahead) }
        ensures end { result < length self.now.ahead → slice_index_or self.now.ahead result 0 ≡ 10 }
    {
        let ahead = &self.buffer[self.at..self.end];
        memchr(b'\n', ahead).unwrap_or(ahead.len())
    }

    /// Pulls the next bytes, where none are ahead, and answers whether there were any.
    pub fn pull<S: Source>(&mut self, source: &mut S) -> Result<bool, Failed>
        requires { self.old.ahead ≡ [] }
        ensures pull { MatchResult result (Pulls (S.left source.old) (S.left source.new) self.old self.new)
            (λ _. PullsNone (S.left source.old) (S.left source.new) self.old self.new) }
        ensures mark { MarksFault (S.has_failed source.old) result (S.has_failed source.new) }
    {
        self.at = 0;
        self.end = 0;
        self.end = source.pull(&mut self.buffer)?;
        Ok(self.end > 0)
    }

    /// Takes off the next line where no part of it was gathered, all of it was pulled and it is found to be an entry's.
    #[inline(always)]
    pub fn take_entry(&mut self) -> Option<Entry>
        requires { self.old.number < 2 ^ 60 }
        ensures { MatchOption result (self.new ≡ self.old) (λ entry. IsEntryTakenOff entry self.old self.new) }
    {
        if self.held > 0 || !self.line.is_empty() {
            return None;
        }
        let (entry, rest) = entry_ahead(&self.buffer[self.at..self.end])?;
        self.at = self.end - rest.len();
        self.number += 1;
        Some(entry)
    }

    /// Takes off the next line where no part of it was gathered, all of it was pulled and it is found to be a step's.
    #[inline(always)]
    pub fn take_step(&mut self) -> Option<Step>
        ensures { MatchOption result (self.new ≡ self.old) (λ step. IsStepTakenOff step self.old self.new) }
    {
        if !self.line.is_empty() || self.held > 0 {
            return None;
        }
        let (step, rest) = Step::read_ahead::<b'\n'>(&self.buffer[self.at..self.end])?;
        self.at = self.end - rest.len();
        self.number = self.number.saturating_add(1);
        Some(step)
    }

    /// Passes the line as far as its bytes were pulled, and answers whether its end was among them.
    pub fn pass(&mut self) -> bool
        ensures { IsPassedIf result self.old self.new }
    {
        let end = self.at + self.bytes_of_line();
        self.line.clear();
        self.held = 0;
        if end == self.end {
            self.at = end;
            return false;
        }
        self.at = end + 1;
        self.number = self.number.saturating_add(1);
        true
    }

    /// Takes off the line, which is whole.
    pub fn take_off(&mut self)
        requires whole { BeginsWithEnd self.old.ahead }
        requires few { self.old.number < 2 ^ 60 }
        ensures { IsTakenOff self.old self.new }
    {
        self.line.clear();
        self.held = 0;
        self.at += 1;
        self.number += 1;
    }
}

/// Adds a part of a buffer to a line that has room for it. The buffer is lent as `&mut` because its owner is.
fn append(line: &mut Vec<u8>, buffer: &mut [u8; MOST_PULLED], from: usize, to: usize)
    requires part { (from ≤ to) × (to ≤ 4096) }
    requires room { length line.old.items + (to - from) ≤ vec_capacity line.old }
    ensures line { line.new.items ≡ line.old.items ++ take (to - from) (drop from buffer.old) }
    ensures room { vec_capacity line.old ≤ vec_capacity line.new }
    ensures buffer { buffer.new ≡ buffer.old }
{
    line.extend_from_slice(&buffer[from..to]).unwrap();
}
