ghost use Rattle.std.specs.Prelude.{◌≡◌, ◌≢◌, ◌≤◌, ◌<◌, ◌+◌, ◌↔◌, [], ℕ};
ghost use Rattle.std.specs.Prelude.{List, Option, IfOk, IfErr, OnOk, OnErr, IsTrue, true};
ghost use Rattle.std.specs.Io.KnownBytes.{IsAtEnd};
ghost use Rattle.base.specs.Words.{words};
ghost use Rattle.record_lines.specs.declared.due.Due.TheVariants as due;
ghost use Rattle.record_lines.specs.Refused.{IsFaultOfLine, IsFaultOfRest, IsRefused, IsWellFormed};
ghost use Rattle.record.specs.Telling.{IsReadyToTake};
ghost use Rattle.record.specs.inner.Drafts.{Kept, recorded, lines_left, HasRead, HasTakenLine};
ghost use Rattle.record.specs.inner.Holding.{holds};
ghost use Rattle.record.specs.inner.Readers.{HasPulled, HasReadSome, HasWholeLine, IsReading, IsReadWhole, IsReady, StillReads};
ghost use Rattle.record_lines.specs.Reading.{pending, IsTakenOff};

use crate::draft::Draft;
use crate::entries::{Entries, KeptEntries};
use crate::recording::Recording;
use base::{NoMemory, Source};
use record_lines::{Due, Lines, MOST_PULLED, ReadKind, Told};
use std::alloc::Global;

/// A recording that is being read, line by line.
///
/// All room that the bytes of a pull could need is made before it. So no line that is whole is refused for want of memory.
#[derive(Drop)]
pub(crate) struct Reader<N> {
    lines: Lines,
    due: Due,
    draft: Draft,
    entries: N,
}

impl<N: Entries> Reader<N> {
    /// A reader that has read nothing, whose entries these will take. There is room for a line, and for the opening values.
    pub(crate) fn open(alloc: Global, entries: N) -> Result<Reader<N>, NoMemory>
        requires { IsReadyToTake N.tells N.has_room entries }
        ensures reading { IfOk result (λ reader. (left : Option (List ℕ)) → IsReading N.tells left left reader) }
        ensures ready { IfOk result (IsReady N.has_room) }
    {
        Ok(Reader {
            lines: Lines::open(alloc)?,
            due: Due::Header,
            draft: Draft::open(alloc)?,
            entries,
        })
    }

    /// How many lines were taken.
    pub(crate) fn number(&self) -> u64
        ensures { result ≡ self.now.lines.number }
    {
        self.lines.number()
    }

    /// Whether all was read.
    fn is_done(&self) -> bool
        ensures { IsTrue result ↔ (self.now.due ≡ due.Nothing) }
    {
        matches!(self.due, Due::Nothing)
    }

    /// Reads all lines, from the first to the last, behind which nothing is left.
    pub(crate) fn read_all<S: Source>(&mut self, source: &mut S) -> Result<(), ReadKind>
        requires reading { IsReading N.tells (S.left source.old) (S.left source.old) self.old }
        requires ready { IsReady N.has_room self.old }
        ensures text { OnOk result (IsReadWhole N.tells (S.left source.old) (S.left source.new) self.new) }
        ensures whole { OnOk result (IsWellFormed (S.left source.old) (S.left source.new)) }
        ensures fault { IfErr result (IsRefused (S.left source.old) (S.left source.new) 0 due.Header (self.new.lines.number + 1)) }
        ensures device { IfErr result (λ kind. kind ≡ ReadKind.Device → S.has_failed source.new ≡ true) }
        ensures few { self.new.lines.number ≤ 1000194 }
    {
        while !self.is_done() {
            self.accept_entries();
            self.gather(source)?;
            self.accept()?;
        }
        self.end(source)
    }

    /// Takes the entries that are due, as far as they have no owners, were pulled and are found at once.
    fn accept_entries(&mut self)
        requires ready { IsReady N.has_room self.old }
        requires read { HasReadSome N.tells self.old }
        ensures reads { StillReads N.tells self.old self.new }
        ensures ready { IsReady N.has_room self.new }
        ensures fewer { lines_left self.new.due ≤ lines_left self.old.due }
        ensures more { self.old.due ≢ due.Nothing → self.new.due ≢ due.Nothing }
    {
        let Due::EntryLine(form, mut left) = self.due else {
            return;
        };
        if form.seats > 0 {
            return;
        }
        // What is due is noted once, behind the last of them.
        while left > 0 {
            let Some(entry) = self.lines.take_entry() else {
                break;
            };
            self.entries.add(Told { owner: None, entry });
            left -= 1;
        }
        self.due = Due::entries(form, left);
    }

    /// Gathers the line that is due.
    fn gather<S: Source>(&mut self, source: &mut S) -> Result<(), ReadKind>
        requires ready { IsReady N.has_room self.old }
        requires more { self.old.due ≢ due.Nothing }
        ensures ok { OnOk result (HasWholeLine self.new) }
        ensures err { IfErr result (IsFaultOfRest self.old.due (pending self.new.lines) (S.left source.new)) }
        ensures pulled { HasPulled N.tells (S.left source.old) (S.left source.new) self.old self.new }
        ensures ready { OnOk result (IsReady N.has_room self.new) }
        ensures device { IfErr result (λ kind. kind ≡ ReadKind.Device → S.has_failed source.new ≡ true) }
    {
        while !self.lines.gather(self.due.limit())? {
            self.entries.reserve(MOST_PULLED)?;
            if !self.lines.pull(source)? {
                return Err(ReadKind::Truncated);
            }
        }
        Ok(())
    }

    /// Takes the line that was gathered.
    fn accept(&mut self) -> Result<(), ReadKind>
        requires ready { IsReady N.has_room self.old }
        requires line { HasWholeLine self.old }
        requires read { (r : Kept) × HasRead N.tells self.old.due self.old.draft self.old.entries r }
        ensures ok { (r : Kept) → HasRead N.tells self.old.due self.old.draft self.old.entries r →
            OnOk result (HasTakenLine N.tells self.old.due r (words self.old.lines.line) self.new.due self.new.draft self.new.entries) }
        ensures err { IfErr result (IsFaultOfLine self.old.due (words self.old.lines.line)) }
        ensures ready { OnOk result (IsReady N.has_room self.new) }
        ensures off { OnOk result (IsTakenOff self.old.lines self.new.lines) }
        ensures lines { OnErr result (self.new.lines ≡ self.old.lines) }
    {
        self.due = self
            .draft
            .accept(self.due, self.lines.line(), &mut self.entries)?;
        self.lines.take_off();
        Ok(())
    }

    /// Sees that nothing is left behind the last line.
    fn end<S: Source>(&mut self, source: &mut S) -> Result<(), ReadKind>
        requires ready { IsReady N.has_room self.old }
        requires done { self.old.due ≡ due.Nothing }
        ensures ok { OnOk result (IsAtEnd (S.left source.new) × (pending self.new.lines ≡ [])) }
        ensures err { IfErr result (IsFaultOfRest due.Nothing (pending self.new.lines) (S.left source.new)) }
        ensures pulled { HasPulled N.tells (S.left source.old) (S.left source.new) self.old self.new }
        ensures device { IfErr result (λ kind. kind ≡ ReadKind.Device → S.has_failed source.new ≡ true) }
    {
        if self.lines.are_bytes_ahead() {
            return Err(ReadKind::BadLine);
        }
        if self.lines.pull(source)? {
            return Err(ReadKind::BadLine);
        }
        Ok(())
    }

    /// What has taken the entries.
    pub(crate) fn entries(self) -> N
        ensures { result ≡ self.entries }
    {
        self.entries
    }
}

impl Reader<KeptEntries> {
    /// The recording, of which all was read.
    pub(crate) fn recording(self) -> Recording
        requires read { (r : Kept) × HasRead holds due.Nothing self.draft self.entries r }
        ensures recording { (r : Kept) → HasRead holds due.Nothing self.draft self.entries r → result ≡ recorded r }
    {
        self.draft.recording(self.entries)
    }
}
