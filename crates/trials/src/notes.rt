//! What is kept of the steps of a trial on its way.

use base::NoMemory;
use record::{Entry, Recording};

/// Notes of the steps that a trial has made. They may keep less of them than the recording of which they tell.
pub(crate) trait Notes: Drop {
    ghost use Rattle.std.specs.Prelude.{◌≡◌, ◌<◌, OnOk, length};
    ghost use Rattle.record.specs.View.{RecordingView, with_entry};

    // The notes tell of this recording.
    ghost tells: { Self → RecordingView → Type 0 };

    /// Notes one more entry. Where it is refused the notes are good for nothing.
    fn add(&mut self, entry: Entry) -> Result<(), NoMemory>
        requires room { (r : RecordingView) × tells self.old r × (length r.entries < 1000000) }
        ensures { (r : RecordingView) → tells self.old r → OnOk result (tells self.new (with_entry r entry)) };

    /// How many entries there are.
    fn count(&self) -> u32
        ensures { (r : RecordingView) → tells self.now r → result ≡ length r.entries };
}

impl Notes for Recording {
    ghost use Rattle.trials.specs.inner.Notes.{is_recording};

    ghost tells = { is_recording };

    fn add(&mut self, entry: Entry) -> Result<(), NoMemory> {
        match self.push(entry) {
            Ok(()) => Ok(()),
            Err(_) => Err(NoMemory),
        }
    }

    fn count(&self) -> u32 {
        self.entries().len() as u32
    }
}

/// How many steps a trial has made, and nothing else of them. It takes no memory.
#[derive(Drop)]
pub(crate) struct Tally {
    steps: u32,
}

impl Tally {
    ghost use Rattle.std.specs.Prelude.{◌≡◌};

    /// The tally of no step.
    pub(crate) fn new() -> Tally
        ensures { result.steps ≡ 0 }
    {
        Tally { steps: 0 }
    }
}

impl Notes for Tally {
    ghost use Rattle.trials.specs.inner.Notes.{counts};

    ghost tells = { counts };

    fn add(&mut self, _entry: Entry) -> Result<(), NoMemory> {
        self.steps += 1;
        Ok(())
    }

    fn count(&self) -> u32 {
        self.steps
    }
}
