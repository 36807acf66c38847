use crate::telling::Happening;
use base::{BlockId, Shape};
use record::Entry;
use std::alloc::{AllocError, Global};

/// Which steps of a recording are looked at: of so many entries from one on, counted from 0, those of one block or of all.
#[derive(Clone, Copy)]
pub struct Excerpt {
    pub block: Option<BlockId>,
    pub from: u64,
    pub steps: u64,
}

/// What was shown, besides steps that did as they were told to.
#[derive(Clone, Copy)]
pub struct Shown {
    /// A step that made a violation.
    pub violation: bool,
    /// A step that came to another outcome than the recording tells.
    pub difference: bool,
}

/// The entries of a recording, cut at both ends of a part.
#[derive(Clone, Copy)]
pub struct Cut<'a> {
    pub before: &'a [Entry],
    pub chosen: &'a [Entry],
    pub behind: &'a [Entry],
}

impl Excerpt {
    /// Whether the part is about this block, at least.
    pub fn is_of(&self, block: BlockId) -> bool {
        match self.block {
            None => true,
            Some(own) => own == block,
        }
    }

    /// Whether the part is about the only block that there is, whether or not a step names it.
    fn is_of_all(&self, shape: Shape) -> bool {
        shape.blocks() == 1 && self.block.is_none()
    }

    /// Cuts entries at both ends of the part.
    pub fn cut<'a>(&self, entries: &'a [Entry]) -> Cut<'a> {
        let (before, others) = entries.split_at(entries.len().min(self.from as usize));
        let (chosen, behind) = others.split_at(others.len().min(self.steps as usize));
        Cut {
            before,
            chosen,
            behind,
        }
    }

    /// For each block whether it is looked at: the one that the part names, the only one that there is, or else those of the
    /// entries that are chosen.
    pub fn blocks(
        &self,
        alloc: Global,
        shape: Shape,
        chosen: &[Entry],
    ) -> Result<Vec<bool>, AllocError> {
        let mut looked_at = vec![in alloc; self.is_of_all(shape); shape.blocks() as usize]?;
        for entry in chosen {
            if self.is_of(entry.step.block()) {
                mark(&mut looked_at, entry.step.block());
            }
        }
        if let Some(block) = self.block {
            mark(&mut looked_at, block);
        }
        Ok(looked_at)
    }
}

fn mark(blocks: &mut Vec<bool>, block: BlockId) {
    if let Some(looked_at) = blocks.get_mut(block.0 as usize) {
        *looked_at = true;
    }
}

impl Shown {
    /// Nothing so far.
    pub fn nothing() -> Shown {
        Shown {
            violation: false,
            difference: false,
        }
    }

    /// Notes a step that is shown.
    pub fn note(&mut self, happening: &Happening) {
        self.violation = self.violation || happening.violation.is_some();
        self.difference = self.difference || happening.differs();
    }
}
