use base::NoMemory;
use std::alloc::Global;

/// A list that grows item by item. Where a growth is refused the list stays as it is from then on, and that is told once the
/// list is asked for.
#[derive(Drop)]
pub struct List<T: Drop> {
    items: Vec<T>,
    is_refused: bool,
}

impl<T: Drop> List<T> {
    /// An empty list.
    pub fn new(alloc: Global) -> List<T> {
        List {
            items: Vec::new(alloc),
            is_refused: false,
        }
    }

    pub fn push(&mut self, item: T) {
        if self.is_refused || self.items.push(item).is_err() {
            self.is_refused = true;
        }
    }

    /// Makes it empty again.
    pub fn clear(&mut self) {
        self.items.clear();
    }

    /// What it has so far, whether or not a growth was refused.
    pub fn so_far(&self) -> &[T] {
        self.items.as_slice()
    }

    /// The whole list. It is refused `NoMemory` where a growth was.
    pub fn whole(&self) -> Result<&[T], NoMemory> {
        if self.is_refused {
            return Err(NoMemory);
        }
        Ok(self.items.as_slice())
    }

    /// Whether a growth was refused.
    pub fn is_refused(&self) -> bool {
        self.is_refused
    }
}
