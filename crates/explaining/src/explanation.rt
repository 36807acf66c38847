use base::NoMemory;
use sheet::Sheet;
use std::alloc::Global;
use std::fmt::Display;

/// What stands in front of each line.
const FRONT: &str = "  ";

/// The lines of an explanation. Each begins with two spaces, and ends with LF.
///
/// Where a growth is refused nothing is added from then on, and that is told once the lines are asked for.
#[derive(Drop)]
pub struct Explanation {
    alloc: Global,
    sheet: Sheet,
}

impl Explanation {
    /// No line yet.
    pub fn new(alloc: Global) -> Explanation {
        Explanation {
            alloc,
            sheet: Sheet::new(alloc),
        }
    }

    /// The memory that it grows in.
    pub fn alloc(&self) -> Global {
        self.alloc
    }

    /// Whether there is no line yet.
    pub fn is_empty(&self) -> bool {
        self.sheet.len() == 0
    }

    /// Adds a line.
    pub fn line<D: Display + Drop>(&mut self, text: D) {
        self.begin(text);
        self.end();
    }

    /// Begins a line.
    pub fn begin<D: Display + Drop>(&mut self, text: D) {
        self.sheet.push(FRONT);
        self.sheet.put(&text);
    }

    /// Adds a space and a word to the line that was begun.
    pub fn word(&mut self, word: &str) {
        self.sheet.push(" ");
        self.sheet.push(word);
    }

    /// Ends the line that was begun.
    pub fn end(&mut self) {
        self.sheet.push("\n");
    }

    /// The lines. They are refused `NoMemory` where a growth was.
    pub fn text(&self) -> Result<&str, NoMemory> {
        self.sheet.text()
    }
}
