use base::NoMemory;
use std::alloc::Global;
use std::fmt;
use std::fmt::Write as _;

/// A text that grows piece by piece. Where a growth is refused the text stays as it is from then on, and that is told once
/// the text is asked for.
#[derive(Drop)]
pub struct Sheet {
    text: String,
    is_refused: bool,
}

impl Sheet {
    /// An empty text.
    pub fn new(alloc: Global) -> Sheet {
        Sheet {
            text: String::new(alloc),
            is_refused: false,
        }
    }

    pub fn push(&mut self, piece: &str) {
        if self.is_refused || self.text.push_str(piece).is_err() {
            self.is_refused = true;
        }
    }

    pub fn put<D: fmt::Display>(&mut self, piece: &D) {
        let _ = write!(self, "{piece}");
    }

    /// Puts a piece into markup: what would be read as markup is escaped.
    pub fn put_escaped<D: fmt::Display>(&mut self, piece: &D) {
        let _ = write!(Escaping(self), "{piece}");
    }

    fn push_escaped(&mut self, letter: char) {
        match letter {
            '&' => self.push("&amp;"),
            '<' => self.push("&lt;"),
            '>' => self.push("&gt;"),
            '"' => self.push("&quot;"),
            '\'' => self.push("&#39;"),
            other => self.put(&other),
        }
    }

    /// Notes a growth that was refused elsewhere, as if one of its own was.
    pub fn refuse(&mut self) {
        self.is_refused = true;
    }

    /// How many bytes it has so far.
    pub fn len(&self) -> usize {
        self.text.len()
    }

    /// Makes it empty again.
    pub fn clear(&mut self) {
        self.text.clear();
    }

    /// The whole text. It is refused `NoMemory` where a growth was.
    pub fn text(&self) -> Result<&str, NoMemory> {
        if self.is_refused {
            return Err(NoMemory);
        }
        Ok(self.text.as_str())
    }
}

impl fmt::Write for Sheet {
    fn write_str(&mut self, text: &str) -> fmt::Result {
        self.push(text);
        Ok(())
    }
}

#[derive(Drop)]
struct Escaping<'a>(&'a mut Sheet);

impl fmt::Write for Escaping<'_> {
    fn write_str(&mut self, text: &str) -> fmt::Result {
        for letter in text.chars() {
            self.0.push_escaped(letter);
        }
        Ok(())
    }
}
