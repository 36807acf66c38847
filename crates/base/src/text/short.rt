use itoa::Buffer;
use std::fmt;
use std::marker::Model;

/// A text of at most 192 bytes, which needs no memory.
#[derive(Drop)]
pub struct Text {
    bytes: [u8; 192],
    len: usize,
}

impl Model for Text {
    ghost use Rattle.std.specs.Prelude.{ℕ, List, take, ◌≤◌};

    ghost Value = { List ℕ };

    ghost view = { λ s. take s.len s.bytes };

    ghost invariant = { λ s. s.len ≤ 192 };
}

impl Text {
    ghost use Rattle.std.specs.Prelude.{◌≡◌, ◌≤◌, ◌+◌, ◌++◌, ◌∷◌, [], length};
    ghost use Rattle.std.specs.Fmt.{decimal};

    /// An empty text.
    pub fn new() -> Text
        ensures { result ≡ [] }
    {
        Text {
            bytes: [0; 192],
            len: 0,
        }
    }

    /// Takes off all of the text.
    pub fn clear(&mut self)
        ensures { self.new ≡ [] }
    {
        self.len = 0;
    }

    /// Adds a text at the end.
    pub fn push(&mut self, text: &[u8])
        requires { length self.old + length text.now ≤ 192 }
        ensures text { self.new ≡ self.old ++ text.now }
        ensures count { length self.new ≡ length self.old + length text.now }
    {
        let end = self.len + text.len();
        self.bytes[self.len..end].copy_from_slice(text);
        self.len = end;
    }

    /// Adds a blank and a word at the end.
    pub fn push_word(&mut self, word: &[u8])
        requires { length self.old + (length word.now + 1) ≤ 192 }
        ensures text { self.new ≡ self.old ++ (32 ∷ word.now) }
        ensures count { length self.new ≡ length self.old + (length word.now + 1) }
    {
        self.push(b" ");
        self.push(word);
    }

    /// Adds a blank and a number at the end.
    pub fn push_number(&mut self, number: u64)
        requires { length self.old + 21 ≤ 192 }
        ensures text { self.new ≡ self.old ++ (32 ∷ decimal number) }
        ensures short { length self.new ≤ length self.old + 21 }
    {
        if number < 10 {
            self.push(&[b' ', b'0' + number as u8]);
            return;
        }
        let mut digits = Buffer::new();
        self.push_word(digits.format(number).as_bytes());
    }

    /// The text.
    pub fn as_slice(&self) -> &[u8]
        ensures text { result.now ≡ self.now }
        ensures short { length self.now ≤ 192 }
    {
        &self.bytes[..self.len]
    }
}

impl fmt::Display for Text {
    fn fmt<W: fmt::Write>(&self, f: &mut fmt::Formatter<W>) -> fmt::Result {
        match str::from_utf8(self.as_slice()) {
            Ok(text) => f.write_str(text),
            Err(_) => Err(fmt::Error),
        }
    }
}
