use std::fmt;

/// Why a text isn't read as JSON, in the words of `serde_json` where it has some.
#[derive(Clone, Copy, PartialEq, Eq)]
pub enum Reason {
    /// Bytes aren't UTF-8.
    NotUtf8,
    /// The value that begins there stands too deep.
    TooDeep,
    /// A number is too large.
    OutOfRange,
    EndInArray,
    EndInObject,
    EndInText,
    EndInValue,
    NoValue,
    NoWord,
    NoNumber,
    NoKey,
    NoColon,
    NoCommaInArray,
    NoCommaInObject,
    TrailingComma,
    TrailingBytes,
    NoEscape,
    HalfPair,
    Control,
}

impl Reason {
    /// Whether the text ends before it is whole.
    pub fn is_end(self) -> bool {
        match self {
            Reason::EndInArray | Reason::EndInObject | Reason::EndInText | Reason::EndInValue => {
                true
            }
            _ => false,
        }
    }

    fn text(self) -> &'static str {
        match self {
            Reason::NotUtf8 => "the bytes from here on aren't UTF-8",
            Reason::TooDeep => "the text nests deeper than 127 levels",
            Reason::OutOfRange => "number out of range",
            Reason::EndInArray => "EOF while parsing a list",
            Reason::EndInObject => "EOF while parsing an object",
            Reason::EndInText => "EOF while parsing a string",
            Reason::EndInValue => "EOF while parsing a value",
            Reason::NoValue => "expected value",
            Reason::NoWord => "expected ident",
            Reason::NoNumber => "invalid number",
            Reason::NoKey => "key must be a string",
            Reason::NoColon => "expected `:`",
            Reason::NoCommaInArray => "expected `,` or `]`",
            Reason::NoCommaInObject => "expected `,` or `}`",
            Reason::TrailingComma => "trailing comma",
            Reason::TrailingBytes => "trailing characters",
            Reason::NoEscape => "invalid escape",
            Reason::HalfPair => "lone leading surrogate in hex escape",
            Reason::Control => "control character (\\u0000-\\u001F) found while parsing a string",
        }
    }
}

impl fmt::Display for Reason {
    fn fmt<W: fmt::Write>(&self, f: &mut fmt::Formatter<W>) -> fmt::Result {
        f.write_str(match self {
            Reason::NotUtf8 | Reason::TooDeep => "",
            reason if reason.is_end() => "the text ends too early: ",
            _ => "the text isn't JSON here: ",
        })?;
        f.write_str(self.text())
    }
}
