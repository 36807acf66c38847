ghost use Rattle.std.specs.Prelude.{◌≡◌, ◌≤◌};
ghost use Rattle.record_lines.specs.Grammar.{cells_due, entries_due};
ghost use Rattle.record_lines.specs.Refused.{limit};
ghost use Rattle.record_lines.specs.Versions.{header_leads, shape_leads_in};

use crate::version::Version;
use base::Shape;
use base::controller::Protocol;

/// What the head of a text has told so far: how it is written, of which protocol, and of how many seats.
#[derive(Clone, Copy)]
pub struct TextHead {
    pub version: Version,
    pub protocol: Protocol,
    pub seats: u32,
}

/// What is due at the next line of a recording's text.
#[derive(Clone, Copy)]
pub enum Due {
    Header,
    ProtocolLine,
    ShapeLine(TextHead),
    /// The seats, behind this shape.
    SeatsLine(TextHead, Shape),
    /// The opening values of this shape.
    OpeningLine(TextHead, Shape),
    CellCount(TextHead),
    /// A cell: so many are still to come, and its place is of this number or a higher one.
    CellLine {
        form: TextHead,
        left: u32,
        from: usize,
    },
    EntryCount(TextHead),
    /// An entry: so many are still to come.
    EntryLine(TextHead, u32),
    EndLine(TextHead),
    Nothing,
}

impl Due {
    /// What is due behind the first line.
    pub fn behind_header(version: Version) -> Due
        ensures { result ≡ header_leads version }
    {
        match version {
            Version::One => Due::ShapeLine(TextHead {
                version,
                protocol: Protocol::Msi,
                seats: 0,
            }),
            Version::Two => Due::ProtocolLine,
        }
    }

    /// What is due behind the line of the shape.
    pub fn behind_shape(form: TextHead, shape: Shape) -> Due
        ensures { result ≡ shape_leads_in form.version form shape }
    {
        match form.version {
            Version::One => Due::OpeningLine(form, shape),
            Version::Two => Due::SeatsLine(form, shape),
        }
    }

    /// What is due where so many cells are still to come.
    pub fn cells(form: TextHead, left: u32, from: usize) -> Due
        ensures { result ≡ cells_due form left from }
    {
        match left {
            0 => Due::EntryCount(form),
            _ => Due::CellLine { form, left, from },
        }
    }

    /// What is due where so many entries are still to come.
    pub fn entries(form: TextHead, left: u32) -> Due
        ensures { result ≡ entries_due form left }
    {
        match left {
            0 => Due::EndLine(form),
            _ => Due::EntryLine(form, left),
        }
    }

    /// The most bytes of the line that is due, without its end.
    pub fn limit(self) -> usize
        ensures limit { result ≡ limit self }
        ensures small { limit self ≤ 1400000 }
    {
        match self {
            Due::Header => Version::One.most_bytes(),
            Due::ProtocolLine => Version::Two.most_bytes(),
            Due::ShapeLine(form)
            | Due::SeatsLine(form, _)
            | Due::OpeningLine(form, _)
            | Due::CellCount(form)
            | Due::CellLine { form, .. }
            | Due::EntryCount(form)
            | Due::EntryLine(form, _)
            | Due::EndLine(form) => form.version.most_bytes(),
            Due::Nothing => 0,
        }
    }
}
