use crate::lanes::Lifeline;
use crate::picture::{Arrow, ArrowEnd, Picture, PictureEdge};
use base::controller::Listed;
use base::{Ask, BlockId, Outcome, Step};
use monitor::Violation;
use network::{Message, Response};
use retelling::{
    AcksText, AskText, CellText, Happening, MetCell, RequestText, RequestorText, SeatText,
    SeenController, Trip, forward_name,
};
use std::fmt;
use std::fmt::Write as _;

/// Which block something in a picture is of, where this has to be told.
#[derive(Clone, Copy)]
pub struct BlockText(Option<BlockId>);

impl BlockText {
    /// The text for a block of a picture.
    pub fn of(picture: &Picture, block: BlockId) -> BlockText {
        if picture.has_blocks() {
            BlockText(Some(block))
        } else {
            BlockText(None)
        }
    }
}

impl fmt::Display for BlockText {
    fn fmt<W: fmt::Write>(&self, f: &mut fmt::Formatter<W>) -> fmt::Result {
        match self.0 {
            None => Ok(()),
            Some(block) => write!(f, " b{}", block.0),
        }
    }
}

/// A message without its ends: `Fwd-GetS for 1`.
#[derive(Clone, Copy)]
struct LabelText(Message);

impl fmt::Display for LabelText {
    fn fmt<W: fmt::Write>(&self, f: &mut fmt::Formatter<W>) -> fmt::Result {
        match self.0 {
            Message::Request(request) => write!(f, "{}", RequestText(request)),
            Message::Forward(_, forward) => {
                let name = forward_name(forward.kind);
                write!(f, "{name}{}", RequestorText(forward))
            }
            Message::Response(Response::Data { value, acks, .. }) => {
                write!(f, "Data {value}{}", AcksText(acks))
            }
            Message::Response(Response::InvAck { .. }) => f.write_str("Inv-Ack"),
            Message::Response(Response::DataExcl { value, .. }) => {
                write!(f, "Data {value}, exclusive")
            }
        }
    }
}

/// From how many rows on the name on an arrow tells which step has sent it.
const FAR: usize = 6;

/// The name on an arrow, with the number of the step that has sent it where that isn't near: `GetM (13)`.
#[derive(Clone, Copy)]
pub struct ArrowText {
    trip: Trip,
    block: BlockText,
    is_far: bool,
}

impl ArrowText {
    /// The name on an arrow of a picture.
    pub fn of(picture: &Picture, arrow: &Arrow) -> ArrowText {
        let end = arrow.row_in(picture).unwrap_or(picture.rows().len());
        let is_far = match picture.row_of(arrow.trip.sent) {
            None => true,
            Some(sent) => end.saturating_sub(sent) >= FAR,
        };
        ArrowText {
            trip: arrow.trip,
            block: BlockText::of(picture, arrow.trip.block),
            is_far,
        }
    }
}

impl fmt::Display for ArrowText {
    fn fmt<W: fmt::Write>(&self, f: &mut fmt::Formatter<W>) -> fmt::Result {
        write!(f, "{}{}", LabelText(self.trip.message), self.block)?;
        if self.is_far {
            write!(f, " ({})", self.trip.sent)
        } else {
            Ok(())
        }
    }
}

/// How a message ends that isn't served in the picture.
#[derive(Clone, Copy)]
pub struct EndText(pub ArrowEnd);

impl fmt::Display for EndText {
    fn fmt<W: fmt::Write>(&self, f: &mut fmt::Formatter<W>) -> fmt::Result {
        match self.0 {
            ArrowEnd::Served(number) => write!(f, "served by step {number}"),
            ArrowEnd::Unserved => f.write_str("not served by the end"),
            ArrowEnd::Held(cell) => write!(f, "held by {}", CellText(cell.place)),
            ArrowEnd::Behind => f.write_str("behind another"),
        }
    }
}

/// What stands in a controller's box: its state.
#[derive(Clone, Copy)]
pub struct BoxText {
    pub(crate) sight: SeenController,
    pub(crate) block: BlockText,
}

impl BoxText {
    /// The text for a controller of a block in a picture.
    pub fn of(picture: &Picture, sight: SeenController, block: BlockId) -> BoxText {
        BoxText {
            sight,
            block: BlockText::of(picture, block),
        }
    }
}

impl fmt::Display for BoxText {
    fn fmt<W: fmt::Write>(&self, f: &mut fmt::Formatter<W>) -> fmt::Result {
        match self.sight {
            SeenController::Line(_, line) => write!(f, "{}{}", line.state.name(), self.block),
            SeenController::Home(state, ..) => f.write_str(state.name()),
        }
    }
}

/// What a core asks.
#[derive(Clone, Copy)]
pub struct AskedText {
    /// The ask.
    pub ask: Ask,
    /// The block that it is about.
    pub block: BlockText,
}

impl fmt::Display for AskedText {
    fn fmt<W: fmt::Write>(&self, f: &mut fmt::Formatter<W>) -> fmt::Result {
        write!(f, "asks {}{}", AskText(self.ask), self.block)
    }
}

/// A load or a store that waits for ever.
#[derive(Clone, Copy)]
pub struct WaitsText {
    /// What was asked.
    pub ask: Ask,
    /// The block that it is about.
    pub block: BlockText,
}

impl fmt::Display for WaitsText {
    fn fmt<W: fmt::Write>(&self, f: &mut fmt::Formatter<W>) -> fmt::Result {
        write!(f, "waits: {}{}", AskText(self.ask), self.block)
    }
}

/// What stands beside a controller: the load or store that completed, or why nothing was done.
#[derive(Clone, Copy)]
pub struct MarkText {
    /// What the step came to.
    pub outcome: Outcome,
    /// The block that it is about.
    pub block: BlockText,
}

impl fmt::Display for MarkText {
    fn fmt<W: fmt::Write>(&self, f: &mut fmt::Formatter<W>) -> fmt::Result {
        match self.outcome {
            Outcome::Sent | Outcome::Moved => Ok(()),
            Outcome::Load { value, .. } => write!(f, "load {value}{}", self.block),
            Outcome::Store { value, .. } => write!(f, "store {value}{}", self.block),
            other => write!(f, "{other}"),
        }
    }
}

/// The step of a row behind its seat, if it has one, with its outcome where there is no controller to put it beside.
#[derive(Clone, Copy)]
pub struct StepText(pub Happening);

impl fmt::Display for StepText {
    fn fmt<W: fmt::Write>(&self, f: &mut fmt::Formatter<W>) -> fmt::Result {
        match self.0.place {
            Some(_) => write!(f, "{}{}", SeatText(self.0.seat), self.0.step),
            None => write!(
                f,
                "{}{} {}",
                SeatText(self.0.seat),
                self.0.step,
                self.0.outcome
            ),
        }
    }
}

/// The ask of a step, if it is one.
pub fn ask_of(step: Step) -> Option<Ask> {
    match step {
        Step::Ask { ask, .. } => Some(ask),
        _ => None,
    }
}

/// How many bytes a text has.
pub fn length<D: fmt::Display>(text: &D) -> i64 {
    let mut counter = Counter(0);
    let _ = write!(counter, "{text}");
    counter.0
}

#[derive(Drop)]
struct Counter(i64);

impl fmt::Write for Counter {
    fn write_str(&mut self, text: &str) -> fmt::Result {
        self.0 = self
            .0
            .saturating_add(i64::try_from(text.len()).unwrap_or(0));
        Ok(())
    }
}

/// The name of a lifeline.
#[derive(Clone, Copy)]
pub struct LifelineText {
    lane: Lifeline,
    has_blocks: bool,
}

impl LifelineText {
    /// The name of a lifeline of a picture.
    pub fn of(picture: &Picture, lane: Lifeline) -> LifelineText {
        LifelineText {
            lane,
            has_blocks: picture.has_blocks(),
        }
    }
}

impl fmt::Display for LifelineText {
    fn fmt<W: fmt::Write>(&self, f: &mut fmt::Formatter<W>) -> fmt::Result {
        match self.lane {
            Lifeline::Cache(cache) => write!(f, "cache {}", cache.0),
            Lifeline::Home(block) if self.has_blocks => write!(f, "home of b{}", block.0),
            Lifeline::Home(_) => f.write_str("home"),
        }
    }
}

/// What stands before the controllers at the start, and at the end.
#[derive(Clone, Copy)]
pub struct MomentText {
    /// Which of the two it is.
    pub moment: PictureEdge,
    /// The block whose controllers they are.
    pub block: BlockText,
}

impl fmt::Display for MomentText {
    fn fmt<W: fmt::Write>(&self, f: &mut fmt::Formatter<W>) -> fmt::Result {
        match self.moment {
            PictureEdge::Start => write!(f, "at the start{}", self.block),
            PictureEdge::End => write!(f, "at the end{}", self.block),
        }
    }
}

/// Which outcome was told of a step that has another one.
#[derive(Clone, Copy)]
pub struct ToldText(pub Happening);

impl fmt::Display for ToldText {
    fn fmt<W: fmt::Write>(&self, f: &mut fmt::Formatter<W>) -> fmt::Result {
        write!(f, "told {}, found {}", self.0.told, self.0.outcome)
    }
}

/// What is wrong after a step, and the cell where that is blank.
#[derive(Clone, Copy)]
pub struct ViolationText {
    violation: Violation,
    blank: Option<MetCell>,
}

impl ViolationText {
    /// The text for what a row shows, if anything is wrong there.
    pub fn of(row: &Happening) -> Option<ViolationText> {
        Some(ViolationText {
            violation: row.violation?,
            blank: row.cell.filter(|_| row.outcome == Outcome::Blank),
        })
    }
}

impl fmt::Display for ViolationText {
    fn fmt<W: fmt::Write>(&self, f: &mut fmt::Formatter<W>) -> fmt::Result {
        write!(f, "violation {}", self.violation)?;
        match self.blank {
            None => Ok(()),
            Some(cell) => write!(f, ": cell {}", CellText(cell.place)),
        }
    }
}

/// What a picture is about.
#[derive(Clone, Copy)]
pub struct TitleText {
    /// How many steps it has.
    pub steps: usize,
}

impl fmt::Display for TitleText {
    fn fmt<W: fmt::Write>(&self, f: &mut fmt::Formatter<W>) -> fmt::Result {
        write!(
            f,
            "{} steps of a recording, as a message sequence chart",
            self.steps
        )
    }
}
