use crate::captions::{
    ArrowText, AskedText, BlockText, BoxText, EndText, LifelineText, MarkText, StepText,
    ViolationText, WaitsText, ask_of, length,
};
use crate::lanes::Lifelines;
use crate::layout::{LETTER, changed, half_box_of, half_plate_of};
use crate::obstacles::ROOM;
use crate::picture::{Picture, PictureEdge};
use crate::ways::level_part;
use retelling::{Happening, Waiting};

/// The least distance of two lifelines.
const NARROWEST: i64 = 110;
/// The least that is left between the things on one lifeline and those on the next, or the name of an arrow.
const FREE: i64 = 10;

/// The longest texts of a picture, in letters.
#[derive(Clone, Copy)]
pub struct Longest {
    label: i64,
    beside: i64,
    state: i64,
    /// The number of a step, and what a band says.
    pub number: i64,
    pub finding: i64,
    step: i64,
    /// The name of a lifeline, and how an arrow ends.
    name: i64,
    end: i64,
}

impl Longest {
    /// Those of a picture.
    pub fn of(picture: &Picture, lanes: &Lifelines) -> Longest {
        let mut longest = Longest {
            label: 4,
            beside: 4,
            state: 4,
            number: 1,
            step: 8,
            finding: 0,
            name: 0,
            end: 0,
        };
        for lane in lanes.order() {
            longest.name = longest.name.max(length(&LifelineText::of(picture, *lane)));
        }
        for standing in picture.standings(PictureEdge::Start) {
            let text = BoxText::of(picture, standing.sight, standing.block);
            longest.state = longest.state.max(length(&text));
        }
        for arrow in picture.arrows() {
            let text = ArrowText::of(picture, arrow);
            longest.label = longest.label.max(length(&text));
            if arrow.row_in(picture).is_none() {
                longest.end = longest.end.max(length(&EndText(arrow.end)));
            }
        }
        for row in picture.rows() {
            longest.widen(picture, row);
        }
        for waiting in picture.waiting() {
            if let Waiting::Pending { block, ask, .. } = *waiting {
                let block = BlockText::of(picture, block);
                longest.beside = longest.beside.max(length(&WaitsText { ask, block }));
            }
        }
        longest.step = longest.step.max(12);
        longest
    }

    fn widen(&mut self, picture: &Picture, row: &Happening) {
        let block = BlockText::of(picture, row.step.block());
        if let Some(ask) = ask_of(row.step) {
            self.beside = self.beside.max(length(&AskedText { ask, block }));
        }
        let mark = MarkText {
            outcome: row.outcome,
            block,
        };
        self.beside = self.beside.max(length(&mark).saturating_add(2));
        if let Some(sight) = changed(row) {
            let text = BoxText { sight, block };
            self.state = self.state.max(length(&text));
        }
        self.number = self.number.max(length(&row.number));
        self.step = self.step.max(length(&StepText(*row)));
        if let Some(text) = ViolationText::of(row) {
            self.finding = self.finding.max(length(&text));
        }
        if row.differs() {
            self.finding = self.finding.max(
                length(&row.told)
                    .saturating_add(length(&row.outcome))
                    .saturating_add(13),
            );
        }
    }

    /// How far right the first lifeline is, where the steps' texts begin at a place.
    pub fn first(&self, steps: i64) -> i64 {
        let letters = self
            .step
            .saturating_add(self.beside)
            .saturating_add(self.state / 2);
        let texts = letters.saturating_mul(LETTER).saturating_add(steps);
        texts.saturating_add(40).max(self.end_room())
    }

    /// The room beside a lifeline that tells how an arrow ends.
    pub fn end_room(&self) -> i64 {
        self.end.saturating_mul(LETTER).saturating_add(24)
    }

    /// From one lifeline to the next: there is room for what stands beside a controller, and for the name of an arrow beside what
    /// stands on the lifeline before it.
    pub fn spacing(&self) -> i64 {
        let letters = self.label.max(self.beside).saturating_add(self.state);
        let beside = letters.saturating_mul(LETTER).saturating_add(48);
        let arrow = half_box_of(self.state)
            .saturating_add(level_part(self.label))
            .max(self.side());
        let between = arrow.saturating_add(self.side()).saturating_add(FREE);
        beside.max(between).max(NARROWEST)
    }

    /// How far beside a lifeline nothing stands that is on it.
    pub fn side(&self) -> i64 {
        half_box_of(self.state)
            .max(half_plate_of(self.name))
            .saturating_add(ROOM)
    }
}
