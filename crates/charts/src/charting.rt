use crate::arrows::{draw_ends, draw_wires, name_arrows};
use crate::captions::TitleText;
use crate::fault::ChartFault;
use crate::layout::Layout;
use crate::marks::{Layer, draw_guides, draw_rows, draw_standings};
use crate::picture::{Picture, PictureEdge};
use crate::point::Point;
use crate::style::STYLE;
use crate::surroundings::{draw_bands, draw_findings, draw_legend, draw_lifelines, draw_plates};
use crate::svg::Pen;
use crate::wayfinding::Wayfinder;
use crate::ways::{ArrowWay, ways_of};
use base::Shape;
use record::Recording;
use retelling::{Excerpt, Shown};
use sheet::Sheet;
use std::alloc::Global;
use std::io::Write;

/// Makes the steps of a recording again, and draws a part of them as a message sequence chart, in SVG.
///
/// It is refused `TooManySteps` where the part has more than [`crate::MOST_ROWS`] steps; nothing is written then.
pub fn chart<W: Write>(
    alloc: Global,
    recording: &Recording,
    part: Excerpt,
    output: &mut W,
) -> Result<Shown, ChartFault> {
    let picture = Picture::of(alloc, recording, part)?;
    print(alloc, &picture, recording.shape(), output)?;
    Ok(picture.shown())
}

fn print<W: Write>(
    alloc: Global,
    picture: &Picture,
    shape: Shape,
    output: &mut W,
) -> Result<(), ChartFault> {
    let layout = Layout::of(alloc, picture, shape)?;
    let ways = ways_of(alloc, picture, &layout)?;
    let mut finder = Wayfinder::of(alloc, picture, &layout)?;
    let sheet = drawn(alloc, picture, &layout, ways.so_far(), &mut finder);
    if finder.is_refused() {
        return Err(ChartFault::NoMemory);
    }
    output.write_all(sheet.text()?.as_bytes())?;
    Ok(())
}

/// A picture: what stands behind comes first.
fn drawn(
    alloc: Global,
    picture: &Picture,
    layout: &Layout,
    ways: &[ArrowWay],
    finder: &mut Wayfinder,
) -> Sheet {
    let mut pen = Pen::begin(alloc, layout.size, STYLE);
    pen.title(&TitleText {
        steps: picture.rows().len(),
    });
    pen.rectangle("page", Point { x: 0, y: 0 }, layout.size);
    draw_bands(&mut pen, picture, layout);
    draw_guides(&mut pen, picture, layout);
    draw_lifelines(&mut pen, layout);
    draw_controllers(&mut pen, picture, layout, Layer::Shapes);
    draw_wires(&mut pen, layout, ways, finder);
    draw_ends(&mut pen, ways);
    draw_plates(&mut pen, picture, layout);
    draw_controllers(&mut pen, picture, layout, Layer::Texts);
    name_arrows(&mut pen, picture, ways);
    draw_findings(&mut pen, picture, layout);
    draw_legend(&mut pen, layout);
    pen.end()
}

/// Draws what controllers are and do, or the texts of that.
fn draw_controllers(pen: &mut Pen, picture: &Picture, layout: &Layout, layer: Layer) {
    draw_standings(pen, picture, layout, PictureEdge::Start, layer);
    draw_rows(pen, picture, layout, layer);
    draw_standings(pen, picture, layout, PictureEdge::End, layer);
}
