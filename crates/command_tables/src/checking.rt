use crate::cells::text_of;
use crate::certificates::{flow_words, jam_under};
use crate::counting::{Census, longest};
use crate::jamming::jam_from;
use base::text::Text;
use base::{CoreAsk, MOST_BLOCKS, MOST_CACHES, NoMemory, Shape, Step};
use certify::{Certificate, Flow, Refusal, Standing, certify, standing_beside};
use command_output::{Fault, Finding, Printer};
use scenario::Scenario;
use std::alloc::Global;
use std::fmt;
use std::io::{Read, Write};
use tables::{CELLS, CellPlace, Tables};

/// How many caches and blocks a scenario may name, as far as that is said.
#[derive(Clone, Copy, Debug)]
pub struct Bounds {
    pub caches: Option<u32>,
    pub blocks: Option<u32>,
}

impl Bounds {
    /// The shape that a scenario has to fit in. Where the caches are left out it is the widest one, else it has one block
    /// where the blocks are.
    pub fn widest(self) -> Result<Shape, Fault> {
        let most = match self.caches {
            Some(_) => 1,
            None => MOST_BLOCKS,
        };
        let caches = self.caches.unwrap_or(MOST_CACHES);
        Ok(Shape::new(caches, self.blocks.unwrap_or(most))?)
    }

    /// The shape that is meant where a scenario needs so many caches and blocks. None, where neither is known.
    fn shape_for(self, needed: Option<(u32, u32)>) -> Result<Option<Shape>, Fault> {
        if self.caches.is_none() && needed.is_none() {
            return Ok(None);
        }
        let (caches, blocks) = needed.unwrap_or((1, 1));
        let least = match self.caches {
            Some(_) => 1,
            None => blocks.max(1),
        };
        let caches = self.caches.unwrap_or(caches.max(1));
        Ok(Some(Shape::new(caches, self.blocks.unwrap_or(least))?))
    }
}

/// Reads a scenario from the input, where it isn't empty, and prints what these tables and the scenario are.
pub fn check<I: Read + Drop, O: Write + Drop>(
    alloc: Global,
    tables: &Tables,
    bounds: Bounds,
    input: I,
    output: O,
) -> Result<Finding, Fault> {
    let mut input = input;
    let mut bytes = Vec::new(alloc);
    input.read_to_end(&mut bytes)?;
    check_bytes(alloc, tables, bounds, bytes.as_slice(), output)
}

fn check_bytes<O: Write + Drop>(
    alloc: Global,
    tables: &Tables,
    bounds: Bounds,
    bytes: &[u8],
    output: O,
) -> Result<Finding, Fault> {
    if bytes.is_empty() {
        return print_checked(alloc, tables, bounds, None, output);
    }
    match Scenario::read(alloc, alloc, bytes, bounds.widest()?) {
        Ok(scenario) => print_checked(alloc, tables, bounds, Some(&scenario), output),
        Err(fault) => Err(Fault::from(fault)),
    }
}

fn print_checked<O: Write + Drop>(
    alloc: Global,
    tables: &Tables,
    bounds: Bounds,
    scenario: Option<&Scenario<Global>>,
    output: O,
) -> Result<Finding, Fault> {
    let mut printer = Printer::new(alloc, output)?;
    let printed = print_all(alloc, tables, bounds, scenario, &mut printer);
    printer.finish(printed)
}

fn print_all<O: Write + Drop>(
    alloc: Global,
    tables: &Tables,
    bounds: Bounds,
    scenario: Option<&Scenario<Global>>,
    printer: &mut Printer<O>,
) -> Result<Finding, Fault> {
    let verdict = verdict_of(alloc, tables)?;
    printer.line(format_args!("protocol {}", tables.protocol().name()));
    print_cells(tables, printer);
    printer.line(format_args!("certify {verdict}"));
    match scenario {
        Some(scenario) => print_scenario(alloc, bounds, scenario, printer)?,
        None => print_shape(bounds.shape_for(None)?, printer),
    }
    Ok(Finding::Nothing)
}

/// What `msi certify` says of tables.
#[derive(Clone, Copy)]
struct CheckVerdict {
    is_safe: bool,
    /// What it says of what gets stuck, if anything.
    stuck: Option<&'static str>,
}

impl fmt::Display for CheckVerdict {
    fn fmt<W: fmt::Write>(&self, f: &mut fmt::Formatter<W>) -> fmt::Result {
        f.write_str(if self.is_safe { "safe" } else { "unknown" })?;
        match self.stuck {
            Some(stuck) => write!(f, ", {stuck}"),
            None => Ok(()),
        }
    }
}

fn verdict_of(alloc: Global, tables: &Tables) -> Result<CheckVerdict, NoMemory> {
    let (is_safe, stuck) = match certify(alloc, tables) {
        Certificate::NotProved(_, Refusal::NoMemory) => return Err(NoMemory),
        Certificate::NotProved(..) => {
            let jam = jam_from(alloc, tables, None)?;
            (false, jam.map(|_| "messages get stuck"))
        }
        Certificate::ClosedPairs(_, _, flow) => {
            let jam = jam_under(alloc, tables, flow)?;
            (true, Some(flow_words(flow, jam.is_some())))
        }
        Certificate::NeverStuck => (true, Some("never stuck")),
        Certificate::AsksMayBeHeld(_) => (true, Some("asks may be held")),
        Certificate::MessagesMayGetStuck(cell) => {
            let jam = jam_from(alloc, tables, Some(cell))?;
            let words = flow_words(Flow::MessagesMayGetStuck, jam.is_some());
            (true, Some(words))
        }
    };
    Ok(CheckVerdict { is_safe, stuck })
}

/// Prints the cells that aren't the protocol's own.
fn print_cells<O: Write + Drop>(tables: &Tables, printer: &mut Printer<O>) {
    let own = Tables::baseline_of(tables.protocol());
    for number in 0..CELLS {
        if let Some(cell) = CellPlace::at(number) {
            if !matches!(standing_beside(tables, &own, cell), Standing::Own) {
                printer.line(text_of(tables, cell));
            }
        }
    }
}

fn print_shape<O: Write + Drop>(shape: Option<Shape>, printer: &mut Printer<O>) {
    if let Some(shape) = shape {
        printer.line(format_args!("shape {} {}", shape.caches(), shape.blocks()));
    }
}

fn print_scenario<O: Write + Drop>(
    alloc: Global,
    bounds: Bounds,
    scenario: &Scenario<Global>,
    printer: &mut Printer<O>,
) -> Result<(), Fault> {
    let census = Census::of(alloc, scenario);
    if census.is_refused() {
        return Err(Fault::NoMemory);
    }
    print_shape(bounds.shape_for(Some(census.extent()))?, printer);
    print_cores(&census, printer);
    print_offers(alloc, scenario, printer)?;
    printer.line(format_args!("longest {}", longest(scenario)));
    Ok(())
}

fn print_cores<O: Write + Drop>(census: &Census, printer: &mut Printer<O>) {
    for (core, counts) in census.cores().iter() {
        printer.line(format_args!(
            "core {core} loads {} stores {} replacements {}",
            counts.loads, counts.stores, counts.replacements
        ));
    }
}

fn print_offers<O: Write + Drop>(
    alloc: Global,
    scenario: &Scenario<Global>,
    printer: &mut Printer<O>,
) -> Result<(), NoMemory> {
    let mut offers = Vec::new(alloc);
    scenario.offers(&mut offers)?;
    for (number, offer) in offers.as_slice().iter().enumerate() {
        print_offer(number, *offer, printer);
    }
    Ok(())
}

fn print_offer<O: Write + Drop>(number: usize, offer: CoreAsk, printer: &mut Printer<O>) {
    let mut text = Text::new();
    text.push_step(Step::Ask {
        cache: offer.core,
        block: offer.block,
        ask: offer.ask,
    });
    printer.line(format_args!("offer {number} {text}"));
}
