//! Opening the lanes of a scenario.

ghost use Rattle.std.specs.Prelude.{◌≡◌, ◌≤◌, ◌^◌, ◌∷◌, [], IfOk, length, map};
ghost use Rattle.scenario.specs.Tree.{plain, trees_of};
ghost use Rattle.lanes.specs.Fitting.{EachFits, lane_trees};
ghost use Rattle.lanes.specs.inner.Kept.{listed_in, plain_each, stocks_in, trees_in};

use super::{Lane, Lanes};
use base::NoMemory;
use cores::Cores;
use cursors::Cursor;
use rows::{Bits, Sums};
use scenario::Scenario;
use schedule::Asks;
use std::alloc::{Allocator, Global};
use world::World;

/// The most lanes. A scenario of more trees at its top has one lane, itself.
const MOST_LANES: usize = 1 << 31;

impl<'s, A: Allocator, B: Allocator> Lane<'s, A, B> {
    ghost use Rattle.std.specs.Prelude.{◌≡◌, IfOk};
    ghost use Rattle.cursors.specs.Cursors.{remaining};
    ghost use Rattle.cursors.specs.Stock.{FitsIn};
    ghost use Rattle.scenario.specs.Tree.{plain};

    /// All of a tree is left, and nothing is listed yet.
    fn unlisted(alloc: Global, tree: &'s Scenario<A>) -> Result<Lane<'s, A, B>, NoMemory>
        ensures left { IfOk result (λ lane. remaining lane.rest ≡ plain tree.entry.now) }
        ensures fits { IfOk result (λ lane. FitsIn lane.rest (plain tree.entry.now)) }
    {
        let asks = Asks::open(alloc)?;
        Ok(Lane {
            rest: Cursor::open(tree),
            asks,
        })
    }
}

impl<'s, A: Allocator, B: Allocator + Clone> Lanes<'s, A, B> {
    ghost use Rattle.std.specs.Prelude.{◌≡◌, ◌<◌, IfOk, MatchResult, OnOk, length};
    ghost use Rattle.scenario.specs.Tree.{plain};
    ghost use Rattle.lanes.specs.Fitting.{KeepSource, LanesFit};
    ghost use Rattle.lanes.specs.Lanes.{AreAgain, AreOpened, IsSourceIn, IsSpoilt, spoilt};
    ghost use Rattle.lanes.specs.inner.Opening.{AreReset, AreUnlisted, CopiesMarks, IsReset, ListsAll, ListsWhole, with_marks};

    /// All of a scenario is left. So many cores have the lanes noted that may offer an ask of them, which ought to be those of the
    /// world; any other number costs time alone.
    pub fn open(
        alloc: Global,
        scenario: &'s Scenario<A>,
        count: u32,
        world: &World,
        cores: &Cores,
    ) -> Result<Lanes<'s, A, B>, NoMemory>
        ensures opened { IfOk result (AreOpened (plain scenario.entry.now) world.now cores.now) }
        ensures fits { IfOk result (λ lanes. LanesFit lanes (plain scenario.entry.now)) }
    {
        let mut lanes = Lanes::unlisted(alloc, scenario, count)?;
        lanes.list_all(world, cores)?;
        lanes.note_marks(alloc)?;
        Ok(lanes)
    }

    /// All of the scenario is left again, whatever was, in a world where its asks are held as they were when the lanes were opened. The
    /// marks of a lane that offers the same as then are copied, so that a restart costs what was changed, and little for each lane.
    ///
    /// Where memory is refused, the lanes are spoilt.
    pub fn restart(&mut self, world: &World, cores: &Cores) -> Result<(), NoMemory>
        requires { IsSourceIn world.now.tables world.now.state self.old }
        ensures again { MatchResult result (λ _. AreAgain world.now cores.now self.new) (λ _. IsSpoilt self.new) }
        ensures stays { KeepSource self.old self.new }
    {
        self.usable = false;
        restart_all(&mut self.lanes, self.sources.as_slice());
        self.list_all(world, cores)
    }

    /// Spoils the lanes: what they are about is of no more use.
    pub fn spoil(&mut self)
        ensures { self.new ≡ spoilt self.old }
    {
        self.usable = false;
    }

    /// Lists what each lane offers, and counts what can be put of it. Then the lanes are spoilt no longer.
    fn list_all(&mut self, world: &World, cores: &Cores) -> Result<(), NoMemory>
        requires { IsReset world.now.tables world.now.state self.old }
        ensures lists { MatchResult result
            (λ _. ListsAll world.now cores.now self.old self.new)
            (λ _. IsSpoilt self.new) }
        ensures source { self.new.source ≡ self.old.source }
        ensures stocks { self.new.stocks ≡ self.old.stocks }
    {
        for lane in 0..self.lanes.len() {
            self.list_whole(lane, world)?;
            self.count_lane(lane, cores);
        }
        self.usable = true;
        Ok(())
    }

    /// Lists and marks what a lane offers of which all is left.
    fn list_whole(&mut self, lane: usize, world: &World) -> Result<(), NoMemory>
        requires reset { IsReset world.now.tables world.now.state self.old }
        requires there { lane < length self.old.trees }
        ensures lists { MatchResult result
            (λ _. ListsWhole world.now.tables world.now.state lane self.old self.new)
            (λ _. IsSpoilt self.new) }
        ensures source { self.new.source ≡ self.old.source }
        ensures stocks { self.new.stocks ≡ self.old.stocks }
    {
        if self.copy_marks(lane) {
            return Ok(());
        }
        let anew = self.list(lane, world)?;
        self.as_opened[lane] = true;
        self.mark_lane(lane, anew, world);
        Ok(())
    }

    /// Gives a lane the marks of its source, where it is listed as it was opened, and answers whether it is.
    fn copy_marks(&mut self, lane: usize) -> bool
        requires reset { AreReset self.old }
        requires there { lane < length self.old.trees }
        ensures { CopiesMarks lane result self.old self.new }
    {
        if !self.as_opened[lane] {
            return false;
        }
        let Some(marks) = self.marks.get(lane) else {
            return false;
        };
        self.lanes[lane].asks.put_marks(marks);
        true
    }

    /// Notes the marks of what each lane offers as those of its source.
    fn note_marks(&mut self, alloc: Global) -> Result<(), NoMemory>
        ensures { OnOk result (self.new ≡ with_marks self.old) }
    {
        self.marks = marks_of(alloc, self.lanes.as_slice())?;
        Ok(())
    }

    /// The lanes of a scenario, of which nothing is listed yet.
    fn unlisted(
        alloc: Global,
        scenario: &'s Scenario<A>,
        count: u32,
    ) -> Result<Lanes<'s, A, B>, NoMemory>
        ensures unlisted { IfOk result (AreUnlisted (plain scenario.entry.now)) }
        ensures fits { IfOk result (λ lanes. LanesFit lanes (plain scenario.entry.now)) }
    {
        let sources = sources_of(alloc, scenario)?;
        let lanes = lanes_of(alloc, sources.as_slice())?;
        let as_opened = vec![in alloc; false; lanes.len()]?;
        let lengths = Sums::open(alloc, lanes.len() as u32)?;
        let ready = Sums::open(alloc, lanes.len() as u32)?;
        let reached = empty_rows(alloc, count as usize + 1)?;
        Ok(Lanes {
            sources,
            marks: Vec::new(alloc),
            as_opened,
            lanes,
            lengths,
            ready,
            reached,
            usable: false,
        })
    }
}

/// The trees that go on at once at the top of a scenario, or the scenario alone.
fn sources_of<A: Allocator>(
    alloc: Global,
    scenario: &Scenario<A>,
) -> Result<Vec<&Scenario<A>>, NoMemory>
    ensures few { IfOk result (λ sources. length sources.items ≤ 2 ^ 31) }
    ensures trees { IfOk result (λ sources. trees_of (plain_each sources.items) ≡ lane_trees (plain scenario.now)) }
{
    match scenario {
        Scenario::Both(children) => {
            if children.len() > MOST_LANES {
                return only(alloc, scenario);
            }
            each_of(alloc, children.as_slice())
        }
        tree => only(alloc, tree),
    }
}

/// This tree alone.
fn only<A: Allocator>(alloc: Global, tree: &Scenario<A>) -> Result<Vec<&Scenario<A>>, NoMemory>
    ensures { IfOk result (λ sources. plain_each sources.items ≡ plain tree.now ∷ []) }
{
    let mut sources = Vec::new(alloc);
    sources.push(tree)?;
    Ok(sources)
}

/// Each of these trees.
fn each_of<A: Allocator>(
    alloc: Global,
    trees: &[Scenario<A>],
) -> Result<Vec<&Scenario<A>>, NoMemory>
    ensures { IfOk result (λ sources. plain_each sources.items ≡ map plain trees.now) }
{
    let mut sources = Vec::with_capacity(alloc, trees.len())?;
    for tree in trees {
        sources.push(tree)?;
    }
    Ok(sources)
}

/// A lane of each of these trees.
fn lanes_of<'s, A: Allocator, B: Allocator>(
    alloc: Global,
    sources: &[&'s Scenario<A>],
) -> Result<Vec<Lane<'s, A, B>>, NoMemory>
    ensures rest { IfOk result (λ lanes. trees_in lanes.items ≡ plain_each sources.now) }
    ensures fits { IfOk result (λ lanes. EachFits (stocks_in lanes.items) (trees_of (plain_each sources.now))) }
{
    let mut lanes = Vec::with_capacity(alloc, sources.len())?;
    for tree in sources {
        let lane = Lane::unlisted(alloc, *tree)?;
        lanes.push(lane)?;
    }
    Ok(lanes)
}

/// Has each of these lanes go on from all of the tree of its number.
fn restart_all<'s, A: Allocator, B: Allocator>(
    lanes: &mut Vec<Lane<'s, A, B>>,
    sources: &[&'s Scenario<A>],
)
    requires { length lanes.old.items ≡ length sources.now }
    ensures rest { trees_in lanes.new.items ≡ plain_each sources.now }
    ensures same { listed_in lanes.new.items ≡ listed_in lanes.old.items }
    ensures fits { EachFits (stocks_in lanes.old.items) (trees_of (plain_each sources.now)) →
        EachFits (stocks_in lanes.new.items) (trees_of (plain_each sources.now)) }
{
    for (number, tree) in sources.iter().enumerate() {
        lanes[number].rest.restart(*tree);
    }
}

/// The marks of what each of these lanes offers.
fn marks_of<A: Allocator, B: Allocator>(
    alloc: Global,
    lanes: &[Lane<'_, A, B>],
) -> Result<Vec<Bits>, NoMemory>
    ensures { IfOk result (λ marks. marks.items ≡ map (λ l. l.unheld) (listed_in lanes.now)) }
{
    let mut marks = Vec::with_capacity(alloc, lanes.len())?;
    for lane in lanes {
        marks.push(lane.asks.marks().try_clone(alloc)?)?;
    }
    Ok(marks)
}

/// So many empty rows.
fn empty_rows(alloc: Global, count: usize) -> Result<Vec<Vec<u32>>, NoMemory>
    ensures { IfOk result (λ rows. length rows.items ≡ count) }
{
    let mut rows = Vec::with_capacity(alloc, count)?;
    for _ in 0..count {
        rows.push(Vec::new(alloc))?;
    }
    Ok(rows)
}
