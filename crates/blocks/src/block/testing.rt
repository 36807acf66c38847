//! Tests of messages. A message is tested when it is asked whether the cell that it goes to is a stall. It counts as tested too
//! where its mark is made right, or known to be right still, without that question.
ghost use Rattle.std.specs.Prelude.{◌≡◌, true, length, slice_get};
ghost use Rattle.network.specs.Marking.{link_marked};
ghost use Rattle.network.specs.Traffic.{Traffic};
ghost use Rattle.control.specs.declared.line.LineInput.TheVariants as line_input;
ghost use Rattle.blocks.specs.Marking.{home_stalls, line_stalls, response_stalls, links_stall, marks_of};
ghost use Rattle.blocks.specs.inner.Asked.{AreFirstRight};
ghost use Rattle.blocks.specs.inner.Lined.{lines_of};
ghost use Rattle.blocks.specs.inner.Linking.{IsOwn};
ghost use Rattle.blocks.specs.inner.Tested.{block_with, requests_stall};

use crate::block::{Block, opened_line};
use crate::controllers::Controllers;
use base::{CacheId, Place};
use cache_table::CacheEntry;
use control::{Home, HomeInput, Line, LineInput, home_event, line_event};
use directory_table::DirectoryEntry;
use machine::{Decision, Origin};
use network::{Forward, Marker, Request, Response, Wires};
use rows::Sparse;
use tables::Tables;

/// What a test of all messages of a block finds.
#[derive(Clone, Copy)]
pub struct Tested {
    /// How many requests wouldn't be held.
    pub requests: u32,
    /// How many heads of links wouldn't be held.
    pub heads: u32,
    /// How many responses wouldn't be held.
    pub responses: u32,
    /// How many messages there are, all of which count as tested.
    pub messages: u64,
}

/// What a step at the line of a cache leaves as it is: all links but that to the cache, and the requests that there were.
#[derive(Clone, Copy)]
pub(crate) struct Others {
    pub(crate) cache: CacheId,
    pub(crate) requests: u32,
}

impl Block {
    ghost use Rattle.std.specs.Prelude.{◌≡◌, IfSome, length};
    ghost use Rattle.blocks.specs.inner.Asked.{AreFirstRight};
    ghost use Rattle.blocks.specs.inner.Linking.{AreRight, IsAtOwn};
    ghost use Rattle.blocks.specs.inner.Tested.{requests_stall};
    ghost use Rattle.blocks.specs.Marking.{marks_of};
    ghost use Rattle.tables.specs.Tables.{Tables};
    ghost use Rattle.blocks.specs.Tests.{IsFound};

    /// What a decision leaves as it is: it has a cell act at a line, on an input that is no request and is from no link but the
    /// line's own. `None` where that isn't so.
    #[inline(always)]
    pub(crate) fn others(&self, decision: &Decision) -> Option<Others>
        ensures own { IfSome result (λ o. IsAtOwn decision.now o.cache) }
        ensures requests { IfSome result (λ o. o.requests ≡ length self.now.state.traffic.requests) }
    {
        match *decision {
            Decision::AtLine { cache, origin, .. } if is_own(origin, cache) => Some(Others {
                cache,
                requests: self.wires.request_count(),
            }),
            _ => None,
        }
    }

    /// Marks all messages that would be held.
    fn mark_all(&mut self, controllers: &Controllers)
        ensures state { self.new.state ≡ self.old.state }
        ensures space { self.new.space ≡ self.old.space }
        ensures marks { self.new.marks ≡ marks_of controllers.now self.old.state }
    {
        mark_requests(controllers, &self.home, 0, &mut self.wires);
        mark_links(controllers, &self.lines, &mut self.wires);
        mark_responses(controllers, &self.home, &self.lines, &mut self.wires);
    }

    /// Marks all messages but those of which this is known, and whose marks are right.
    #[inline(always)]
    fn mark_but(&mut self, controllers: &Controllers, others: Others)
        requires links { AreRight controllers.now self.old.state.lines self.old.state.traffic.links others.cache.0 self.old.marks.links }
        requires requests { AreFirstRight others.requests self.old.marks.requests
            (requests_stall controllers.now.directory self.old.state.home self.old.state.traffic.requests) }
        ensures state { self.new.state ≡ self.old.state }
        ensures space { self.new.space ≡ self.old.space }
        ensures marks { self.new.marks ≡ marks_of controllers.now self.old.state }
    {
        mark_requests(controllers, &self.home, others.requests, &mut self.wires);
        let (tables, lines, cache) = (controllers.tables(), &self.lines, others.cache);
        self.wires.mark_link(
            cache,
            &OnLink {
                tables,
                lines,
                cache,
            },
        );
        mark_responses(controllers, &self.home, &self.lines, &mut self.wires);
    }

    /// Marks all messages, or only those that a step at a line may have changed, where the rest is known.
    #[inline(always)]
    pub(crate) fn mark_after(&mut self, controllers: &Controllers, others: Option<Others>)
        requires links { IfSome others (λ o.
            AreRight controllers.now self.old.state.lines self.old.state.traffic.links o.cache.0 self.old.marks.links) }
        requires requests { IfSome others (λ o. AreFirstRight o.requests self.old.marks.requests
            (requests_stall controllers.now.directory self.old.state.home self.old.state.traffic.requests)) }
        ensures state { self.new.state ≡ self.old.state }
        ensures space { self.new.space ≡ self.old.space }
        ensures marks { self.new.marks ≡ marks_of controllers.now self.old.state }
    {
        match others {
            Some(others) => self.mark_but(controllers, others),
            None => self.mark_all(controllers),
        }
    }

    /// What a test of all messages finds, where their marks are right.
    #[inline(always)]
    pub fn tested(&self) -> Tested
        ensures { (tables : Tables) → self.now.marks ≡ marks_of tables self.now.state → IsFound tables self.now.state result }
    {
        Tested {
            requests: self.wires.free_requests(),
            heads: self.wires.free_heads(),
            responses: self.wires.free_responses(),
            messages: self.wires.message_count(),
        }
    }
}

/// Whether an input at the line of a cache comes from no other cache's link, and is no request.
fn is_own(origin: Origin, cache: CacheId) -> bool
    ensures { result ≡ true → IsOwn origin cache }
{
    match origin {
        Origin::Head(link) => link.0 == cache.0,
        Origin::Core | Origin::Response(_) => true,
        Origin::Request(_) => false,
    }
}

/// The home that requests go to.
#[derive(Drop)]
struct AtHome<'a> {
    tables: &'a Tables,
    home: &'a Home,
}

impl Marker<Request> for AtHome<'_> {
    ghost use Rattle.blocks.specs.Marking.{home_stalls};
    ghost use Rattle.control.specs.declared.home.HomeInput.TheVariants as home_input;

    ghost told = { λ at request. home_stalls at.tables.now.directory at.home.now (home_input.Request request) };

    fn mark(&self, request: Request) -> bool {
        stalls_home(self.tables, self.home, HomeInput::Request(request))
    }
}

/// The link to a cache, whose line is looked for where a message is on it.
#[derive(Drop)]
struct OnLink<'a> {
    tables: &'a Tables,
    lines: &'a Sparse<Line>,
    cache: CacheId,
}

impl Marker<Forward> for OnLink<'_> {
    ghost use Rattle.std.specs.Prelude.{slice_get};
    ghost use Rattle.blocks.specs.Marking.{line_stalls};
    ghost use Rattle.blocks.specs.inner.Lined.{lines_of};
    ghost use Rattle.control.specs.declared.line.LineInput.TheVariants as line_input;

    ghost told = { λ on forward. line_stalls on.tables.now.cache (slice_get (lines_of on.lines.now.items) on.cache.0) (line_input.Forward forward) };

    fn mark(&self, forward: Forward) -> bool {
        let line = line_of(self.lines, self.cache);
        stalls_line(self.tables, line, LineInput::Forward(forward))
    }
}

/// The home and the lines that responses go to.
#[derive(Drop)]
struct AtPlaces<'a> {
    tables: &'a Tables,
    home: &'a Home,
    lines: &'a Sparse<Line>,
}

impl Marker<Response> for AtPlaces<'_> {
    ghost use Rattle.network.specs.Traffic.{quiet};
    ghost use Rattle.blocks.specs.Marking.{response_stalls};
    ghost use Rattle.blocks.specs.inner.Tested.{block_with};

    ghost told = { λ at response. response_stalls at.tables.now (block_with at.lines.now.items at.home.now (quiet 0)) response };

    fn mark(&self, response: Response) -> bool {
        stalls_response(self.tables, self.home, self.lines, response)
    }
}

/// Whether the home's cell for an input is a stall.
fn stalls_home(tables: &Tables, home: &Home, input: HomeInput) -> bool
    ensures { result ≡ home_stalls tables.now.directory home.now input }
{
    match tables.directory.entry(home.state, home_event(home, input)) {
        DirectoryEntry::Stall => true,
        DirectoryEntry::Blank | DirectoryEntry::Act { .. } => false,
    }
}

/// Whether a line's cell for an input is a stall. Where there is no line it isn't.
pub(crate) fn stalls_line(tables: &Tables, line: Option<Line>, input: LineInput) -> bool
    ensures { result ≡ line_stalls tables.now.cache line input }
{
    let Some(line) = line else {
        return false;
    };
    match tables.cache.entry(line.state, line_event(&line, input)) {
        CacheEntry::Stall => true,
        CacheEntry::Blank | CacheEntry::Act { .. } => false,
    }
}

/// The line of a cache, if the cache is there.
fn line_of(lines: &Sparse<Line>, cache: CacheId) -> Option<Line>
    ensures { result ≡ slice_get (lines_of lines.now.items) cache.0 }
{
    if let Some(line) = lines.get(cache.0) {
        return Some(*line);
    }
    opened_line(cache, lines.places())
}

/// Whether the cell of a response's receiver is a stall.
fn stalls_response(tables: &Tables, home: &Home, lines: &Sparse<Line>, response: Response) -> bool
    ensures { (traffic : Traffic) → result ≡ response_stalls tables.now (block_with lines.now.items home.now traffic) response }
{
    match response {
        Response::Data {
            from: _,
            to: Place::Dir,
            value,
            acks: _,
        } => stalls_home(tables, home, HomeInput::Data(value)),
        Response::Data {
            from: _,
            to: Place::Cache(to),
            value: _,
            acks: _,
        } => stalls_line(tables, line_of(lines, to), LineInput::Response(response)),
        Response::InvAck { from: _, to } => {
            stalls_line(tables, line_of(lines, to), LineInput::Response(response))
        }
        Response::DataExcl { to, value: _ } => {
            stalls_line(tables, line_of(lines, to), LineInput::Response(response))
        }
    }
}

/// Marks all requests, of which the first so many are marked right. Where none would be held, none is looked at.
#[inline(always)]
fn mark_requests(controllers: &Controllers, home: &Home, right: u32, wires: &mut Wires)
    requires { AreFirstRight right wires.old.marks.requests (requests_stall controllers.now.directory home.now wires.old.traffic.requests) }
    ensures traffic { wires.new.traffic ≡ wires.old.traffic }
    ensures room { wires.new.room ≡ wires.old.room }
    ensures marks { wires.new.marks ≡ record wires.old.marks {
      requests = requests_stall controllers.now.directory home.now wires.old.traffic.requests;
    } }
{
    if controllers.are_clear(home.state) {
        wires.unmark_requests();
        return;
    }
    let tables = controllers.tables();
    wires.mark_requests(u64::from(right), &AtHome { tables, home });
}

/// Marks what is on the link to a cache. Where its line holds nothing that comes there, it isn't looked at but for marks.
#[inline(always)]
fn mark_link(controllers: &Controllers, lines: &Sparse<Line>, cache: CacheId, wires: &mut Wires)
    ensures { wires.new ≡ link_marked cache.0 (λ forward. line_stalls controllers.now.cache (slice_get (lines_of lines.now.items) cache.0)
        (line_input.Forward forward)) wires.old }
{
    if let Some(line) = lines.get(cache.0)
        && controllers.forwards_pass(line.state)
    {
        wires.unmark_link(cache);
        return;
    }
    let tables = controllers.tables();
    wires.mark_link(
        cache,
        &OnLink {
            tables,
            lines,
            cache,
        },
    );
}

/// Marks what is on all links.
fn mark_links(controllers: &Controllers, lines: &Sparse<Line>, wires: &mut Wires)
    ensures traffic { wires.new.traffic ≡ wires.old.traffic }
    ensures room { wires.new.room ≡ wires.old.room }
    ensures marks { wires.new.marks ≡ record wires.old.marks {
      links = links_stall controllers.now.cache (lines_of lines.now.items) 0 wires.old.traffic.links;
    } }
{
    let mut from = 0;
    let links = wires.link_count();
    while from < links {
        let Some(cache) = wires.next_waiting(from) else {
            return;
        };
        mark_link(controllers, lines, cache, wires);
        from = cache.0 + 1;
    }
}

/// Marks all responses. Where none ever would be held, they aren't looked at.
#[inline(always)]
fn mark_responses(controllers: &Controllers, home: &Home, lines: &Sparse<Line>, wires: &mut Wires)
    ensures traffic { wires.new.traffic ≡ wires.old.traffic }
    ensures room { wires.new.room ≡ wires.old.room }
    ensures marks { wires.new.marks ≡ record wires.old.marks {
      responses = (marks_of controllers.now (block_with lines.now.items home.now wires.old.traffic)).responses;
    } }
{
    if controllers.responses_pass() {
        wires.unmark_responses();
    } else {
        let tables = controllers.tables();
        wires.mark_responses(&AtPlaces {
            tables,
            home,
            lines,
        });
    }
}
