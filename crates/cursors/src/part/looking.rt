//! What a part offers, and whether it may end: its parts in use come first, and then what is behind them.

ghost use Rattle.std.specs.Prelude.{◌≡◌, ◌++◌, OnOk, length, map, take};
ghost use Rattle.cursors.specs.Cursors.{progress};
ghost use Rattle.cursors.specs.inner.Parts.{all_left, behind, count_at, part_left};
ghost use Rattle.scenario.specs.Seeking.{sought};
ghost use Rattle.scenario.specs.Taking.{all_end, ends, offers, offers_of_all};

use super::{Part, PartPlace};
use base::{CoreAsk, NoMemory};
use scenario::looking::{all_may_end, offers_in_turn, offers_of_tree, tree_may_end};
use scenario::seeking::{HasOffers, seek_in_tree, seek_in_turn};
use std::alloc::Allocator;

impl<'t, A: Allocator, B: Allocator> Part<'t, A, B> {
    ghost use Rattle.std.specs.Prelude.{◌≡◌, ◌<◌, map, take};
    ghost use Rattle.cursors.specs.Cursors.{progress};
    ghost use Rattle.cursors.specs.inner.Parts.{count_at, height, highest, parts_of, place_of};

    /// The parts in use, but for those that were never made: nothing is left of these.
    #[tactic(auto, using(crate::proofs::Cursors::parts))]
    pub(super) fn in_use(&self) -> &[Part<'t, A, B>]
        ensures parts { map progress result.now ≡ take (count_at (place_of self.now)) (parts_of self.now) }
        ensures lower { highest (map progress result.now) < height (progress self.now) }
    {
        let parts = self.parts();
        let count = parts_at(self.place());
        &parts[..count.min(parts.len())]
    }
}

/// How many parts are in use at a place.
fn parts_at<A: Allocator>(place: PartPlace<'_, A>) -> usize
    ensures { result ≡ count_at place.entry }
{
    match place {
        PartPlace::Nothing | PartPlace::Whole(_) => 0,
        PartPlace::InSeq(_) | PartPlace::InTimes(..) => 1,
        PartPlace::InBoth(count) => count,
    }
}

#[cycle(ending_of_parts)]
#[tactic(auto, using(crate::proofs::Cursors::parts))]
pub(crate) fn part_may_end<A: Allocator, B: Allocator>(part: &Part<'_, A, B>) -> bool
    ensures { result ≡ ends (part_left part.now) }
{
    parts_may_end(part.in_use()) && behind_may_end(part.place())
}

#[cycle(ending_of_parts)]
fn parts_may_end<A: Allocator, B: Allocator>(parts: &[Part<'_, A, B>]) -> bool
    ensures { result ≡ all_end (all_left (map progress parts.now)) }
{
    for part in parts {
        if !part_may_end(part) {
            return false;
        }
    }
    true
}

fn behind_may_end<A: Allocator>(place: PartPlace<'_, A>) -> bool
    ensures { result ≡ ends (behind place.entry) }
{
    match place {
        PartPlace::Nothing | PartPlace::InBoth(_) => true,
        PartPlace::Whole(tree) => tree_may_end(tree),
        PartPlace::InSeq(others) => all_may_end(others),
        PartPlace::InTimes(turns, child) => turns == 0 || tree_may_end(child),
    }
}

impl<'t, A: Allocator, B: Allocator> HasOffers for Part<'t, A, B> {
    ghost use Rattle.cursors.specs.inner.Parts.{part_left};

    ghost tree = { part_left };

    fn seek(&self, at: usize) -> Result<CoreAsk, usize> {
        seek_in_part(self, at)
    }

    fn append_offers(&self, out: &mut Vec<CoreAsk>) -> Result<(), NoMemory> {
        offers_of_part(self, out)
    }
}

#[cycle(seeking_in_parts)]
fn seek_in_part<A: Allocator, B: Allocator>(
    part: &Part<'_, A, B>,
    at: usize,
) -> Result<CoreAsk, usize>
    ensures { result ≡ sought (offers (part_left part.now)) at }
{
    let parts = part.in_use();
    match seek_in_parts(parts, at) {
        Ok(ask) => Ok(ask),
        Err(further) => {
            if !parts_may_end(parts) {
                return Err(further);
            }
            seek_behind(part.place(), further)
        }
    }
}

#[cycle(seeking_in_parts)]
fn seek_in_parts<A: Allocator, B: Allocator>(
    parts: &[Part<'_, A, B>],
    at: usize,
) -> Result<CoreAsk, usize>
    ensures { result ≡ sought (offers_of_all (all_left (map progress parts.now))) at }
{
    let mut further = at;
    for part in parts {
        match seek_in_part(part, further) {
            Ok(ask) => return Ok(ask),
            Err(behind) => further = behind,
        }
    }
    Err(further)
}

fn seek_behind<A: Allocator>(place: PartPlace<'_, A>, at: usize) -> Result<CoreAsk, usize>
    ensures { result ≡ sought (offers (behind place.entry)) at }
{
    match place {
        PartPlace::Nothing | PartPlace::InBoth(_) => Err(at),
        PartPlace::Whole(tree) => seek_in_tree(tree, at),
        PartPlace::InSeq(others) => seek_in_turn(others, at),
        PartPlace::InTimes(turns, child) => {
            if turns == 0 {
                return Err(at);
            }
            seek_in_tree(child, at)
        }
    }
}

#[cycle(offering_of_parts)]
#[tactic(auto, using(scenario::proofs::Fronts::fronts))]
fn offers_of_part<A: Allocator, B: Allocator>(
    part: &Part<'_, A, B>,
    out: &mut Vec<CoreAsk>,
) -> Result<(), NoMemory>
    ensures ok { OnOk result (out.new.items ≡ out.old.items ++ offers (part_left part.now)) }
    ensures front { take (length out.old.items) out.new.items ≡ out.old.items }
{
    let parts = part.in_use();
    offers_of_parts(parts, out)?;
    if parts_may_end(parts) {
        offers_behind(part.place(), out)?;
    }
    Ok(())
}

#[cycle(offering_of_parts)]
#[tactic(auto, using(scenario::proofs::Fronts::fronts))]
fn offers_of_parts<A: Allocator, B: Allocator>(
    parts: &[Part<'_, A, B>],
    out: &mut Vec<CoreAsk>,
) -> Result<(), NoMemory>
    ensures ok { OnOk result (out.new.items ≡ out.old.items ++ offers_of_all (all_left (map progress parts.now))) }
    ensures front { take (length out.old.items) out.new.items ≡ out.old.items }
{
    for part in parts {
        offers_of_part(part, out)?;
    }
    Ok(())
}

#[tactic(auto, using(scenario::proofs::Fronts::fronts))]
fn offers_behind<A: Allocator>(
    place: PartPlace<'_, A>,
    out: &mut Vec<CoreAsk>,
) -> Result<(), NoMemory>
    ensures ok { OnOk result (out.new.items ≡ out.old.items ++ offers (behind place.entry)) }
    ensures front { take (length out.old.items) out.new.items ≡ out.old.items }
{
    match place {
        PartPlace::Nothing | PartPlace::InBoth(_) => Ok(()),
        PartPlace::Whole(tree) => offers_of_tree(tree, out),
        PartPlace::InSeq(others) => offers_in_turn(others, out),
        PartPlace::InTimes(turns, child) => {
            if turns == 0 {
                return Ok(());
            }
            offers_of_tree(child, out)
        }
    }
}
