use base::controller::Protocol;
use cache_table::{CacheAction, CacheActions, CacheEntry, CacheEvent, CacheState};
use closing::{Flow, Refusal, closed_pairs, gather, shown_by};
use std::alloc::Global;
use std::process::Abort;
use tables::Tables;

/// How many pairs are closed under tables, and what they show of what gets stuck, if any are.
fn closed(rt: &impl Abort, alloc: Global, tables: &Tables) -> Option<(usize, Flow)> {
    match closed_pairs(alloc, tables) {
        Ok(found) => Some((found.pairs.len(), found.flow)),
        Err(refusal) => {
            assert!(rt; !matches!(refusal, Refusal::NoMemory), "memory");
            None
        }
    }
}

#[test]
fn pairs_of_the_own_tables(rt: HostRuntime) {
    let alloc = rt.alloc();
    let counts = [
        (Protocol::Msi, 6313usize, 7138usize),
        (Protocol::MsiE, 8463, 9623),
    ];
    for (protocol, count, ranked) in counts {
        let tables = Tables::baseline_of(protocol);
        let found = closed(&rt, alloc, &tables);
        assert_eq!(rt; found, Some((count, Flow::NeverStuck)));
        let list = gather(alloc, &tables).expect(&rt, "ranked pairs");
        assert_eq!(rt; list.len(), ranked);
    }
}

#[test]
fn a_list_that_misses_a_pair(rt: HostRuntime) {
    let alloc = rt.alloc();
    let tables = Tables::baseline();
    let list = gather(alloc, &tables).expect(&rt, "ranked pairs");
    for place in [0usize, 1, 999, 2500, 4096, 7137] {
        let mut fewer = list.clone().expect(&rt, "memory");
        if place < fewer.len() {
            fewer.remove(place);
        }
        let shown = shown_by(alloc, &tables, &fewer).expect(&rt, "memory");
        assert_eq!(rt; shown, None, "without {place}");
    }
}

/// Each change of a cell with the number of pairs that come about then, if their list is closed.
type Change = (
    CacheState,
    CacheEvent,
    CacheState,
    &'static [CacheAction],
    Option<usize>,
);

/// Fails the test unless as many pairs come about after each change.
fn are_told(rt: &impl Abort, alloc: Global, changes: &[Change]) {
    for (state, event, next, actions, wanted) in changes {
        let actions = CacheActions::of(actions).expect(rt, "few actions");
        let mut tables = Tables::baseline();
        tables.cache = tables.cache.with(
            *state,
            *event,
            CacheEntry::Act {
                next: *next,
                actions,
            },
        );
        let count = closed(rt, alloc, &tables).map(|found| found.0);
        assert_eq!(rt; count, *wanted, "at {state:?} {event:?}");
    }
}

#[test]
fn changes_of_one_cell(rt: HostRuntime) {
    let changes: [Change; 3] = [
        // A load asks for the block to write.
        (
            CacheState::I,
            CacheEvent::Load,
            CacheState::ImAd,
            &[CacheAction::GetM],
            Some(2639),
        ),
        // A store that has its Data waits no longer for acks.
        (
            CacheState::ImAd,
            CacheEvent::DataDirMore,
            CacheState::M,
            &[],
            None,
        ),
        // A sharer gives its copy up and tells nobody, and isn't ready for an Inv.
        (
            CacheState::S,
            CacheEvent::Replacement,
            CacheState::I,
            &[],
            None,
        ),
    ];
    are_told(&rt, rt.alloc(), &changes);
}

#[test]
fn changes_that_send_too_much_or_too_little(rt: HostRuntime) {
    let changes: [Change; 4] = [
        // An Inv at a copy is answered twice.
        (
            CacheState::S,
            CacheEvent::Inv,
            CacheState::I,
            &[CacheAction::InvAck, CacheAction::InvAck],
            None,
        ),
        // It isn't answered.
        (
            CacheState::S,
            CacheEvent::Inv,
            CacheState::I,
            &[],
            Some(8433),
        ),
        // A writer sends an Inv-Ack in place of its Data.
        (
            CacheState::M,
            CacheEvent::FwdGetM,
            CacheState::I,
            &[CacheAction::InvAck],
            Some(6577),
        ),
        // A sharer that asked to write asks once more.
        (
            CacheState::SmAd,
            CacheEvent::FwdGetS,
            CacheState::ImAd,
            &[CacheAction::GetM],
            Some(6723),
        ),
    ];
    are_told(&rt, rt.alloc(), &changes);
}

#[test]
fn changes_by_which_something_waits(rt: HostRuntime) {
    let alloc = rt.alloc();
    let rows: [(CacheState, CacheEvent, CacheEntry, Flow); 5] = [
        // A load is held for good where there is no copy, and no message is.
        (
            CacheState::I,
            CacheEvent::Load,
            CacheEntry::Stall,
            Flow::AsksMayBeHeld,
        ),
        // A store that has its Data waits for acks that wait for nothing.
        (
            CacheState::ImAd,
            CacheEvent::InvAck,
            CacheEntry::Stall,
            Flow::NeverStuck,
        ),
        // It holds the very acks that it waits for.
        (
            CacheState::ImA,
            CacheEvent::InvAck,
            CacheEntry::Stall,
            Flow::MessagesMayGetStuck,
        ),
        // An Inv waits at a copy for good.
        (
            CacheState::S,
            CacheEvent::Inv,
            CacheEntry::Stall,
            Flow::MessagesMayGetStuck,
        ),
        // A load goes on waiting when its Data has come.
        (
            CacheState::IsD,
            CacheEvent::DataDirZero,
            CacheEntry::Act {
                next: CacheState::SmAd,
                actions: CacheActions::of(&[]).expect(&rt, "few actions"),
            },
            Flow::AsksMayBeHeld,
        ),
    ];
    for (state, event, entry, wanted) in rows {
        let mut tables = Tables::baseline();
        tables.cache = tables.cache.with(state, event, entry);
        let found = closed(&rt, alloc, &tables).map(|found| found.1);
        assert_eq!(rt; found, Some(wanted), "at {state:?} {event:?}");
    }
}
