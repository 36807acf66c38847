use crate::asserting::{same, same_at};
use crate::entries::outcome_of;
use crate::making::{acting, opened, step_of, with_entry};
use base::{BlockId, CacheId, Place};
use cache_table::{CacheAction, CacheEntry, CacheEvent, CacheState};
use machine::Actor;
use monitor::{Violation, Watch, violation_after};
use std::alloc::Global;
use std::process::Abort;
use tables::Tables;
use world::World;

/// Makes a step that has this outcome, and answers what a watch sees wrong then.
fn see(
    rt: &impl Abort,
    world: &mut World,
    watch: &mut Watch,
    made: &str,
    came: &str,
) -> Option<Violation> {
    let step = step_of(rt, made);
    let outcome = world.step(step).expect(rt, "memory");
    same_at(rt, &outcome, &outcome_of(rt, came), &made);
    watch.see(world, step, outcome)
}

/// The same where a world tells more of the step. A watch that is handed that and a look without a watch have to say the same.
fn see_told(
    rt: &impl Abort,
    world: &mut World,
    watch: &mut Watch,
    made: &str,
    came: &str,
) -> Option<Violation> {
    let step = step_of(rt, made);
    let told = world.make(step).expect(rt, "memory");
    same_at(rt, &told.outcome, &outcome_of(rt, came), &made);
    let found = watch.see_made(world, step, &told);
    same_at(rt, &violation_after(world, step, &told), &found, &made);
    found
}

/// Makes these steps, and compares what is wrong after the last one. Nothing may be wrong before it.
fn see_all(
    rt: &impl Abort,
    world: &mut World,
    watch: &mut Watch,
    row: &Row<'_>,
    tells: bool,
) -> Option<Violation> {
    let mut last = None;
    let mut outcomes = row.came.split(',');
    for line in row.made.split(',') {
        same_at(rt, &last, &None, &line);
        let came = outcomes.next().expect(rt, "an outcome");
        last = if tells {
            see_told(rt, world, watch, line, came)
        } else {
            see(rt, world, watch, line, came)
        };
    }
    last
}

/// What is wrong after the last step in a world of two caches and one block at 0.
fn last_violation(
    rt: &impl Abort,
    alloc: Global,
    tables: Tables,
    row: &Row<'_>,
    tells: bool,
) -> Option<Violation> {
    let mut world = opened(rt, alloc, 2, 1, tables, 0);
    let mut watch = Watch::open(alloc, &[0]).expect(rt, "memory");
    see_all(rt, &mut world, &mut watch, row, tells)
}

/// Steps under the own tables, where the caches act in another way in one cell or have no entry there, their outcomes, and what
/// is wrong after the last one.
struct Row<'a> {
    cell: (CacheState, CacheEvent),
    acts: Option<(CacheState, &'a [CacheAction])>,
    made: &'a str,
    came: &'a str,
    wrong: &'a str,
}

const ROWS: [Row<'static>; 5] = [
    // An Inv that is answered at once.
    Row {
        cell: (CacheState::IsD, CacheEvent::Inv),
        acts: Some((CacheState::IsD, &[CacheAction::InvAck])),
        made: "ask 0 0 load,request 0 0,ask 1 0 store 5,request 0 0,forward 0 0,response 0 2,response 0 1,\
            ask 1 0 replace,response 0 0",
        came: "sent,moved,sent,moved,moved,moved,store 1 5,sent,load 0 0",
        wrong: "stale load got 0 due 5 block 0",
    },
    Row {
        cell: (CacheState::IsD, CacheEvent::Inv),
        acts: Some((CacheState::IsD, &[CacheAction::InvAck])),
        made: "ask 0 0 load,request 0 0,ask 1 0 store 5,request 0 0,forward 0 0,response 0 2,response 0 1,\
            response 0 0",
        came: "sent,moved,sent,moved,moved,moved,store 1 5,load 0 0",
        wrong: "writer 1 beside reader 0 block 0",
    },
    // A forward that has no answer.
    Row {
        cell: (CacheState::M, CacheEvent::FwdGetS),
        acts: None,
        made: "ask 0 0 store 7,request 0 0,response 0 0,ask 1 0 load,request 0 0,forward 0 0",
        came: "sent,moved,store 0 7,sent,moved,blank",
        wrong: "blank cache 0 block 0",
    },
    // A store that waits for no ack.
    Row {
        cell: (CacheState::ImAd, CacheEvent::DataDirMore),
        acts: Some((CacheState::M, &[])),
        made: "ask 0 0 load,request 0 0,response 0 0,ask 1 0 store 5,request 0 0,response 0 0",
        came: "sent,moved,load 0 0,sent,moved,store 1 5",
        wrong: "writer 1 beside reader 0 block 0",
    },
    // An owner that stays a writer.
    Row {
        cell: (CacheState::M, CacheEvent::FwdGetM),
        acts: Some((CacheState::M, &[CacheAction::DataReq])),
        made: "ask 0 0 store 7,request 0 0,response 0 0,ask 1 0 store 8,request 0 0,forward 0 0,response 0 0",
        came: "sent,moved,store 0 7,sent,moved,moved,store 1 8",
        wrong: "second writer 0 1 block 0",
    },
];

/// Under the own tables nothing is wrong.
const RIGHT: Row<'static> = Row {
    cell: (CacheState::I, CacheEvent::Inv),
    acts: None,
    made: "ask 0 0 store 7,request 0 0,response 0 0,ask 1 0 load,request 0 0,forward 0 0,response 0 0,response 0 0",
    came: "sent,moved,store 0 7,sent,moved,moved,load 1 7,moved",
    wrong: "",
};

/// The tables of a row.
fn tables_of(rt: &impl Abort, row: &Row<'_>) -> Tables {
    let (state, event) = row.cell;
    let entry = match row.acts {
        Some((next, actions)) => acting(rt, next, actions),
        None => CacheEntry::Blank,
    };
    with_entry(state, event, entry)
}

/// Compares what a violation is shown as.
fn is_shown(rt: &impl Abort, alloc: Global, violation: Violation, wanted: &str) {
    let shown = format!(in alloc; "{violation}").expect(rt, "memory");
    same(rt, &shown.as_str(), &wanted);
}

/// Holds that a row ends in what is wrong there.
fn is_wrong(rt: &impl Abort, alloc: Global, row: &Row<'_>, tells: bool) {
    let tables = tables_of(rt, row);
    let found = last_violation(rt, alloc, tables, row, tells);
    is_shown(rt, alloc, found.expect(rt, "a violation"), row.wrong);
}

#[test]
fn what_is_wrong(rt: HostRuntime) {
    for tells in [false, true] {
        let found = last_violation(&rt, rt.alloc(), Tables::baseline(), &RIGHT, tells);
        same(&rt, &found, &None);
        for row in &ROWS {
            is_wrong(&rt, rt.alloc(), row, tells);
        }
    }
}

/// The line of cache 0, which went from one state to another.
fn went(before: CacheState, after: CacheState) -> Option<Actor> {
    let cache = CacheId(0);
    Some(Actor::Line {
        cache,
        before,
        after,
    })
}

/// Compares whose cell acted at a step.
fn acts_by(rt: &impl Abort, world: &mut World, line: &str, by: Option<Actor>) {
    let made = world.make(step_of(rt, line)).expect(rt, "memory");
    let found = match made.acted {
        Some(acted) => Some(acted.by),
        None => None,
    };
    same_at(rt, &found, &by, &line);
}

#[test]
fn whose_cell_acted_is_told(rt: HostRuntime) {
    let mut world = opened(&rt, rt.alloc(), 2, 1, Tables::baseline(), 0);
    for (line, by) in &[
        ("ask 0 0 load", went(CacheState::I, CacheState::IsD)),
        ("request 0 0", Some(Actor::Home)),
        ("ask 0 0 load", None),
        ("response 0 0", went(CacheState::IsD, CacheState::S)),
        ("ask 0 0 load", went(CacheState::S, CacheState::S)),
        ("ask 0 0 replace", went(CacheState::S, CacheState::SiA)),
    ] {
        acts_by(&rt, &mut world, line, *by);
    }
}

#[test]
fn spellings(rt: HostRuntime) {
    let block = BlockId(4095);
    let rows = [
        (
            Violation::Blank {
                at: Place::Dir,
                block,
            },
            "blank directory block 4095",
        ),
        (
            Violation::Blank {
                at: Place::Cache(CacheId(3)),
                block,
            },
            "blank cache 3 block 4095",
        ),
        (
            Violation::SecondWriter {
                block,
                first: CacheId(1),
                second: CacheId(10),
            },
            "second writer 1 10 block 4095",
        ),
        (
            Violation::WriterBesideReader {
                block,
                writer: CacheId(9),
                reader: CacheId(0),
            },
            "writer 9 beside reader 0 block 4095",
        ),
        (
            Violation::StaleLoad {
                block,
                got: 0,
                due: 18446744073709551615,
            },
            "stale load got 0 due 18446744073709551615 block 4095",
        ),
    ];
    for (violation, text) in &rows {
        is_shown(&rt, rt.alloc(), *violation, text);
    }
}
