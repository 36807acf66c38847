//! Tables that a text changes.

use crate::asserting::same_at;
use crate::making::{acting, with_entry};
use cache_table::{CacheAction, CacheEntry, CacheEvent, CacheState};
use directory_table::{DirectoryEntry, DirectoryEvent, DirectoryState};
use std::alloc::Global;
use std::process::Abort;
use tables::{Tables, TablesFault};

/// Compares what a text makes of the baseline.
pub fn makes(rt: &impl Abort, alloc: Global, text: &str, wanted: Result<Tables, TablesFault>) {
    let found = Tables::from_json(alloc, text.as_bytes());
    same_at(rt, &found, &wanted, &text);
}

/// The baseline, where a cache that waits for its data answers an Inv at once.
fn answers_at_once(rt: &impl Abort) -> Tables {
    let acks = acting(rt, CacheState::IsD, &[CacheAction::InvAck]);
    with_entry(CacheState::IsD, CacheEvent::Inv, acks)
}

/// The same, and a blank and a stall.
fn on_both_sides(mut tables: Tables) -> Tables {
    tables.cache = tables
        .cache
        .with(CacheState::M, CacheEvent::FwdGetS, CacheEntry::Blank);
    tables.directory = tables.directory.with(
        DirectoryState::I,
        DirectoryEvent::GetS,
        DirectoryEntry::Stall,
    );
    tables
}

const REFUSED: [(&str, TablesFault); 19] = [
    ("", TablesFault::NotJson),
    ("{} {}", TablesFault::NotJson),
    ("[]", TablesFault::BadShape),
    (r#"{"cache":{}}"#, TablesFault::BadShape),
    (r#"{"caches":[]}"#, TablesFault::BadShape),
    (
        r#"{"cache":[{"state":"X","event":"Inv","entry":"stall"}],"directory":0}"#,
        TablesFault::BadShape,
    ),
    (
        r#"{"cache":[{"state":"S","event":"Inv"}]}"#,
        TablesFault::BadShape,
    ),
    (
        r#"{"cache":[{"state":"S","event":"Inv","entry":"stall","by":1}]}"#,
        TablesFault::BadShape,
    ),
    (
        r#"{"cache":[{"state":"S","event":"Inv","entry":"wait"}]}"#,
        TablesFault::BadShape,
    ),
    (
        r#"{"cache":[{"state":"X","event":"Y","entry":{"next":"S","do":[1]}}]}"#,
        TablesFault::BadShape,
    ),
    (
        r#"{"cache":[{"state":"S","event":"Inv","entry":{"next":"I","do":["puts","puts","puts","puts","puts","puts","puts","puts","puts"]}}]}"#,
        TablesFault::BadShape,
    ),
    (
        r#"{"cache":[{"state":"X","event":"Inv","entry":"stall"}]}"#,
        TablesFault::UnknownState,
    ),
    (
        r#"{"cache":[{"state":"S","event":"Y","entry":{"next":"X","do":["z"]}}]}"#,
        TablesFault::UnknownState,
    ),
    (
        r#"{"directory":[{"state":"IS^D","event":"GetS","entry":"stall"}]}"#,
        TablesFault::UnknownState,
    ),
    (
        r#"{"cache":[{"state":"S","event":"GetS","entry":{"next":"I","do":["z"]}}]}"#,
        TablesFault::UnknownEvent,
    ),
    (
        r#"{"directory":[{"state":"I","event":"GetS","entry":{"next":"S","do":["putm"]}}]}"#,
        TablesFault::UnknownAction,
    ),
    (
        r#"{"cache":[{"state":"S","event":"Inv","entry":"stall"},{"state":"S","event":"Inv","entry":"stall"}]}"#,
        TablesFault::SameCellTwice,
    ),
    (
        r#"{"cache":[{"state":"S","event":"Inv","entry":"stall"},{"state":"S","event":"Inv","entry":{"next":"S","do":["z"]}}]}"#,
        TablesFault::UnknownAction,
    ),
    (
        r#"{"directory":[0],"cache":[{"state":"S","event":"Y","entry":"stall"},{"state":"X","event":"Inv","entry":"stall"}]}"#,
        TablesFault::UnknownEvent,
    ),
];

#[test]
fn overrides_lie_over_the_baseline(rt: HostRuntime) {
    for text in &[
        "{}",
        r#"{"cache":[],"directory":[]}"#,
        r#"{"cache":[{"state":"S","event":"Store","entry":"stall"}],"cache":[]}"#,
    ] {
        makes(&rt, rt.alloc(), text, Ok(Tables::baseline()));
    }
    let tables = answers_at_once(&rt);
    let one =
        r#"{"cache":[{"state":"IS^D","event":"Inv","entry":{"next":"IS^D","do":["inv-ack"]}}]}"#;
    makes(&rt, rt.alloc(), one, Ok(tables));
    let both = r#" {"directory": [{"entry": "stall", "event": "GetS", "state": "I"}],
                 "cache": [{"entry": {"do": ["inv-ack"], "next": "IS^D"}, "event": "Inv", "state": "IS^D"},
                           {"state": "M", "event": "Fwd-GetS", "entry": "blank"}]}"#;
    makes(&rt, rt.alloc(), both, Ok(on_both_sides(tables)));
}

#[test]
fn refused_overrides(rt: HostRuntime) {
    for (text, fault) in &REFUSED {
        makes(&rt, rt.alloc(), text, Err(*fault));
    }
}
