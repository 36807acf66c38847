//! Texts that are damaged at each of their bytes in turn: something is told of each that is refused, and nothing of the others.

use base::Shape;
use base::controller::Protocol;
use explaining::{explain_scenario, explain_tables};
use scenario::Scenario;
use std::alloc::Global;
use std::process::Abort;
use tables::Tables;

const TABLE: &str =
    r#"{"cache":[{"state":"E","event":"Inv","entry":{"next":"I","do":["inv-ack","gets"]}},
    {"state":"S","event":"Inv","entry":"stall"},{"state":"I","event":"Inv","entry":"blank"}],
    "directory":[{"event":"GetS","state":"I","entry":"stall"},{"event":"GetM","state":"I","entry":{"do":[],"next":"M"}}]}"#;

const SCENARIO: &str =
    r#"{"both":[{"seq":[{"op":"load","core":0,"block":0},{"op":"store","core":1,"block":0,"value":50}]},
    {"times":999,"of":{"any":[{"op":"replace","core":1,"block":1},{"seq":[]}]}}]}"#;

/// What stands in place of a byte.
const DAMAGES: &[&str] = &["", "x", "0", "2", "\"", ",", "]", "}", "-1,"];

/// A text of bytes below 128 with these bytes in place of one.
fn damaged(rt: &impl Abort, alloc: Global, text: &str, at: usize, damage: &str) -> String {
    let front = text.get(..at).expect(rt, "a front");
    let rest = text.get(at.saturating_add(1)..).expect(rt, "a rest");
    format!(in alloc; "{front}{damage}{rest}").expect(rt, "memory")
}

/// Stops a test where it isn't so with these bytes in place of the one there.
fn is_told_of(rt: &impl Abort, is_so: bool, at: usize, damage: &str) {
    assert_eq!(rt; is_so, true, "{damage} at {at}");
}

/// Whether something is told of these tables where they are refused, and nothing else.
fn tables_are_told_of(alloc: Global, bytes: &[u8]) -> bool {
    let is_read = Tables::from_json_of(alloc, Protocol::MsiE, bytes).is_ok();
    let told = explain_tables(alloc, Protocol::MsiE, bytes);
    told.is_empty() == is_read
}

/// The same of a scenario.
fn scenario_is_told_of(alloc: Global, shape: Shape, bytes: &[u8]) -> bool {
    let is_read = Scenario::read(alloc, alloc, bytes, shape).is_ok();
    let told = explain_scenario(alloc, shape, bytes);
    told.is_empty() == is_read
}

fn damage_tables(rt: &impl Abort, alloc: Global, at: usize) {
    for damage in DAMAGES {
        let text = damaged(rt, alloc, TABLE, at, damage);
        let is_so = tables_are_told_of(alloc, text.as_bytes());
        is_told_of(rt, is_so, at, damage);
    }
}

fn damage_scenario(rt: &impl Abort, alloc: Global, shape: Shape, at: usize) {
    for damage in DAMAGES {
        let text = damaged(rt, alloc, SCENARIO, at, damage);
        let is_so = scenario_is_told_of(alloc, shape, text.as_bytes());
        is_told_of(rt, is_so, at, damage);
    }
}

#[test]
fn damaged_tables(rt: HostRuntime) {
    for at in 0..TABLE.len() {
        damage_tables(&rt, rt.alloc(), at);
    }
}

#[test]
fn damaged_scenarios(rt: HostRuntime) {
    let shape = Shape::new(2, 2).expect(&rt, "a shape");
    for at in 0..SCENARIO.len() {
        damage_scenario(&rt, rt.alloc(), shape, at);
    }
}
