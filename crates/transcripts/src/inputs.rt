//! Scenarios, in JSON, of which the seed draws the values of stores and, where only some asks are offered, these.

use schedule::Dice;
use sheet::Sheet;

/// How many values a store may have.
const VALUES: u64 = 1000;

/// Two cores load from and store to one block, in opposite orders.
pub fn racing_pair(sheet: &mut Sheet, seed: u32) {
    let mut dice = Dice::new(u64::from(seed), 0);
    sheet.push(r#"{"both":[{"seq":["#);
    put_load(sheet, 0, 0);
    sheet.push(",");
    put_store(sheet, 0, 0, dice.pick(VALUES));
    sheet.push(r#"]},{"seq":["#);
    put_store(sheet, 1, 0, dice.pick(VALUES));
    sheet.push(",");
    put_load(sheet, 1, 0);
    sheet.push("]}]}");
}

/// A core gives a block back as soon as it has stored to it, while others load it.
pub fn late_loads(sheet: &mut Sheet, seed: u32) {
    let mut dice = Dice::new(u64::from(seed), 0);
    sheet.push(r#"{"both":[{"seq":["#);
    put_store(sheet, 0, 0, dice.pick(VALUES));
    sheet.push(",");
    put_replace(sheet, 0, 0);
    sheet.push("]}");
    for core in 1..4 {
        sheet.push(r#",{"times":2,"of":"#);
        put_load(sheet, core, 0);
        sheet.push("}");
    }
    sheet.push("]}");
}

/// Each core, so many times, loads from, stores to or replaces any block.
pub fn all_asks(sheet: &mut Sheet, cores: u32, blocks: u32, turns: u32, seed: u32) {
    let mut dice = Dice::new(u64::from(seed), 0);
    sheet.push(r#"{"both":["#);
    for core in 0..cores {
        begin_lane(sheet, core, turns);
        for block in 0..blocks {
            begin_next(sheet, block);
            put_load(sheet, core, block);
            sheet.push(",");
            put_store(sheet, core, block, dice.pick(VALUES));
            sheet.push(",");
            put_replace(sheet, core, block);
        }
        sheet.push("]}}");
    }
    sheet.push("]}");
}

/// Each 16th core, so many times, one of eight asks at blocks that dice choose.
pub fn some_asks(sheet: &mut Sheet, cores: u32, blocks: u32, turns: u32, seed: u32) {
    let mut dice = Dice::new(u64::from(seed), 0);
    sheet.push(r#"{"both":["#);
    for lane in 0..cores / 16 {
        begin_lane(sheet, lane, turns);
        for place in 0..8 {
            begin_next(sheet, place);
            put_drawn(sheet, lane * 16, blocks, 1, &mut dice);
        }
        sheet.push("]}}");
    }
    sheet.push("]}");
}

/// Each 16th core, so many times, one of six asks at 200 blocks, 20 apart, of which dice choose: others have them too.
pub fn shared_asks(sheet: &mut Sheet, cores: u32, turns: u32, seed: u32) {
    let mut dice = Dice::new(u64::from(seed), 0);
    sheet.push(r#"{"both":["#);
    for lane in 0..cores / 16 {
        begin_lane(sheet, lane, turns);
        for place in 0..6 {
            begin_next(sheet, place);
            put_drawn(sheet, lane * 16, 200, 20, &mut dice);
        }
        sheet.push("]}}");
    }
    sheet.push("]}");
}

fn begin_lane(sheet: &mut Sheet, lane: u32, turns: u32) {
    begin_next(sheet, lane);
    sheet.put(&format_args!(r#"{{"times":{turns},"of":{{"any":["#));
}

/// A comma, but before the first of a list.
fn begin_next(sheet: &mut Sheet, place: u32) {
    if place > 0 {
        sheet.push(",");
    }
}

/// An ask that dice choose, every second one a load, about one of so many blocks that are so far apart.
fn put_drawn(sheet: &mut Sheet, core: u32, blocks: u32, apart: u32, dice: &mut Dice) {
    let block = dice.pick(u64::from(blocks.max(1))).saturating_mul(apart);
    match dice.pick(4) {
        0 => put_store(sheet, core, block, dice.pick(VALUES)),
        1 => put_replace(sheet, core, block),
        _ => put_load(sheet, core, block),
    }
}

fn put_load(sheet: &mut Sheet, core: u32, block: u32) {
    sheet.put(&format_args!(r#"{{"op":"load","core":{core},"block":{block}}}"#));
}

fn put_store(sheet: &mut Sheet, core: u32, block: u32, value: u32) {
    sheet.put(&format_args!(r#"{{"op":"store","core":{core},"block":{block},"value":{value}}}"#));
}

fn put_replace(sheet: &mut Sheet, core: u32, block: u32) {
    sheet.put(&format_args!(r#"{{"op":"replace","core":{core},"block":{block}}}"#));
}
