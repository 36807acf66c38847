//! The tests of recordings: their lines, their texts in both versions, and their replays.
#![tactic(auto)]

#[cfg(test)]
mod asserting;
#[cfg(test)]
mod entries;
#[cfg(test)]
mod exclusive;
#[cfg(test)]
mod lines;
#[cfg(test)]
mod making;
#[cfg(test)]
mod plain_lines;
#[cfg(test)]
mod recordings;
#[cfg(test)]
mod refusing;
#[cfg(test)]
mod text_replays;
#[cfg(test)]
mod versions;
