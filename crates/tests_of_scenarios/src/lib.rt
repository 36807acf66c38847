//! The tests of scenarios, of cursors and of cores: how scenarios are read, written and taken, as a tree, as a copy and
//! by a cursor, and when a core is free.
#![tactic(auto)]

#[cfg(test)]
mod asserting;
#[cfg(test)]
mod borrowing;
#[cfg(test)]
mod letters;
#[cfg(test)]
mod outstanding;
#[cfg(test)]
mod refusing;
#[cfg(test)]
mod scenario_taking;
#[cfg(test)]
mod scenario_texts;
