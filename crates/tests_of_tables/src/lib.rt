//! The tests of tables: of their cells, of what a text makes of them, of what is certified of them, of closed and ranked
//! pairs, and of stalls that jam.
#![tactic(auto)]

#[cfg(test)]
mod asserting;
#[cfg(test)]
mod cache_cells;
#[cfg(test)]
mod certifying;
#[cfg(test)]
mod changes;
#[cfg(test)]
mod closed_pairs;
#[cfg(test)]
mod damaged;
#[cfg(test)]
mod directory_cells;
#[cfg(test)]
mod exclusive;
#[cfg(test)]
mod explained;
#[cfg(test)]
mod jams;
#[cfg(test)]
mod making;
#[cfg(test)]
mod overrides;
