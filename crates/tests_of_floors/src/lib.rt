//! The tests of floors, of crews and of how a seat ends.
#![tactic(auto)]

#[cfg(test)]
mod asserting;
#[cfg(test)]
mod crews;
#[cfg(test)]
mod ends;
#[cfg(test)]
mod entries;
#[cfg(test)]
mod floor_ends;
#[cfg(test)]
mod refusing;
#[cfg(test)]
mod setups;
#[cfg(test)]
mod turns;
