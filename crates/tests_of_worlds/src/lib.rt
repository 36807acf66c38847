//! The tests of worlds, and of the crates that a world is made of: texts and shapes, wires, events and acts, steps,
//! looks, and what a watch sees wrong.
#![tactic(auto)]

#[cfg(test)]
mod asserting;
#[cfg(test)]
mod comparing;
#[cfg(test)]
mod controllers;
#[cfg(test)]
mod entries;
#[cfg(test)]
mod making;
#[cfg(test)]
mod refusing;
#[cfg(test)]
mod restarting;
#[cfg(test)]
mod shapes_and_texts;
#[cfg(test)]
mod touching;
#[cfg(test)]
mod watches;
#[cfg(test)]
mod wires;
#[cfg(test)]
mod worlds;
