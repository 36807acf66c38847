//! The tests of choices, of moments, of trials and of batches, those that are spread over threads too.
#![tactic(auto)]

#[cfg(test)]
mod asserting;
#[cfg(test)]
mod choosing;
#[cfg(test)]
mod entries;
#[cfg(test)]
mod making;
#[cfg(test)]
mod refusing;
#[cfg(test)]
mod refusing_moments;
#[cfg(test)]
mod restarting;
#[cfg(test)]
mod spreading;
#[cfg(test)]
mod trying;
#[cfg(test)]
mod worlds;
