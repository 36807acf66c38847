//! The tests of desks, of workers that share out a batch, in turn and by threads, and of threads that find what others
//! posted.
#![tactic(auto)]

#[cfg(test)]
mod asserting;
#[cfg(test)]
mod desk_rows;
#[cfg(test)]
mod desks;
#[cfg(test)]
mod jobs;
#[cfg(test)]
mod refusing;
#[cfg(test)]
mod workers;
