//! Sessions of `msi`, and the jobs that its users wait for, as whatever serves command lines goes through them in memory.
//! What each command line comes to is compared with what is written.
#![tactic(auto)]

mod comparing;
mod digest;
mod escapes;
mod fault;
mod inputs;
mod jobs;
mod kinds;
mod output;
mod rerun;
mod serving;
mod session;
mod streams;

pub use comparing::{Comparison, compare};
pub use fault::SessionFault;
pub use jobs::tell_jobs;
pub use output::Output;
pub use serving::Server;
pub use streams::Input;
