//! What grows and tells at the end whether memory sufficed: texts on a `Sheet`, and what is gathered on a `List`. So
//! nothing that writes on them has a failure to hand on.
#![tactic(auto)]

mod list;
mod sheet;

pub use list::List;
pub use sheet::Sheet;
