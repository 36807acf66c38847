//! The commands of `msi` that look at tables and scenarios, over streams that they are given: they print tables, certify
//! them (with schedules, as data, that get stuck), print them as a model in Murphi, for rumur, and check tables and
//! scenarios.
#![tactic(auto)]

mod cells;
mod certificates;
mod changes;
mod checking;
mod counting;
mod jamming;
mod listing;
mod model_cells;
mod model_names;
mod model_texts;
mod modelling;
mod objects;
mod printing;
mod refusals;
mod schedules;
mod schedules_with_e;
mod sides;

pub use certificates::{CertificateForm, print_certificate};
pub use changes::print_changes;
pub use checking::{Bounds, check};
pub use modelling::{MOST_CACHES, print_model};
pub use printing::print_tables;
