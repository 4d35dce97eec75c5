//! The check of a section: whoever made it, what passes is the standard table's next weight.
#![tactic(auto)]

mod check;
mod cites;
mod closed;
mod closing;
mod fault;
mod laws;
mod leads;
mod marking;
mod origin;
mod origins;
mod reach;
mod remainder;
mod steps;
mod stored;
mod taking;

pub use check::check_section;
pub use fault::{CheckFault, Spot, Why};
pub use laws::{accepted, checks_over_primes};
pub use origins::count_origins;
pub use reach::{is_late, reach_of};
