//! Completion: a presentation's table, raised weight by weight.
#![tactic(auto)]

mod accepting;
mod fault;
mod gather;
mod section;
mod state;
mod weighed;
mod weight;

pub use fault::{AdoptFault, RaiseFault};
pub use state::State;
