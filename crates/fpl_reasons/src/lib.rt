//! What the view `why` says: for each query a proof from the axioms, or that there is none.
#![tactic(auto)]

mod laws;
mod why;

pub use laws::whys_show;
pub use why::{Reason, Reasons, why_text};
