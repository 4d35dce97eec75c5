//! The lines of a proof from the axioms: two sides, and the rule that leads from one to the other; and what a check asks of the sides.
#![tactic(auto)]

mod comparing;
mod line;
mod parities;

pub use comparing::{same, same_all};
pub use line::{Line, Lines, Proof, Rule};
pub use parities::shown_parities;
