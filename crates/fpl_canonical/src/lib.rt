//! The canonical text of a presentation, and of an expression.
#![tactic(auto)]

mod expression;
mod writing;

pub use expression::Stand;
pub use writing::{push_side, write};
