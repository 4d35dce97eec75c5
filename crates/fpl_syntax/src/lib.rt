//! The grammar of the input language: sentences of terminals, and what they claim.
#![tactic(auto)]

mod coefficient;
mod enclosing;
mod expression;
mod naming;
mod parser;
mod scope;
mod terminal;

pub use coefficient::minus_one;
pub use naming::number_of;
pub use parser::{Claim, State, one_outcome, step_state};
pub use scope::Scope;
pub use terminal::{ClaimKind, Numeral, Terminal, Word};
