//! The check of a proof from the axioms, line by line, and its text.
#![tactic(auto)]

mod brackets;
mod check;
mod checker;
mod cited;
mod numbers;
mod places;
mod sums;
mod text;

pub use check::check_proof;
pub use fpl_lines::{Line, Lines, Proof, Rule};
pub use text::{proof_text, push_proof};
