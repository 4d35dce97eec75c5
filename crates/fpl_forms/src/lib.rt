//! Sums of multiples of atoms, and the lines of a proof that bring them into order.
#![tactic(auto)]

mod brackets;
mod distinct;
mod joins;
mod keys;
mod laws;
mod ledger;
mod multiples;
mod order;
mod pairs;
mod sums;
mod term;
mod zeros;

pub use laws::{forms_add_up, sums_in_order};
pub use ledger::{Ledger, bracket};
pub use term::{Fact, Term, multiple, sum_expr, term_expr};
