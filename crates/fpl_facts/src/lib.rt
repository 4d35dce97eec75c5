//! Facts that need no table: axioms, what is 0, brackets exchanged, squares of even expressions.
#![tactic(auto)]

mod axioms;
mod pairs;
mod voids;
mod zeros;

pub use axioms::{cube, jacobi, relation, swap};
pub use pairs::{square, swapped};
pub use voids::{residue_part, void_left, void_right};
pub use zeros::{less, plus_zero, zero_times};
