//! Supermatrices modulo a prime: their bracket, the matrices of expressions, and the text that gives one for each generator.
#![tactic(auto)]

mod assignment;
mod bracketing;
mod expression;
mod fault;
mod laws;
mod map_text;
mod matrix;
mod pieces;

pub use assignment::Assignment;
pub use bracketing::bracket;
pub use expression::{first_broken, matrix_of};
pub use fault::MapError;
pub use laws::matrices_respect;
pub use map_text::read_map;
pub use matrix::{Matrix, Shape};
