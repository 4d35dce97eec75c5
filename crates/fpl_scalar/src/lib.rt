//! Exact arithmetic of a field: the trait `Field`, residues modulo an accepted prime, fractions, and quotients of whole numbers.
#![tactic(auto)]

mod divisor;
mod field;
mod fraction;
mod quotients;
mod residue;
#[cfg(test)]
mod tests;
mod whole;

pub use field::Field;
pub use fpl_numbers::{Fault, Kind, Num, Op, PRIMES, Unfit};
pub use fraction::Fraction;
pub use quotients::quotient;
pub use residue::Residue;
