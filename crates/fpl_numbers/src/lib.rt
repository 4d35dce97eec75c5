//! The numbers of the two kinds of field: residues modulo an accepted prime, and fractions.
#![tactic(auto)]

mod laws;
mod number;

pub use laws::{
    gcd_is_greatest, numbers_are_of_their_field, primes_are_prime, quotients_are_of_their_field,
    residues_fit, small_operations_fit, whole_numbers_are_sums_of_units,
};
pub use number::{Fault, Kind, Num, Op, PRIMES, Unfit, is_listed};
