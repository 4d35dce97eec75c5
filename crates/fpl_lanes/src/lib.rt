//! Loops over rows of residues modulo a prime, which spend most of the program's time.
#![tactic(auto)]

mod kernels;
#[cfg(test)]
mod tests;

pub use kernels::{
    axpy, first_nonzero, less_once, remainder, scale, share_of, sum_below, wide_remainder,
    wide_share_of,
};
