//! Proofs from the axioms that the two sides of a query are equal.
#![tactic(auto)]

mod closed;
mod learn;
mod level;
mod origins;
mod proving;
mod steps;
mod taking;

pub use proving::{WhyError, prove};
