//! Words and products of the enveloping superalgebra, as worked by hand.
#![tactic(auto)]

#[cfg(test)]
mod tests;
