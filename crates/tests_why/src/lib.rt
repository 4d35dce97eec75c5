//! Proofs from the axioms: for each rule a line that is an instance of it and one that isn't, the text of a proof, and that
//! a line that isn't needed is left out.
#![tactic(auto)]

#[cfg(test)]
mod lines;
#[cfg(test)]
mod needed;
#[cfg(test)]
mod tests;
