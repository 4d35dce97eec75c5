//! Matrices from their texts: what holds for them, brackets worked by hand, and each refusal.
#![tactic(auto)]

#[cfg(test)]
mod tests;
