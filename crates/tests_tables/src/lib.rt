//! Tables from their texts: of type A4, as worked by hand.
#![tactic(auto)]

#[cfg(test)]
mod tests;
