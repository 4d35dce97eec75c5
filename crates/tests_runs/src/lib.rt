//! Runs whose reads and puts fail, one after the other.
#![tactic(auto)]

ghost use Rattle.std.specs.Prelude.{◌≡◌, ◌≤◌, ◌<◌};

#[cfg(test)]
mod tests;
