//! The lines of a proof that its last line needs.
#![tactic(auto)]

mod keeping;
mod marking;
mod renumbering;

pub use keeping::needed_lines;
