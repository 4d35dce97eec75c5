//! How much matrices of the generators see of each weight of a table: the ranks, and the texts that say so.
#![tactic(auto)]

mod elements;
mod leading;
mod putting;
mod ranking;
mod texts;

pub use ranking::ranks;
pub use texts::{broken_text, map_text};
