//! The text of the view `envelope`: the ordered words of each weight by parity, and the products of basis elements and ordered words that aren't ordered.
#![tactic(auto)]

mod counting;
mod forms;
mod laws;
mod letters;
mod lines;
mod lists;
mod text;

pub use laws::envelope_shows;
pub use text::envelope_text;
