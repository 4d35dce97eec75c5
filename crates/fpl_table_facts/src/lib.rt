//! What is known of a table while a proof is made: expressions as forms over its basis, and over the symbols of the next weight.
#![tactic(auto)]

mod bracket_rows;
mod known;
mod leaves;
mod next;
mod products;
mod rows;
mod values;

pub use known::{Known, Level, Next};
pub use next::next_of;
pub use rows::row;
pub use values::value;
