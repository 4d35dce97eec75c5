//! Subspaces of a table: its centre, its lower central series and ideals.
#![tactic(auto)]

mod acting;
mod brackets;
mod centres;
mod columns;
mod ideals;
mod series;
mod spaces;
mod texts;

pub use centres::centre;
pub use ideals::ideal;
pub use series::lower_central;
pub use spaces::Spaces;
pub use texts::{SpaceWord, space_text};
