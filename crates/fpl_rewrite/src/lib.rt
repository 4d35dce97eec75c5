//! The source rows of a weight: relations, Jacobi identities and cubes, as rows over the weight's symbols.
#![tactic(auto)]

mod entries;
mod forms;
mod guide;
mod jacobi;
mod origins;
mod row;
mod triples;

pub use forms::relation_row;
pub use guide::Guide;
pub use jacobi::{cube_row, jacobi_row};
pub use origins::Origins;
pub use row::{fill_row, origin_row};
