//! Rows of numbers over any field, and lists of rows.
#![tactic(auto)]

mod form;
mod marks;
mod packed;
mod places;
mod row;
mod rows;
mod sums;
mod work;

pub use row::Row;
pub use rows::Rows;
pub use work::Work;
