//! Queries: whether they are past a table's weight.
#![tactic(auto)]

mod queries;

pub use queries::is_beyond;
