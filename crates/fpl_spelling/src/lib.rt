//! How fields, parities, names and numbers are spelled.
#![tactic(auto)]

mod names;
mod numbers;

pub use names::{push_field, push_name, push_parity, push_text};
pub use numbers::{is_below_nought, push_magnitude, push_num, push_number, push_sign};
