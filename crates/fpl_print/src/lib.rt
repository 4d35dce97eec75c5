//! The texts of the views.
#![tactic(auto)]

mod answers;
mod combinations;
mod equal;
mod gap;
mod gap_basis;
mod gap_lists;
mod lines;
mod log;
mod sample;
mod series;
mod steps;
mod table;

pub use answers::{Answer, Answers};
pub use combinations::{push_coefficient, push_combination};
pub use equal::equal_text;
pub use gap::gap_text;
pub use lines::{push_count, push_head_line};
pub use log::log_text;
pub use sample::sample_text;
pub use series::series_text;
pub use table::table_text;
