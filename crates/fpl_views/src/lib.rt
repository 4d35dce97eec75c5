//! The views of a table: what each shows, and its text. Each view has a file of its own.
#![tactic(auto)]

mod centre;
mod cohomology;
mod envelope;
mod equal;
mod gap;
mod ideal;
mod laws;
mod lcs;
mod log;
mod sample;
mod series;
mod shown;
mod space;
mod table;
mod viewed;
mod why;

pub use laws::{views_of_tables, views_show};
pub use shown::{ShowError, Shown, show};
pub use viewed::{Viewed, residues};
pub use why::show_why;
