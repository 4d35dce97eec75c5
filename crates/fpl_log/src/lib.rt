//! Steps of an elimination, their conclusions, and the sections that keep them.
#![tactic(auto)]

mod closed;
mod compact;
mod laws;
mod section;
mod slimming;
mod step;
mod taking;
mod terms;

pub use closed::{ClosedList, ClosedRow, Coefficient};
pub use laws::conclusions;
pub use section::{Section, Sections};
pub use step::{Origin, Step, StepList};
pub use taking::conclude;
pub use terms::{Term, Terms};
