//! Elimination over any field.
#![tactic(auto)]

mod close;
mod echelon;
mod keep;
mod kernels;
mod leads;
mod outcome;
mod pivots;
mod putting;
mod remainder;
mod span;
mod sweeping;
mod working;

pub use close::Closed;
pub use echelon::Echelon;
pub use kernels::{kernel, kernel_of_span};
pub use leads::Leads;
pub use outcome::Outcome;
pub use remainder::{sweep, sweep_by, sweep_work_by};
pub use span::Span;
pub use working::gathered;
