//! What a run replies: its status, its line, and what stands in its output.
#![tactic(auto)]

mod fault_line;
mod line;
mod outcome;
mod pieces;
mod put;
mod status;
mod view_fault;

pub use line::put_line;
pub use outcome::{Outcome, Refusal};
pub use put::{Cut, put_text, put_whole};
pub use status::Status;
pub use view_fault::ViewFault;
