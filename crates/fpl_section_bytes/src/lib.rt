//! Sections of checkpoints as bytes: reading and writing.
#![tactic(auto)]

mod frame;
mod laws;
mod origin;
mod payload;
mod rows;
mod step;
mod tags;
mod terms;
mod writing;

pub use fpl_bytes::{BadBytes, ByteWhy, ScanError};
pub use frame::{Frame, scan_frame};
pub use laws::{frames_are_read_back, sections_are_read_back};
pub use payload::read_section;
pub use writing::section_bytes;
