//! Checkpoints as bytes: the head, which holds a presentation, and then the sections of its weights.
#![tactic(auto)]

mod head;
mod laws;

pub use fpl_section_bytes::{
    BadBytes, ByteWhy, Frame, ScanError, read_section, scan_frame, section_bytes,
};
pub use head::{CHECKPOINT_MARK, Head, head_bytes, scan_head};
pub use laws::{heads_are_read_back, one_head};
