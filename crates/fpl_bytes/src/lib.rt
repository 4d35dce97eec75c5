//! Fields of a stream of bytes: whole numbers and numbers of a field, read from left to right and written.
#![tactic(auto)]

mod fault;
mod laws;
mod numbers;
mod version;
mod wholes;
mod writing;

pub use fault::{BadBytes, ByteWhy, ScanError, bad_bytes};
pub use laws::{numbers_are_read_back, wholes_are_read_back};
pub use numbers::number_field;
pub use version::Version;
pub use wholes::{u32_at, u32_field, u64_at, u64_field};
pub use writing::push_number;
