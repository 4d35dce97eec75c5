//! The input language: reading a presentation from its text.
#![tactic(auto)]

mod claims;
mod declarations;
mod fault;
mod names;
mod reading;
mod sentence;
mod stream;
mod survey;
mod terminals;
mod tokens;

pub use fault::{ReaderError, Reason};
pub use reading::{one_answer, read};

#[cfg(test)]
mod tests;
