//! Laws of writing and reading presentations: a canonical text is read as its presentation, and how long canonical texts are.
#![tactic(auto)]

mod laws;

pub use laws::{canonical_text_is_read, canonical_text_is_short};

#[cfg(test)]
mod tests;
