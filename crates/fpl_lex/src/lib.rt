//! The tokens of a text of the input language.
#![tactic(auto)]

mod fault;
mod lexing;
mod token;

pub use fault::LexError;
pub use lexing::{next_token, one_reading, tokens};
pub use token::{Token, TokenKind, Tokens};

#[cfg(test)]
mod tests;
