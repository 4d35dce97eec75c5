//! The bytes and the names of the input language: definitions alone.
#![tactic(auto)]
