//! A built-in presentation.
#![tactic(auto)]

mod laws;
mod presentation;

pub use laws::type_a_is_sound;
pub use presentation::type_a;
