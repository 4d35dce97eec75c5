//! A run through the weights of a presentation: each is adopted from stored sections, or computed.
#![tactic(auto)]

mod run;
mod stop;

pub use run::Run;
pub use stop::Stop;
