//! Payloads of sections whose bytes are known, and streams that are read and written again.
#![tactic(auto)]

#[cfg(test)]
mod streams;
#[cfg(test)]
mod tests;
