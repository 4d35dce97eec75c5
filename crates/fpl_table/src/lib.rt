//! Tables of finitely presented Lie superalgebras: the basis, the generators' images and the brackets, through a weight.
#![tactic(auto)]

mod pairs;
mod shape;
mod symbol;
mod symbols;
mod table;

pub use pairs::{ByEntry, PairTerm};
pub use symbol::{Basis, PairSign, Symbol};
pub use symbols::Symbols;
pub use table::Table;
