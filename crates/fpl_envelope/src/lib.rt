//! The enveloping superalgebra of a table, in ordered words: their number, straight forms and products.
#![tactic(auto)]

mod acting;
mod building;
mod counts;
mod kept;
mod limit;
mod listing;
mod multiplying;
mod poly;
mod straightening;
mod sums;

pub use building::products_through;
pub use kept::Products;
pub use limit::word_count;
pub use listing::words;
pub use multiplying::multiply;
pub use poly::{Poly, Term, Word};
pub use straightening::straighten;
