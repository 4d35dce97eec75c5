//! Cohomology of a table with values in the field, in degrees 1 and 2: super alternating forms
//! on its basis, their coboundaries, and rows that represent H1 and H2 weight by weight.
//!
//! A k-form is a function of k basis elements that an exchange of two neighbours a, b multiplies
//! by `-(-1)^(|a||b|)`; it is given by its values at sorted tuples. The coboundary of a 1-form is
//! `f([x,y])`, that of a 2-form
//! `f([x,y],z) - (-1)^(|y||z|) f([x,z],y) + (-1)^(|x||y|+|x||z|) f([y,z],x)`
//! (D. B. Fuks, Cohomology of Infinite-Dimensional Lie Algebras, chapter 1).
#![tactic(auto)]

mod boundaries;
mod chosen;
mod listing;
mod pairs;
mod put;
mod represented;
mod representing;
mod rows;
mod singles;
mod terms;
mod text;
mod triples;
mod tuple;
mod tuples;
mod weights;

pub use boundaries::coboundary;
pub use listing::forms;
pub use represented::{Low, Lows};
pub use representing::low;
pub use text::cohomology_text;
pub use tuple::{Forms, Tuple};
pub use weights::lows;
