//! Expressions and presentations, as they are read and written.
#![tactic(auto)]

mod degree;
mod expr;
mod members;
mod mono;
mod name;
mod presentation;
mod scalar;

pub use degree::{Degree, ParityOf};
pub use expr::{Expr, Exprs};
pub use members::Members;
pub use mono::Mono;
pub use name::Name;
pub use presentation::{Equation, Equations, Generator, Generators, Parity, Presentation};
pub use scalar::Scalar;
