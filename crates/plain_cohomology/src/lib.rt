//! The plain run of the cohomology of a weight, and what it means.
//!
//! Each function does nothing: what it ensures are laws.
#![tactic(auto)]

ghost use Rattle.fpl_model.specs.declared.presentation.Presentation.{Presentation};
ghost use Rattle.plain_cohomology.specs.Means.{LowMeans, LowsMean, LowsFit};

/// Where all operations fit, the plain run of a weight gives rows that represent H1 and H2 of that weight; and so for all weights of a table.
/// Over a prime every operation fits.
pub fn cohomologies()
    ensures one { (p : Presentation) → LowMeans p }
    ensures all { (p : Presentation) → LowsMean p }
    ensures fit { LowsFit }
{}
