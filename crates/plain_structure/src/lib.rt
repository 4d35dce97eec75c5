//! The plain runs of the centre, the lower central series and an ideal of a table, and what they mean.
#![tactic(auto)]

ghost use Rattle.std.specs.Prelude.{ℕ};
ghost use Rattle.fpl_model.specs.declared.presentation.Presentation.{Presentation};
ghost use Rattle.plain_structure.specs.Means.{CentreFits, CentreMeans, IdealFits, IdealMeans, SeriesFits, SeriesMeans};

/// Where all operations fit, the plain runs give the closed forms of the centre, of each term of
/// the lower central series, and of the ideal.
pub fn structures()
    ensures centre { (p : Presentation) → CentreMeans p }
    ensures series { (p : Presentation) → SeriesMeans p }
    ensures ideal { (p : Presentation) → IdealMeans p }
{}

/// Over a prime every operation of them fits.
pub fn structures_fit()
    ensures centre { (p : ℕ) → CentreFits p }
    ensures series { (p : ℕ) → SeriesFits p }
    ensures ideal { (p : ℕ) → IdealFits p }
{}
