//! How a command is done.
ghost use Rattle.std.specs.Prelude.{◌≡◌, ◌↔◌, IsTrue};
ghost use Rattle.fpl_numbers.specs.declared.number.Kind.TheVariants.{Rational};
ghost use Rattle.fpl_run.specs.declared.task.Way.TheVariants.{Rank};
ghost use Rattle.fpl_run.specs.Task.{way_of, does_compute, IsOverPrimes};

use crate::words::View;
use fpl_numbers::Kind;
use fpl_views::Shown;

/// How a view is made.
#[derive(Clone, Copy, Debug, PartialEq, Eq)]
pub enum Way {
    /// Its text is one of the table, once the weights are done.
    Show(Shown),
    /// Each section is written as its weight is added.
    Write,
    /// Nothing is computed: its text says how many stored sections passed their tests.
    Check,
    /// Its text says how much matrices of the generators see of the table, once the weights are done.
    Rank,
    /// Its text has proofs from the axioms, once the weights are done.
    Prove,
}

/// A way through a weight limit, as a command asks for it.
#[derive(Clone, Copy, Debug, PartialEq, Eq)]
pub struct Task {
    pub way: Way,
    pub limit: u32,
    pub entries: u64,
}

/// How a view is made.
pub(crate) fn way_of(view: View) -> Way
    ensures { result ≡ way_of view }
{
    match view {
        View::Table => Way::Show(Shown::Table),
        View::Series => Way::Show(Shown::Series),
        View::Gap => Way::Show(Shown::Gap),
        View::Log => Way::Show(Shown::Log),
        View::Equal => Way::Show(Shown::Equal),
        View::Sample => Way::Show(Shown::Sample),
        View::Cohomology => Way::Show(Shown::Cohomology),
        View::Centre => Way::Show(Shown::Centre),
        View::Lcs => Way::Show(Shown::Lcs),
        View::Ideal => Way::Show(Shown::Ideal),
        View::Envelope => Way::Show(Shown::Envelope),
        View::Checkpoint => Way::Write,
        View::Check => Way::Check,
        View::Map => Way::Rank,
        View::Why => Way::Prove,
    }
}

/// Whether the weights are computed whose sections aren't stored.
pub(crate) fn does_compute(way: Way) -> bool
    ensures { result ≡ does_compute way }
{
    !matches!(way, Way::Check)
}

fn is_over_primes(way: Way) -> bool
    ensures { IsTrue result ↔ IsOverPrimes way }
{
    match way {
        Way::Show(shown) => shown.is_over_primes(),
        Way::Write | Way::Check => false,
        Way::Rank | Way::Prove => true,
    }
}

/// Whether a way works over primes alone, and numbers are fractions.
pub(crate) fn is_unserved(way: Way, kind: Kind) -> bool
    ensures { IsTrue result ↔ (IsOverPrimes way × (kind ≡ Rational)) }
{
    match kind {
        Kind::Rational => is_over_primes(way),
        Kind::Prime(_) => false,
    }
}

/// Whether matrices are taken.
pub(crate) fn takes_matrices(way: Way) -> bool
    ensures { IsTrue result ↔ (way ≡ Rank) }
{
    matches!(way, Way::Rank)
}
