//! Tables over primes, for the views that work over primes alone.
ghost use Rattle.std.specs.Prelude.{◌≡◌, IfSome, IfNone};

use fpl_numbers::Kind;
use fpl_scalar::{Field, Fraction, Residue};
use fpl_table::Table;

/// A field whose tables can be shown: it is known whether they are over a prime.
pub trait Viewed: Field {
    /// The table, where it is over a prime.
    fn residues(table: &Table<Self>) -> Option<&Table<Residue>>
        ensures some { IfSome result (λ found. found.now ≡ table.now) }
        ensures none { IfNone result (table.now.kind ≡ Kind.Rational) };
}

impl Viewed for Residue {
    fn residues(table: &Table<Residue>) -> Option<&Table<Residue>> {
        Some(table)
    }
}

impl Viewed for Fraction {
    fn residues(table: &Table<Fraction>) -> Option<&Table<Residue>> {
        let _field = table.field();
        None
    }
}

/// A table that isn't over fractions.
pub fn residues<F: Viewed>(table: &Table<F>) -> &Table<Residue>
    requires { table.now.kind ≡ Kind.Rational → ⊥ }
    ensures { result.now ≡ table.now }
{
    match F::residues(table) {
        Some(found) => found,
        None => unreachable!(),
    }
}
