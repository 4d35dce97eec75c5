//! The regular pairs of a weight, and the number of each.
ghost use Rattle.std.specs.Prelude.{◌≡◌, ◌≤◌, ◌<◌, ◌-◌, ◌^◌, length, get_or, IfOk, OnOk};
ghost use Rattle.fpl_numbers.specs.Numbers.{IsElement};
ghost use Rattle.fpl_numbers.specs.Results.{Gives};
ghost use Rattle.fpl_scalar.specs.Vectors.{AreElements};
ghost use Rattle.fpl_rows.specs.Positions.{added_at};
ghost use Rattle.math_algebra.specs.Table.{of_pair};
ghost use Rattle.math_algebra.specs.Symbols.{place_of, no_symbol};
ghost use Rattle.fpl_table.specs.Plain.{symbol_in};
ghost use Rattle.fpl_table.specs.Shape.{IsNumbered};
ghost use Rattle.plain_cohomology.specs.Plain.{pairs};
ghost use Rattle.fpl_cohomology.specs.Pairs.{leading_generators};

use fpl_rows::Row;
use fpl_scalar::{Fault, Field};
use fpl_table::{Symbol, Symbols, Table};
use std::alloc::{AllocError, Global};
use std::marker::Model;

/// A table has at most so many symbols of a weight.
const MOST_SYMBOLS: u64 = 2_000_000;

/// The regular pairs of one weight, in lexicographic order.
#[derive(Drop)]
pub(crate) struct Pairs {
    symbols: Symbols,
    // the generators of the weight, which stand before the pairs
    generators: u32,
}

impl Model for Pairs {
    ghost use Rattle.std.specs.Prelude.{List, drop};
    ghost use Rattle.math_algebra.specs.Table.{Symbol};
    ghost use Rattle.fpl_cohomology.specs.Pairs.{IsSplit};

    ghost Value = { List Symbol };

    ghost view = { λ p. drop p.generators p.symbols.symbols };

    ghost invariant = { λ p. IsSplit p.symbols.symbols p.generators };
}

/// How many generators stand before the first pair.
fn generators_of(symbols: &Symbols) -> u32
    ensures { result ≡ leading_generators symbols.now.symbols }
{
    for s in 0..symbols.len() {
        match symbols.symbol(s + 1) {
            Symbol::Gen(_) => {}
            Symbol::Pair(_, _) => return s,
        }
    }
    symbols.len()
}

impl Pairs {
    /// The pairs of weight `w`.
    pub fn of<F: Field>(alloc: Global, table: &Table<F>, w: u32) -> Result<Pairs, AllocError>
        requires { (1 ≤ w) × (w ≤ table.now.weight) }
        ensures { IfOk result (λ p. p ≡ pairs table.now w) }
    {
        if table.symbol_count(w) > MOST_SYMBOLS {
            return Err(AllocError);
        }
        let symbols = table.symbols(alloc, w)?;
        let generators = generators_of(&symbols);
        Ok(Pairs {
            symbols,
            generators,
        })
    }

    pub fn len(&self) -> u32
        ensures value { result ≡ length self.now }
        ensures range { length self.now < 2 ^ 32 }
    {
        self.symbols.len() - self.generators
    }

    /// Pair `s`, counted from 0.
    pub fn get(&self, s: u32) -> Symbol
        requires { s < length self.now }
        ensures value { symbol_in result ≡ get_or self.now s no_symbol }
        ensures from_one { IsNumbered result }
    {
        let _count = self.symbols.len();
        self.symbols.symbol(self.generators + s + 1)
    }

    /// Adds `c` at the pair of basis elements `i` and `j`, which count from 1. What is none of
    /// the pairs counts as 0.
    pub fn add_at<F: Field>(
        &self,
        field: &F,
        i: u32,
        j: u32,
        c: F::Elem,
        row: &mut Row<F>,
    ) -> Result<(), Fault>
        requires numbers { (1 ≤ i) × (1 ≤ j) }
        requires added { IsElement (F.kind_of field.now) (F.number c) }
        requires row { AreElements (F.kind_of field.now) row.old }
        requires whole { length row.old ≡ length self.now }
        ensures value { Gives result row.new (added_at (F.kind_of field.now) row.old (place_of (of_pair (i - 1) (j - 1)) self.now) (F.number c)) }
        ensures elements { OnOk result (AreElements (F.kind_of field.now) row.new) }
        ensures whole { length row.new ≡ length row.old }
    {
        match self.symbols.number(Symbol::Pair(i, j)) {
            Some(s) => row.add_at(field, s - self.generators, c),
            None => Ok(()),
        }
    }
}
