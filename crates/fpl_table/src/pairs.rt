//! What a pair of basis elements stands for in a sum.
ghost use Rattle.std.specs.Prelude.{◌≡◌, ◌≤◌, ◌+◌, ◌-◌, ℕ, List, length, Result, OnOk, IfErr};
ghost use Rattle.fpl_numbers.specs.declared.number.Num.{Num};
ghost use Rattle.fpl_numbers.specs.declared.number.Unfit.{Unfit};
ghost use Rattle.fpl_numbers.specs.Numbers.{IsElement};
ghost use Rattle.fpl_numbers.specs.Results.{Gives};
ghost use Rattle.fpl_scalar.specs.Vectors.{AreElements};
ghost use Rattle.fpl_rows.specs.Positions.{added_at};
ghost use Rattle.math_algebra.specs.Table.{of_pair};
ghost use Rattle.math_algebra.specs.Symbols.{place_of};
ghost use Rattle.fpl_table.specs.Plain.{PlainTable, first_partner};
ghost use Rattle.fpl_table.specs.Value.{add_entry};

use crate::{Symbol, Symbols, Table};
use fpl_rows::Row;
use fpl_scalar::{Fault, Field};

/// What a regular pair of basis elements stands for in a sum.
pub trait PairTerm<F: Field> {
    /// How many places the sum has.
    ghost places: { Self → PlainTable → ℕ };

    /// The plain run: a multiple of what a pair stands for is added.
    ghost term: { Self → PlainTable → ℕ → ℕ → Num → List Num → Result (List Num) Unfit };

    /// Adds `m` times what the pair of `i` and `j` stands for. Where memory is wanting the sum stays as it was.
    fn add_term(
        &self,
        table: &Table<F>,
        i: u32,
        j: u32,
        m: F::Elem,
        sum: &mut Row<F>,
    ) -> Result<(), Fault>
        requires left { (1 ≤ i) × (i ≤ length table.now.basis) }
        requires right { (1 ≤ j) × (j ≤ length table.now.basis) }
        requires regular { first_partner table.now (i - 1) ≤ j - 1 }
        requires factor { IsElement table.now.kind (F.number m) }
        requires sum { AreElements table.now.kind sum.old }
        requires whole { length sum.old ≡ places self.now table.now }
        ensures value { Gives result sum.new (term self.now table.now (i - 1) (j - 1) (F.number m) sum.old) }
        ensures elements { OnOk result (AreElements table.now.kind sum.new) }
        ensures whole { length sum.new ≡ length sum.old }
        ensures memory { IfErr result (λ fault. fault ≡ Fault.NoMemory → sum.new ≡ sum.old) };
}

/// Each pair stands for its entry, which is 0 past the table's weight.
#[derive(Clone, Copy, Debug)]
pub struct ByEntry;

impl<F: Field> PairTerm<F> for ByEntry {
    ghost places = { λ _ T. length T.basis };

    ghost term = { λ _ T. add_entry T };

    fn add_term(
        &self,
        table: &Table<F>,
        i: u32,
        j: u32,
        m: F::Elem,
        sum: &mut Row<F>,
    ) -> Result<(), Fault> {
        let left = table.basis(i).weight;
        if left + table.basis(j).weight > table.weight() {
            return Ok(());
        }
        sum.axpy(table.field(), m, table.entry(i, j))
    }
}

/// Each pair stands for its symbol. What is none of the symbols counts as 0.
impl<F: Field> PairTerm<F> for Symbols {
    ghost places = { λ s _. length s.symbols };

    ghost term = { λ s T i j m v. added_at T.kind v (place_of (of_pair i j) s.symbols) m };

    fn add_term(
        &self,
        table: &Table<F>,
        i: u32,
        j: u32,
        m: F::Elem,
        sum: &mut Row<F>,
    ) -> Result<(), Fault> {
        self.add_at(table.field(), Symbol::Pair(i, j), m, sum)
    }
}
