ghost use Rattle.std.specs.Prelude.{◌≡◌, ◌≤◌, ◌+◌, ◌-◌, length, IfOk, IfErr, OnOk};
ghost use Rattle.fpl_numbers.specs.Numbers.{IsElement};
ghost use Rattle.fpl_numbers.specs.Results.{Gives, GivesBy};
ghost use Rattle.fpl_scalar.specs.Vectors.{AreElements};
ghost use Rattle.fpl_table.specs.Plain.{pairing};
ghost use Rattle.fpl_table.specs.Shape.{IsRowUpTo};
ghost use Rattle.fpl_table.specs.Sums.{add_product, add_products, bilinear_of};
ghost use Rattle.fpl_table.specs.Value.{zero_row, bracket_of};

use super::Table;
use crate::{ByEntry, PairSign, PairTerm};
use fpl_rows::Row;
use fpl_scalar::{Fault, Field};
use std::alloc::Global;

impl<F: Field> Table<F> {
    /// Adds the product of `x.1` at position `x.0` and `y.1` at position `y.0`.
    fn add_product<P: PairTerm<F>>(
        &self,
        pairs: &P,
        x: (u32, F::Elem),
        y: (u32, F::Elem),
        sum: &mut Row<F>,
    ) -> Result<(), Fault>
        requires left { (1 ≤ x.0) × (x.0 ≤ length self.now.basis) }
        requires right { (1 ≤ y.0) × (y.0 ≤ length self.now.basis) }
        requires first { IsElement self.now.kind (F.number x.1) }
        requires second { IsElement self.now.kind (F.number y.1) }
        requires sum { AreElements self.now.kind sum.old }
        requires whole { length sum.old ≡ P.places pairs.now self.now }
        ensures value { Gives result sum.new
            (add_product self.now (P.term pairs.now self.now) (pairing self.now (x.0 - 1) (y.0 - 1)) (F.number x.1) (F.number y.1) sum.old) }
        ensures elements { OnOk result (AreElements self.now.kind sum.new) }
        ensures whole { length sum.new ≡ length sum.old }
        ensures memory { IfErr result (λ fault. fault ≡ Fault.NoMemory → sum.new ≡ sum.old) }
    {
        let field = self.field();
        match self.pair(x.0, y.0) {
            PairSign::Zero => Ok(()),
            PairSign::Plus(i, j) => match field.mul(x.1, y.1) {
                Ok(m) => pairs.add_term(self, i, j, m, sum),
                Err(u) => Err(Fault::Unfit(u)),
            },
            PairSign::Minus(i, j) => match field.mul(x.1, y.1) {
                Ok(m) => pairs.add_term(self, i, j, field.neg(m), sum),
                Err(u) => Err(Fault::Unfit(u)),
            },
        }
    }

    /// Adds the products of `x.1` at position `x.0` with the positions of `b`, ascending.
    fn add_products<P: PairTerm<F>>(
        &self,
        pairs: &P,
        x: (u32, F::Elem),
        b: &Row<F>,
        sum: &mut Row<F>,
    ) -> Result<(), Fault>
        requires left { (1 ≤ x.0) × (x.0 ≤ length self.now.basis) }
        requires first { IsElement self.now.kind (F.number x.1) }
        requires second { IsRowUpTo self.now.kind (length self.now.basis) b.now }
        requires sum { AreElements self.now.kind sum.old }
        requires whole { length sum.old ≡ P.places pairs.now self.now }
        ensures value { Gives result sum.new (add_products self.now (P.term pairs.now self.now) (x.0 - 1) (F.number x.1) b.now sum.old) }
        ensures elements { OnOk result (AreElements self.now.kind sum.new) }
        ensures whole { length sum.new ≡ length sum.old }
        ensures memory { IfErr result (λ fault. fault ≡ Fault.NoMemory → AreElements self.now.kind sum.new) }
    {
        let mut after = 0;
        while let Some(j) = b.next(after) {
            match self.add_product(pairs, x, (j, b.at(j)), sum) {
                Ok(()) => {}
                Err(fault) => return Err(fault),
            }
            after = j;
        }
        Ok(())
    }

    /// Adds the bracket of two rows over the basis, each at most `basis_len` long, in what pairs of basis elements stand for.
    /// `Unfit` is the first operation that does not fit. Where memory is wanting the sum may have part of the bracket in it,
    /// and is still of the field.
    pub fn add_bracket<P: PairTerm<F>>(
        &self,
        pairs: &P,
        a: &Row<F>,
        b: &Row<F>,
        sum: &mut Row<F>,
    ) -> Result<(), Fault>
        requires left { IsRowUpTo self.now.kind (length self.now.basis) a.now }
        requires right { IsRowUpTo self.now.kind (length self.now.basis) b.now }
        requires sum { AreElements self.now.kind sum.old }
        requires whole { length sum.old ≡ P.places pairs.now self.now }
        ensures value { Gives result sum.new (bilinear_of self.now (P.term pairs.now self.now) a.now b.now sum.old) }
        ensures elements { OnOk result (AreElements self.now.kind sum.new) }
        ensures whole { length sum.new ≡ length sum.old }
        ensures memory { IfErr result (λ fault. fault ≡ Fault.NoMemory → AreElements self.now.kind sum.new) }
    {
        let mut after = 0;
        while let Some(i) = a.next(after) {
            match self.add_products(pairs, (i, a.at(i)), b, sum) {
                Ok(()) => {}
                Err(fault) => return Err(fault),
            }
            after = i;
        }
        Ok(())
    }

    /// The bracket of two rows over the basis, each at most `basis_len` long, as a row of
    /// `basis_len` positions. `Unfit` is the first operation that does not fit.
    pub fn bracket(&self, alloc: Global, a: &Row<F>, b: &Row<F>) -> Result<Row<F>, Fault>
        requires left { IsRowUpTo self.now.kind (length self.now.basis) a.now }
        requires right { IsRowUpTo self.now.kind (length self.now.basis) b.now }
        ensures value { GivesBy (λ r. r) result (bracket_of self.now a.now b.now) }
        ensures elements { IfOk result (λ r. AreElements self.now.kind r) }
        ensures whole { IfOk result (λ r. length r ≡ length self.now.basis) }
    {
        let mut sum = self.zero_row(alloc)?;
        match self.add_bracket(&ByEntry, a, b, &mut sum) {
            Ok(()) => Ok(sum),
            Err(fault) => Err(fault),
        }
    }

    /// 0 at each basis number.
    pub(super) fn zero_row(&self, alloc: Global) -> Result<Row<F>, Fault>
        ensures value { GivesBy (λ r. r) result (Ok (zero_row (length self.now.basis))) }
        ensures elements { IfOk result (λ r. AreElements self.now.kind r) }
        ensures whole { IfOk result (λ r. length r ≡ length self.now.basis) }
    {
        match Row::zero(alloc, self.field(), self.basis_len()) {
            Ok(row) => Ok(row),
            Err(_) => Err(Fault::NoMemory),
        }
    }
}
