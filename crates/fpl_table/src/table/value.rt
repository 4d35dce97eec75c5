ghost use Rattle.std.specs.Prelude.{◌≡◌, ◌<◌, ◌^◌, length, map, IfOk};
ghost use Rattle.fpl_numbers.specs.Numbers.{IsElement};
ghost use Rattle.fpl_numbers.specs.Results.{GivesBy};
ghost use Rattle.fpl_scalar.specs.Vectors.{AreElements, scale_of};
ghost use Rattle.math_algebra.specs.Tree.{trees};
ghost use Rattle.fpl_model.specs.Meaning.{plain};
ghost use Rattle.fpl_model.specs.Sound.{IsTerm, AreTerms, HaveWeights, count_tree, count_trees};
ghost use Rattle.fpl_table.specs.Shape.{IsRowUpTo, Agrees};
ghost use Rattle.fpl_table.specs.Value.{zero_row, add_row, is_light, value_of, values_of};

use super::Table;
use fpl_model::{Degree, Expr, Exprs, Presentation};
use fpl_rows::Row;
use fpl_scalar::{Fault, Field, Num};
use std::alloc::Global;

impl<F: Field> Table<F> {
    /// Whether an expression's weight as written is at most the table's, or mixed.
    fn is_light(&self, p: &Presentation, e: &Expr) -> bool
        requires agrees { Agrees self.now p.now }
        requires weights { HaveWeights p.now.generators }
        requires term { IsTerm p.now.field (length p.now.generators) (plain e.now) }
        requires few { count_tree (plain e.now) < 2 ^ 40 }
        ensures { result ≡ is_light self.now (plain e.now) }
    {
        match p.weight_of(e) {
            Degree::Any => false,
            Degree::Exact(w) => w <= u64::from(self.weight()),
            Degree::Mixed => true,
        }
    }

    /// The row, as one of `basis_len` positions.
    fn whole(&self, alloc: Global, row: &Row<F>) -> Result<Row<F>, Fault>
        requires { IsRowUpTo self.now.kind (length self.now.basis) row.now }
        ensures value { GivesBy (λ r. r) result (add_row self.now.kind (zero_row (length self.now.basis)) row.now) }
        ensures elements { IfOk result (λ r. AreElements self.now.kind r) }
        ensures whole { IfOk result (λ r. length r ≡ length self.now.basis) }
    {
        let mut sum = self.zero_row(alloc)?;
        match sum.axpy(self.field(), self.field().one(), row) {
            Ok(()) => Ok(sum),
            Err(fault) => Err(fault),
        }
    }

    /// `c` times a row.
    fn multiple(&self, c: &Num, row: Row<F>) -> Result<Row<F>, Fault>
        requires factor { IsElement self.now.kind c.now }
        requires row { AreElements self.now.kind row }
        requires whole { length row ≡ length self.now.basis }
        ensures value { GivesBy (λ r. r) result (scale_of self.now.kind c.now row) }
        ensures elements { IfOk result (λ r. AreElements self.now.kind r) }
        ensures whole { IfOk result (λ r. length r ≡ length self.now.basis) }
    {
        let mut product = row;
        match product.scale(self.field(), self.field().of(c)) {
            Ok(()) => Ok(product),
            Err(fault) => Err(fault),
        }
    }

    /// The value of an expression over a presentation that agrees with the table, as a row of
    /// `basis_len` positions: 0 where the expression has no weight, or one past the table's.
    /// `Unfit` is the first operation that does not fit.
    #[cycle(valuing)]
    #[tactic(auto, using(fpl_model::proofs::Plain::plain_forms))]
    pub fn value(&self, alloc: Global, p: &Presentation, e: &Expr) -> Result<Row<F>, Fault>
        requires agrees { Agrees self.now p.now }
        requires weights { HaveWeights p.now.generators }
        requires term { IsTerm p.now.field (length p.now.generators) (plain e.now) }
        requires few { count_tree (plain e.now) < 2 ^ 40 }
        ensures value { GivesBy (λ r. r) result (value_of self.now (plain e.now)) }
        ensures elements { IfOk result (λ r. AreElements self.now.kind r) }
        ensures whole { IfOk result (λ r. length r ≡ length self.now.basis) }
    {
        if !self.is_light(p, e) {
            return self.zero_row(alloc);
        }
        match e {
            Expr::Gen(g) => self.whole(alloc, self.image(*g)),
            Expr::Zero => self.zero_row(alloc),
            Expr::Sum(members) => self.sum_of(alloc, p, members.get()),
            Expr::Times(c, factor) => {
                let row = self.value(alloc, p, factor.get())?;
                self.multiple(&c.number(), row)
            }
            Expr::Br(a, b) => {
                let left = self.value(alloc, p, a.get())?;
                let right = self.value(alloc, p, b.get())?;
                self.bracket(alloc, &left, &right)
            }
        }
    }

    /// The sum of the values of the members, in order.
    #[cycle(valuing)]
    #[tactic(auto, using(fpl_model::proofs::Plain::plain_forms))]
    fn sum_of(&self, alloc: Global, p: &Presentation, members: &Exprs) -> Result<Row<F>, Fault>
        requires agrees { Agrees self.now p.now }
        requires weights { HaveWeights p.now.generators }
        requires terms { AreTerms p.now.field (length p.now.generators) (trees (map plain members.now)) }
        requires few { count_trees (trees (map plain members.now)) < 2 ^ 40 }
        ensures value { GivesBy (λ r. r) result (values_of self.now (trees (map plain members.now)) (zero_row (length self.now.basis))) }
        ensures elements { IfOk result (λ r. AreElements self.now.kind r) }
        ensures whole { IfOk result (λ r. length r ≡ length self.now.basis) }
    {
        let mut sum = self.zero_row(alloc)?;
        for e in members.as_slice() {
            let x = self.value(alloc, p, e)?;
            match sum.axpy(self.field(), self.field().one(), &x) {
                Ok(()) => {}
                Err(fault) => return Err(fault),
            }
        }
        Ok(sum)
    }
}
