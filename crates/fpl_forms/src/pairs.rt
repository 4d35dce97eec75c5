//! The bracket of two forms, from that of each pair of their atoms.
ghost use Rattle.std.specs.Prelude.{◌≡◌, ◌<◌, length, map, get_or, All, IfOk, OnOk};
ghost use Rattle.fpl_forms.specs.Ledgers.{IsExpr, Grows, left_of};
ghost use Rattle.fpl_forms.specs.Forms.{IsWork, IsTermOf, AreTermsOf, term_expr, sum_expr};
ghost use Rattle.fpl_forms.specs.Combining.{multiplied, lefts, times_term, times_row, row_terms, bracketed, atom_of, pair_of, AreFacts, AreRows};
ghost use Rattle.std.specs.Simd.Lanes.{zip2};

use crate::Ledger;
use crate::brackets::term_exprs;
use crate::term::{Fact, Term, atom_of, sum_expr};
use fpl_model::Expr;
use std::alloc::AllocError;

impl<'a> Ledger<'a> {
    /// From a form for each bracket of an atom with the atoms of some terms: those of its brackets with the terms.
    fn right_each(
        &mut self,
        atoms: &[Expr],
        values: &[Expr],
        x: &Expr,
        second: &Fact,
        row: &[Fact],
    ) -> Result<Vec<Fact>, AllocError>
        requires atoms { All (IsExpr self.old.presentation) atoms.now }
        requires values { All (IsExpr self.old.presentation) values.now }
        requires left { IsExpr self.old.presentation x.now }
        requires terms { AreTermsOf self.old.prime (length atoms.now) second.now.terms.items }
        requires row { All (IsWork self.old values.now) row.now }
        requires lefts { lefts self.old row.now ≡ map (pair_of atoms.now x.now) second.now.terms.items }
        ensures grows { OnOk result (Grows self.old self.new) }
        ensures facts { IfOk result (λ fs. AreFacts self.new values.now (map (λ t. Expr.Br x.now (term_expr atoms.now t)) second.now.terms.items)
            (zip2 (times_term self.old.prime) second.now.terms.items row.now) fs.items) }
    {
        let mut all = Vec::new(self.alloc);
        for i in 0..second.terms.len() {
            let t = second.terms[i];
            let next = self.times_right(values, x, t.number, atom_of(atoms, t), &row[i])?;
            all.push(next)?;
        }
        Ok(all)
    }

    /// From a form for each bracket of the atom of a term with the atoms of a form: that of the bracket of the term with the form.
    fn row(
        &mut self,
        atoms: &[Expr],
        values: &[Expr],
        t: Term,
        second: &Fact,
        row: &[Fact],
    ) -> Result<Fact, AllocError>
        requires atoms { All (IsExpr self.old.presentation) atoms.now }
        requires values { All (IsExpr self.old.presentation) values.now }
        requires term { IsTermOf self.old.prime (length atoms.now) t }
        requires terms { AreTermsOf self.old.prime (length atoms.now) second.now.terms.items }
        requires row { All (IsWork self.old values.now) row.now }
        requires lefts { lefts self.old row.now ≡ map (pair_of atoms.now (atom_of atoms.now t)) second.now.terms.items }
        ensures grows { OnOk result (Grows self.old self.new) }
        ensures work { IfOk result (λ f. IsWork self.new values.now f) }
        ensures left { IfOk result (λ f. left_of self.new f.line ≡ Expr.Br (term_expr atoms.now t) (sum_expr atoms.now second.now.terms.items)) }
        ensures terms { IfOk result (λ f. f.terms.items ≡ multiplied self.old.prime t.number (row_terms self.old.prime second.now.terms.items row.now)) }
    {
        let x = atom_of(atoms, t);
        let each = self.right_each(atoms, values, x, second, row)?;
        let xs = term_exprs(self.alloc, atoms, &second.terms)?;
        let all = self.sum_right(values, x, &xs, &each)?;
        let whole = sum_expr(self.alloc, atoms, &second.terms)?;
        let multiple = self.times_left(values, t.number, x, &whole, &all)?;
        Ok(multiple)
    }

    /// The same for each of some terms.
    fn rows(
        &mut self,
        atoms: &[Expr],
        values: &[Expr],
        first: &Fact,
        second: &Fact,
        rows: &[Vec<Fact>],
    ) -> Result<Vec<Fact>, AllocError>
        requires atoms { All (IsExpr self.old.presentation) atoms.now }
        requires values { All (IsExpr self.old.presentation) values.now }
        requires firsts { AreTermsOf self.old.prime (length atoms.now) first.now.terms.items }
        requires terms { AreTermsOf self.old.prime (length atoms.now) second.now.terms.items }
        requires rows { AreRows self.old atoms.now values.now first.now.terms.items second.now.terms.items (map (λ r. r.items) rows.now) }
        ensures grows { OnOk result (Grows self.old self.new) }
        ensures facts { IfOk result (λ fs. AreFacts self.new values.now (map (λ s. Expr.Br (term_expr atoms.now s) (sum_expr atoms.now second.now.terms.items)) first.now.terms.items)
            (zip2 (times_row self.old.prime second.now.terms.items) first.now.terms.items (map (λ r. r.items) rows.now)) fs.items) }
    {
        let mut all = Vec::new(self.alloc);
        for i in 0..first.terms.len() {
            let next = self.row(atoms, values, first.terms[i], second, &rows[i])?;
            all.push(next)?;
        }
        Ok(all)
    }

    /// From e = F, f = G, and a form for each bracket of an atom in F with an atom in G, row by row: that of [e,f].
    pub fn bracket(
        &mut self,
        atoms: &[Expr],
        values: &[Expr],
        first: &Fact,
        second: &Fact,
        rows: &[Vec<Fact>],
    ) -> Result<Fact, AllocError>
        requires atoms { All (IsExpr self.old.presentation) atoms.now }
        requires values { All (IsExpr self.old.presentation) values.now }
        requires first { IsWork self.old atoms.now first.now }
        requires second { IsWork self.old atoms.now second.now }
        requires rows { AreRows self.old atoms.now values.now first.now.terms.items second.now.terms.items (map (λ r. r.items) rows.now) }
        ensures grows { OnOk result (Grows self.old self.new) }
        ensures work { IfOk result (λ f. IsWork self.new values.now f) }
        ensures left { IfOk result (λ f. left_of self.new f.line ≡ Expr.Br (left_of self.old first.now.line) (left_of self.old second.now.line)) }
        ensures terms { IfOk result (λ f. f.terms.items ≡
            bracketed self.old.prime first.now.terms.items second.now.terms.items (map (λ r. r.items) rows.now)) }
    {
        let whole = self.members(first.line, second.line)?;
        let each = self.rows(atoms, values, first, second, rows)?;
        let xs = term_exprs(self.alloc, atoms, &first.terms)?;
        let right = sum_expr(self.alloc, atoms, &second.terms)?;
        let all = self.sum_left(values, &xs, &right, &each)?;
        let led = self.led(values, whole, &all)?;
        Ok(led)
    }
}
