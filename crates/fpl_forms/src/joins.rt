//! Forms that are led from one expression to another.
ghost use Rattle.std.specs.Prelude.{◌≡◌, ◌≤◌, ◌<◌, [], ◌∷◌, length, map, get_or, All, IfOk, OnOk};
ghost use Rattle.fpl_forms.specs.Ledgers.{IsExpr, Grows, Says, left_of, right_of};
ghost use Rattle.fpl_forms.specs.Forms.{IsWork, AreTermsOf, term_expr, sum_expr, tidied};
ghost use Rattle.fpl_forms.specs.Combining.{AreFacts, times_term, combined, atom_of, lefts};
ghost use Rattle.std.specs.Simd.Lanes.{zip2};

use crate::Ledger;
use crate::term::Fact;
use fpl_lines::{Line, Rule};
use fpl_model::{Expr, Members};
use std::alloc::AllocError;

impl<'a> Ledger<'a> {
    /// 0 = the sum of no terms.
    pub fn nothing(&mut self, atoms: &[Expr]) -> Result<Fact, AllocError>
        ensures grows { OnOk result (Grows self.old self.new) }
        ensures work { IfOk result (λ f. IsWork self.new atoms.now f) }
        ensures left { IfOk result (λ f. left_of self.new f.line ≡ Expr.Zero) }
        ensures terms { IfOk result (λ f. f.terms.items ≡ []) }
    {
        let members = Members::new(self.alloc);
        let left = members.sum(self.alloc)?;
        let empty = self.push(Line {
            left,
            right: Expr::Zero,
            why: Rule::Empty,
        })?;
        let line = self.turn(empty)?;
        Ok(Fact {
            line,
            terms: Vec::new(self.alloc),
        })
    }

    /// From d = e and e = F: d = F.
    pub fn led(&mut self, atoms: &[Expr], line: u64, sum: &Fact) -> Result<Fact, AllocError>
        requires line { (1 ≤ line) × (line ≤ length self.old.lines) }
        requires work { IsWork self.old atoms.now sum.now }
        requires meet { right_of self.old line ≡ left_of self.old sum.now.line }
        ensures grows { OnOk result (Grows self.old self.new) }
        ensures work { IfOk result (λ f. IsWork self.new atoms.now f) }
        ensures left { IfOk result (λ f. left_of self.new f.line ≡ left_of self.old line) }
        ensures terms { IfOk result (λ f. f.terms.items ≡ sum.now.terms.items) }
    {
        let line = self.chain(line, sum.line)?;
        let terms = Vec::from_slice(self.alloc, &sum.terms)?;
        Ok(Fact { line, terms })
    }

    /// From e = F and e = G: F = G.
    pub fn join(
        &mut self,
        atoms: &[Expr],
        values: &[Expr],
        first: &Fact,
        second: &Fact,
    ) -> Result<Fact, AllocError>
        requires first { IsWork self.old atoms.now first.now }
        requires second { IsWork self.old values.now second.now }
        requires meet { left_of self.old first.now.line ≡ left_of self.old second.now.line }
        ensures grows { OnOk result (Grows self.old self.new) }
        ensures work { IfOk result (λ f. IsWork self.new values.now f) }
        ensures left { IfOk result (λ f. left_of self.new f.line ≡ sum_expr atoms.now first.now.terms.items) }
        ensures terms { IfOk result (λ f. f.terms.items ≡ second.now.terms.items) }
    {
        let back = self.turn(first.line)?;
        let joined = self.led(values, back, second)?;
        Ok(joined)
    }

    /// From e = F and f = F: e = f.
    pub fn equal(&mut self, first: &Fact, second: &Fact) -> Result<u64, AllocError>
        requires first { (1 ≤ first.now.line) × (first.now.line ≤ length self.old.lines) }
        requires second { (1 ≤ second.now.line) × (second.now.line ≤ length self.old.lines) }
        requires meet { right_of self.old first.now.line ≡ right_of self.old second.now.line }
        ensures grows { OnOk result (Grows self.old self.new) }
        ensures says { IfOk result (λ n. Says self.new n (left_of self.old first.now.line) (left_of self.old second.now.line)) }
    {
        let back = self.turn(second.line)?;
        let n = self.chain(first.line, back)?;
        Ok(n)
    }

    /// Terms times the forms of their atoms, one by one.
    fn multiples(
        &mut self,
        atoms: &[Expr],
        values: &[Expr],
        sum: &Fact,
        facts: &[Fact],
    ) -> Result<Vec<Fact>, AllocError>
        requires values { All (IsExpr self.old.presentation) values.now }
        requires terms { AreTermsOf self.old.prime (length atoms.now) sum.now.terms.items }
        requires facts { All (IsWork self.old values.now) facts.now }
        requires lefts { lefts self.old facts.now ≡ map (atom_of atoms.now) sum.now.terms.items }
        ensures grows { OnOk result (Grows self.old self.new) }
        ensures facts { IfOk result (λ fs. AreFacts self.new values.now (map (term_expr atoms.now) sum.now.terms.items)
            (zip2 (times_term self.old.prime) sum.now.terms.items facts.now) fs.items) }
    {
        let mut all = Vec::new(self.alloc);
        for i in 0..sum.terms.len() {
            let next = self.times(values, sum.terms[i].number, &facts[i])?;
            all.push(next)?;
        }
        Ok(all)
    }

    /// From e = F and a form for each atom in F: e = that of F.
    pub fn substitute(
        &mut self,
        atoms: &[Expr],
        values: &[Expr],
        sum: &Fact,
        facts: &[Fact],
    ) -> Result<Fact, AllocError>
        requires atoms { All (IsExpr self.old.presentation) atoms.now }
        requires values { All (IsExpr self.old.presentation) values.now }
        requires work { IsWork self.old atoms.now sum.now }
        requires facts { All (IsWork self.old values.now) facts.now }
        requires lefts { lefts self.old facts.now ≡ map (atom_of atoms.now) sum.now.terms.items }
        ensures grows { OnOk result (Grows self.old self.new) }
        ensures work { IfOk result (λ f. IsWork self.new values.now f) }
        ensures left { IfOk result (λ f. left_of self.new f.line ≡ left_of self.old sum.now.line) }
        ensures terms { IfOk result (λ f. f.terms.items ≡ tidied self.old.prime (combined self.old.prime sum.now.terms.items facts.now)) }
    {
        let each = self.multiples(atoms, values, sum, facts)?;
        let all = self.sum(values, &each)?;
        let led = self.led(values, sum.line, &all)?;
        Ok(led)
    }
}
