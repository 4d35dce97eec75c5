//! Sums without the terms whose number is 0.
ghost use Rattle.std.specs.Prelude.{◌≡◌, ◌≤◌, ◌<◌, ◌++◌, [], ◌∷◌, length, map, drop, All, IfOk, OnOk};
ghost use Rattle.fpl_forms.specs.Ledgers.{IsExpr, Grows, Says, IsWithin, AreWithin, left_of, right_of};
ghost use Rattle.fpl_forms.specs.Forms.{IsWork, IsPart, IsTermOf, AreTermsOf, term_expr, part_expr, zeroed, nonzero, tidied};

use crate::Ledger;
use crate::term::{Fact, Term, member_number, term_expr};
use fpl_lines::{Line, Rule};
use fpl_model::{Expr, Members};
use std::alloc::{AllocError, Global};

/// A multiple of an atom, or 0 where its number is 0.
fn zeroed_term(alloc: Global, atoms: &[Expr], t: Term) -> Result<Expr, AllocError>
    requires { t.atom < length atoms.now }
    ensures { IfOk result (λ e. e ≡ zeroed atoms.now t) }
{
    if t.number == 0 {
        return Ok(Expr::Zero);
    }
    term_expr(alloc, atoms, t)
}

/// The sum of terms as they are, and then of terms with 0 in the place of each whose number is 0.
fn part_expr(
    alloc: Global,
    atoms: &[Expr],
    front: &[Term],
    back: &[Term],
) -> Result<Expr, AllocError>
    requires front { All (λ t. t.atom < length atoms.now) front.now }
    requires back { All (λ t. t.atom < length atoms.now) back.now }
    ensures { IfOk result (λ e. e ≡ part_expr atoms.now front.now back.now) }
{
    let mut members = Members::new(alloc);
    for t in front {
        members.push(term_expr(alloc, atoms, *t)?)?;
    }
    for t in back {
        members.push(zeroed_term(alloc, atoms, *t)?)?;
    }
    members.sum(alloc)
}

impl<'a> Ledger<'a> {
    /// A term is 0 where its number is, and else itself.
    fn zero(&mut self, atoms: &[Expr], t: Term) -> Result<u64, AllocError>
        requires atoms { All (IsExpr self.old.presentation) atoms.now }
        requires term { IsTermOf self.old.prime (length atoms.now) t }
        ensures grows { OnOk result (Grows self.old self.new) }
        ensures says { IfOk result (λ n. Says self.new n (term_expr atoms.now t) (zeroed atoms.now t)) }
    {
        let left = term_expr(self.alloc, atoms, t)?;
        if t.number == 0 {
            return self.push(Line {
                left,
                right: Expr::Zero,
                why: Rule::Nought,
            });
        }
        self.same(left)
    }

    /// Each term is 0 where its number is, and else itself.
    fn zeros(&mut self, atoms: &[Expr], sum: &Fact) -> Result<Vec<u64>, AllocError>
        requires atoms { All (IsExpr self.old.presentation) atoms.now }
        requires terms { AreTermsOf self.old.prime (length atoms.now) sum.now.terms.items }
        ensures grows { OnOk result (Grows self.old self.new) }
        ensures within { IfOk result (λ ns. AreWithin self.new ns.items) }
        ensures lefts { IfOk result (λ ns. map (left_of self.new) ns.items ≡ map (term_expr atoms.now) sum.now.terms.items) }
        ensures rights { IfOk result (λ ns. map (right_of self.new) ns.items ≡ map (zeroed atoms.now) sum.now.terms.items) }
    {
        let mut lines = Vec::new(self.alloc);
        for i in 0..sum.terms.len() {
            let n = self.zero(atoms, sum.terms[i])?;
            lines.push(n)?;
        }
        Ok(lines)
    }

    /// Leaves out a member 0 that stands between terms as they are and terms with 0 for some.
    fn leave_out(
        &mut self,
        atoms: &[Expr],
        line: u64,
        front: &[Term],
        back: &[Term],
    ) -> Result<u64, AllocError>
        requires atoms { All (IsExpr self.old.presentation) atoms.now }
        requires front { AreTermsOf self.old.prime (length atoms.now) front.now }
        requires back { AreTermsOf self.old.prime (length atoms.now) back.now }
        requires line { (1 ≤ line) × (line ≤ length self.old.lines) }
        requires right { right_of self.old line ≡ Expr.Sum (map (term_expr atoms.now) front.now ++ Expr.Zero ∷ map (zeroed atoms.now) back.now) }
        ensures grows { OnOk result (Grows self.old self.new) }
        ensures says { IfOk result (λ n. Says self.new n (left_of self.old line) (part_expr atoms.now front.now back.now)) }
    {
        let number = member_number(front.len())?;
        let right = part_expr(self.alloc, atoms, front, back)?;
        self.follow(line, right, Rule::Drop(number))
    }

    /// Takes the next term in: it is left out where its number is 0.
    fn take_in(
        &mut self,
        atoms: &[Expr],
        part: Fact,
        t: Term,
        back: &[Term],
    ) -> Result<Fact, AllocError>
        requires atoms { All (IsExpr self.old.presentation) atoms.now }
        requires part { IsPart self.old atoms.now (t ∷ back.now) part }
        requires term { IsTermOf self.old.prime (length atoms.now) t }
        requires back { AreTermsOf self.old.prime (length atoms.now) back.now }
        ensures grows { OnOk result (Grows self.old self.new) }
        ensures part { IfOk result (λ f. IsPart self.new atoms.now back.now f) }
        ensures left { IfOk result (λ f. left_of self.new f.line ≡ left_of self.old part.line) }
        ensures terms { IfOk result (λ f. f.terms.items ≡ part.terms.items ++ nonzero (t ∷ [])) }
    {
        let Fact { line, mut terms } = part;
        if t.number == 0 {
            let line = self.leave_out(atoms, line, &terms, back)?;
            return Ok(Fact { line, terms });
        }
        terms.push(t)?;
        Ok(Fact { line, terms })
    }

    /// The line of a sum with 0 in the place of each term whose number is 0, before any is taken in.
    fn start_zeros(&mut self, atoms: &[Expr], sum: &Fact) -> Result<Fact, AllocError>
        requires atoms { All (IsExpr self.old.presentation) atoms.now }
        requires work { IsWork self.old atoms.now sum.now }
        ensures grows { OnOk result (Grows self.old self.new) }
        ensures part { IfOk result (λ f. IsPart self.new atoms.now sum.now.terms.items f) }
        ensures left { IfOk result (λ f. left_of self.new f.line ≡ left_of self.old sum.now.line) }
        ensures terms { IfOk result (λ f. f.terms.items ≡ []) }
    {
        let lines = self.zeros(atoms, sum)?;
        let zeros = self.parts(lines)?;
        let line = self.chain(sum.line, zeros)?;
        Ok(Fact {
            line,
            terms: Vec::new(self.alloc),
        })
    }

    /// The terms whose number isn't 0.
    pub(crate) fn drop_zeros(&mut self, atoms: &[Expr], sum: Fact) -> Result<Fact, AllocError>
        requires atoms { All (IsExpr self.old.presentation) atoms.now }
        requires work { IsWork self.old atoms.now sum }
        ensures grows { OnOk result (Grows self.old self.new) }
        ensures work { IfOk result (λ f. IsWork self.new atoms.now f) }
        ensures left { IfOk result (λ f. left_of self.new f.line ≡ left_of self.old sum.line) }
        ensures terms { IfOk result (λ f. f.terms.items ≡ nonzero sum.terms.items) }
    {
        let mut part = self.start_zeros(atoms, &sum)?;
        for i in 0..sum.terms.len() {
            part = self.take_in(atoms, part, sum.terms[i], &sum.terms[i + 1..])?;
        }
        Ok(part)
    }

    /// The terms by ascending atom, with one number for each, and without those whose number is 0.
    pub fn tidy(&mut self, atoms: &[Expr], sum: Fact) -> Result<Fact, AllocError>
        requires atoms { All (IsExpr self.old.presentation) atoms.now }
        requires work { IsWork self.old atoms.now sum }
        ensures grows { OnOk result (Grows self.old self.new) }
        ensures work { IfOk result (λ f. IsWork self.new atoms.now f) }
        ensures left { IfOk result (λ f. left_of self.new f.line ≡ left_of self.old sum.line) }
        ensures terms { IfOk result (λ f. f.terms.items ≡ tidied self.old.prime sum.terms.items) }
    {
        let ordered = self.sort(atoms, sum)?;
        let kept = self.drop_zeros(atoms, ordered)?;
        Ok(kept)
    }
}
