//! Sums of forms.
ghost use Rattle.std.specs.Prelude.{◌≡◌, ◌≤◌, ◌<◌, ◌++◌, [], ◌∷◌, length, map, All, IfOk, OnOk};
ghost use Rattle.fpl_forms.specs.Ledgers.{IsExpr, Grows, AreWithin, left_of, right_of};
ghost use Rattle.fpl_forms.specs.Forms.{IsWork, AreTermsOf, term_expr, sum_expr, tidied};
ghost use Rattle.fpl_forms.specs.Combining.{IsHalf, joined, half_expr, lefts};

use crate::Ledger;
use crate::term::{Fact, Term, member_number, sum_expr, term_expr};
use fpl_lines::Rule;
use fpl_model::{Expr, Members};
use std::alloc::{AllocError, Global};

/// The lines of facts.
fn lines_of(alloc: Global, facts: &[Fact]) -> Result<Vec<u64>, AllocError>
    ensures { IfOk result (λ ns. ns.items ≡ map (λ f. f.line) facts.now) }
{
    let mut lines = Vec::new(alloc);
    for f in facts {
        lines.push(f.line)?;
    }
    Ok(lines)
}

/// Two lists of terms, one after the other.
fn one_list(alloc: Global, front: &[Term], back: &[Term]) -> Result<Vec<Term>, AllocError>
    ensures { IfOk result (λ ts. ts.items ≡ front.now ++ back.now) }
{
    let mut all = Vec::new(alloc);
    for t in front {
        all.push(*t)?;
    }
    for t in back {
        all.push(*t)?;
    }
    Ok(all)
}

/// The sum of forms as they are, and then of terms.
fn half_expr(
    alloc: Global,
    atoms: &[Expr],
    front: &[Fact],
    back: &[Term],
) -> Result<Expr, AllocError>
    requires front { All (λ f. All (λ t. t.atom < length atoms.now) f.terms.items) front.now }
    requires back { All (λ t. t.atom < length atoms.now) back.now }
    ensures { IfOk result (λ e. e ≡ half_expr atoms.now front.now back.now) }
{
    let mut members = Members::new(alloc);
    for f in front {
        members.push(sum_expr(alloc, atoms, &f.terms)?)?;
    }
    for t in back {
        members.push(term_expr(alloc, atoms, *t)?)?;
    }
    members.sum(alloc)
}

impl<'a> Ledger<'a> {
    /// The last form that still stands as a member is replaced by its terms.
    fn flat(
        &mut self,
        atoms: &[Expr],
        part: Fact,
        front: &[Fact],
        last: &Fact,
    ) -> Result<Fact, AllocError>
        requires atoms { All (IsExpr self.old.presentation) atoms.now }
        requires front { All (λ f. AreTermsOf self.old.prime (length atoms.now) f.terms.items) front.now }
        requires last { AreTermsOf self.old.prime (length atoms.now) last.now.terms.items }
        requires part { IsHalf self.old atoms.now (front.now ++ last.now ∷ []) part }
        ensures grows { OnOk result (Grows self.old self.new) }
        ensures part { IfOk result (λ f. IsHalf self.new atoms.now front.now f) }
        ensures left { IfOk result (λ f. left_of self.new f.line ≡ left_of self.old part.line) }
        ensures terms { IfOk result (λ f. f.terms.items ≡ last.now.terms.items ++ part.terms.items) }
    {
        let Fact { line, terms } = part;
        let terms = one_list(self.alloc, &last.terms, &terms)?;
        let right = half_expr(self.alloc, atoms, front, &terms)?;
        let line = self.follow(line, right, Rule::Flat(member_number(front.len())?))?;
        Ok(Fact { line, terms })
    }

    /// The sum of the left sides is the sum of all terms, in one list.
    fn flatten(&mut self, atoms: &[Expr], facts: &[Fact]) -> Result<Fact, AllocError>
        requires atoms { All (IsExpr self.old.presentation) atoms.now }
        requires facts { All (IsWork self.old atoms.now) facts.now }
        ensures grows { OnOk result (Grows self.old self.new) }
        ensures work { IfOk result (λ f. IsWork self.new atoms.now f) }
        ensures left { IfOk result (λ f. left_of self.new f.line ≡ Expr.Sum (lefts self.old facts.now)) }
        ensures terms { IfOk result (λ f. f.terms.items ≡ joined facts.now) }
    {
        let lines = lines_of(self.alloc, facts)?;
        let line = self.parts(lines)?;
        let mut part = Fact {
            line,
            terms: Vec::new(self.alloc),
        };
        let mut at = facts.len();
        while at > 0 {
            at -= 1;
            part = self.flat(atoms, part, &facts[..at], &facts[at])?;
        }
        Ok(part)
    }

    /// From a form for each of some expressions: that of their sum.
    pub fn sum(&mut self, atoms: &[Expr], facts: &[Fact]) -> Result<Fact, AllocError>
        requires atoms { All (IsExpr self.old.presentation) atoms.now }
        requires facts { All (IsWork self.old atoms.now) facts.now }
        ensures grows { OnOk result (Grows self.old self.new) }
        ensures work { IfOk result (λ f. IsWork self.new atoms.now f) }
        ensures left { IfOk result (λ f. left_of self.new f.line ≡ Expr.Sum (lefts self.old facts.now)) }
        ensures terms { IfOk result (λ f. f.terms.items ≡ tidied self.old.prime (joined facts.now)) }
    {
        let all = self.flatten(atoms, facts)?;
        let ordered = self.tidy(atoms, all)?;
        Ok(ordered)
    }
}
