//! Brackets of forms.
ghost use Rattle.std.specs.Prelude.{◌≡◌, ◌≤◌, ◌<◌, length, map, get_or, All, IfOk, OnOk};
ghost use Rattle.fpl_numbers.specs.Numbers.{residue};
ghost use Rattle.fpl_forms.specs.Ledgers.{IsExpr, Grows, Says, left_of};
ghost use Rattle.fpl_forms.specs.Forms.{IsWork, AreTermsOf, term_expr, sum_expr, tidied};
ghost use Rattle.fpl_forms.specs.Combining.{multiplied, joined, lefts};

use crate::Ledger;
use crate::ledger::bracket;
use crate::term::{Fact, Term, multiple, sum_expr, term_expr};
use fpl_lines::{Line, Rule};
use fpl_model::{Expr, Members};
use std::alloc::{AllocError, Global};

/// The sum of copies of expressions.
fn sum_of(alloc: Global, es: &[Expr]) -> Result<Expr, AllocError>
    ensures { IfOk result (λ e. e ≡ Expr.Sum es.now) }
{
    let mut members = Members::new(alloc);
    for e in es {
        members.push(e.copy(alloc)?)?;
    }
    members.sum(alloc)
}

/// The sum of the brackets of one expression with each of some.
fn right_brackets(alloc: Global, e: &Expr, es: &[Expr]) -> Result<Expr, AllocError>
    ensures { IfOk result (λ s. s ≡ Expr.Sum (map (Expr.Br e.now) es.now)) }
{
    let mut members = Members::new(alloc);
    for f in es {
        members.push(bracket(alloc, e, f)?)?;
    }
    members.sum(alloc)
}

/// The sum of the brackets of each of some expressions with one.
fn left_brackets(alloc: Global, es: &[Expr], e: &Expr) -> Result<Expr, AllocError>
    ensures { IfOk result (λ s. s ≡ Expr.Sum (map (λ x. Expr.Br x e.now) es.now)) }
{
    let mut members = Members::new(alloc);
    for f in es {
        members.push(bracket(alloc, f, e)?)?;
    }
    members.sum(alloc)
}

/// Terms as expressions.
pub(crate) fn term_exprs(
    alloc: Global,
    atoms: &[Expr],
    terms: &[Term],
) -> Result<Vec<Expr>, AllocError>
    requires { All (λ t. t.atom < length atoms.now) terms.now }
    ensures { IfOk result (λ es. es.items ≡ map (term_expr atoms.now) terms.now) }
{
    let mut all = Vec::new(alloc);
    for t in terms {
        all.push(term_expr(alloc, atoms, *t)?)?;
    }
    Ok(all)
}

/// A multiple of a copy.
fn copied_multiple(alloc: Global, number: u32, e: &Expr) -> Result<Expr, AllocError>
    ensures { IfOk result (λ m. m ≡ Expr.Times (residue number) e.now) }
{
    multiple(alloc, number, e.copy(alloc)?)
}

impl<'a> Ledger<'a> {
    /// [e, c*x] = c*[e,x].
    fn right_multiple(&mut self, e: &Expr, number: u32, x: &Expr) -> Result<u64, AllocError>
        requires left { IsExpr self.old.presentation e.now }
        requires number { number < self.old.prime }
        requires right { IsExpr self.old.presentation x.now }
        ensures grows { OnOk result (Grows self.old self.new) }
        ensures says { IfOk result (λ n. Says self.new n (Expr.Br e.now (Expr.Times (residue number) x.now)) (Expr.Times (residue number) (Expr.Br e.now x.now))) }
    {
        let multiple_of = copied_multiple(self.alloc, number, x)?;
        let left = bracket(self.alloc, e, &multiple_of)?;
        let right = multiple(self.alloc, number, bracket(self.alloc, e, x)?)?;
        self.push(Line {
            left,
            right,
            why: Rule::RightTimes,
        })
    }

    /// [c*x, e] = c*[x,e].
    fn left_multiple(&mut self, number: u32, x: &Expr, e: &Expr) -> Result<u64, AllocError>
        requires number { number < self.old.prime }
        requires left { IsExpr self.old.presentation x.now }
        requires right { IsExpr self.old.presentation e.now }
        ensures grows { OnOk result (Grows self.old self.new) }
        ensures says { IfOk result (λ n. Says self.new n (Expr.Br (Expr.Times (residue number) x.now) e.now) (Expr.Times (residue number) (Expr.Br x.now e.now))) }
    {
        let multiple_of = copied_multiple(self.alloc, number, x)?;
        let left = bracket(self.alloc, &multiple_of, e)?;
        let right = multiple(self.alloc, number, bracket(self.alloc, x, e)?)?;
        self.push(Line {
            left,
            right,
            why: Rule::LeftTimes,
        })
    }

    /// A bracket whose right member is a sum is the sum of the brackets.
    fn right_spread(&mut self, e: &Expr, xs: &[Expr]) -> Result<u64, AllocError>
        requires left { IsExpr self.old.presentation e.now }
        requires right { All (IsExpr self.old.presentation) xs.now }
        ensures grows { OnOk result (Grows self.old self.new) }
        ensures says { IfOk result (λ n. Says self.new n (Expr.Br e.now (Expr.Sum xs.now)) (Expr.Sum (map (Expr.Br e.now) xs.now))) }
    {
        let sum = sum_of(self.alloc, xs)?;
        let left = bracket(self.alloc, e, &sum)?;
        let right = right_brackets(self.alloc, e, xs)?;
        self.push(Line {
            left,
            right,
            why: Rule::RightSum,
        })
    }

    /// A bracket whose left member is a sum is the sum of the brackets.
    fn left_spread(&mut self, xs: &[Expr], e: &Expr) -> Result<u64, AllocError>
        requires left { All (IsExpr self.old.presentation) xs.now }
        requires right { IsExpr self.old.presentation e.now }
        ensures grows { OnOk result (Grows self.old self.new) }
        ensures says { IfOk result (λ n. Says self.new n (Expr.Br (Expr.Sum xs.now) e.now) (Expr.Sum (map (λ x. Expr.Br x e.now) xs.now))) }
    {
        let sum = sum_of(self.alloc, xs)?;
        let left = bracket(self.alloc, &sum, e)?;
        let right = left_brackets(self.alloc, xs, e)?;
        self.push(Line {
            left,
            right,
            why: Rule::LeftSum,
        })
    }

    /// From [e,x] = F: [e, c*x] = F times c.
    pub fn times_right(
        &mut self,
        values: &[Expr],
        e: &Expr,
        number: u32,
        x: &Expr,
        sum: &Fact,
    ) -> Result<Fact, AllocError>
        requires values { All (IsExpr self.old.presentation) values.now }
        requires left { IsExpr self.old.presentation e.now }
        requires number { number < self.old.prime }
        requires right { IsExpr self.old.presentation x.now }
        requires work { IsWork self.old values.now sum.now }
        requires bracket { left_of self.old sum.now.line ≡ Expr.Br e.now x.now }
        ensures grows { OnOk result (Grows self.old self.new) }
        ensures work { IfOk result (λ f. IsWork self.new values.now f) }
        ensures left { IfOk result (λ f. left_of self.new f.line ≡ Expr.Br e.now (Expr.Times (residue number) x.now)) }
        ensures terms { IfOk result (λ f. f.terms.items ≡ multiplied self.old.prime number sum.now.terms.items) }
    {
        let out = self.right_multiple(e, number, x)?;
        let scaled = self.times(values, number, sum)?;
        let led = self.led(values, out, &scaled)?;
        Ok(led)
    }

    /// From [x,e] = F: [c*x, e] = F times c.
    pub fn times_left(
        &mut self,
        values: &[Expr],
        number: u32,
        x: &Expr,
        e: &Expr,
        sum: &Fact,
    ) -> Result<Fact, AllocError>
        requires values { All (IsExpr self.old.presentation) values.now }
        requires number { number < self.old.prime }
        requires left { IsExpr self.old.presentation x.now }
        requires right { IsExpr self.old.presentation e.now }
        requires work { IsWork self.old values.now sum.now }
        requires bracket { left_of self.old sum.now.line ≡ Expr.Br x.now e.now }
        ensures grows { OnOk result (Grows self.old self.new) }
        ensures work { IfOk result (λ f. IsWork self.new values.now f) }
        ensures left { IfOk result (λ f. left_of self.new f.line ≡ Expr.Br (Expr.Times (residue number) x.now) e.now) }
        ensures terms { IfOk result (λ f. f.terms.items ≡ multiplied self.old.prime number sum.now.terms.items) }
    {
        let out = self.left_multiple(number, x, e)?;
        let scaled = self.times(values, number, sum)?;
        let led = self.led(values, out, &scaled)?;
        Ok(led)
    }

    /// From a form for each [e,x]: that of the bracket of e and the sum of the x.
    pub fn sum_right(
        &mut self,
        values: &[Expr],
        e: &Expr,
        xs: &[Expr],
        facts: &[Fact],
    ) -> Result<Fact, AllocError>
        requires values { All (IsExpr self.old.presentation) values.now }
        requires left { IsExpr self.old.presentation e.now }
        requires right { All (IsExpr self.old.presentation) xs.now }
        requires facts { All (IsWork self.old values.now) facts.now }
        requires lefts { lefts self.old facts.now ≡ map (Expr.Br e.now) xs.now }
        ensures grows { OnOk result (Grows self.old self.new) }
        ensures work { IfOk result (λ f. IsWork self.new values.now f) }
        ensures left { IfOk result (λ f. left_of self.new f.line ≡ Expr.Br e.now (Expr.Sum xs.now)) }
        ensures terms { IfOk result (λ f. f.terms.items ≡ tidied self.old.prime (joined facts.now)) }
    {
        let out = self.right_spread(e, xs)?;
        let all = self.sum(values, facts)?;
        let led = self.led(values, out, &all)?;
        Ok(led)
    }

    /// From a form for each [x,e]: that of the bracket of the sum of the x and e.
    pub fn sum_left(
        &mut self,
        values: &[Expr],
        xs: &[Expr],
        e: &Expr,
        facts: &[Fact],
    ) -> Result<Fact, AllocError>
        requires values { All (IsExpr self.old.presentation) values.now }
        requires left { All (IsExpr self.old.presentation) xs.now }
        requires right { IsExpr self.old.presentation e.now }
        requires facts { All (IsWork self.old values.now) facts.now }
        requires lefts { lefts self.old facts.now ≡ map (λ x. Expr.Br x e.now) xs.now }
        ensures grows { OnOk result (Grows self.old self.new) }
        ensures work { IfOk result (λ f. IsWork self.new values.now f) }
        ensures left { IfOk result (λ f. left_of self.new f.line ≡ Expr.Br (Expr.Sum xs.now) e.now) }
        ensures terms { IfOk result (λ f. f.terms.items ≡ tidied self.old.prime (joined facts.now)) }
    {
        let out = self.left_spread(xs, e)?;
        let all = self.sum(values, facts)?;
        let led = self.led(values, out, &all)?;
        Ok(led)
    }
}
