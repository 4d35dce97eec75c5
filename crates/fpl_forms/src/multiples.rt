//! Forms of atoms and of multiples.
ghost use Rattle.std.specs.Prelude.{◌≡◌, ◌≤◌, ◌<◌, ◌*◌, ◌%◌, [], ◌∷◌, length, map, get_or, All, IfOk, OnOk};
ghost use Rattle.fpl_numbers.specs.Numbers.{residue};
ghost use Rattle.fpl_forms.specs.Ledgers.{IsExpr, Grows, Says, IsWithin, AreWithin, left_of, right_of};
ghost use Rattle.fpl_forms.specs.Forms.{IsWork, IsTermOf, AreTermsOf, term_expr, sum_expr};
ghost use Rattle.fpl_forms.specs.Combining.{scaled, multiplied, spread_expr};

use crate::Ledger;
use crate::term::{Fact, Term, atom_of, multiple, sum_expr, term_expr};
use fpl_lines::{Line, Rule};
use fpl_model::{Expr, Members};
use std::alloc::{AllocError, Global};

/// The product of two residues.
fn product_modulo(prime: u32, a: u32, b: u32) -> u32
    requires { 0 < prime }
    ensures { result ≡ (a * b) % prime }
{
    (u64::from(a) * u64::from(b) % u64::from(prime)) as u32
}

/// A term, times a number.
fn scaled(prime: u32, number: u32, t: Term) -> Term
    requires { 0 < prime }
    ensures { result ≡ scaled prime number t }
{
    Term {
        atom: t.atom,
        number: product_modulo(prime, number, t.number),
    }
}

/// Terms, each times a number.
fn scaled_terms(
    alloc: Global,
    prime: u32,
    number: u32,
    terms: &[Term],
) -> Result<Vec<Term>, AllocError>
    requires { 0 < prime }
    ensures { IfOk result (λ ts. ts.items ≡ map (scaled prime number) terms.now) }
{
    let mut all = Vec::new(alloc);
    for t in terms {
        all.push(scaled(prime, number, *t))?;
    }
    Ok(all)
}

/// The sum of terms, each times a number.
fn spread_expr(
    alloc: Global,
    number: u32,
    atoms: &[Expr],
    terms: &[Term],
) -> Result<Expr, AllocError>
    requires { All (λ t. t.atom < length atoms.now) terms.now }
    ensures { IfOk result (λ e. e ≡ spread_expr number atoms.now terms.now) }
{
    let mut members = Members::new(alloc);
    for t in terms {
        members.push(multiple(alloc, number, term_expr(alloc, atoms, *t)?)?)?;
    }
    members.sum(alloc)
}

/// The sum of a copy of one expression.
fn sum_of_one(alloc: Global, e: &Expr) -> Result<Expr, AllocError>
    ensures { IfOk result (λ s. s ≡ Expr.Sum (e.now ∷ [])) }
{
    let mut members = Members::new(alloc);
    members.push(e.copy(alloc)?)?;
    members.sum(alloc)
}

impl<'a> Ledger<'a> {
    /// A sum of multiples of atoms, as it is.
    pub fn form(&mut self, atoms: &[Expr], terms: Vec<Term>) -> Result<Fact, AllocError>
        requires atoms { All (IsExpr self.old.presentation) atoms.now }
        requires terms { AreTermsOf self.old.prime (length atoms.now) terms.items }
        ensures grows { OnOk result (Grows self.old self.new) }
        ensures work { IfOk result (λ f. IsWork self.new atoms.now f) }
        ensures left { IfOk result (λ f. left_of self.new f.line ≡ sum_expr atoms.now terms.items) }
        ensures terms { IfOk result (λ f. f.terms.items ≡ terms.items) }
    {
        let whole = sum_expr(self.alloc, atoms, &terms)?;
        let line = self.same(whole)?;
        Ok(Fact { line, terms })
    }

    /// From e = 1*a: e = the sum of 1*a alone.
    fn alone(&mut self, line: u64, once: &Expr) -> Result<u64, AllocError>
        requires line { (1 ≤ line) × (line ≤ length self.old.lines) }
        requires right { right_of self.old line ≡ once.now }
        ensures grows { OnOk result (Grows self.old self.new) }
        ensures says { IfOk result (λ n. Says self.new n (left_of self.old line) (Expr.Sum (once.now ∷ []))) }
    {
        let left = sum_of_one(self.alloc, once)?;
        let right = once.copy(self.alloc)?;
        let single = self.push(Line {
            left,
            right,
            why: Rule::Single,
        })?;
        let turned = self.turn(single)?;
        let chained = self.chain(line, turned)?;
        Ok(chained)
    }

    /// From a: a = 1*a.
    fn once(&mut self, atom: &Expr) -> Result<u64, AllocError>
        requires { IsExpr self.old.presentation atom.now }
        ensures grows { OnOk result (Grows self.old self.new) }
        ensures says { IfOk result (λ n. Says self.new n atom.now (Expr.Times (residue 1) atom.now)) }
    {
        let left = multiple(self.alloc, 1, atom.copy(self.alloc)?)?;
        let right = atom.copy(self.alloc)?;
        let one = self.push(Line {
            left,
            right,
            why: Rule::One,
        })?;
        let turned = self.turn(one)?;
        Ok(turned)
    }

    /// An atom as a form of one term.
    pub fn unit(&mut self, atoms: &[Expr], atom: u32) -> Result<Fact, AllocError>
        requires atoms { All (IsExpr self.old.presentation) atoms.now }
        requires atom { atom < length atoms.now }
        ensures grows { OnOk result (Grows self.old self.new) }
        ensures work { IfOk result (λ f. IsWork self.new atoms.now f) }
        ensures left { IfOk result (λ f. left_of self.new f.line ≡ get_or atoms.now atom Expr.Zero) }
        ensures terms { IfOk result (λ f. f.terms.items ≡ (record { atom = atom; number = 1 }) ∷ []) }
    {
        let t = Term { atom, number: 1 };
        let once = self.once(atom_of(atoms, t))?;
        let whole = term_expr(self.alloc, atoms, t)?;
        let line = self.alone(once, &whole)?;
        let mut terms = Vec::new(self.alloc);
        terms.push(t)?;
        Ok(Fact { line, terms })
    }

    /// c*(a*e) = (ca)*e, for a term a*e.
    fn multiply(&mut self, atoms: &[Expr], number: u32, t: Term) -> Result<u64, AllocError>
        requires atoms { All (IsExpr self.old.presentation) atoms.now }
        requires number { number < self.old.prime }
        requires term { IsTermOf self.old.prime (length atoms.now) t }
        ensures grows { OnOk result (Grows self.old self.new) }
        ensures says { IfOk result (λ n. Says self.new n (Expr.Times (residue number) (term_expr atoms.now t)) (term_expr atoms.now (scaled self.old.prime number t))) }
    {
        let left = multiple(self.alloc, number, term_expr(self.alloc, atoms, t)?)?;
        let right = term_expr(self.alloc, atoms, scaled(self.prime, number, t))?;
        self.push(Line {
            left,
            right,
            why: Rule::Multiply,
        })
    }

    /// The same for each of some terms.
    fn multiply_each(
        &mut self,
        atoms: &[Expr],
        number: u32,
        sum: &Fact,
    ) -> Result<Vec<u64>, AllocError>
        requires atoms { All (IsExpr self.old.presentation) atoms.now }
        requires number { number < self.old.prime }
        requires terms { AreTermsOf self.old.prime (length atoms.now) sum.now.terms.items }
        ensures grows { OnOk result (Grows self.old self.new) }
        ensures within { IfOk result (λ ns. AreWithin self.new ns.items) }
        ensures lefts { IfOk result (λ ns. map (left_of self.new) ns.items ≡ map (λ t. Expr.Times (residue number) (term_expr atoms.now t)) sum.now.terms.items) }
        ensures rights { IfOk result (λ ns. map (right_of self.new) ns.items ≡
            map (λ t. term_expr atoms.now (scaled self.old.prime number t)) sum.now.terms.items) }
    {
        let mut lines = Vec::new(self.alloc);
        for i in 0..sum.terms.len() {
            let n = self.multiply(atoms, number, sum.terms[i])?;
            lines.push(n)?;
        }
        Ok(lines)
    }

    /// From e = F: c*e = the sum of the terms of F, each times c.
    fn spread(&mut self, atoms: &[Expr], number: u32, sum: &Fact) -> Result<u64, AllocError>
        requires atoms { All (IsExpr self.old.presentation) atoms.now }
        requires number { number < self.old.prime }
        requires work { IsWork self.old atoms.now sum.now }
        ensures grows { OnOk result (Grows self.old self.new) }
        ensures says { IfOk result (λ n. Says self.new n (Expr.Times (residue number) (left_of self.old sum.now.line)) (spread_expr number atoms.now sum.now.terms.items)) }
    {
        let whole = self.factor(number, sum.line)?;
        let right = spread_expr(self.alloc, number, atoms, &sum.terms)?;
        let spread = self.follow(whole, right, Rule::Spread)?;
        Ok(spread)
    }

    /// From e = F: c*e = F times c.
    pub fn times(&mut self, atoms: &[Expr], number: u32, sum: &Fact) -> Result<Fact, AllocError>
        requires atoms { All (IsExpr self.old.presentation) atoms.now }
        requires number { number < self.old.prime }
        requires work { IsWork self.old atoms.now sum.now }
        ensures grows { OnOk result (Grows self.old self.new) }
        ensures work { IfOk result (λ f. IsWork self.new atoms.now f) }
        ensures left { IfOk result (λ f. left_of self.new f.line ≡ Expr.Times (residue number) (left_of self.old sum.now.line)) }
        ensures terms { IfOk result (λ f. f.terms.items ≡ multiplied self.old.prime number sum.now.terms.items) }
    {
        let spread = self.spread(atoms, number, sum)?;
        let each = self.multiply_each(atoms, number, sum)?;
        let parts = self.parts(each)?;
        let line = self.chain(spread, parts)?;
        let terms = scaled_terms(self.alloc, self.prime, number, &sum.terms)?;
        let kept = self.drop_zeros(atoms, Fact { line, terms })?;
        Ok(kept)
    }
}
