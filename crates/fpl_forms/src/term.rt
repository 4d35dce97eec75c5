//! Multiples of atoms, and their sums.
ghost use Rattle.std.specs.Prelude.{◌≡◌, ◌<◌, ◌+◌, ◌^◌, length, All, IfOk};
ghost use Rattle.fpl_numbers.specs.Numbers.{residue};
ghost use Rattle.fpl_forms.specs.Forms.{term_expr, sum_expr};
ghost use Rattle.fpl_forms.specs.Combining.{atom_of};

use fpl_model::{Expr, Members, Scalar};
use fpl_numbers::Num;
use sqlite_items::Boxed;
use std::alloc::{AllocError, Global};

/// A residue times an atom, which is named by its place, from 0.
#[derive(Clone, Copy, Debug, PartialEq, Eq)]
pub struct Term {
    pub atom: u32,
    pub number: u32,
}

/// A line of a ledger, whose right side is the sum of these terms.
#[derive(Drop)]
pub struct Fact {
    pub line: u64,
    pub terms: Vec<Term>,
}

impl Fact {
    /// An equal fact.
    pub fn copy(&self, alloc: Global) -> Result<Fact, AllocError>
        ensures line { IfOk result (λ f. f.line ≡ self.now.line) }
        ensures terms { IfOk result (λ f. f.terms.items ≡ self.now.terms.items) }
    {
        Ok(Fact {
            line: self.line,
            terms: Vec::from_slice(alloc, &self.terms)?,
        })
    }
}

/// A multiple of an expression.
pub fn multiple(alloc: Global, number: u32, e: Expr) -> Result<Expr, AllocError>
    ensures { IfOk result (λ m. m ≡ Expr.Times (residue number) e) }
{
    let number = Num {
        numerator: i128::from(number),
        denominator: 1,
    };
    Ok(Expr::Times(Scalar::new(alloc, number)?, Boxed::new(alloc, e)?))
}

/// The atom of a term.
pub(crate) fn atom_of(atoms: &[Expr], t: Term) -> &Expr
    requires { t.atom < length atoms.now }
    ensures { result.now ≡ atom_of atoms.now t }
{
    &atoms[t.atom as usize]
}

/// A multiple of an atom.
pub fn term_expr(alloc: Global, atoms: &[Expr], t: Term) -> Result<Expr, AllocError>
    requires { t.atom < length atoms.now }
    ensures { IfOk result (λ e. e ≡ term_expr atoms.now t) }
{
    multiple(alloc, t.number, atoms[t.atom as usize].copy(alloc)?)
}

/// A sum of multiples of atoms.
pub fn sum_expr(alloc: Global, atoms: &[Expr], terms: &[Term]) -> Result<Expr, AllocError>
    requires { All (λ t. t.atom < length atoms.now) terms.now }
    ensures { IfOk result (λ e. e ≡ sum_expr atoms.now terms.now) }
{
    let mut members = Members::new(alloc);
    for t in terms {
        members.push(term_expr(alloc, atoms, *t)?)?;
    }
    members.sum(alloc)
}

/// The number of the member of a sum that stands at a place, which counts from 0. A number that is too great wants more memory than there is.
pub(crate) fn member_number(at: usize) -> Result<u32, AllocError>
    requires { at < 2 ^ 63 }
    ensures { IfOk result (λ k. k ≡ at + 1) }
{
    match u32::try_from(at + 1) {
        Ok(k) => Ok(k),
        Err(_) => Err(AllocError),
    }
}
