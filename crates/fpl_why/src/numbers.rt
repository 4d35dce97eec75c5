//! The rules on numbers, which are residues.
ghost use Rattle.std.specs.Prelude.{◌≡◌, ◌<◌};
ghost use Rattle.math_algebra.specs.Tree.{none};
ghost use Rattle.math_algebra.specs.Derives.{sign, three};
ghost use Rattle.fpl_numbers.specs.Numbers.{IsElement, residue};
ghost use Rattle.fpl_numbers.specs.Kinds.{number_of};
ghost use Rattle.plain_proofs.specs.Checks.{is_number, same_tree, checks_multiply, checks_one, checks_nought};
ghost use Rattle.math_algebra.specs.Degrees.{same_parity};
ghost use Rattle.fpl_model.specs.Meaning.{parity_in};
ghost use Rattle.fpl_why.specs.Checking.{kind_in, field_in, tree, number, IsTermIn, IsChecker};

use crate::checker::Checker;
use fpl_model::{Expr, Parity, Scalar};

pub(crate) fn is_parity(s: Parity, t: Parity) -> bool
    ensures { result ≡ same_parity (parity_in s) (parity_in t) }
{
    match (s, t) {
        (Parity::Even, Parity::Even) | (Parity::Odd, Parity::Odd) => true,
        (Parity::Even, Parity::Odd) | (Parity::Odd, Parity::Even) => false,
    }
}

impl<'a> Checker<'a> {
    /// The residue that a number is.
    pub(crate) fn residue(&self, c: &Scalar) -> u32
        requires checker { IsChecker self.now }
        requires element { IsElement (kind_in self.now) c.now }
        ensures value { c.now ≡ residue result }
        ensures below { result < self.now.prime }
    {
        c.number().numerator as u32
    }

    /// Whether a number is this residue.
    pub(crate) fn is_number(&self, c: u32, d: &Scalar) -> bool
        requires checker { IsChecker self.now }
        requires below { c < self.now.prime }
        requires element { IsElement (kind_in self.now) d.now }
        ensures { result ≡ is_number (field_in self.now) (number self.now c) (number_of (kind_in self.now) d.now) }
    {
        self.residue(d) == c
    }

    pub(crate) fn sum(&self, c: u32, a: u32) -> u32
        requires checker { IsChecker self.now }
        requires left { c < self.now.prime }
        requires right { a < self.now.prime }
        ensures value { number self.now result ≡ (field_in self.now).plus (number self.now c) (number self.now a) }
        ensures below { result < self.now.prime }
    {
        (c + a) % self.prime
    }

    fn product(&self, c: u32, a: u32) -> u32
        requires checker { IsChecker self.now }
        requires left { c < self.now.prime }
        requires right { a < self.now.prime }
        ensures value { number self.now result ≡ (field_in self.now).times (number self.now c) (number self.now a) }
        ensures below { result < self.now.prime }
    {
        (c as u64 * a as u64 % self.prime as u64) as u32
    }

    /// The sign (-1)^(st).
    pub(crate) fn sign(&self, s: Parity, t: Parity) -> u32
        requires checker { IsChecker self.now }
        ensures value { number self.now result ≡ sign (field_in self.now) (parity_in s) (parity_in t) }
        ensures below { result < self.now.prime }
    {
        match s {
            Parity::Even => 1,
            Parity::Odd => match t {
                Parity::Even => 1,
                Parity::Odd => self.prime - 1,
            },
        }
    }

    /// The other sign.
    pub(crate) fn other_sign(&self, s: Parity, t: Parity) -> u32
        requires checker { IsChecker self.now }
        ensures value { number self.now result ≡ (field_in self.now).minus (sign (field_in self.now) (parity_in s) (parity_in t)) }
        ensures below { result < self.now.prime }
    {
        match s {
            Parity::Even => self.prime - 1,
            Parity::Odd => match t {
                Parity::Even => self.prime - 1,
                Parity::Odd => 1,
            },
        }
    }

    /// Whether 1 + 1 + 1 is 0: modulo 3 alone.
    pub(crate) fn is_three_nought(&self) -> bool
        requires checker { IsChecker self.now }
        ensures { result ≡ is_number (field_in self.now) (three (field_in self.now)) (field_in self.now).nought }
    {
        let two = self.sum(1, 1);
        let three = self.sum(two, 1);
        three == 0
    }

    #[tactic(auto, using(fpl_model::proofs::Plain::plain_forms), unfolding(plain_proofs::specs::Checks::same_tree))]
    pub(crate) fn is_multiply(&self, e: &Expr, f: &Expr) -> bool
        requires checker { IsChecker self.now }
        requires left { IsTermIn self.now e.now }
        requires right { IsTermIn self.now f.now }
        ensures { result ≡ checks_multiply (field_in self.now) (tree self.now e.now) (tree self.now f.now) }
    {
        match e {
            Expr::Times(c, factor) => match factor.get() {
                Expr::Times(a, e) => self.is_multiple(self.product_of(c, a), e.get(), f),
                _ => false,
            },
            _ => false,
        }
    }

    /// The product of two numbers.
    fn product_of(&self, c: &Scalar, a: &Scalar) -> u32
        requires checker { IsChecker self.now }
        requires left { IsElement (kind_in self.now) c.now }
        requires right { IsElement (kind_in self.now) a.now }
        ensures value { number self.now result ≡ (field_in self.now).times (number_of (kind_in self.now) c.now) (number_of (kind_in self.now) a.now) }
        ensures below { result < self.now.prime }
    {
        self.product(self.residue(c), self.residue(a))
    }

    /// The sum of two numbers.
    pub(crate) fn sum_of(&self, c: &Scalar, a: &Scalar) -> u32
        requires checker { IsChecker self.now }
        requires left { IsElement (kind_in self.now) c.now }
        requires right { IsElement (kind_in self.now) a.now }
        ensures value { number self.now result ≡ (field_in self.now).plus (number_of (kind_in self.now) c.now) (number_of (kind_in self.now) a.now) }
        ensures below { result < self.now.prime }
    {
        self.sum(self.residue(c), self.residue(a))
    }

    fn is_unit(&self, c: &Scalar) -> bool
        requires checker { IsChecker self.now }
        requires element { IsElement (kind_in self.now) c.now }
        ensures { result ≡ is_number (field_in self.now) (number_of (kind_in self.now) c.now) (field_in self.now).unit }
    {
        self.residue(c) == 1
    }

    fn is_zero(&self, c: &Scalar) -> bool
        requires checker { IsChecker self.now }
        requires element { IsElement (kind_in self.now) c.now }
        ensures { result ≡ is_number (field_in self.now) (number_of (kind_in self.now) c.now) (field_in self.now).nought }
    {
        self.residue(c) == 0
    }

    #[tactic(auto, using(fpl_model::proofs::Plain::plain_forms), unfolding(plain_proofs::specs::Checks::same_tree))]
    pub(crate) fn is_one(&self, e: &Expr, f: &Expr) -> bool
        requires checker { IsChecker self.now }
        requires left { IsTermIn self.now e.now }
        requires right { IsTermIn self.now f.now }
        ensures { result ≡ checks_one (field_in self.now) (tree self.now e.now) (tree self.now f.now) }
    {
        match e {
            Expr::Times(c, e) => self.is_unit(c) && self.same(e.get(), f),
            _ => false,
        }
    }

    /// Whether an expression is written 0.
    #[tactic(auto, using(fpl_model::proofs::Plain::plain_forms), unfolding(plain_proofs::specs::Checks::same_tree))]
    pub(crate) fn is_none(&self, f: &Expr) -> bool
        ensures { result ≡ same_tree (field_in self.now) none (tree self.now f.now) }
    {
        matches!(f, Expr::Zero)
    }

    #[tactic(auto, using(fpl_model::proofs::Plain::plain_forms), unfolding(plain_proofs::specs::Checks::same_tree))]
    pub(crate) fn is_nought(&self, e: &Expr, f: &Expr) -> bool
        requires checker { IsChecker self.now }
        requires left { IsTermIn self.now e.now }
        requires right { IsTermIn self.now f.now }
        ensures { result ≡ checks_nought (field_in self.now) (tree self.now e.now) (tree self.now f.now) }
    {
        match e {
            Expr::Times(c, _) => self.is_zero(c) && self.is_none(f),
            _ => false,
        }
    }
}
