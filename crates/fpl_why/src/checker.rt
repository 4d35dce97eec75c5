ghost use Rattle.std.specs.Prelude.{◌≡◌, ◌<◌, length};
ghost use Rattle.math_algebra.specs.Tree.{multiple, bracket_of};
ghost use Rattle.fpl_numbers.specs.Numbers.{IsElement};
ghost use Rattle.plain_proofs.specs.Checks.{same_tree, same_list, has, has_some};
ghost use Rattle.fpl_model.specs.Meaning.{parity_in};
ghost use Rattle.fpl_why.specs.Checking.{kind_in, field_in, presented, tree, list, number, IsTermIn, AreTermsIn, IsChecker};

use crate::numbers::is_parity;
use fpl_lines::{Line, same, same_all, shown_parities};
use fpl_model::{Expr, Parity, ParityOf, Presentation};

/// What a line is checked against: a presentation over a prime, and the lines of the proof.
#[derive(Drop)]
pub(crate) struct Checker<'a> {
    pub(crate) prime: u32,
    pub(crate) presentation: &'a Presentation,
    pub(crate) lines: &'a [Line],
}

impl<'a> Checker<'a> {
    /// Whether two expressions are one tree.
    pub(crate) fn same(&self, e: &Expr, f: &Expr) -> bool
        requires checker { IsChecker self.now }
        requires left { IsTermIn self.now e.now }
        requires right { IsTermIn self.now f.now }
        ensures { result ≡ same_tree (field_in self.now) (tree self.now e.now) (tree self.now f.now) }
    {
        same(e, f)
    }

    /// Whether two lists of expressions are equal, member by member.
    pub(crate) fn same_all(&self, es: &[Expr], fs: &[Expr]) -> bool
        requires checker { IsChecker self.now }
        requires left { AreTermsIn self.now es.now }
        requires right { AreTermsIn self.now fs.now }
        ensures { result ≡ same_list (field_in self.now) (list self.now es.now) (list self.now fs.now) }
    {
        same_all(es, fs)
    }

    /// Whether `f` is `c` times `e`.
    #[tactic(auto, using(fpl_model::proofs::Plain::plain_forms), unfolding(plain_proofs::specs::Checks::same_tree))]
    pub(crate) fn is_multiple(&self, c: u32, e: &Expr, f: &Expr) -> bool
        requires checker { IsChecker self.now }
        requires number { c < self.now.prime }
        requires left { IsTermIn self.now e.now }
        requires right { IsTermIn self.now f.now }
        ensures { result ≡ same_tree (field_in self.now) (multiple (number self.now c) (tree self.now e.now)) (tree self.now f.now) }
    {
        match f {
            Expr::Times(d, g) => self.is_number(c, d) && self.same(e, g.get()),
            _ => false,
        }
    }

    /// Whether `f` is the bracket of `a` and `b`.
    #[tactic(auto, using(fpl_model::proofs::Plain::plain_forms), unfolding(plain_proofs::specs::Checks::same_tree))]
    pub(crate) fn is_bracket(&self, a: &Expr, b: &Expr, f: &Expr) -> bool
        requires checker { IsChecker self.now }
        requires first { IsTermIn self.now a.now }
        requires second { IsTermIn self.now b.now }
        requires right { IsTermIn self.now f.now }
        ensures { result ≡ same_tree (field_in self.now) (bracket_of (tree self.now a.now) (tree self.now b.now)) (tree self.now f.now) }
    {
        match f {
            Expr::Br(c, d) => self.same(a, c.get()) && self.same(b, d.get()),
            _ => false,
        }
    }

    /// Whether `f` is `c` times the bracket of `a` and `b`.
    #[tactic(auto, using(fpl_model::proofs::Plain::plain_forms), unfolding(plain_proofs::specs::Checks::same_tree))]
    pub(crate) fn is_multiple_of_bracket(&self, c: u32, a: &Expr, b: &Expr, f: &Expr) -> bool
        requires checker { IsChecker self.now }
        requires number { c < self.now.prime }
        requires first { IsTermIn self.now a.now }
        requires second { IsTermIn self.now b.now }
        requires right { IsTermIn self.now f.now }
        ensures { result ≡ same_tree (field_in self.now) (multiple (number self.now c) (bracket_of (tree self.now a.now) (tree self.now b.now)))
            (tree self.now f.now) }
    {
        match f {
            Expr::Times(d, g) => self.is_number(c, d) && self.is_bracket(a, b, g.get()),
            _ => false,
        }
    }

    /// Whether an expression has a parity; a void one has both.
    pub(crate) fn has(&self, e: &Expr, s: Parity) -> bool
        requires checker { IsChecker self.now }
        requires term { IsTermIn self.now e.now }
        ensures { result ≡ has (field_in self.now) (presented self.now) (tree self.now e.now) (parity_in s) }
    {
        match shown_parities(self.presentation, e) {
            ParityOf::Any => true,
            ParityOf::Exact(t) => is_parity(t, s),
            ParityOf::Mixed => false,
        }
    }

    /// Whether an expression has a parity at all.
    pub(crate) fn has_some(&self, e: &Expr) -> bool
        requires checker { IsChecker self.now }
        requires term { IsTermIn self.now e.now }
        ensures { result ≡ has_some (field_in self.now) (presented self.now) (tree self.now e.now) }
    {
        match shown_parities(self.presentation, e) {
            ParityOf::Any | ParityOf::Exact(_) => true,
            ParityOf::Mixed => false,
        }
    }
}
