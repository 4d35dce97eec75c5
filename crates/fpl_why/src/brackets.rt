//! The rules on brackets.
ghost use Rattle.std.specs.Prelude.{◌≡◌, ◌<◌, ◌&&◌, [], ◌∷◌, map};
ghost use Rattle.math_algebra.specs.Tree.{multiple, bracket_of};
ghost use Rattle.math_algebra.specs.Derives.{sum_all};
ghost use Rattle.plain_proofs.specs.Checks.{same_tree, checks_left_sum, checks_right_sum, checks_left_times, checks_right_times, checks_swap, checks_jacobi, checks_cube, checks_relation};
ghost use Rattle.fpl_model.specs.Meaning.{parity_in};
ghost use Rattle.fpl_why.specs.Checking.{kind_in, field_in, presented, tree, list, sum_in, number, IsTermIn, AreTermsIn, IsChecker};

use crate::checker::Checker;
use fpl_model::{Expr, Parity};

fn both(a: bool, b: bool) -> bool
    ensures { result ≡ (a && b) }
{
    a && b
}

fn all_of(a: bool, b: bool, c: bool, d: bool) -> bool
    ensures { result ≡ (a && b && c && d) }
{
    a && b && c && d
}

impl<'a> Checker<'a> {
    fn spreads_left(&self, es: &[Expr], g: &Expr, fs: &[Expr]) -> bool
        requires checker { IsChecker self.now }
        requires members { AreTermsIn self.now es.now }
        requires other { IsTermIn self.now g.now }
        requires right { AreTermsIn self.now fs.now }
        ensures { result ≡ same_tree (field_in self.now) (sum_all (field_in self.now) (map (λ e. bracket_of e (tree self.now g.now))
            (list self.now es.now))) (sum_in self.now fs.now) }
    {
        if fs.len() != es.len() {
            return false;
        }
        for i in 0..es.len() {
            if !self.is_bracket(&es[i], g, &fs[i]) {
                return false;
            }
        }
        true
    }

    #[tactic(auto, using(fpl_model::proofs::Plain::plain_forms), unfolding(plain_proofs::specs::Checks::same_tree))]
    pub(crate) fn is_left_sum(&self, e: &Expr, f: &Expr) -> bool
        requires checker { IsChecker self.now }
        requires left { IsTermIn self.now e.now }
        requires right { IsTermIn self.now f.now }
        ensures { result ≡ checks_left_sum (field_in self.now) (tree self.now e.now) (tree self.now f.now) }
    {
        match e {
            Expr::Br(e, g) => match e.get() {
                Expr::Sum(es) => match f {
                    Expr::Sum(fs) => {
                        self.spreads_left(es.get().as_slice(), g.get(), fs.get().as_slice())
                    }
                    _ => false,
                },
                _ => false,
            },
            _ => false,
        }
    }

    fn spreads_right(&self, g: &Expr, es: &[Expr], fs: &[Expr]) -> bool
        requires checker { IsChecker self.now }
        requires other { IsTermIn self.now g.now }
        requires members { AreTermsIn self.now es.now }
        requires right { AreTermsIn self.now fs.now }
        ensures { result ≡ same_tree (field_in self.now) (sum_all (field_in self.now) (map (bracket_of (tree self.now g.now)) (list self.now es.now)))
            (sum_in self.now fs.now) }
    {
        if fs.len() != es.len() {
            return false;
        }
        for i in 0..es.len() {
            if !self.is_bracket(g, &es[i], &fs[i]) {
                return false;
            }
        }
        true
    }

    #[tactic(auto, using(fpl_model::proofs::Plain::plain_forms), unfolding(plain_proofs::specs::Checks::same_tree))]
    pub(crate) fn is_right_sum(&self, e: &Expr, f: &Expr) -> bool
        requires checker { IsChecker self.now }
        requires left { IsTermIn self.now e.now }
        requires right { IsTermIn self.now f.now }
        ensures { result ≡ checks_right_sum (field_in self.now) (tree self.now e.now) (tree self.now f.now) }
    {
        match e {
            Expr::Br(g, e) => match e.get() {
                Expr::Sum(es) => match f {
                    Expr::Sum(fs) => {
                        self.spreads_right(g.get(), es.get().as_slice(), fs.get().as_slice())
                    }
                    _ => false,
                },
                _ => false,
            },
            _ => false,
        }
    }

    #[tactic(auto, using(fpl_model::proofs::Plain::plain_forms), unfolding(plain_proofs::specs::Checks::same_tree))]
    pub(crate) fn is_left_times(&self, e: &Expr, f: &Expr) -> bool
        requires checker { IsChecker self.now }
        requires left { IsTermIn self.now e.now }
        requires right { IsTermIn self.now f.now }
        ensures { result ≡ checks_left_times (field_in self.now) (tree self.now e.now) (tree self.now f.now) }
    {
        match e {
            Expr::Br(e, g) => match e.get() {
                Expr::Times(c, e) => {
                    self.is_multiple_of_bracket(self.residue(c), e.get(), g.get(), f)
                }
                _ => false,
            },
            _ => false,
        }
    }

    #[tactic(auto, using(fpl_model::proofs::Plain::plain_forms), unfolding(plain_proofs::specs::Checks::same_tree))]
    pub(crate) fn is_right_times(&self, e: &Expr, f: &Expr) -> bool
        requires checker { IsChecker self.now }
        requires left { IsTermIn self.now e.now }
        requires right { IsTermIn self.now f.now }
        ensures { result ≡ checks_right_times (field_in self.now) (tree self.now e.now) (tree self.now f.now) }
    {
        match e {
            Expr::Br(g, e) => match e.get() {
                Expr::Times(c, e) => {
                    self.is_multiple_of_bracket(self.residue(c), g.get(), e.get(), f)
                }
                _ => false,
            },
            _ => false,
        }
    }

    #[tactic(auto, using(fpl_model::proofs::Plain::plain_forms), unfolding(plain_proofs::specs::Checks::same_tree))]
    pub(crate) fn is_swap(&self, s: Parity, t: Parity, e: &Expr, f: &Expr) -> bool
        requires checker { IsChecker self.now }
        requires left { IsTermIn self.now e.now }
        requires right { IsTermIn self.now f.now }
        ensures { result ≡ checks_swap (field_in self.now) (presented self.now) (parity_in s) (parity_in t) (tree self.now e.now) (tree self.now f.now) }
    {
        match e {
            Expr::Br(a, b) => {
                self.has(a.get(), s)
                    && self.has(b.get(), t)
                    && self.is_multiple_of_bracket(self.other_sign(s, t), b.get(), a.get(), f)
            }
            _ => false,
        }
    }

    /// Whether `f` is the bracket of `[a,b]` and `c`.
    #[tactic(auto, using(fpl_model::proofs::Plain::plain_forms), unfolding(plain_proofs::specs::Checks::same_tree))]
    fn is_left_nested(&self, a: &Expr, b: &Expr, c: &Expr, f: &Expr) -> bool
        requires checker { IsChecker self.now }
        requires first { IsTermIn self.now a.now }
        requires second { IsTermIn self.now b.now }
        requires third { IsTermIn self.now c.now }
        requires right { IsTermIn self.now f.now }
        ensures { result ≡ same_tree (field_in self.now) (bracket_of (bracket_of (tree self.now a.now) (tree self.now b.now)) (tree self.now c.now))
            (tree self.now f.now) }
    {
        match f {
            Expr::Br(g, h) => self.is_bracket(a, b, g.get()) && self.same(c, h.get()),
            _ => false,
        }
    }

    /// Whether `f` is the bracket of `b` and `[a,c]`.
    #[tactic(auto, using(fpl_model::proofs::Plain::plain_forms), unfolding(plain_proofs::specs::Checks::same_tree))]
    fn is_right_nested(&self, b: &Expr, a: &Expr, c: &Expr, f: &Expr) -> bool
        requires checker { IsChecker self.now }
        requires second { IsTermIn self.now b.now }
        requires first { IsTermIn self.now a.now }
        requires third { IsTermIn self.now c.now }
        requires right { IsTermIn self.now f.now }
        ensures { result ≡ same_tree (field_in self.now) (bracket_of (tree self.now b.now) (bracket_of (tree self.now a.now) (tree self.now c.now)))
            (tree self.now f.now) }
    {
        match f {
            Expr::Br(g, h) => self.same(b, g.get()) && self.is_bracket(a, c, h.get()),
            _ => false,
        }
    }

    /// Whether `f` is `n` times the bracket of `b` and `[a,c]`.
    #[tactic(auto, using(fpl_model::proofs::Plain::plain_forms), unfolding(plain_proofs::specs::Checks::same_tree))]
    fn is_turned(&self, n: u32, b: &Expr, a: &Expr, c: &Expr, f: &Expr) -> bool
        requires checker { IsChecker self.now }
        requires number { n < self.now.prime }
        requires second { IsTermIn self.now b.now }
        requires first { IsTermIn self.now a.now }
        requires third { IsTermIn self.now c.now }
        requires right { IsTermIn self.now f.now }
        ensures { result ≡ same_tree (field_in self.now) (multiple (number self.now n) (bracket_of (tree self.now b.now) (bracket_of (tree self.now a.now)
            (tree self.now c.now)))) (tree self.now f.now) }
    {
        match f {
            Expr::Times(m, f) => self.is_number(n, m) && self.is_right_nested(b, a, c, f.get()),
            _ => false,
        }
    }

    #[tactic(auto, using(fpl_model::proofs::Plain::plain_forms), unfolding(plain_proofs::specs::Checks::same_tree))]
    pub(crate) fn is_cube(&self, e: &Expr, f: &Expr) -> bool
        requires checker { IsChecker self.now }
        requires left { IsTermIn self.now e.now }
        requires right { IsTermIn self.now f.now }
        ensures { result ≡ checks_cube (field_in self.now) (presented self.now) (tree self.now e.now) (tree self.now f.now) }
    {
        match e {
            Expr::Br(a, e) => match e.get() {
                Expr::Br(b, c) => {
                    self.is_three_nought()
                        && self.has(a.get(), Parity::Odd)
                        && self.same(a.get(), b.get())
                        && self.same(a.get(), c.get())
                        && self.is_none(f)
                }
                _ => false,
            },
            _ => false,
        }
    }

    /// Whether the members are `[[a,b],c]` and `n*[b,[a,c]]`.
    #[tactic(auto, using(crate::proofs::Lists::terms))]
    fn are_jacobi_members(&self, n: u32, a: &Expr, b: &Expr, c: &Expr, fs: &[Expr]) -> bool
        requires checker { IsChecker self.now }
        requires number { n < self.now.prime }
        requires first { IsTermIn self.now a.now }
        requires second { IsTermIn self.now b.now }
        requires third { IsTermIn self.now c.now }
        requires right { AreTermsIn self.now fs.now }
        ensures { result ≡ same_tree (field_in self.now) (sum_all (field_in self.now) (bracket_of (bracket_of (tree self.now a.now) (tree self.now b.now))
            (tree self.now c.now) ∷ multiple (number self.now n) (bracket_of (tree self.now b.now) (bracket_of (tree self.now a.now)
            (tree self.now c.now))) ∷ [])) (sum_in self.now fs.now) }
    {
        if fs.len() != 2 {
            return false;
        }
        let first = self.is_left_nested(a, b, c, &fs[0]);
        let second = self.is_turned(n, b, a, c, &fs[1]);
        both(first, second)
    }

    #[tactic(auto, using(fpl_model::proofs::Plain::plain_forms), unfolding(plain_proofs::specs::Checks::same_tree))]
    fn is_jacobi_of(&self, n: u32, a: &Expr, b: &Expr, c: &Expr, f: &Expr) -> bool
        requires checker { IsChecker self.now }
        requires number { n < self.now.prime }
        requires first { IsTermIn self.now a.now }
        requires second { IsTermIn self.now b.now }
        requires third { IsTermIn self.now c.now }
        requires right { IsTermIn self.now f.now }
        ensures { result ≡ same_tree (field_in self.now) (sum_all (field_in self.now) (bracket_of (bracket_of (tree self.now a.now) (tree self.now b.now))
            (tree self.now c.now) ∷ multiple (number self.now n) (bracket_of (tree self.now b.now) (bracket_of (tree self.now a.now)
            (tree self.now c.now))) ∷ [])) (tree self.now f.now) }
    {
        match f {
            Expr::Sum(fs) => self.are_jacobi_members(n, a, b, c, fs.get().as_slice()),
            _ => false,
        }
    }

    #[tactic(auto, using(fpl_model::proofs::Plain::plain_forms), unfolding(plain_proofs::specs::Checks::same_tree))]
    pub(crate) fn is_jacobi(&self, s: Parity, t: Parity, e: &Expr, f: &Expr) -> bool
        requires checker { IsChecker self.now }
        requires left { IsTermIn self.now e.now }
        requires right { IsTermIn self.now f.now }
        ensures { result ≡ checks_jacobi (field_in self.now) (presented self.now) (parity_in s) (parity_in t) (tree self.now e.now) (tree self.now f.now) }
    {
        match e {
            Expr::Br(a, e) => match e.get() {
                Expr::Br(b, c) => {
                    let first = self.has(a.get(), s);
                    let second = self.has(b.get(), t);
                    let third = self.has_some(c.get());
                    let n = self.sign(s, t);
                    let members = self.is_jacobi_of(n, a.get(), b.get(), c.get(), f);
                    all_of(first, second, third, members)
                }
                _ => false,
            },
            _ => false,
        }
    }

    pub(crate) fn is_relation(&self, k: u32, e: &Expr, f: &Expr) -> bool
        requires checker { IsChecker self.now }
        requires left { IsTermIn self.now e.now }
        requires right { IsTermIn self.now f.now }
        ensures { result ≡ checks_relation (field_in self.now) (presented self.now) k (tree self.now e.now) (tree self.now f.now) }
    {
        let relations = self.presentation.relations.as_slice();
        if k < 1 {
            return false;
        }
        if k as usize > relations.len() {
            return false;
        }
        let relation = &relations[k as usize - 1];
        let left = self.same(&relation.left, e);
        let right = self.same(&relation.right, f);
        both(left, right)
    }
}
