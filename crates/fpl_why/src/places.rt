//! The rules on members of a sum, which count from 1.
ghost use Rattle.std.specs.Prelude.{◌≡◌, ◌<◌, ◌≤◌, ◌+◌, ◌-◌, ◌++◌, ◌∷◌, ◌&&◌, length, take, drop};
ghost use Rattle.math_algebra.specs.Tree.{multiple};
ghost use Rattle.math_algebra.specs.Derives.{sum_all};
ghost use Rattle.plain_proofs.specs.Checks.{same_tree, same_list, member, checks_in_sum, checks_exchange, checks_flat_at, checks_flat, checks_drop, checks_collect_at, checks_collect};
ghost use Rattle.fpl_why.specs.Checking.{field_in, tree, list, sum_in, number, IsTermIn, AreTermsIn, IsChecker};

use crate::checker::Checker;
use fpl_model::Expr;

fn all_four(a: bool, b: bool, c: bool, d: bool) -> bool
    ensures { result ≡ (a && (b && (c && d))) }
{
    a && b && c && d
}

fn all_three(a: bool, b: bool, c: bool) -> bool
    ensures { result ≡ (a && (b && c)) }
{
    a && b && c
}

fn up_to(es: &[Expr], n: usize) -> &[Expr]
    requires { n ≤ length es.now }
    ensures { result.now ≡ take n es.now }
{
    &es[..n]
}

fn past(es: &[Expr], n: usize) -> &[Expr]
    requires { n ≤ length es.now }
    ensures { result.now ≡ drop n es.now }
{
    &es[n..]
}

impl<'a> Checker<'a> {
    /// Whether the first `n` members are equal.
    #[tactic(auto, using(crate::proofs::Lists::terms))]
    fn same_front(&self, n: usize, es: &[Expr], fs: &[Expr]) -> bool
        requires checker { IsChecker self.now }
        requires members { AreTermsIn self.now es.now }
        requires right { AreTermsIn self.now fs.now }
        requires within { n ≤ length es.now }
        requires other { n ≤ length fs.now }
        ensures { result ≡ same_list (field_in self.now) (take n (list self.now es.now)) (take n (list self.now fs.now)) }
    {
        let left = up_to(es, n);
        let right = up_to(fs, n);
        self.same_all(left, right)
    }

    /// Whether the members past `m` of the one are those past `n` of the other.
    #[tactic(auto, using(crate::proofs::Lists::terms))]
    fn same_back(&self, m: usize, n: usize, es: &[Expr], fs: &[Expr]) -> bool
        requires checker { IsChecker self.now }
        requires members { AreTermsIn self.now es.now }
        requires right { AreTermsIn self.now fs.now }
        requires within { m ≤ length es.now }
        requires other { n ≤ length fs.now }
        ensures { result ≡ same_list (field_in self.now) (drop m (list self.now es.now)) (drop n (list self.now fs.now)) }
    {
        let left = past(es, m);
        let right = past(fs, n);
        self.same_all(left, right)
    }

    /// Whether member `m` of the one is member `n` of the other, from 0.
    #[tactic(auto, using(crate::proofs::Lists::terms))]
    fn same_at(&self, m: usize, n: usize, es: &[Expr], fs: &[Expr]) -> bool
        requires checker { IsChecker self.now }
        requires members { AreTermsIn self.now es.now }
        requires right { AreTermsIn self.now fs.now }
        requires within { m < length es.now }
        requires other { n < length fs.now }
        ensures { result ≡ same_tree (field_in self.now) (member (field_in self.now) (list self.now es.now) m) (member (field_in self.now)
            (list self.now fs.now) n) }
    {
        let left = &es[m];
        let right = &fs[n];
        self.same(left, right)
    }

    #[tactic(auto, using(crate::proofs::Lists::terms))]
    fn exchanges(&self, k: usize, es: &[Expr], fs: &[Expr]) -> bool
        requires checker { IsChecker self.now }
        requires members { AreTermsIn self.now es.now }
        requires right { AreTermsIn self.now fs.now }
        ensures { result ≡ checks_exchange (field_in self.now) k (list self.now es.now) (sum_in self.now fs.now) }
    {
        if k < 1 {
            return false;
        }
        if k >= es.len() {
            return false;
        }
        if fs.len() != es.len() {
            return false;
        }
        let front = self.same_front(k - 1, es, fs);
        let first = self.same_at(k, k - 1, es, fs);
        let second = self.same_at(k - 1, k, es, fs);
        let back = self.same_back(k + 1, k + 1, es, fs);
        all_four(front, first, second, back)
    }

    #[tactic(auto, using(crate::proofs::Lists::terms))]
    fn drops(&self, k: usize, es: &[Expr], fs: &[Expr]) -> bool
        requires checker { IsChecker self.now }
        requires members { AreTermsIn self.now es.now }
        requires right { AreTermsIn self.now fs.now }
        ensures { result ≡ checks_drop (field_in self.now) k (list self.now es.now) (sum_in self.now fs.now) }
    {
        if k < 1 {
            return false;
        }
        if k > es.len() {
            return false;
        }
        if fs.len() + 1 != es.len() {
            return false;
        }
        let none = self.is_none(&es[k - 1]);
        let front = self.same_front(k - 1, es, fs);
        let back = self.same_back(k, k - 1, es, fs);
        all_three(none, front, back)
    }

    #[tactic(auto, using(crate::proofs::Lists::terms))]
    fn flattens_to(&self, k: usize, es: &[Expr], gs: &[Expr], fs: &[Expr]) -> bool
        requires checker { IsChecker self.now }
        requires members { AreTermsIn self.now es.now }
        requires others { AreTermsIn self.now gs.now }
        requires right { AreTermsIn self.now fs.now }
        requires first { 1 ≤ k }
        requires last { k ≤ length es.now }
        ensures { result ≡ same_tree (field_in self.now) (sum_all (field_in self.now) (take (k - 1) (list self.now es.now) ++ (list self.now gs.now
            ++ drop k (list self.now es.now)))) (sum_in self.now fs.now) }
    {
        if fs.len() + 1 != gs.len() + es.len() {
            return false;
        }
        let rest = past(fs, k - 1);
        let inner = up_to(rest, gs.len());
        let front = self.same_front(k - 1, es, fs);
        let middle = self.same_all(gs, inner);
        let back = self.same_back(k, gs.len(), es, rest);
        all_three(front, middle, back)
    }

    #[tactic(auto, using(fpl_model::proofs::Plain::plain_forms), unfolding(plain_proofs::specs::Checks::same_tree))]
    fn flattens_at(&self, k: usize, es: &[Expr], e: &Expr, fs: &[Expr]) -> bool
        requires checker { IsChecker self.now }
        requires members { AreTermsIn self.now es.now }
        requires left { IsTermIn self.now e.now }
        requires right { AreTermsIn self.now fs.now }
        requires first { 1 ≤ k }
        requires last { k ≤ length es.now }
        ensures { result ≡ checks_flat_at (field_in self.now) k (list self.now es.now) (tree self.now e.now) (sum_in self.now fs.now) }
    {
        match e {
            Expr::Sum(gs) => self.flattens_to(k, es, gs.get().as_slice(), fs),
            _ => false,
        }
    }

    #[tactic(auto, using(crate::proofs::Lists::terms))]
    fn flattens(&self, k: usize, es: &[Expr], fs: &[Expr]) -> bool
        requires checker { IsChecker self.now }
        requires members { AreTermsIn self.now es.now }
        requires right { AreTermsIn self.now fs.now }
        ensures { result ≡ checks_flat (field_in self.now) k (list self.now es.now) (sum_in self.now fs.now) }
    {
        if k < 1 {
            return false;
        }
        if k > es.len() {
            return false;
        }
        let e = &es[k - 1];
        self.flattens_at(k, es, e, fs)
    }

    #[tactic(auto, using(crate::proofs::Lists::terms))]
    fn collects_to(&self, k: usize, es: &[Expr], c: u32, e: &Expr, fs: &[Expr]) -> bool
        requires checker { IsChecker self.now }
        requires members { AreTermsIn self.now es.now }
        requires number { c < self.now.prime }
        requires left { IsTermIn self.now e.now }
        requires right { AreTermsIn self.now fs.now }
        requires first { 1 ≤ k }
        requires last { k < length es.now }
        ensures { result ≡ same_tree (field_in self.now) (sum_all (field_in self.now) (take (k - 1) (list self.now es.now)
            ++ (multiple (number self.now c) (tree self.now e.now) ∷ drop (k + 1) (list self.now es.now)))) (sum_in self.now fs.now) }
    {
        if fs.len() + 1 != es.len() {
            return false;
        }
        let f = &fs[k - 1];
        let front = self.same_front(k - 1, es, fs);
        let middle = self.is_multiple(c, e, f);
        let back = self.same_back(k + 1, k, es, fs);
        all_three(front, middle, back)
    }

    #[tactic(auto, using(fpl_model::proofs::Plain::plain_forms), unfolding(plain_proofs::specs::Checks::same_tree))]
    fn collects_at(&self, k: usize, es: &[Expr], e: &Expr, g: &Expr, fs: &[Expr]) -> bool
        requires checker { IsChecker self.now }
        requires members { AreTermsIn self.now es.now }
        requires left { IsTermIn self.now e.now }
        requires next { IsTermIn self.now g.now }
        requires right { AreTermsIn self.now fs.now }
        requires first { 1 ≤ k }
        requires last { k < length es.now }
        ensures { result ≡ checks_collect_at (field_in self.now) k (list self.now es.now) (tree self.now e.now) (tree self.now g.now) (sum_in self.now fs.now) }
    {
        match e {
            Expr::Times(c, e) => match g {
                Expr::Times(a, g) => {
                    self.same(e.get(), g.get())
                        && self.collects_to(k, es, self.sum_of(c, a), e.get(), fs)
                }
                _ => false,
            },
            _ => false,
        }
    }

    #[tactic(auto, using(crate::proofs::Lists::terms))]
    fn collects(&self, k: usize, es: &[Expr], fs: &[Expr]) -> bool
        requires checker { IsChecker self.now }
        requires members { AreTermsIn self.now es.now }
        requires right { AreTermsIn self.now fs.now }
        ensures { result ≡ checks_collect (field_in self.now) k (list self.now es.now) (sum_in self.now fs.now) }
    {
        if k < 1 {
            return false;
        }
        if k >= es.len() {
            return false;
        }
        let e = &es[k - 1];
        let g = &es[k];
        self.collects_at(k, es, e, g, fs)
    }

    #[tactic(auto, using(fpl_model::proofs::Plain::plain_forms), unfolding(plain_proofs::specs::Checks::same_tree))]
    pub(crate) fn is_exchange(&self, k: u32, e: &Expr, f: &Expr) -> bool
        requires checker { IsChecker self.now }
        requires left { IsTermIn self.now e.now }
        requires right { IsTermIn self.now f.now }
        ensures { result ≡ checks_in_sum (field_in self.now) (checks_exchange (field_in self.now) k) (tree self.now e.now) (tree self.now f.now) }
    {
        match e {
            Expr::Sum(es) => match f {
                Expr::Sum(fs) => {
                    self.exchanges(k as usize, es.get().as_slice(), fs.get().as_slice())
                }
                _ => false,
            },
            _ => false,
        }
    }

    #[tactic(auto, using(fpl_model::proofs::Plain::plain_forms), unfolding(plain_proofs::specs::Checks::same_tree))]
    pub(crate) fn is_flat(&self, k: u32, e: &Expr, f: &Expr) -> bool
        requires checker { IsChecker self.now }
        requires left { IsTermIn self.now e.now }
        requires right { IsTermIn self.now f.now }
        ensures { result ≡ checks_in_sum (field_in self.now) (checks_flat (field_in self.now) k) (tree self.now e.now) (tree self.now f.now) }
    {
        match e {
            Expr::Sum(es) => match f {
                Expr::Sum(fs) => {
                    self.flattens(k as usize, es.get().as_slice(), fs.get().as_slice())
                }
                _ => false,
            },
            _ => false,
        }
    }

    #[tactic(auto, using(fpl_model::proofs::Plain::plain_forms), unfolding(plain_proofs::specs::Checks::same_tree))]
    pub(crate) fn is_drop(&self, k: u32, e: &Expr, f: &Expr) -> bool
        requires checker { IsChecker self.now }
        requires left { IsTermIn self.now e.now }
        requires right { IsTermIn self.now f.now }
        ensures { result ≡ checks_in_sum (field_in self.now) (checks_drop (field_in self.now) k) (tree self.now e.now) (tree self.now f.now) }
    {
        match e {
            Expr::Sum(es) => match f {
                Expr::Sum(fs) => {
                    self.drops(k as usize, es.get().as_slice(), fs.get().as_slice())
                }
                _ => false,
            },
            _ => false,
        }
    }

    #[tactic(auto, using(fpl_model::proofs::Plain::plain_forms), unfolding(plain_proofs::specs::Checks::same_tree))]
    pub(crate) fn is_collect(&self, k: u32, e: &Expr, f: &Expr) -> bool
        requires checker { IsChecker self.now }
        requires left { IsTermIn self.now e.now }
        requires right { IsTermIn self.now f.now }
        ensures { result ≡ checks_in_sum (field_in self.now) (checks_collect (field_in self.now) k) (tree self.now e.now) (tree self.now f.now) }
    {
        match e {
            Expr::Sum(es) => match f {
                Expr::Sum(fs) => {
                    self.collects(k as usize, es.get().as_slice(), fs.get().as_slice())
                }
                _ => false,
            },
            _ => false,
        }
    }
}
