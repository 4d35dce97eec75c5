//! The rules on sums. Members count from 1.
ghost use Rattle.std.specs.Prelude.{◌≡◌, ◌<◌, map};
ghost use Rattle.math_algebra.specs.Tree.{multiple};
ghost use Rattle.math_algebra.specs.Derives.{sum_all};
ghost use Rattle.plain_proofs.specs.Checks.{same_tree, checks_in_sum, checks_empty, checks_single, checks_spread};
ghost use Rattle.fpl_why.specs.Checking.{field_in, tree, list, sum_in, number, IsTermIn, AreTermsIn, IsChecker};

use crate::checker::Checker;
use fpl_model::Expr;

impl<'a> Checker<'a> {
    fn spreads(&self, c: u32, es: &[Expr], fs: &[Expr]) -> bool
        requires checker { IsChecker self.now }
        requires number { c < self.now.prime }
        requires members { AreTermsIn self.now es.now }
        requires right { AreTermsIn self.now fs.now }
        ensures { result ≡ same_tree (field_in self.now) (sum_all (field_in self.now) (map (multiple (number self.now c)) (list self.now es.now)))
            (sum_in self.now fs.now) }
    {
        if fs.len() != es.len() {
            return false;
        }
        for i in 0..es.len() {
            if !self.is_multiple(c, &es[i], &fs[i]) {
                return false;
            }
        }
        true
    }

    #[tactic(auto, using(fpl_model::proofs::Plain::plain_forms), unfolding(plain_proofs::specs::Checks::same_tree))]
    pub(crate) fn is_spread(&self, e: &Expr, f: &Expr) -> bool
        requires checker { IsChecker self.now }
        requires left { IsTermIn self.now e.now }
        requires right { IsTermIn self.now f.now }
        ensures { result ≡ checks_spread (field_in self.now) (tree self.now e.now) (tree self.now f.now) }
    {
        match e {
            Expr::Times(c, e) => match e.get() {
                Expr::Sum(es) => match f {
                    Expr::Sum(fs) => {
                        self.spreads(self.residue(c), es.get().as_slice(), fs.get().as_slice())
                    }
                    _ => false,
                },
                _ => false,
            },
            _ => false,
        }
    }

    fn empties(&self, es: &[Expr], f: &Expr) -> bool
        ensures { result ≡ checks_empty (field_in self.now) (list self.now es.now) (tree self.now f.now) }
    {
        if es.len() != 0 {
            return false;
        }
        self.is_none(f)
    }

    #[tactic(auto, using(fpl_model::proofs::Plain::plain_forms), unfolding(plain_proofs::specs::Checks::same_tree))]
    pub(crate) fn is_empty(&self, e: &Expr, f: &Expr) -> bool
        requires checker { IsChecker self.now }
        requires left { IsTermIn self.now e.now }
        requires right { IsTermIn self.now f.now }
        ensures { result ≡ checks_in_sum (field_in self.now) (checks_empty (field_in self.now)) (tree self.now e.now) (tree self.now f.now) }
    {
        match e {
            Expr::Sum(es) => self.empties(es.get().as_slice(), f),
            _ => false,
        }
    }

    fn is_alone(&self, es: &[Expr], f: &Expr) -> bool
        requires checker { IsChecker self.now }
        requires members { AreTermsIn self.now es.now }
        requires right { IsTermIn self.now f.now }
        ensures { result ≡ checks_single (field_in self.now) (list self.now es.now) (tree self.now f.now) }
    {
        if es.len() != 1 {
            return false;
        }
        self.same(&es[0], f)
    }

    #[tactic(auto, using(fpl_model::proofs::Plain::plain_forms), unfolding(plain_proofs::specs::Checks::same_tree))]
    pub(crate) fn is_single(&self, e: &Expr, f: &Expr) -> bool
        requires checker { IsChecker self.now }
        requires left { IsTermIn self.now e.now }
        requires right { IsTermIn self.now f.now }
        ensures { result ≡ checks_in_sum (field_in self.now) (checks_single (field_in self.now)) (tree self.now e.now) (tree self.now f.now) }
    {
        match e {
            Expr::Sum(es) => self.is_alone(es.get().as_slice(), f),
            _ => false,
        }
    }
}
