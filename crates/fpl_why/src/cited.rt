//! The rules that cite lines: `before` is how many lines may be cited.
ghost use Rattle.std.specs.Prelude.{◌≡◌, ◌≤◌, length};
ghost use Rattle.plain_proofs.specs.Checks.{is_cited, are_cited, checks_chain, checks_factor, checks_members, checks_parts};
ghost use Rattle.fpl_why.specs.Checking.{kind_in, field_in, lines_of, tree, list, IsTermIn, AreTermsIn, IsChecker};

use crate::checker::Checker;
use fpl_model::Expr;

impl<'a> Checker<'a> {
    /// Whether line `c` is one of those before, and has these sides.
    pub(crate) fn cites(&self, before: usize, c: u64, e: &Expr, f: &Expr) -> bool
        requires checker { IsChecker self.now }
        requires before { before ≤ length self.now.lines.now }
        requires left { IsTermIn self.now e.now }
        requires right { IsTermIn self.now f.now }
        ensures { result ≡ is_cited (field_in self.now) (lines_of self.now) before c (tree self.now e.now) (tree self.now f.now) }
    {
        if c < 1 || c > before as u64 {
            return false;
        }
        let line = &self.lines[c as usize - 1];
        self.same(&line.left, e) && self.same(&line.right, f)
    }

    pub(crate) fn is_chain(&self, before: usize, c: u64, d: u64, e: &Expr, f: &Expr) -> bool
        requires checker { IsChecker self.now }
        requires before { before ≤ length self.now.lines.now }
        requires left { IsTermIn self.now e.now }
        requires right { IsTermIn self.now f.now }
        ensures { result ≡ checks_chain (field_in self.now) (lines_of self.now) before c d (tree self.now e.now) (tree self.now f.now) }
    {
        if c < 1 || c > before as u64 {
            return false;
        }
        let line = &self.lines[c as usize - 1];
        self.same(&line.left, e) && self.cites(before, d, &line.right, f)
    }

    #[tactic(auto, using(fpl_model::proofs::Plain::plain_forms))]
    pub(crate) fn is_factor(&self, before: usize, c: u64, e: &Expr, f: &Expr) -> bool
        requires checker { IsChecker self.now }
        requires before { before ≤ length self.now.lines.now }
        requires left { IsTermIn self.now e.now }
        requires right { IsTermIn self.now f.now }
        ensures { result ≡ checks_factor (field_in self.now) (lines_of self.now) before c (tree self.now e.now) (tree self.now f.now) }
    {
        match (e, f) {
            (Expr::Times(a, e), Expr::Times(b, f)) => {
                self.is_number(self.residue(a), b) && self.cites(before, c, e.get(), f.get())
            }
            _ => false,
        }
    }

    #[tactic(auto, using(fpl_model::proofs::Plain::plain_forms))]
    pub(crate) fn are_members(&self, before: usize, c: u64, d: u64, e: &Expr, f: &Expr) -> bool
        requires checker { IsChecker self.now }
        requires before { before ≤ length self.now.lines.now }
        requires left { IsTermIn self.now e.now }
        requires right { IsTermIn self.now f.now }
        ensures { result ≡ checks_members (field_in self.now) (lines_of self.now) before c d (tree self.now e.now) (tree self.now f.now) }
    {
        match (e, f) {
            (Expr::Br(a, b), Expr::Br(g, h)) => {
                self.cites(before, c, a.get(), g.get()) && self.cites(before, d, b.get(), h.get())
            }
            _ => false,
        }
    }

    /// Whether each line is one of those before, and leads from the one member to the other.
    fn cites_all(&self, before: usize, cs: &[u64], es: &[Expr], fs: &[Expr]) -> bool
        requires checker { IsChecker self.now }
        requires before { before ≤ length self.now.lines.now }
        requires members { AreTermsIn self.now es.now }
        requires right { AreTermsIn self.now fs.now }
        ensures { result ≡ are_cited (field_in self.now) (lines_of self.now) before cs.now (list self.now es.now) (list self.now fs.now) }
    {
        if es.len() != cs.len() {
            return false;
        }
        if fs.len() != cs.len() {
            return false;
        }
        for i in 0..cs.len() {
            let c = cs[i];
            if !self.cites(before, c, &es[i], &fs[i]) {
                return false;
            }
        }
        true
    }

    #[tactic(auto, using(fpl_model::proofs::Plain::plain_forms))]
    pub(crate) fn are_parts(&self, before: usize, cs: &[u64], e: &Expr, f: &Expr) -> bool
        requires checker { IsChecker self.now }
        requires before { before ≤ length self.now.lines.now }
        requires left { IsTermIn self.now e.now }
        requires right { IsTermIn self.now f.now }
        ensures { result ≡ checks_parts (field_in self.now) (lines_of self.now) before cs.now (tree self.now e.now) (tree self.now f.now) }
    {
        match e {
            Expr::Sum(es) => match f {
                Expr::Sum(fs) => {
                    self.cites_all(before, cs, es.get().as_slice(), fs.get().as_slice())
                }
                _ => false,
            },
            _ => false,
        }
    }
}
