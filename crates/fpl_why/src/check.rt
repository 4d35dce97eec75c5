ghost use Rattle.std.specs.Prelude.{◌≡◌, ◌≢◌, ◌<◌, ◌≤◌, ◌↔◌, IsTrue, MatchOption, length};
ghost use Rattle.fpl_numbers.specs.declared.number.Kind.TheVariants.{Rational, Prime};
ghost use Rattle.plain_proofs.specs.Checks.{checked};
ghost use Rattle.fpl_model.specs.Sound.{IsSound};
ghost use Rattle.fpl_lines.specs.Meaning.{rule_in, AreLines};
ghost use Rattle.fpl_why.specs.Checking.{field_in, presented, lines_of, tree, IsTermIn, IsChecker, IsInstanceAt, IsFirstWrong, AreInstances};

use crate::checker::Checker;
use fpl_lines::{Proof, Rule};
use fpl_model::{Expr, Presentation};
use fpl_numbers::Kind;
use plain_proofs::lines_are_checked;

impl<'a> Checker<'a> {
    /// Whether two sides are an instance of a rule; the lines that it cites are among the first `before`.
    fn is_instance(&self, before: usize, rule: &Rule, e: &Expr, f: &Expr) -> bool
        requires checker { IsChecker self.now }
        requires before { before ≤ length self.now.lines.now }
        requires left { IsTermIn self.now e.now }
        requires right { IsTermIn self.now f.now }
        ensures { result ≡ checked (field_in self.now) (presented self.now) (lines_of self.now) before (rule_in rule.now) (tree self.now e.now)
            (tree self.now f.now) }
    {
        match rule {
            Rule::Same => self.same(e, f),
            Rule::Turn(c) => self.cites(before, *c, f, e),
            Rule::Chain(c, d) => self.is_chain(before, *c, *d, e, f),
            Rule::Parts(cs) => self.are_parts(before, cs.as_slice(), e, f),
            Rule::Factor(c) => self.is_factor(before, *c, e, f),
            Rule::Members(c, d) => self.are_members(before, *c, *d, e, f),
            Rule::Exchange(k) => self.is_exchange(*k, e, f),
            Rule::Flat(k) => self.is_flat(*k, e, f),
            Rule::Drop(k) => self.is_drop(*k, e, f),
            Rule::Empty => self.is_empty(e, f),
            Rule::Single => self.is_single(e, f),
            Rule::Multiply => self.is_multiply(e, f),
            Rule::One => self.is_one(e, f),
            Rule::Nought => self.is_nought(e, f),
            Rule::Collect(k) => self.is_collect(*k, e, f),
            Rule::Spread => self.is_spread(e, f),
            Rule::LeftSum => self.is_left_sum(e, f),
            Rule::RightSum => self.is_right_sum(e, f),
            Rule::LeftTimes => self.is_left_times(e, f),
            Rule::RightTimes => self.is_right_times(e, f),
            Rule::Swap(s, t) => self.is_swap(*s, *t, e, f),
            Rule::Jacobi(s, t) => self.is_jacobi(*s, *t, e, f),
            Rule::Relation(k) => self.is_relation(*k, e, f),
            Rule::Cube => self.is_cube(e, f),
        }
    }

    /// Whether a line, counted from 0, is an instance of its rule.
    fn is_right(&self, n: usize) -> bool
        requires checker { IsChecker self.now }
        requires within { n < length self.now.lines.now }
        ensures { IsTrue result ↔ IsInstanceAt self.now.presentation.now self.now.lines.now n }
    {
        lines_are_checked();
        let line = &self.lines[n];
        self.is_instance(n, &line.why, &line.left, &line.right)
    }
}

fn prime_of(p: &Presentation) -> u32
    requires { p.now.field ≢ Rational }
    ensures { p.now.field ≡ Prime result }
{
    match p.field {
        Kind::Prime(prime) => prime,
        Kind::Rational => unreachable!(),
    }
}

/// The least line, counted from 1, that isn't an instance of its rule or cites one that isn't before
/// it; none exactly where there is no such line. It needs a presentation over a prime, and that the
/// sides of all lines are over it, with canonical numbers.
pub fn check_proof(p: &Presentation, proof: &Proof) -> Option<u64>
    requires sound { IsSound p.now }
    requires prime { p.now.field ≢ Rational }
    requires lines { AreLines p.now proof.now }
    ensures { MatchOption result (AreInstances p.now proof.now) (λ n. IsFirstWrong p.now proof.now n) }
{
    let lines = proof.as_slice();
    let checker = Checker {
        prime: prime_of(p),
        presentation: p,
        lines,
    };
    for n in 0..lines.len() {
        if !checker.is_right(n) {
            return Some(n as u64 + 1);
        }
    }
    None
}
