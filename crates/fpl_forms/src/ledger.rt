//! The lines of a proof that is being made.
ghost use Rattle.std.specs.Prelude.{◌≡◌, ◌≤◌, ◌<◌, ◌-◌, ◌++◌, [], ◌∷◌, length, map, take, IfOk, OnOk};
ghost use Rattle.fpl_numbers.specs.declared.number.Kind.TheVariants.{Prime};
ghost use Rattle.fpl_numbers.specs.Numbers.{IsListed, residue};
ghost use Rattle.fpl_numbers.specs.Kinds.{field_of};
ghost use Rattle.math_proofs.specs.Rules.{IsProof};
ghost use Rattle.fpl_model.specs.Meaning.{presentation_in};
ghost use Rattle.fpl_lines.specs.Meaning.{lines_in, AreLines};
ghost use Rattle.fpl_forms.specs.Distinct.{AreDistinct};
ghost use Rattle.fpl_forms.specs.Ledgers.{IsSoundLedger, IsNextLine, IsExpr, Grows, Says, AreWithin, left_of, right_of};

use crate::distinct::DistinctLines;
use crate::term::multiple;
use fpl_lines::{Line, Proof, Rule};
use fpl_model::{Expr, Members, Presentation};
use math_proofs::lines_may_be_renumbered;
use sqlite_items::{Boxed, Items};
use std::alloc::{AllocError, Global};
use std::marker::Model;

/// The lines of a proof over a prime, which only grow. Each is an instance of its rule and cites only lines before it.
///
/// Lines count from 1.
#[derive(Drop)]
pub struct Ledger<'a> {
    pub(crate) alloc: Global,
    p: &'a Presentation,
    pub(crate) prime: u32,
    lines: DistinctLines,
}

impl<'a> Model for Ledger<'a> {
    ghost use Rattle.std.specs.Coded.{codes};
    ghost use Rattle.fpl_model.specs.contracts.expr.Expr as e;
    ghost use Rattle.fpl_forms.specs.Ledgers.{PlainLedger, IsSoundLedger};

    ghost Value = { PlainLedger };

    ghost coded = { Prim.hlevel (codes, e.the_row.coded) };

    ghost view = { λ l. record { presentation = l.p.now; prime = l.prime; lines = l.lines } };

    ghost invariant = { λ l. IsSoundLedger (record { presentation = l.p.now; prime = l.prime; lines = l.lines }) };
}

impl<'a> Ledger<'a> {
    /// No line.
    pub fn new(alloc: Global, p: &'a Presentation, prime: u32) -> Ledger<'a>
        requires field { p.now.field ≡ Prime prime }
        requires listed { IsListed prime }
        ensures presentation { result.presentation ≡ p.now }
        ensures prime { result.prime ≡ prime }
        ensures lines { result.lines ≡ [] }
    {
        Ledger {
            alloc,
            p,
            prime,
            lines: DistinctLines::new(alloc),
        }
    }

    pub fn prime(&self) -> u32
        ensures { result ≡ self.now.prime }
    {
        self.prime
    }

    /// How many lines there are.
    pub fn len(&self) -> u64
        ensures { result ≡ length self.now.lines }
    {
        self.lines.len()
    }

    /// Line `n`.
    pub fn line(&self, n: u64) -> &Line
        requires { (1 ≤ n) × (n ≤ length self.now.lines) }
        ensures left { result.now.left ≡ left_of self.now n }
        ensures right { result.now.right ≡ right_of self.now n }
    {
        self.lines.line(n)
    }

    /// The number of a line with these sides: of the one that has them already, or else of this one, which is put.
    pub fn push(&mut self, line: Line) -> Result<u64, AllocError>
        requires { IsNextLine self.old line }
        ensures grows { OnOk result (Grows self.old self.new) }
        ensures says { IfOk result (λ n. Says self.new n line.left line.right) }
    {
        let found = self.lines.find(&line.left, &line.right);
        if found > 0 {
            return Ok(found);
        }
        lines_may_be_renumbered();
        self.lines.push(line)?;
        Ok(self.lines.len())
    }

    /// e = e.
    pub fn same(&mut self, e: Expr) -> Result<u64, AllocError>
        requires { IsExpr self.old.presentation e }
        ensures grows { OnOk result (Grows self.old self.new) }
        ensures says { IfOk result (λ m. Says self.new m e e) }
    {
        let left = e.copy(self.alloc)?;
        self.push(Line {
            left,
            right: e,
            why: Rule::Same,
        })
    }

    /// From e = f: f = e.
    pub fn turn(&mut self, n: u64) -> Result<u64, AllocError>
        requires { (1 ≤ n) × (n ≤ length self.old.lines) }
        ensures grows { OnOk result (Grows self.old self.new) }
        ensures says { IfOk result (λ m. Says self.new m (right_of self.old n) (left_of self.old n)) }
    {
        let line = self.line(n);
        let left = line.right.copy(self.alloc)?;
        let right = line.left.copy(self.alloc)?;
        self.push(Line {
            left,
            right,
            why: Rule::Turn(n),
        })
    }

    /// From e = f and f = g: e = g.
    pub fn chain(&mut self, n: u64, m: u64) -> Result<u64, AllocError>
        requires first { (1 ≤ n) × (n ≤ length self.old.lines) }
        requires second { (1 ≤ m) × (m ≤ length self.old.lines) }
        requires meet { right_of self.old n ≡ left_of self.old m }
        ensures grows { OnOk result (Grows self.old self.new) }
        ensures says { IfOk result (λ l. Says self.new l (left_of self.old n) (right_of self.old m)) }
    {
        let left = self.line(n).left.copy(self.alloc)?;
        let right = self.line(m).right.copy(self.alloc)?;
        self.push(Line {
            left,
            right,
            why: Rule::Chain(n, m),
        })
    }

    /// From e = f: e = g, where f and g are an instance of a rule.
    pub fn follow(&mut self, n: u64, right: Expr, why: Rule) -> Result<u64, AllocError>
        requires first { (1 ≤ n) × (n ≤ length self.old.lines) }
        requires next { IsNextLine self.old (record { left = right_of self.old n; right = right; why = why }) }
        ensures grows { OnOk result (Grows self.old self.new) }
        ensures says { IfOk result (λ l. Says self.new l (left_of self.old n) right) }
    {
        let left = self.line(n).right.copy(self.alloc)?;
        let m = self.push(Line { left, right, why })?;
        self.chain(n, m)
    }

    /// From e = f: c*e = c*f.
    pub fn factor(&mut self, number: u32, n: u64) -> Result<u64, AllocError>
        requires number { number < self.old.prime }
        requires line { (1 ≤ n) × (n ≤ length self.old.lines) }
        ensures grows { OnOk result (Grows self.old self.new) }
        ensures says { IfOk result (λ m. Says self.new m (Expr.Times (residue number) (left_of self.old n))
            (Expr.Times (residue number) (right_of self.old n))) }
    {
        let left = multiple(self.alloc, number, self.line(n).left.copy(self.alloc)?)?;
        let right = multiple(self.alloc, number, self.line(n).right.copy(self.alloc)?)?;
        self.push(Line {
            left,
            right,
            why: Rule::Factor(n),
        })
    }

    /// From a = e and b = f: [a,b] = [e,f].
    pub fn members(&mut self, n: u64, m: u64) -> Result<u64, AllocError>
        requires first { (1 ≤ n) × (n ≤ length self.old.lines) }
        requires second { (1 ≤ m) × (m ≤ length self.old.lines) }
        ensures grows { OnOk result (Grows self.old self.new) }
        ensures says { IfOk result (λ l. Says self.new l (Expr.Br (left_of self.old n) (left_of self.old m))
            (Expr.Br (right_of self.old n) (right_of self.old m))) }
    {
        let left = bracket(self.alloc, &self.line(n).left, &self.line(m).left)?;
        let right = bracket(self.alloc, &self.line(n).right, &self.line(m).right)?;
        self.push(Line {
            left,
            right,
            why: Rule::Members(n, m),
        })
    }

    /// From a line for each member: the sum of the left sides is that of the right sides.
    pub fn parts(&mut self, lines: Vec<u64>) -> Result<u64, AllocError>
        requires { AreWithin self.old lines.items }
        ensures grows { OnOk result (Grows self.old self.new) }
        ensures says { IfOk result (λ m. Says self.new m (Expr.Sum (map (left_of self.old) lines.items)) (Expr.Sum (map (right_of self.old) lines.items))) }
    {
        let mut left = Members::new(self.alloc);
        let mut right = Members::new(self.alloc);
        for n in lines.as_slice() {
            let line = self.line(*n);
            left.push(line.left.copy(self.alloc)?)?;
            right.push(line.right.copy(self.alloc)?)?;
        }
        let left = left.sum(self.alloc)?;
        let right = right.sum(self.alloc)?;
        self.push(Line {
            left,
            right,
            why: Rule::Parts(Items::from_vec(lines)),
        })
    }
}

impl<'a> Ledger<'a> {
    /// What is known of each ledger. The function does nothing.
    pub fn sound(&self)
        ensures { IsSoundLedger self.now }
    {
        let _ = &self.prime;
    }

    /// The first `n` lines, no two of which have the same two sides.
    pub fn into_proof(self, n: u64) -> Proof
        requires { n ≤ length self.lines }
        ensures lines { result ≡ take n self.entry.lines }
        ensures proof { IsProof (field_of self.entry.presentation.field) (presentation_in self.entry.presentation) (lines_in self.entry.presentation.field result) }
        ensures over { AreLines self.entry.presentation result }
        ensures distinct { AreDistinct result }
    {
        lines_may_be_renumbered();
        self.lines.into_first(n)
    }
}

/// The bracket of copies of two expressions.
pub fn bracket(alloc: Global, a: &Expr, b: &Expr) -> Result<Expr, AllocError>
    ensures { IfOk result (λ e. e ≡ Expr.Br a.now b.now) }
{
    Ok(Expr::Br(
        Boxed::new(alloc, a.copy(alloc)?)?,
        Boxed::new(alloc, b.copy(alloc)?)?,
    ))
}
