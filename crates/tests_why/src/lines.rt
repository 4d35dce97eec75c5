//! Lines of a proof, whose sides are the queries of a text.
ghost use Rattle.std.specs.Prelude.{◌≡◌, ◌≢◌, ◌≤◌, length, IfSome};
ghost use Rattle.fpl_numbers.specs.declared.number.Kind.TheVariants.{Rational};
ghost use Rattle.fpl_model.specs.Meaning.{plain};
ghost use Rattle.fpl_model.specs.Sound.{IsSound, IsSoundEquation, IsTerm};
ghost use Rattle.fpl_lines.specs.Meaning.{IsLine, AreLines};

use fpl_lines::{Line, Lines, Proof, Rule};
use fpl_model::{Equation, Expr, Members, Parity, Presentation};
use fpl_numbers::Kind;
use fpl_reader::read;
use sqlite_items::Items;
use std::alloc::Global;

/// The presentation of a short text, over a prime.
pub(crate) fn presentation(alloc: Global, text: &str) -> Option<Presentation>
    ensures sound { IfSome result (λ p. IsSound p) }
    ensures prime { IfSome result (λ p. p.field ≢ Rational) }
{
    if text.len() > 1000 {
        return None;
    }
    match read(alloc, text.as_bytes()) {
        Ok(p) => match p.field {
            Kind::Prime(_) => p.copy(alloc).ok(),
            Kind::Rational => None,
        },
        Err(_) => None,
    }
}

fn cited(alloc: Global, ns: &[u32]) -> Option<Lines> {
    let mut lines = Items::new(alloc);
    for n in ns {
        lines.push(u64::from(*n)).ok()?;
    }
    Some(lines)
}

fn parity(n: u32) -> Parity {
    if n == 0 { Parity::Even } else { Parity::Odd }
}

// A rule that names no line, or lines.
fn citing(alloc: Global, name: &str, ns: &[u32]) -> Option<Rule> {
    match name {
        "same" => Some(Rule::Same),
        "parts" => Some(Rule::Parts(cited(alloc, ns)?)),
        "turn" => Some(Rule::Turn(u64::from(*ns.first()?))),
        "factor" => Some(Rule::Factor(u64::from(*ns.first()?))),
        "chain" => Some(Rule::Chain(u64::from(*ns.first()?), u64::from(*ns.get(1)?))),
        "members" => Some(Rule::Members(u64::from(*ns.first()?), u64::from(*ns.get(1)?))),
        _ => None,
    }
}

fn placed(name: &str, ns: &[u32]) -> Option<Rule> {
    match name {
        "exchange" => Some(Rule::Exchange(*ns.first()?)),
        "flat" => Some(Rule::Flat(*ns.first()?)),
        "drop" => Some(Rule::Drop(*ns.first()?)),
        "collect" => Some(Rule::Collect(*ns.first()?)),
        "relation" => Some(Rule::Relation(*ns.first()?)),
        "swap" => Some(Rule::Swap(parity(*ns.first()?), parity(*ns.get(1)?))),
        "jacobi" => Some(Rule::Jacobi(parity(*ns.first()?), parity(*ns.get(1)?))),
        _ => None,
    }
}

fn plain(name: &str) -> Option<Rule> {
    match name {
        "empty" => Some(Rule::Empty),
        "single" => Some(Rule::Single),
        "multiply" => Some(Rule::Multiply),
        "one" => Some(Rule::One),
        "nought" => Some(Rule::Nought),
        "spread" => Some(Rule::Spread),
        "leftsum" => Some(Rule::LeftSum),
        "rightsum" => Some(Rule::RightSum),
        "lefttimes" => Some(Rule::LeftTimes),
        "righttimes" => Some(Rule::RightTimes),
        "cube" => Some(Rule::Cube),
        _ => None,
    }
}

/// The rule of a name, with its numbers; as parities 0 is even and 1 is odd.
pub(crate) fn rule(alloc: Global, name: &str, ns: &[u32]) -> Option<Rule> {
    if let Some(rule) = plain(name) {
        return Some(rule);
    }
    if let Some(rule) = placed(name, ns) {
        return Some(rule);
    }
    citing(alloc, name, ns)
}

#[tactic(auto, using(fpl_model::proofs::Terms::term_within))]
fn line(alloc: Global, p: &Presentation, q: &Equation, why: Rule) -> Option<Line>
    requires { IsSoundEquation p.now q.now }
    ensures { IfSome result (λ l. IsLine p.now l) }
{
    Some(Line {
        left: q.left.copy(alloc).ok()?,
        right: q.right.copy(alloc).ok()?,
        why,
    })
}

/// A line for each rule, with the sides of the query of its place.
pub(crate) fn proof(alloc: Global, p: &Presentation, rules: &[(&str, &[u32])]) -> Option<Proof>
    requires { IsSound p.now }
    ensures { IfSome result (λ lines. AreLines p.now lines) }
{
    let mut lines = Items::new(alloc);
    let queries = p.queries.as_slice();
    for i in 0..queries.len() {
        let (name, ns) = *rules.get(i)?;
        let next = line(alloc, p, &queries[i], rule(alloc, name, ns)?)?;
        lines.push(next).ok()?;
    }
    Some(lines)
}

// The sum of no member.
#[tactic(auto, using(fpl_model::proofs::Plain::plain_forms))]
fn empty_sum(alloc: Global, p: &Presentation) -> Option<Expr>
    ensures { IfSome result (λ e. IsTerm p.now.field (length p.now.generators) (plain e)) }
{
    Members::new(alloc).sum(alloc).ok()
}

// The sum of one member.
#[tactic(auto, using(fpl_model::proofs::Plain::plain_forms))]
fn alone(alloc: Global, p: &Presentation, e: Expr) -> Option<Expr>
    requires { IsTerm p.now.field (length p.now.generators) (plain e) }
    ensures { IfSome result (λ e. IsTerm p.now.field (length p.now.generators) (plain e)) }
{
    let mut members = Members::new(alloc);
    members.push(e).ok()?;
    members.sum(alloc).ok()
}

#[tactic(auto, using(fpl_model::proofs::Plain::plain_forms))]
fn first(p: &Presentation) -> Expr
    requires { 1 ≤ length p.now.generators }
    ensures { IsTerm p.now.field (length p.now.generators) (plain result) }
{
    Expr::Gen(1)
}

#[tactic(auto, using(fpl_model::proofs::Plain::plain_forms))]
fn empty_line(alloc: Global, p: &Presentation, why: Rule) -> Option<Line>
    ensures { IfSome result (λ l. IsLine p.now l) }
{
    Some(Line {
        left: empty_sum(alloc, p)?,
        right: Expr::Zero,
        why,
    })
}

fn single_line(alloc: Global, p: &Presentation, why: Rule) -> Option<Line>
    requires { 1 ≤ length p.now.generators }
    ensures { IfSome result (λ l. IsLine p.now l) }
{
    Some(Line {
        left: alone(alloc, p, first(p))?,
        right: first(p),
        why,
    })
}

fn flat_line(alloc: Global, p: &Presentation, why: Rule) -> Option<Line>
    requires { 1 ≤ length p.now.generators }
    ensures { IfSome result (λ l. IsLine p.now l) }
{
    Some(Line {
        left: alone(alloc, p, alone(alloc, p, first(p))?)?,
        right: alone(alloc, p, first(p))?,
        why,
    })
}

/// `sum() = 0`, `sum(x) = x` and `sum((sum(x))) = sum(x)`, where x is the first generator.
pub(crate) fn small_sums(
    alloc: Global,
    p: &Presentation,
    empty: Rule,
    single: Rule,
    flat: Rule,
) -> Option<Proof>
    requires { 1 ≤ length p.now.generators }
    ensures { IfSome result (λ lines. AreLines p.now lines) }
{
    let first = empty_line(alloc, p, empty)?;
    let second = single_line(alloc, p, single)?;
    let third = flat_line(alloc, p, flat)?;
    let mut lines = Items::new(alloc);
    lines.push(first).ok()?;
    lines.push(second).ok()?;
    lines.push(third).ok()?;
    Some(lines)
}
