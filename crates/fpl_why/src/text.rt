//! The text of a proof.
ghost use Rattle.std.specs.Prelude.{◌≡◌, ◌++◌, flat_map, codes, decimal, IfOk, OnOk};
ghost use Rattle.fpl_spelling.specs.Fronts.{KeepsFront};
ghost use Rattle.fpl_spelling.specs.Spelling.{parity_text};
ghost use Rattle.fpl_model.specs.Meaning.{parity_in};
ghost use Rattle.fpl_lines.specs.Meaning.{rule_in};
ghost use Rattle.fpl_why.specs.Texts.{spaced, rule_text, line_text, proof_text};

use fpl_canonical::push_side;
use fpl_lines::{Line, Lines, Proof, Rule};
use fpl_model::{Parity, Presentation};
use fpl_spelling::{push_number, push_parity, push_text};
use std::alloc::{AllocError, Global};

fn push_after_space(out: &mut Vec<u8>, n: u64) -> Result<(), AllocError>
    ensures text { OnOk result (out.new.items ≡ out.old.items ++ spaced (decimal n)) }
    ensures front { KeepsFront out.old.items out.new.items }
{
    push_text(out, b" ")?;
    push_number(out, n)
}

fn push_one(out: &mut Vec<u8>, word: &[u8], n: u64) -> Result<(), AllocError>
    ensures text { OnOk result (out.new.items ≡ out.old.items ++ word.now ++ spaced (decimal n)) }
    ensures front { KeepsFront out.old.items out.new.items }
{
    push_text(out, word)?;
    push_after_space(out, n)
}

fn push_two(out: &mut Vec<u8>, word: &[u8], n: u64, m: u64) -> Result<(), AllocError>
    ensures text { OnOk result (out.new.items ≡ out.old.items ++ word.now ++ spaced (decimal n) ++ spaced (decimal m)) }
    ensures front { KeepsFront out.old.items out.new.items }
{
    push_one(out, word, n)?;
    push_after_space(out, m)
}

fn push_all(out: &mut Vec<u8>, word: &[u8], ns: &Lines) -> Result<(), AllocError>
    ensures text { OnOk result (out.new.items ≡ out.old.items ++ word.now ++ flat_map (λ n. spaced (decimal n)) ns.now) }
    ensures front { KeepsFront out.old.items out.new.items }
{
    push_text(out, word)?;
    for n in ns.as_slice() {
        push_after_space(out, *n)?;
    }
    Ok(())
}

fn push_parities(out: &mut Vec<u8>, word: &[u8], s: Parity, t: Parity) -> Result<(), AllocError>
    ensures text { OnOk result (out.new.items ≡ out.old.items ++ word.now ++ spaced (parity_text (parity_in s)) ++ spaced (parity_text (parity_in t))) }
    ensures front { KeepsFront out.old.items out.new.items }
{
    push_text(out, word)?;
    push_text(out, b" ")?;
    push_parity(out, s)?;
    push_text(out, b" ")?;
    push_parity(out, t)
}

fn push_rule(out: &mut Vec<u8>, rule: &Rule) -> Result<(), AllocError>
    ensures text { OnOk result (out.new.items ≡ out.old.items ++ rule_text (rule_in rule.now)) }
    ensures front { KeepsFront out.old.items out.new.items }
{
    match rule {
        Rule::Same => push_text(out, b"same"),
        Rule::Turn(n) => push_one(out, b"turn", *n),
        Rule::Chain(n, m) => push_two(out, b"chain", *n, *m),
        Rule::Parts(ns) => push_all(out, b"parts", ns),
        Rule::Factor(n) => push_one(out, b"factor", *n),
        Rule::Members(n, m) => push_two(out, b"members", *n, *m),
        Rule::Exchange(k) => push_one(out, b"exchange", u64::from(*k)),
        Rule::Flat(k) => push_one(out, b"flat", u64::from(*k)),
        Rule::Drop(k) => push_one(out, b"drop", u64::from(*k)),
        Rule::Empty => push_text(out, b"empty"),
        Rule::Single => push_text(out, b"single"),
        Rule::Multiply => push_text(out, b"multiply"),
        Rule::One => push_text(out, b"one"),
        Rule::Nought => push_text(out, b"nought"),
        Rule::Collect(k) => push_one(out, b"collect", u64::from(*k)),
        Rule::Spread => push_text(out, b"spread"),
        Rule::LeftSum => push_text(out, b"leftsum"),
        Rule::RightSum => push_text(out, b"rightsum"),
        Rule::LeftTimes => push_text(out, b"lefttimes"),
        Rule::RightTimes => push_text(out, b"righttimes"),
        Rule::Swap(s, t) => push_parities(out, b"swap", *s, *t),
        Rule::Jacobi(s, t) => push_parities(out, b"jacobi", *s, *t),
        Rule::Relation(k) => push_one(out, b"relation", u64::from(*k)),
        Rule::Cube => push_text(out, b"cube"),
    }
}

fn push_number_of_line(out: &mut Vec<u8>, n: u64) -> Result<(), AllocError>
    ensures text { OnOk result (out.new.items ≡ out.old.items ++ codes "l" ++ decimal n ++ codes ": ") }
    ensures front { KeepsFront out.old.items out.new.items }
{
    push_text(out, b"l")?;
    push_number(out, n)?;
    push_text(out, b": ")
}

fn push_line(out: &mut Vec<u8>, p: &Presentation, n: u64, line: &Line) -> Result<(), AllocError>
    ensures text { OnOk result (out.new.items ≡ out.old.items ++ line_text p.now n line.now) }
    ensures front { KeepsFront out.old.items out.new.items }
{
    push_number_of_line(out, n)?;
    push_side(out, p, &line.left)?;
    push_text(out, b" = ")?;
    push_side(out, p, &line.right)?;
    push_text(out, b" by ")?;
    push_rule(out, &line.why)?;
    push_text(out, b"\n")
}

/// Appends the text of a proof: one line `lN: E = F by RULE` for each line, in order. Where memory
/// is wanting, what was there stays in front, with part of the text behind it.
pub fn push_proof(out: &mut Vec<u8>, p: &Presentation, proof: &Proof) -> Result<(), AllocError>
    ensures text { OnOk result (out.new.items ≡ out.old.items ++ proof_text p.now proof.now) }
    ensures front { KeepsFront out.old.items out.new.items }
{
    let lines = proof.as_slice();
    for n in 0..lines.len() {
        push_line(out, p, n as u64 + 1, &lines[n])?;
    }
    Ok(())
}

/// The text of a proof: one line `lN: E = F by RULE` for each line, in order. The sides are
/// spelled as in a presentation's canonical text, and a sum of fewer than two members is `sum()`
/// or `sum(E)`; the rule is its name in lower case, then its numbers or parities.
pub fn proof_text(alloc: Global, p: &Presentation, proof: &Proof) -> Result<Vec<u8>, AllocError>
    ensures { IfOk result (λ text. text.items ≡ proof_text p.now proof.now) }
{
    let mut out = Vec::new(alloc);
    push_proof(&mut out, p, proof)?;
    Ok(out)
}
