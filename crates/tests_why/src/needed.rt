//! What is left of a proof with a line that isn't needed.
ghost use Rattle.std.specs.Prelude.{◌≡◌, ◌≤◌, length, IfOk};
ghost use Rattle.fpl_numbers.specs.declared.number.Kind.TheVariants.{Prime};
ghost use Rattle.fpl_model.specs.Sound.{IsSound};
ghost use Rattle.fpl_needed.specs.Needed.{IsDistinctProof};

use crate::lines::presentation;
use fpl_forms::Ledger;
use fpl_lines::Proof;
use fpl_model::{Expr, Presentation};
use fpl_needed::needed_lines;
use fpl_numbers::Kind;
use fpl_why::proof_text;
use std::alloc::{AllocError, Global};
use std::test::Fail;

/// `x = x`, `y = y` and `[y,y] = [y,y]`, where x and y are the first two generators; the last line cites the second alone.
#[tactic(auto, using(fpl_model::proofs::Plain::plain_forms))]
fn three_lines(alloc: Global, p: &Presentation, prime: u32) -> Result<Proof, AllocError>
    requires sound { IsSound p.now }
    requires field { p.now.field ≡ Prime prime }
    requires two { 2 ≤ length p.now.generators }
    ensures { IfOk result (λ lines. IsDistinctProof p.now lines) }
{
    let mut ledger = Ledger::new(alloc, p, prime);
    ledger.same(Expr::Gen(1))?;
    let second = ledger.same(Expr::Gen(2))?;
    let third = ledger.members(second, second)?;
    Ok(ledger.into_proof(third))
}

fn what_is_left(alloc: Global, p: &Presentation, prime: u32) -> Result<Vec<u8>, AllocError>
    requires sound { IsSound p.now }
    requires field { p.now.field ≡ Prime prime }
    requires two { 2 ≤ length p.now.generators }
{
    let proof = three_lines(alloc, p, prime)?;
    let lines = needed_lines(alloc, proof)?;
    proof_text(alloc, p, &lines)
}

const LEFT: &str = "l1: y = y by same\nl2: [y,y] = [y,y] by members 1 1\n";

fn is_left(alloc: Global) -> Option<bool> {
    let p = presentation(alloc, "field 7; even x, y;")?;
    let prime = match p.field {
        Kind::Prime(prime) => prime,
        Kind::Rational => return None,
    };
    if p.generators.len() < 2 {
        return None;
    }
    let text = what_is_left(alloc, &p, prime).ok()?;
    Some(text.as_slice() == LEFT.as_bytes())
}

#[test]
fn first_of_three_lines_is_left_out(rt: HostRuntime) -> Result<(), Fail> {
    assert_eq!(rt; is_left(rt.alloc()), Some(true));
    Ok(())
}
