//! The texts of expressions.
ghost use Rattle.std.specs.Prelude.{◌≡◌, ◌++◌, true, map, OnOk};
ghost use Rattle.fpl_spelling.specs.Fronts.{KeepsFront};
ghost use Rattle.math_algebra.specs.Tree.{multiple, trees};
ghost use Rattle.fpl_model.specs.Meaning.{plain};
ghost use Rattle.fpl_canonical.specs.Canonical.{opening, closing, in_parentheses, encloses_sum, encloses_multiple, own_sign, begins_below, is_small, small_opening, in_small, expression_text, sum_text};
ghost use Rattle.fpl_canonical.specs.declared.expression.Stand.TheVariants.{Alone};

use fpl_model::{Expr, Exprs, Generators};
use fpl_numbers::Num;
use fpl_spelling::{is_below_nought, push_magnitude, push_name, push_sign, push_text};
use std::alloc::AllocError;

/// Where an expression stands.
#[derive(Clone, Copy, Debug, PartialEq, Eq)]
pub enum Stand {
    /// As a side of an equation, an ideal element or a member of a bracket.
    Alone,
    /// As a member of a sum, after its sign.
    Member,
    /// Behind a number.
    Factor,
}

fn encloses_sum(stand: Stand) -> bool
    ensures { result ≡ encloses_sum stand }
{
    match stand {
        Stand::Alone => false,
        Stand::Member | Stand::Factor => true,
    }
}

fn encloses_multiple(stand: Stand) -> bool
    ensures { result ≡ encloses_multiple stand }
{
    match stand {
        Stand::Alone | Stand::Member => false,
        Stand::Factor => true,
    }
}

// The sign of a multiple's number, which the sum writes where the multiple is its member.
fn push_own_sign(out: &mut Vec<u8>, stand: Stand, c: Num) -> Result<(), AllocError>
    ensures text { OnOk result (out.new.items ≡ out.old.items ++ own_sign stand c) }
    ensures front { KeepsFront out.old.items out.new.items }
{
    match stand {
        Stand::Member => Ok(()),
        Stand::Alone | Stand::Factor => push_sign(out, true, is_below_nought(c)),
    }
}

#[tactic(auto, using(fpl_model::proofs::Plain::plain_forms))]
fn begins_below(e: &Expr) -> bool
    ensures { result ≡ begins_below (plain e.now) }
{
    match e {
        Expr::Times(c, _) => is_below_nought(c.number()),
        Expr::Gen(_) | Expr::Zero | Expr::Sum(_) | Expr::Br(_, _) => false,
    }
}

fn open_if(out: &mut Vec<u8>, opens: bool) -> Result<(), AllocError>
    ensures text { OnOk result (out.new.items ≡ out.old.items ++ opening opens) }
    ensures front { KeepsFront out.old.items out.new.items }
{
    if opens {
        push_text(out, b"(")?;
    }
    Ok(())
}

fn close_if(out: &mut Vec<u8>, closes: bool) -> Result<(), AllocError>
    ensures text { OnOk result (out.new.items ≡ out.old.items ++ closing closes) }
    ensures front { KeepsFront out.old.items out.new.items }
{
    if closes {
        push_text(out, b")")?;
    }
    Ok(())
}

#[tactic(auto, using(crate::proofs::Small::many_members))]
fn is_small(members: &Exprs) -> bool
    ensures { result ≡ is_small (trees (map plain members.now)) }
{
    members.as_slice().len() < 2
}

fn open_small_if(out: &mut Vec<u8>, opens: bool) -> Result<(), AllocError>
    ensures text { OnOk result (out.new.items ≡ out.old.items ++ small_opening opens) }
    ensures front { KeepsFront out.old.items out.new.items }
{
    if opens {
        push_text(out, b"sum(")?;
    }
    Ok(())
}

/// Appends the text of an expression. A sum of fewer than two members, which no text of a
/// presentation gives, is `sum()` or `sum(A)`.
#[cycle(writing)]
#[tactic(auto, using(fpl_model::proofs::Plain::plain_forms))]
pub(crate) fn push_expression(
    out: &mut Vec<u8>,
    generators: &Generators,
    stand: Stand,
    e: &Expr,
) -> Result<(), AllocError>
    ensures text { OnOk result (out.new.items ≡ out.old.items ++ expression_text (map (λ g. g.name) generators.now) stand (plain e.now)) }
    ensures front { KeepsFront out.old.items out.new.items }
{
    match e {
        Expr::Gen(g) => push_name(out, generators, *g),
        Expr::Zero => push_text(out, b"0"),
        Expr::Sum(members) => push_whole_sum(out, generators, stand, members.get()),
        Expr::Times(c, e) => push_multiple(out, generators, stand, c.number(), e.get()),
        Expr::Br(a, b) => {
            push_after(out, b"[", generators, a.get())?;
            push_after(out, b",", generators, b.get())?;
            push_text(out, b"]")
        }
    }
}

#[cycle(writing)]
#[tactic(auto, using(fpl_model::proofs::Plain::plain_forms))]
fn push_multiple(
    out: &mut Vec<u8>,
    generators: &Generators,
    stand: Stand,
    c: Num,
    e: &Expr,
) -> Result<(), AllocError>
    ensures text { OnOk result (out.new.items ≡ out.old.items ++ expression_text (map (λ g. g.name) generators.now) stand (multiple c (plain e.now))) }
    ensures front { KeepsFront out.old.items out.new.items }
{
    open_if(out, encloses_multiple(stand))?;
    push_own_sign(out, stand, c)?;
    push_magnitude(out, c)?;
    push_text(out, b"*")?;
    push_expression(out, generators, Stand::Factor, e)?;
    close_if(out, encloses_multiple(stand))
}

// A member of a bracket, after the mark before it.
#[cycle(writing)]
#[tactic(auto, using(fpl_model::proofs::Plain::plain_forms))]
fn push_after(
    out: &mut Vec<u8>,
    mark: &[u8],
    generators: &Generators,
    e: &Expr,
) -> Result<(), AllocError>
    ensures text { OnOk result (out.new.items ≡ out.old.items ++ (mark.now ++ expression_text (map (λ g. g.name) generators.now) Alone (plain e.now))) }
    ensures front { KeepsFront out.old.items out.new.items }
{
    push_text(out, mark)?;
    push_expression(out, generators, Stand::Alone, e)
}

#[cycle(writing)]
#[tactic(auto, using(fpl_model::proofs::Plain::plain_forms))]
fn push_whole_sum(
    out: &mut Vec<u8>,
    generators: &Generators,
    stand: Stand,
    members: &Exprs,
) -> Result<(), AllocError>
    ensures text { OnOk result (out.new.items ≡ out.old.items ++ in_parentheses (encloses_sum stand) (in_small (is_small (trees (map plain members.now)))
        (sum_text (map (λ g. g.name) generators.now) true (trees (map plain members.now))))) }
    ensures front { KeepsFront out.old.items out.new.items }
{
    open_if(out, encloses_sum(stand))?;
    open_small_if(out, is_small(members))?;
    push_sum(out, generators, members)?;
    close_if(out, is_small(members))?;
    close_if(out, encloses_sum(stand))
}

#[cycle(writing)]
#[tactic(auto, using(fpl_model::proofs::Plain::plain_forms))]
fn push_sum(out: &mut Vec<u8>, generators: &Generators, members: &Exprs) -> Result<(), AllocError>
    ensures text { OnOk result (out.new.items ≡ out.old.items ++ sum_text (map (λ g. g.name) generators.now) true (trees (map plain members.now))) }
    ensures front { KeepsFront out.old.items out.new.items }
{
    let mut first = true;
    for e in members.as_slice() {
        push_sign(out, first, begins_below(e))?;
        push_expression(out, generators, Stand::Member, e)?;
        first = false;
    }
    Ok(())
}
