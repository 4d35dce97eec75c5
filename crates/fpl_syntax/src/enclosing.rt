//! What follows a term: a further one, or the end of the factor in brackets or parentheses in which it stands.
ghost use Rattle.std.specs.Prelude.{◌≡◌, ◌++◌, ◌∷◌, [], IfOk};
ghost use Rattle.fpl_syntax.specs.Sight.{sight};
ghost use Rattle.fpl_syntax.specs.Machine.{Moves, Takes, summed, settled, signed, enclosed, after_number, after_term};

use crate::expression::{Frame, Opener, Partial, Scale, Wait, settle, sign, term};
use crate::{Numeral, Scope, Terminal};
use fpl_model::{Expr, Members};
use sqlite_items::Boxed;
use std::alloc::{AllocError, Global};

// The sum of the terms of a level and a last one.
pub fn sum_up(alloc: Global, terms: Members, last: Expr) -> Result<Expr, AllocError>
    ensures { IfOk result (λ e. e ≡ summed terms last) }
{
    if terms.is_empty() {
        return Ok(last);
    }
    let mut terms = terms;
    terms.push(last)?;
    terms.sum(alloc)
}

// A further term, after its sign.
fn go_on(partial: &mut Partial, t: Expr, negative: bool) -> Result<Option<Wait>, AllocError>
    ensures { IfOk result (λ next. Moves partial.new next (signed (record partial.old { terms = partial.old.terms ++ t ∷ [] }) negative)) }
{
    partial.terms.push(t)?;
    Ok(sign(partial, negative))
}

// The sum of the innermost level, of which this is the last term.
fn take_sum(alloc: Global, partial: &mut Partial, t: Expr) -> Result<Expr, AllocError>
    ensures { IfOk result (λ e. (e ≡ summed partial.old.terms t) × (partial.new ≡ record partial.old { terms = [] })) }
{
    let terms = std::mem::replace(&mut partial.terms, Members::new(alloc));
    sum_up(alloc, terms, t)
}

// A factor in brackets or parentheses is read, which stands in this sum with this sign and number.
fn resume(
    alloc: Global,
    scope: &Scope,
    partial: &mut Partial,
    terms: Members,
    negative: bool,
    scale: Scale,
    e: Expr,
) -> Result<Option<Wait>, AllocError>
    ensures { IfOk result (λ next. Moves partial.new next (settled (sight scope.now) (record partial.old { terms = terms; negative = negative }) scale e)) }
{
    partial.terms = terms;
    partial.negative = negative;
    settle(alloc, scope, partial, scale, e)
}

// The innermost factor that is being read.
fn take_frame(partial: &mut Partial) -> Option<Frame>
    ensures { Takes partial.old partial.new result }
{
    partial.enclosing.pop()
}

// A terminal after the last term in a factor that is being read.
fn leave(
    alloc: Global,
    scope: &Scope,
    partial: &mut Partial,
    frame: Frame,
    e: Expr,
    terminal: Terminal,
) -> Result<Option<Wait>, AllocError>
    requires { partial.old.terms ≡ [] }
    ensures { IfOk result (λ next. Moves partial.new next (enclosed (sight scope.now) terminal partial.old.enclosing frame e frame.opener)) }
{
    let Frame {
        opener,
        terms,
        negative,
        scale,
    } = frame;
    match (opener, terminal) {
        (Opener::Left, Terminal::Comma) => {
            partial.negative = false;
            partial.enclosing.push(Frame {
                opener: Opener::Right(e),
                terms,
                negative,
                scale,
            })?;
            Ok(Some(Wait::Sum))
        }
        (Opener::Right(a), Terminal::CloseBracket) => {
            let bracket = Expr::Br(Boxed::new(alloc, a)?, Boxed::new(alloc, e)?);
            resume(alloc, scope, partial, terms, negative, scale, bracket)
        }
        (Opener::Group, Terminal::CloseGroup) => {
            resume(alloc, scope, partial, terms, negative, scale, e)
        }
        _ => Ok(None),
    }
}

pub fn after_term(
    alloc: Global,
    scope: &Scope,
    partial: &mut Partial,
    t: Expr,
    terminal: Terminal,
) -> Result<Option<Wait>, AllocError>
    ensures { IfOk result (λ next. Moves partial.new next (after_term (sight scope.now) partial.old t terminal)) }
{
    match terminal {
        Terminal::Plus => go_on(partial, t, false),
        Terminal::Minus => go_on(partial, t, true),
        _ => {
            let e = take_sum(alloc, partial, t)?;
            match take_frame(partial) {
                Some(frame) => leave(alloc, scope, partial, frame, e, terminal),
                None => Ok(None),
            }
        }
    }
}

pub fn after_number(
    alloc: Global,
    scope: &Scope,
    partial: &mut Partial,
    n: Numeral,
    terminal: Terminal,
) -> Result<Option<Wait>, AllocError>
    ensures { IfOk result (λ next. Moves partial.new next (after_number (sight scope.now) partial.old n terminal)) }
{
    match terminal {
        Terminal::Star => Ok(Some(Wait::Factor(Scale::Whole(n)))),
        Terminal::Slash => Ok(Some(Wait::Denominator(n))),
        _ => {
            if n.value != 0 {
                return Ok(None);
            }
            let t = term(alloc, scope, partial.negative, Scale::One, Expr::Zero)?;
            after_term(alloc, scope, partial, t, terminal)
        }
    }
}
