ghost use Rattle.std.specs.Prelude.{◌≡◌, IfOk};
ghost use Rattle.fpl_syntax.specs.Grammar.{term_of};
ghost use Rattle.fpl_syntax.specs.Sight.{sight};
ghost use Rattle.fpl_syntax.specs.Machine.{Moves, fresh, settled, opened, signed, begin_factor, begin_term, begin_sum, step_wait, last_term, finished};

use crate::coefficient::coefficient;
use crate::enclosing::{after_number, after_term, sum_up};
use crate::naming::number_of;
use crate::{Numeral, Scope, Terminal};
use fpl_model::{Expr, Members, Scalar};
use sqlite_items::{Boxed, Items};
use std::alloc::{AllocError, Global};

/// The number before a factor, as written.
#[derive(Clone, Copy, Debug, PartialEq, Eq)]
pub enum Scale {
    One,
    Whole(Numeral),
    Quotient(Numeral, Numeral),
}

/// What an expression waits for.
#[derive(Drop)]
pub enum Wait {
    /// A first term, with or without a sign.
    Sum,
    /// A term, after its sign.
    Term,
    /// What follows a number that begins a term.
    AfterNumber(Numeral),
    /// A denominator.
    Denominator(Numeral),
    /// The mark `*` after a fraction.
    AfterDenominator(Numeral, Numeral),
    /// A factor, after its number.
    Factor(Scale),
    /// What follows a term.
    AfterTerm(Expr),
}

/// A mark that was opened.
#[derive(Drop)]
pub enum Opener {
    /// A bracket whose first member is being read.
    Left,
    /// A bracket whose second member is being read, with its first.
    Right(Expr),
    /// A parenthesis.
    Group,
}

/// A factor that is being read, with the sum in which it stands.
#[derive(Drop)]
pub struct Frame {
    pub opener: Opener,
    pub terms: Members,
    pub negative: bool,
    pub scale: Scale,
}

/// An expression that is being read: what encloses it, the terms of the innermost sum, and the sign of its next term.
#[derive(Drop)]
pub struct Partial {
    pub enclosing: Items<Frame>,
    pub terms: Members,
    pub negative: bool,
}

impl Partial {
    pub fn new(alloc: Global) -> Self
        ensures { result ≡ fresh }
    {
        Partial {
            enclosing: Items::new(alloc),
            terms: Members::new(alloc),
            negative: false,
        }
    }
}

pub fn term(
    alloc: Global,
    scope: &Scope,
    negative: bool,
    scale: Scale,
    e: Expr,
) -> Result<Expr, AllocError>
    ensures { IfOk result (λ t. t ≡ term_of (sight scope.now) negative scale e) }
{
    let c = match scale {
        Scale::One => {
            if !negative {
                return Ok(e);
            }
            scope.minus_one.share()?
        }
        Scale::Whole(n) => Scalar::new(alloc, coefficient(scope.kind, negative, n.value, 1))?,
        Scale::Quotient(n, d) => Scalar::new(
            alloc,
            coefficient(scope.kind, negative, n.value, d.value),
        )?,
    };
    Ok(Expr::Times(c, Boxed::new(alloc, e)?))
}

// A factor is read.
pub fn settle(
    alloc: Global,
    scope: &Scope,
    partial: &Partial,
    scale: Scale,
    e: Expr,
) -> Result<Option<Wait>, AllocError>
    ensures { IfOk result (λ next. Moves partial.now next (settled (sight scope.now) partial.now scale e)) }
{
    Ok(Some(Wait::AfterTerm(term(alloc, scope, partial.negative, scale, e)?)))
}

// A mark is opened before a factor.
fn open(
    alloc: Global,
    partial: &mut Partial,
    opener: Opener,
    scale: Scale,
) -> Result<Option<Wait>, AllocError>
    ensures { IfOk result (λ next. Moves partial.new next (opened partial.old opener scale)) }
{
    let terms = std::mem::replace(&mut partial.terms, Members::new(alloc));
    let negative = std::mem::replace(&mut partial.negative, false);
    partial.enclosing.push(Frame {
        opener,
        terms,
        negative,
        scale,
    })?;
    Ok(Some(Wait::Sum))
}

fn begin_factor(
    alloc: Global,
    scope: &Scope,
    partial: &mut Partial,
    scale: Scale,
    terminal: Terminal,
) -> Result<Option<Wait>, AllocError>
    ensures { IfOk result (λ next. Moves partial.new next (begin_factor (sight scope.now) partial.old scale terminal)) }
{
    match terminal {
        Terminal::Name(word) => settle(
            alloc,
            scope,
            partial,
            scale,
            Expr::Gen(number_of(scope, word)),
        ),
        Terminal::Number(n) => {
            if n.value == 0 {
                settle(alloc, scope, partial, scale, Expr::Zero)
            } else {
                Ok(None)
            }
        }
        Terminal::OpenBracket => open(alloc, partial, Opener::Left, scale),
        Terminal::OpenGroup => open(alloc, partial, Opener::Group, scale),
        _ => Ok(None),
    }
}

fn begin_term(
    alloc: Global,
    scope: &Scope,
    partial: &mut Partial,
    terminal: Terminal,
) -> Result<Option<Wait>, AllocError>
    ensures { IfOk result (λ next. Moves partial.new next (begin_term (sight scope.now) partial.old terminal)) }
{
    match terminal {
        Terminal::Number(n) => Ok(Some(Wait::AfterNumber(n))),
        _ => begin_factor(alloc, scope, partial, Scale::One, terminal),
    }
}

// A sign before a term.
pub fn sign(partial: &mut Partial, negative: bool) -> Option<Wait>
    ensures { Moves partial.new result (signed partial.old negative) }
{
    partial.negative = negative;
    Some(Wait::Term)
}

fn begin_sum(
    alloc: Global,
    scope: &Scope,
    partial: &mut Partial,
    terminal: Terminal,
) -> Result<Option<Wait>, AllocError>
    ensures { IfOk result (λ next. Moves partial.new next (begin_sum (sight scope.now) partial.old terminal)) }
{
    match terminal {
        Terminal::Plus => Ok(sign(partial, false)),
        Terminal::Minus => Ok(sign(partial, true)),
        _ => begin_term(alloc, scope, partial, terminal),
    }
}

/// What an expression waits for after a terminal, or `None` where the terminal does not fit; then it is of no more use.
pub fn step(
    alloc: Global,
    scope: &Scope,
    partial: &mut Partial,
    wait: Wait,
    terminal: Terminal,
) -> Result<Option<Wait>, AllocError>
    ensures { IfOk result (λ next. Moves partial.new next (step_wait (sight scope.now) partial.old wait terminal)) }
{
    match wait {
        Wait::Sum => begin_sum(alloc, scope, partial, terminal),
        Wait::Term => begin_term(alloc, scope, partial, terminal),
        Wait::AfterNumber(n) => after_number(alloc, scope, partial, n, terminal),
        Wait::Denominator(n) => match terminal {
            Terminal::Number(d) => Ok(Some(Wait::AfterDenominator(n, d))),
            _ => Ok(None),
        },
        Wait::AfterDenominator(n, d) => match terminal {
            Terminal::Star => Ok(Some(Wait::Factor(Scale::Quotient(n, d)))),
            _ => Ok(None),
        },
        Wait::Factor(scale) => begin_factor(alloc, scope, partial, scale, terminal),
        Wait::AfterTerm(t) => after_term(alloc, scope, partial, t, terminal),
    }
}

// The term that is read, where one is.
fn last_term(
    alloc: Global,
    scope: &Scope,
    negative: bool,
    wait: Wait,
) -> Result<Option<Expr>, AllocError>
    ensures { IfOk result (λ t. t ≡ last_term (sight scope.now) negative wait) }
{
    match wait {
        Wait::AfterTerm(t) => Ok(Some(t)),
        Wait::AfterNumber(n) => {
            if n.value != 0 {
                return Ok(None);
            }
            Ok(Some(term(alloc, scope, negative, Scale::One, Expr::Zero)?))
        }
        _ => Ok(None),
    }
}

/// The expression that was read, where it may end here.
pub fn finish(
    alloc: Global,
    scope: &Scope,
    partial: Partial,
    wait: Wait,
) -> Result<Option<Expr>, AllocError>
    ensures { IfOk result (λ e. e ≡ finished (sight scope.now) partial wait) }
{
    let Partial {
        enclosing,
        terms,
        negative,
    } = partial;
    let Some(t) = last_term(alloc, scope, negative, wait)? else {
        return Ok(None);
    };
    if !enclosing.is_empty() {
        return Ok(None);
    }
    Ok(Some(sum_up(alloc, terms, t)?))
}
