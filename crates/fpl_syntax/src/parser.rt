ghost use Rattle.std.specs.Prelude.{◌≡◌, ◌⊎◌, ℕ, List, IfOk, OnErr};
ghost use Rattle.fpl_syntax.specs.Sight.{sight};
ghost use Rattle.fpl_syntax.specs.Grammar.{Scope as Sense};
ghost use Rattle.fpl_syntax.specs.Grammar.{Says, IsFaultAt, IsSentence};
ghost use Rattle.fpl_syntax.specs.Machine.{side_from, step_outside, closed, finished, end_side, turn_side, step_side, step_state, Goes};

use crate::expression::{Partial, Wait, finish, step};
use crate::{ClaimKind, Scope, Terminal};
use fpl_model::{Equation, Expr};
use std::alloc::{AllocError, Global};

/// What a relation, ideal or equal statement says, with the place of its first word. The right side is zero where it has none.
#[derive(Drop)]
pub struct Claim {
    pub kind: ClaimKind,
    pub place: usize,
    pub equation: Equation,
}

/// A side of a claim that is being read, with the left side where it is the right one.
#[derive(Drop)]
pub struct Side {
    pub kind: ClaimKind,
    pub place: usize,
    pub left: Option<Expr>,
    pub partial: Partial,
    pub wait: Wait,
}

/// What a sentence waits for.
#[derive(Drop)]
pub enum State {
    /// A statement, or the end.
    Statement,
    /// The name of the field.
    Field,
    /// The end of a field statement.
    FieldEnd,
    /// A name that is declared.
    Name,
    /// What follows it.
    AfterName,
    /// A weight.
    Weight,
    /// What follows it.
    AfterWeight,
    /// More of a side of a claim, or its end.
    Side(Side),
}

fn next_side(alloc: Global, kind: ClaimKind, place: usize, left: Option<Expr>) -> State
    ensures { result ≡ side_from kind place left }
{
    State::Side(Side {
        kind,
        place,
        left,
        partial: Partial::new(alloc),
        wait: Wait::Sum,
    })
}

// What comes after a terminal outside claims.
fn step_outside(alloc: Global, state: State, terminal: Terminal) -> Option<State>
    ensures { result ≡ step_outside state terminal }
{
    match (state, terminal) {
        (State::Statement, Terminal::Field(_)) => Some(State::Field),
        (State::Statement, Terminal::Declare(_)) => Some(State::Name),
        (State::Statement, Terminal::Claim(kind, place)) => Some(next_side(
            alloc, kind, place, None,
        )),
        (State::Field, Terminal::Name(word)) if word.rationals => Some(State::FieldEnd),
        (State::Field, Terminal::Number(_)) => Some(State::FieldEnd),
        (State::FieldEnd, Terminal::Semicolon) => Some(State::Statement),
        (State::Name, Terminal::Name(_)) => Some(State::AfterName),
        (State::AfterName, Terminal::Colon) => Some(State::Weight),
        (State::Weight, Terminal::Number(_)) => Some(State::AfterWeight),
        (State::AfterName | State::AfterWeight, Terminal::Comma) => Some(State::Name),
        (State::AfterName | State::AfterWeight, Terminal::Semicolon) => Some(State::Statement),
        _ => None,
    }
}

// The claim of a statement that ends with this expression, where it may end there.
fn close_claim(kind: ClaimKind, place: usize, left: Option<Expr>, e: Expr) -> Option<Claim>
    ensures { result ≡ closed kind place left e }
{
    let equation = match left {
        Some(left) => Equation { left, right: e },
        None => match kind {
            ClaimKind::Relation | ClaimKind::Ideal => Equation {
                left: e,
                right: Expr::Zero,
            },
            ClaimKind::Equal => return None,
        },
    };
    Some(Claim {
        kind,
        place,
        equation,
    })
}

// The mark `;` in a claim.
fn end_side(
    alloc: Global,
    scope: &Scope,
    claims: &mut Vec<Claim>,
    side: Side,
) -> Result<Option<State>, AllocError>
    ensures unchanged { OnErr result (claims.new.items ≡ claims.old.items) }
    ensures next { IfOk result (λ next. Goes claims.new.items next (end_side claims.old.items side (finished (sight scope.now) side.partial side.wait))) }
{
    let Side {
        kind: claim,
        place,
        left,
        partial,
        wait,
    } = side;
    let Some(e) = finish(alloc, scope, partial, wait)? else {
        return Ok(None);
    };
    let Some(claim) = close_claim(claim, place, left, e) else {
        return Ok(None);
    };
    claims.push(claim)?;
    Ok(Some(State::Statement))
}

// The mark `=` in a claim.
fn turn_side(
    alloc: Global,
    scope: &Scope,
    claims: &[Claim],
    side: Side,
) -> Result<Option<State>, AllocError>
    ensures { IfOk result (λ next. Goes claims.now next (turn_side claims.now side (finished (sight scope.now) side.partial side.wait))) }
{
    let Side {
        kind: claim,
        place,
        left,
        partial,
        wait,
    } = side;
    let Some(e) = finish(alloc, scope, partial, wait)? else {
        return Ok(None);
    };
    match (claim, left) {
        (ClaimKind::Relation | ClaimKind::Equal, None) => {
            Ok(Some(next_side(alloc, claim, place, Some(e))))
        }
        _ => Ok(None),
    }
}

fn step_side(
    alloc: Global,
    scope: &Scope,
    claims: &mut Vec<Claim>,
    side: Side,
    terminal: Terminal,
) -> Result<Option<State>, AllocError>
    ensures unchanged { OnErr result (claims.new.items ≡ claims.old.items) }
    ensures next { IfOk result (λ next. Goes claims.new.items next (step_side (sight scope.now) claims.old.items side terminal)) }
{
    match terminal {
        Terminal::Semicolon => end_side(alloc, scope, claims, side),
        Terminal::Equals => turn_side(alloc, scope, claims, side),
        _ => {
            let Side {
                kind: claim,
                place,
                left,
                mut partial,
                wait,
            } = side;
            match step(alloc, scope, &mut partial, wait, terminal)? {
                Some(wait) => Ok(Some(State::Side(Side {
                    kind: claim,
                    place,
                    left,
                    partial,
                    wait,
                }))),
                None => Ok(None),
            }
        }
    }
}

/// What a sentence waits for after a terminal, or `None` where the terminal does not fit; then the claims are of no more use.
pub fn step_state(
    alloc: Global,
    scope: &Scope,
    claims: &mut Vec<Claim>,
    state: State,
    terminal: Terminal,
) -> Result<Option<State>, AllocError>
    ensures unchanged { OnErr result (claims.new.items ≡ claims.old.items) }
    ensures next { IfOk result (λ next. Goes claims.new.items next (step_state (sight scope.now) claims.old.items state terminal)) }
{
    match state {
        State::Side(side) => step_side(alloc, scope, claims, side, terminal),
        _ => Ok(step_outside(alloc, state, terminal)),
    }
}

/// Terminals are a sentence with one list of claims, or have one fault.
pub fn one_outcome()
    ensures claims { (scope : Sense) (terminals : List Terminal) (a b : List Claim) → Says scope terminals a → Says scope terminals b → a ≡ b }
    ensures fault { (terminals : List Terminal) (j k : ℕ) → IsFaultAt j terminals → IsFaultAt k terminals → j ≡ k }
    ensures apart { (terminals : List Terminal) (k : ℕ) → IsFaultAt k terminals → IsSentence terminals → ⊥ }
    ensures some { (terminals : List Terminal) → IsSentence terminals ⊎ (k : ℕ) × IsFaultAt k terminals }
{}
