ghost use Rattle.std.specs.Prelude.{◌≡◌, ◌<◌, ◌≤◌, ◌+◌, List, map, All, Ok, IfOk};
ghost use Rattle.std.specs.List.{find};
ghost use Rattle.fpl_numbers.specs.declared.number.Num.{Num};
ghost use Rattle.fpl_numbers.specs.Results.{Gives, GivesBy};
ghost use Rattle.fpl_rows.specs.Meaning.{AreRows};
ghost use Rattle.plain_elimination.specs.Plain.{IsPivotRow, stands_at};
ghost use Rattle.plain_spans.specs.Plain.{put_rows, free_number, free_row, free_at, free_rows, span_of, kernel_by, kernel_of};
ghost use Rattle.plain_spans.specs.Means.{AreSolutions};

use crate::pivots::Pivots;
use crate::span::Span;
use fpl_rows::{Row, Rows};
use fpl_scalar::{Fault, Field};
use fpl_steps::Steps;
use std::alloc::{AllocError, Global};
use std::sync::ledger::Ledger;

/// Number `s` of the solution of the free place `f`: 1 at the place itself, 0 at the other free
/// ones, and at a pivot what the pivot row's number at `f` asks for. Places count from 0.
fn number_at<F: Field>(field: &F, pivots: &Pivots<F>, n: u32, f: u32, s: u32) -> F::Elem
    requires free { f < n }
    requires place { s < n }
    requires pivots { All (IsPivotRow (F.kind_of field.now) n) pivots.now }
    ensures { F.number result ≡ free_number (F.kind_of field.now) pivots.now f s }
{
    match pivots.find(s + 1) {
        Some(pivot) => field.neg(pivot.row().at(f + 1)),
        None => { if f == s { field.one() } else { field.zero() } }
    }
}

/// The solution of the free place `f`.
fn solution<F: Field>(
    alloc: Global,
    field: &F,
    pivots: &Pivots<F>,
    n: u32,
    f: u32,
) -> Result<Row<F>, AllocError>
    requires free { f < n }
    requires pivots { All (IsPivotRow (F.kind_of field.now) n) pivots.now }
    ensures { IfOk result (λ row. row ≡ free_row (F.kind_of field.now) n pivots.now f) }
{
    let mut numbers = Vec::with_capacity(alloc, n as usize)?;
    for s in 0..n {
        numbers.push(number_at(field, pivots, n, f, s))?;
    }
    Ok(Row::from_vec(field, numbers))
}

/// Puts the solution of the place `f` in, where it is free.
fn put_solution<F: Field, L: Ledger>(
    alloc: Global,
    field: &F,
    pivots: &Pivots<F>,
    f: u32,
    span: &mut Span<F>,
    steps: &mut Steps<L>,
) -> Result<(), Fault>
    requires kind { span.old.kind ≡ F.kind_of field.now }
    requires place { f < span.old.size }
    requires pivots { All (IsPivotRow (F.kind_of field.now) span.old.size) pivots.now }
    ensures value { Gives result span.new (put_rows (free_at (F.kind_of field.now) span.old.size pivots.now f (find (stands_at (f + 1)) pivots.now)) span.old) }
    ensures kind { span.new.kind ≡ span.old.kind }
    ensures size { span.new.size ≡ span.old.size }
    ensures rises { steps.old ≤ steps.new }
{
    let n = span.len();
    match pivots.find(f + 1) {
        Some(_) => Ok(()),
        None => {
            let row = solution(alloc, field, pivots, n, f)?;
            span.put(&row, steps)
        }
    }
}

/// The closed rows of the solutions of the free places.
fn solutions<F: Field, L: Ledger>(
    alloc: Global,
    field: F,
    pivots: &Pivots<F>,
    n: u32,
    steps: &mut Steps<L>,
) -> Result<Rows<F>, Fault>
    requires pivots { All (IsPivotRow (F.kind_of field) n) pivots.now }
    ensures value { GivesBy (λ (rows : List (List Num)). rows) result (span_of (F.kind_of field) n (free_rows (F.kind_of field) n pivots.now n)) }
    ensures rises { steps.old ≤ steps.new }
{
    let mut span = Span::start(alloc, field, n)?;
    for f in 0..n {
        match put_solution(alloc, &field, pivots, f, &mut span, steps) {
            Ok(()) => {}
            Err(fault) => return Err(fault),
        }
    }
    span.close()
}

/// The closed rows, by ascending pivot, of all vectors whose product sum with each row that was
/// put in is 0.
pub fn kernel_of_span<F: Field, L: Ledger>(
    alloc: Global,
    field: F,
    span: Span<F>,
    steps: &mut Steps<L>,
) -> Result<Rows<F>, Fault>
    requires { span.kind ≡ F.kind_of field }
    ensures value { GivesBy (λ (solved : List (List Num)). solved) result (kernel_by span) }
    ensures rises { steps.old ≤ steps.new }
{
    let n = span.len();
    match span.close_pivots() {
        Ok(pivots) => solutions(alloc, field, &pivots, n, steps),
        Err(fault) => Err(fault),
    }
}

/// The closed rows, by ascending pivot, of all vectors over `n` positions whose product sum with
/// each row is 0.
pub fn kernel<F: Field, L: Ledger>(
    alloc: Global,
    field: F,
    rows: Rows<F>,
    n: u32,
    steps: &mut Steps<L>,
) -> Result<Rows<F>, Fault>
    requires rows { AreRows (F.kind_of field) n rows }
    ensures value { GivesBy (λ (solved : List (List Num)). solved) result (kernel_of (F.kind_of field) n (map Ok rows)) }
    ensures solutions { IfOk result (λ solved. AreSolutions (F.kind_of field) n rows solved) }
    ensures rises { steps.old ≤ steps.new }
{
    let mut span = Span::start(alloc, field, n)?;
    match span.put_all(&rows, steps) {
        Ok(()) => kernel_of_span(alloc, field, span, steps),
        Err(fault) => Err(fault),
    }
}
