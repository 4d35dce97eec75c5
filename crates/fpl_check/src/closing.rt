ghost use Rattle.std.specs.Prelude.{◌≡◌, ◌≤◌, ◌||◌, length, IfOk, IsTrue, ◌↔◌, slice_get};
ghost use Rattle.fpl_check.specs.Leads.{marked};
ghost use Rattle.fpl_check.specs.Closing.{closes, needs_no_more, are_closed, shows, IsInsertOf, AreMarked};

use crate::marking::unmarked;
use crate::remainder::is_zero;
use fpl_log::{Origin, Step, StepList};
use fpl_scalar::{Field, Kind};
use std::alloc::{AllocError, Global};

/// Marks the step that a step closes. Steps count from 1.
fn mark_closed(marks: &mut Vec<bool>, step: &Step)
    ensures length { length marks.new.items ≡ length marks.old.items }
    ensures marks { (m : _) → 1 ≤ m → m ≤ length marks.old.items → marked marks.new.items m ≡ (closes step.now m || marked marks.old.items m) }
{
    match step {
        Step::Insert { .. } => {}
        Step::Close { of, .. } => {
            if *of >= 1 && *of <= marks.len() as u64 {
                marks[*of as usize - 1] = true;
            }
        }
    }
}

/// Marks the steps that are closed.
fn closed_steps(alloc: Global, steps: &StepList) -> Result<Vec<bool>, AllocError>
    ensures { IfOk result (λ marks. AreMarked (length steps.now) steps.now marks.items) }
{
    let mut marks = unmarked(alloc, steps.len())?;
    let mut k = steps.len();
    while k > 0 {
        k -= 1;
        match steps.get(k) {
            None => {}
            Some(step) => mark_closed(&mut marks, step),
        }
    }
    Ok(marks)
}

/// Whether a step, if it is an Insert step, has scale 0 or is closed.
fn needs_no_more(step: &Step, closed: bool) -> bool
    ensures { result ≡ needs_no_more step.now closed }
{
    match step {
        Step::Insert { scale, .. } => is_zero(scale) || closed,
        Step::Close { .. } => true,
    }
}

/// Whether each Insert step whose scale isn't 0 is closed.
fn are_closed(alloc: Global, steps: &StepList) -> Result<bool, AllocError>
    ensures { IfOk result (λ closed. closed ≡ are_closed steps.now 1 steps.now) }
{
    let marks = closed_steps(alloc, steps)?;
    for k in 0..steps.len() {
        match steps.get(k) {
            None => {}
            Some(step) => {
                if !needs_no_more(step, marks[k]) {
                    return Ok(false);
                }
            }
        }
    }
    Ok(true)
}

/// Whether the steps show that the rows of their origins are in the span of the closed rows: over
/// a prime, where no operation is refused, each Insert step whose scale isn't 0 is closed.
pub fn shows<F: Field>(alloc: Global, field: &F, steps: &StepList) -> Result<bool, AllocError>
    ensures { IfOk result (λ shown. shown ≡ shows (F.kind_of field.now) steps.now) }
{
    match field.kind() {
        Kind::Rational => Ok(false),
        Kind::Prime(_) => are_closed(alloc, steps),
    }
}

/// Whether the step at place `k`, counted from 0, is an Insert step of the origin.
pub fn inserts(steps: &StepList, k: usize, origin: Origin) -> bool
    ensures { IsTrue result ↔ IsInsertOf (slice_get steps.now k) origin }
{
    match steps.get(k) {
        None => false,
        Some(Step::Insert { origin: first, .. }) => *first == origin,
        Some(Step::Close { .. }) => false,
    }
}
