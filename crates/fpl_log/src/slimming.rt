ghost use Rattle.std.specs.Prelude.{◌≡◌, ◌≢◌, ◌≤◌, ◌<◌, ◌^◌, ◌+◌, ◌++◌, ◌∷◌, [], length, All, IfOk, OnOk, None};
ghost use Rattle.fpl_log.specs.Slim.{IsEarlier, NamesEarlier, AllNameEarlier, new_number, slim_term, slim_terms, slim_steps, is_left_out, next_number, slim_step, kept_if, all_stay};

use crate::{Step, StepList, Term, Terms};
use std::alloc::{AllocError, Global};

/// Whether a step is an Insert step whose scale is 0.
fn is_left_out(step: &Step) -> bool
    ensures { result ≡ is_left_out step.now }
{
    match step {
        Step::Insert { scale, .. } => scale.numerator == 0,
        Step::Close { .. } => false,
    }
}

/// Whether all steps stay.
fn all_stay(steps: &StepList) -> bool
    ensures { result ≡ all_stay steps.now }
{
    for i in 0..steps.len() {
        match steps.get(i) {
            None => {}
            Some(step) => {
                if is_left_out(step) {
                    return false;
                }
            }
        }
    }
    true
}

/// The new number of a step, if it stays.
fn number_of(numbers: &[Option<u64>], step: u64) -> Option<u64>
    requires { IsEarlier (length numbers.now) step }
    ensures { result ≡ new_number numbers.now step }
{
    numbers[step as usize - 1]
}

/// Adds a term under its new number, if it has one.
fn keep_term(kept: &mut Terms, number: Option<u64>, term: &Term) -> Result<(), AllocError>
    ensures { OnOk result (kept.new ≡ kept.old ++ slim_term number term.now []) }
{
    match number {
        None => Ok(()),
        Some(step) => kept.push(Term {
            step,
            factor: term.factor,
        }),
    }
}

/// The terms that cite steps that stay, by their new numbers.
fn terms_of(alloc: Global, terms: &Terms, numbers: &[Option<u64>]) -> Result<Terms, AllocError>
    requires { All (λ t. IsEarlier (length numbers.now) t.step) terms.now }
    ensures { IfOk result (λ l. l ≡ slim_terms numbers.now terms.now) }
{
    let mut kept = Terms::new(alloc);
    for i in 0..terms.len() {
        match terms.get(i) {
            None => {}
            Some(term) => keep_term(&mut kept, number_of(numbers, term.step), &term)?,
        }
    }
    Ok(kept)
}

/// One step: what stays of it, and its new number.
fn place(
    alloc: Global,
    step: &Step,
    numbers: &mut Vec<Option<u64>>,
    kept: &mut StepList,
) -> Result<(), AllocError>
    requires { NamesEarlier (length numbers.old.items) step.now }
    ensures numbers { OnOk result (numbers.new.items ≡ numbers.old.items ++ (next_number (is_left_out step.now) (length kept.old)) ∷ []) }
    ensures kept { OnOk result (kept.new ≡ kept.old ++ kept_if (is_left_out step.now) (slim_step numbers.old.items step.now) []) }
{
    let count = kept.len() as u64;
    match step {
        Step::Insert {
            origin,
            terms,
            scale,
        } => {
            if scale.numerator == 0 {
                numbers.push(None)?;
                return Ok(());
            }
            let terms = terms_of(alloc, terms, numbers)?;
            kept.push(Step::Insert {
                origin: *origin,
                terms,
                scale: *scale,
            })?;
        }
        Step::Close { of, terms } => {
            let terms = terms_of(alloc, terms, numbers)?;
            let of = number_of(numbers, *of).unwrap_or(0);
            kept.push(Step::Close { of, terms })?;
        }
    }
    numbers.push(Some(count + 1))?;
    Ok(())
}

/// The steps that stay, by their new numbers.
fn renumbered(alloc: Global, steps: &StepList) -> Result<StepList, AllocError>
    requires { AllNameEarlier 0 steps.now }
    ensures { IfOk result (λ l. l ≡ slim_steps [] 0 steps.now) }
{
    let mut numbers = Vec::new(alloc);
    let mut kept = StepList::new(alloc);
    for i in 0..steps.len() {
        match steps.get(i) {
            None => {}
            Some(step) => place(alloc, step, &mut numbers, &mut kept)?,
        }
    }
    Ok(kept)
}

/// The steps that stay. Where all do, nothing is copied.
pub fn slim_of(alloc: Global, steps: StepList) -> Result<StepList, AllocError>
    requires { AllNameEarlier 0 steps }
    ensures { IfOk result (λ l. l ≡ slim_steps [] 0 steps) }
{
    if all_stay(&steps) {
        return Ok(steps);
    }
    renumbered(alloc, &steps)
}
