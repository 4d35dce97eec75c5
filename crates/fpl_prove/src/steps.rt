//! What the steps of a section conclude.
ghost use Rattle.std.specs.Prelude.{◌≡◌, length, All, IfOk, OnOk, Ok, List};
ghost use Rattle.fpl_numbers.specs.declared.number.Num.{Num};
ghost use Rattle.fpl_check.specs.Premises.{IsSectionFor};
ghost use Rattle.fpl_check.specs.Steps.{conclusions_of};
ghost use Rattle.fpl_forms.specs.Ledgers.{Grows};
ghost use Rattle.fpl_table_facts.specs.Known.{IsKnown, IsNext};
ghost use Rattle.fpl_facts.specs.Facts.{IsZero};
ghost use Rattle.fpl_prove.specs.Concluding.{IsStepFor, IsConclusionOf};
ghost use Rattle.fpl_prove.specs.Zeros.{AreConcluded};

use crate::origins::origin_zero;
use crate::taking::{take_terms, times_scale};
use fpl_forms::{Fact, Ledger};
use fpl_log::{Origin, Section, Step, Terms};
use fpl_model::Presentation;
use fpl_scalar::Num;
use fpl_table_facts::{Known, Next};
use std::alloc::{AllocError, Global};

/// What an Insert step concludes, after those with these zeros.
fn insert_zero<'a>(
    alloc: Global,
    ledger: &mut Ledger<'a>,
    p: &Presentation,
    known: &Known,
    next: &Next,
    zeros: &[Fact],
    origin: Origin,
    terms: &Terms,
    scale: Num,
) -> Result<Fact, AllocError>
    requires presentation { p.now ≡ ledger.old.presentation }
    requires known { IsKnown ledger.old known.now }
    requires next { IsNext ledger.old known.now next.now }
    requires zeros { All (IsZero ledger.old next.now.trees.items) zeros.now }
    requires step { IsStepFor known.now.table ledger.old.presentation (length zeros.now) (Step.Insert origin terms.now scale) }
    ensures grows { OnOk result (Grows ledger.old ledger.new) }
    ensures zero { IfOk result (λ f. IsZero ledger.new next.now.trees.items f) }
    ensures concluded { IfOk result (λ f. IsConclusionOf ledger.old ledger.new known.now.table next.now zeros.now (Step.Insert origin terms.now scale) f) }
{
    ledger.sound();
    let start = origin_zero(alloc, ledger, p, known, next, origin)?;
    let left = take_terms(alloc, ledger, &next.trees, zeros, terms, start)?;
    let scaled = times_scale(alloc, ledger, &next.trees, scale, left)?;
    Ok(scaled)
}

/// What a Close step concludes, after those with these zeros.
fn close_zero<'a>(
    alloc: Global,
    ledger: &mut Ledger<'a>,
    known: &Known,
    next: &Next,
    zeros: &[Fact],
    of: u64,
    terms: &Terms,
) -> Result<Fact, AllocError>
    requires known { IsKnown ledger.old known.now }
    requires next { IsNext ledger.old known.now next.now }
    requires zeros { All (IsZero ledger.old next.now.trees.items) zeros.now }
    requires step { IsStepFor known.now.table ledger.old.presentation (length zeros.now) (Step.Close of terms.now) }
    ensures grows { OnOk result (Grows ledger.old ledger.new) }
    ensures zero { IfOk result (λ f. IsZero ledger.new next.now.trees.items f) }
    ensures concluded { IfOk result (λ f. IsConclusionOf ledger.old ledger.new known.now.table next.now zeros.now (Step.Close of terms.now) f) }
{
    let _ = known;
    ledger.sound();
    let start = zeros[of as usize - 1].copy(alloc)?;
    let left = take_terms(alloc, ledger, &next.trees, zeros, terms, start)?;
    Ok(left)
}

/// What a step concludes, after those with these zeros.
fn step_zero<'a>(
    alloc: Global,
    ledger: &mut Ledger<'a>,
    p: &Presentation,
    known: &Known,
    next: &Next,
    zeros: &[Fact],
    step: &Step,
) -> Result<Fact, AllocError>
    requires presentation { p.now ≡ ledger.old.presentation }
    requires known { IsKnown ledger.old known.now }
    requires next { IsNext ledger.old known.now next.now }
    requires zeros { All (IsZero ledger.old next.now.trees.items) zeros.now }
    requires step { IsStepFor known.now.table ledger.old.presentation (length zeros.now) step.now }
    ensures grows { OnOk result (Grows ledger.old ledger.new) }
    ensures zero { IfOk result (λ f. IsZero ledger.new next.now.trees.items f) }
    ensures concluded { IfOk result (λ f. IsConclusionOf ledger.old ledger.new known.now.table next.now zeros.now step.now f) }
{
    match step {
        Step::Insert {
            origin,
            terms,
            scale,
        } => insert_zero(alloc, ledger, p, known, next, zeros, *origin, terms, *scale),
        Step::Close { of, terms } => close_zero(alloc, ledger, known, next, zeros, *of, terms),
    }
}

/// For each step of a section whose steps pass, in order, what is 0 with the numbers of its conclusion.
pub(crate) fn conclusions<'a>(
    alloc: Global,
    ledger: &mut Ledger<'a>,
    p: &Presentation,
    known: &Known,
    next: &Next,
    section: &Section,
) -> Result<Vec<Fact>, AllocError>
    requires presentation { p.now ≡ ledger.old.presentation }
    requires known { IsKnown ledger.old known.now }
    requires next { IsNext ledger.old known.now next.now }
    requires section { IsSectionFor known.now.table section.now }
    requires concluded { (cs : List (List Num)) × (conclusions_of known.now.table ledger.old.presentation section.now ≡ Ok cs) }
    ensures grows { OnOk result (Grows ledger.old ledger.new) }
    ensures zeros { IfOk result (λ zs. (cs : List (List Num)) × (conclusions_of known.now.table ledger.old.presentation section.now ≡ Ok cs)
        × AreConcluded ledger.new next.now cs zs.items) }
{
    let mut zeros = Vec::new(alloc);
    for i in 0..section.steps.len() {
        match section.steps.get(i) {
            None => {}
            Some(step) => {
                let zero = step_zero(alloc, ledger, p, known, next, &zeros, step)?;
                zeros.push(zero)?;
            }
        }
    }
    Ok(zeros)
}
