//! Terms of a step, taken off what is 0.
ghost use Rattle.std.specs.Prelude.{◌≡◌, length, map, All, IfOk, OnOk};
ghost use Rattle.fpl_numbers.specs.declared.number.Kind.TheVariants.{Prime};
ghost use Rattle.fpl_numbers.specs.Numbers.{IsElement};
ghost use Rattle.fpl_log.specs.Plain.{IsTermOf};
ghost use Rattle.fpl_forms.specs.Ledgers.{IsExpr, Grows};
ghost use Rattle.fpl_forms.specs.Combining.{terms_of};
ghost use Rattle.fpl_facts.specs.Facts.{IsZero};
ghost use Rattle.fpl_prove.specs.Taking.{off_number, taken, all_taken, scaled_terms};
ghost use Rattle.std.specs.Prelude.{◌<◌};

use fpl_facts::{plus_zero, residue_part, zero_times};
use fpl_forms::{Fact, Ledger};
use fpl_log::{Term, Terms};
use fpl_model::Expr;
use fpl_scalar::Num;
use std::alloc::{AllocError, Global};

/// The residue of minus a number.
fn off_number(prime: u32, c: Num) -> u32
    requires { IsElement (Prime prime) c }
    ensures value { result ≡ off_number prime c }
    ensures below { result < prime }
{
    let factor = residue_part(prime, c);
    if factor == 0 { 0 } else { prime - factor }
}

/// What is 0, less a term of a step.
fn take_term<'a>(
    alloc: Global,
    ledger: &mut Ledger<'a>,
    atoms: &[Expr],
    zeros: &[Fact],
    term: Term,
    left: &Fact,
) -> Result<Fact, AllocError>
    requires atoms { All (IsExpr ledger.old.presentation) atoms.now }
    requires zeros { All (IsZero ledger.old atoms.now) zeros.now }
    requires term { IsTermOf (Prime ledger.old.prime) (length zeros.now) term }
    requires left { IsZero ledger.old atoms.now left.now }
    ensures grows { OnOk result (Grows ledger.old ledger.new) }
    ensures zero { IfOk result (λ f. IsZero ledger.new atoms.now f) }
    ensures terms { IfOk result (λ f. f.terms.items ≡ taken ledger.old.prime (map terms_of zeros.now) left.now.terms.items term) }
{
    let number = off_number(ledger.prime(), term.factor);
    let named = &zeros[term.step as usize - 1];
    let off = zero_times(alloc, ledger, atoms, number, named)?;
    let rest = plus_zero(alloc, ledger, atoms, left, &off)?;
    Ok(rest)
}

/// What is 0, less the terms of a step, in order.
pub(crate) fn take_terms<'a>(
    alloc: Global,
    ledger: &mut Ledger<'a>,
    atoms: &[Expr],
    zeros: &[Fact],
    terms: &Terms,
    start: Fact,
) -> Result<Fact, AllocError>
    requires atoms { All (IsExpr ledger.old.presentation) atoms.now }
    requires zeros { All (IsZero ledger.old atoms.now) zeros.now }
    requires terms { All (IsTermOf (Prime ledger.old.prime) (length zeros.now)) terms.now }
    requires start { IsZero ledger.old atoms.now start }
    ensures grows { OnOk result (Grows ledger.old ledger.new) }
    ensures zero { IfOk result (λ f. IsZero ledger.new atoms.now f) }
    ensures terms { IfOk result (λ f. f.terms.items ≡ all_taken ledger.old.prime (map terms_of zeros.now) start.terms.items terms.now) }
{
    let mut left = start;
    for i in 0..terms.len() {
        match terms.get(i) {
            None => {}
            Some(term) => left = take_term(alloc, ledger, atoms, zeros, term, &left)?,
        }
    }
    Ok(left)
}

/// What is 0, times a scale that is not 0.
pub(crate) fn times_scale<'a>(
    alloc: Global,
    ledger: &mut Ledger<'a>,
    atoms: &[Expr],
    scale: Num,
    left: Fact,
) -> Result<Fact, AllocError>
    requires atoms { All (IsExpr ledger.old.presentation) atoms.now }
    requires scale { IsElement (Prime ledger.old.prime) scale }
    requires left { IsZero ledger.old atoms.now left }
    ensures grows { OnOk result (Grows ledger.old ledger.new) }
    ensures zero { IfOk result (λ f. IsZero ledger.new atoms.now f) }
    ensures terms { IfOk result (λ f. f.terms.items ≡ scaled_terms ledger.old.prime scale left.terms.items) }
{
    let number = residue_part(ledger.prime(), scale);
    if number == 0 {
        return Ok(left);
    }
    let scaled = zero_times(alloc, ledger, atoms, number, &left)?;
    Ok(scaled)
}
