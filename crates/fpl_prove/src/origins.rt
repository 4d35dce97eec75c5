//! The rows of origins, as what is 0.
ghost use Rattle.std.specs.Prelude.{◌≡◌, ◌≤◌, true, length, IfOk, OnOk};
ghost use Rattle.fpl_check.specs.Steps.{is_origin, is_relation, is_triple_of, is_cube_of};
ghost use Rattle.fpl_log.specs.declared.step.Origin.TheVariants as log;
ghost use Rattle.fpl_forms.specs.Ledgers.{Grows, left_of, right_of};
ghost use Rattle.fpl_table_facts.specs.Known.{IsKnown, IsNext};
ghost use Rattle.fpl_table_facts.specs.Rows.{IsDue};
ghost use Rattle.fpl_prove.specs.Zeros.{IsZeroOf, origin_vector};
ghost use Rattle.fpl_prove.specs.Sides.{sides_row};

use fpl_facts::{cube, jacobi, less, relation};
use fpl_forms::{Fact, Ledger};
use fpl_log::Origin;
use fpl_model::Presentation;
use fpl_table_facts::{Known, Next, row};
use std::alloc::{AllocError, Global};

/// The row of the left side of line `n`, less that of its right side.
fn line_zero<'a>(
    alloc: Global,
    ledger: &mut Ledger<'a>,
    p: &Presentation,
    known: &Known,
    next: &Next,
    n: u64,
) -> Result<Fact, AllocError>
    requires presentation { p.now ≡ ledger.old.presentation }
    requires known { IsKnown ledger.old known.now }
    requires next { IsNext ledger.old known.now next.now }
    requires line { (1 ≤ n) × (n ≤ length ledger.old.lines) }
    requires left { IsDue p.now known.now.table.weight (left_of ledger.old n) }
    requires right { IsDue p.now known.now.table.weight (right_of ledger.old n) }
    ensures grows { OnOk result (Grows ledger.old ledger.new) }
    ensures zero { IfOk result (λ f. IsZeroOf ledger.new next.now
        (sides_row ledger.new.presentation known.now.table (left_of ledger.old n) (right_of ledger.old n)) f) }
{
    let left = ledger.line(n).left.copy(alloc)?;
    let right = ledger.line(n).right.copy(alloc)?;
    let first = row(alloc, ledger, p, known, next, &left)?;
    let second = row(alloc, ledger, p, known, next, &right)?;
    ledger.sound();
    let led = ledger.led(&next.trees, n, &second)?;
    let zero = less(alloc, ledger, &next.trees, &first, &led)?;
    Ok(zero)
}

/// The row of a relation.
fn relation_zero<'a>(
    alloc: Global,
    ledger: &mut Ledger<'a>,
    p: &Presentation,
    known: &Known,
    next: &Next,
    r: u32,
) -> Result<Fact, AllocError>
    requires presentation { p.now ≡ ledger.old.presentation }
    requires known { IsKnown ledger.old known.now }
    requires next { IsNext ledger.old known.now next.now }
    requires relation { is_relation known.now.table p.now r ≡ true }
    ensures grows { OnOk result (Grows ledger.old ledger.new) }
    ensures zero { IfOk result (λ f. IsZeroOf ledger.new next.now (origin_vector ledger.new.presentation known.now.table (log.Relation r)) f) }
{
    let n = relation(alloc, ledger, p, r)?;
    let zero = line_zero(alloc, ledger, p, known, next, n)?;
    Ok(zero)
}

/// The row of a triple, which counts from 1.
fn jacobi_zero<'a>(
    alloc: Global,
    ledger: &mut Ledger<'a>,
    p: &Presentation,
    known: &Known,
    next: &Next,
    triple: (u32, u32, u32),
) -> Result<Fact, AllocError>
    requires presentation { p.now ≡ ledger.old.presentation }
    requires known { IsKnown ledger.old known.now }
    requires next { IsNext ledger.old known.now next.now }
    requires triple { is_triple_of known.now.table triple.0 triple.1 triple.2 ≡ true }
    ensures grows { OnOk result (Grows ledger.old ledger.new) }
    ensures zero { IfOk result (λ f. IsZeroOf ledger.new next.now
        (origin_vector ledger.new.presentation known.now.table (log.Jacobi triple.0 triple.1 triple.2)) f) }
{
    ledger.sound();
    let parities = (
        known.table.basis(triple.0).parity,
        known.table.basis(triple.1).parity,
        known.table.basis(triple.2).parity,
    );
    let a = &known.basis[triple.0 as usize - 1];
    let b = &known.basis[triple.1 as usize - 1];
    let c = &known.basis[triple.2 as usize - 1];
    let n = jacobi(alloc, ledger, parities, a, b, c)?;
    let zero = line_zero(alloc, ledger, p, known, next, n)?;
    Ok(zero)
}

/// The row of a cube, whose basis element counts from 1.
fn cube_zero<'a>(
    alloc: Global,
    ledger: &mut Ledger<'a>,
    p: &Presentation,
    known: &Known,
    next: &Next,
    i: u32,
) -> Result<Fact, AllocError>
    requires presentation { p.now ≡ ledger.old.presentation }
    requires known { IsKnown ledger.old known.now }
    requires next { IsNext ledger.old known.now next.now }
    requires cube { is_cube_of known.now.table i ≡ true }
    ensures grows { OnOk result (Grows ledger.old ledger.new) }
    ensures zero { IfOk result (λ f. IsZeroOf ledger.new next.now (origin_vector ledger.new.presentation known.now.table (log.Cube i)) f) }
{
    ledger.sound();
    let a = &known.basis[i as usize - 1];
    let n = cube(alloc, ledger, a)?;
    let zero = line_zero(alloc, ledger, p, known, next, n)?;
    Ok(zero)
}

/// The row of an origin of the weight after the table's.
pub(crate) fn origin_zero<'a>(
    alloc: Global,
    ledger: &mut Ledger<'a>,
    p: &Presentation,
    known: &Known,
    next: &Next,
    origin: Origin,
) -> Result<Fact, AllocError>
    requires presentation { p.now ≡ ledger.old.presentation }
    requires known { IsKnown ledger.old known.now }
    requires next { IsNext ledger.old known.now next.now }
    requires origin { is_origin known.now.table ledger.old.presentation origin ≡ true }
    ensures grows { OnOk result (Grows ledger.old ledger.new) }
    ensures zero { IfOk result (λ f. IsZeroOf ledger.new next.now (origin_vector ledger.new.presentation known.now.table origin) f) }
{
    match origin {
        Origin::Relation(r) => relation_zero(alloc, ledger, p, known, next, r),
        Origin::Jacobi(i, j, k) => jacobi_zero(alloc, ledger, p, known, next, (i, j, k)),
        Origin::Cube(i) => cube_zero(alloc, ledger, p, known, next, i),
        Origin::Row(_) => unreachable!(),
    }
}
