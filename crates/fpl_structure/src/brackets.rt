//! Brackets of basis elements with rows, put into an elimination.
ghost use Rattle.std.specs.Prelude.{◌≡◌, ◌≤◌, ◌-◌, length};
ghost use Rattle.fpl_numbers.specs.Results.{Gives};
ghost use Rattle.fpl_rows.specs.Meaning.{IsRowOf, AreRows};
ghost use Rattle.fpl_table.specs.Value.{bracket_of};
ghost use Rattle.plain_spans.specs.Plain.{put_rows};
ghost use Rattle.plain_structure.specs.Plain.{if_any, if_formed, brackets_with, bracket_rows_at, bracket_rows};

use crate::acting::{acts, unit};
use fpl_echelon::Span;
use fpl_rows::{Row, Rows};
use fpl_scalar::{Fault, Field};
use fpl_steps::Steps;
use fpl_table::Table;
use std::alloc::Global;
use std::sync::ledger::Ledger;

/// Puts a row in that isn't 0.
fn put_any<F: Field, L: Ledger>(
    row: &Row<F>,
    span: &mut Span<F>,
    steps: &mut Steps<L>,
) -> Result<(), Fault>
    requires row { IsRowOf span.old.kind span.old.size row.now }
    ensures value { Gives result span.new (put_rows (if_any row.now) span.old) }
    ensures kind { span.new.kind ≡ span.old.kind }
    ensures size { span.new.size ≡ span.old.size }
    ensures rises { steps.old ≤ steps.new }
{
    if row.is_zero() {
        return Ok(());
    }
    span.put(row, steps)
}

/// Puts the bracket of two rows in, where it isn't 0.
fn put_bracket<F: Field, L: Ledger>(
    alloc: Global,
    table: &Table<F>,
    left: &Row<F>,
    right: &Row<F>,
    span: &mut Span<F>,
    steps: &mut Steps<L>,
) -> Result<(), Fault>
    requires kind { span.old.kind ≡ table.now.kind }
    requires size { span.old.size ≡ length table.now.basis }
    requires left { IsRowOf table.now.kind (length table.now.basis) left.now }
    requires right { IsRowOf table.now.kind (length table.now.basis) right.now }
    ensures value { Gives result span.new (put_rows (if_formed (bracket_of table.now left.now right.now)) span.old) }
    ensures kind { span.new.kind ≡ span.old.kind }
    ensures size { span.new.size ≡ span.old.size }
    ensures rises { steps.old ≤ steps.new }
{
    match table.bracket(alloc, left, right) {
        Ok(row) => put_any(&row, span, steps),
        Err(fault) => Err(fault),
    }
}

/// Puts the brackets of basis element `i` with the rows in, in order, those that aren't 0.
fn put_brackets<F: Field, L: Ledger>(
    alloc: Global,
    table: &Table<F>,
    i: u32,
    rows: &Rows<F>,
    span: &mut Span<F>,
    steps: &mut Steps<L>,
) -> Result<(), Fault>
    requires number { (1 ≤ i) × (i ≤ length table.now.basis) }
    requires kind { span.old.kind ≡ table.now.kind }
    requires size { span.old.size ≡ length table.now.basis }
    requires rows { AreRows table.now.kind (length table.now.basis) rows.now }
    ensures value { Gives result span.new (put_rows (brackets_with table.now (i - 1) rows.now) span.old) }
    ensures kind { span.new.kind ≡ span.old.kind }
    ensures size { span.new.size ≡ span.old.size }
    ensures rises { steps.old ≤ steps.new }
{
    let left = unit(alloc, table, i)?;
    for k in 0..rows.len() {
        if let Some(row) = rows.get(k) {
            match put_bracket(alloc, table, &left, row, span, steps) {
                Ok(()) => {}
                Err(fault) => return Err(fault),
            }
        }
    }
    Ok(())
}

/// The same, where brackets are taken with `i`.
fn put_acting<F: Field, L: Ledger>(
    alloc: Global,
    table: &Table<F>,
    i: u32,
    rows: &Rows<F>,
    span: &mut Span<F>,
    steps: &mut Steps<L>,
) -> Result<(), Fault>
    requires number { (1 ≤ i) × (i ≤ length table.now.basis) }
    requires kind { span.old.kind ≡ table.now.kind }
    requires size { span.old.size ≡ length table.now.basis }
    requires rows { AreRows table.now.kind (length table.now.basis) rows.now }
    ensures value { Gives result span.new (put_rows (bracket_rows_at table.now rows.now (i - 1)) span.old) }
    ensures kind { span.new.kind ≡ span.old.kind }
    ensures size { span.new.size ≡ span.old.size }
    ensures rises { steps.old ≤ steps.new }
{
    if acts(table, i) {
        put_brackets(alloc, table, i, rows, span, steps)
    } else {
        Ok(())
    }
}

/// Puts the brackets with the rows in of each basis element with which brackets are taken.
pub(crate) fn put_bracket_rows<F: Field, L: Ledger>(
    alloc: Global,
    table: &Table<F>,
    rows: &Rows<F>,
    span: &mut Span<F>,
    steps: &mut Steps<L>,
) -> Result<(), Fault>
    requires kind { span.old.kind ≡ table.now.kind }
    requires size { span.old.size ≡ length table.now.basis }
    requires rows { AreRows table.now.kind (length table.now.basis) rows.now }
    ensures value { Gives result span.new (put_rows (bracket_rows table.now rows.now) span.old) }
    ensures kind { span.new.kind ≡ span.old.kind }
    ensures size { span.new.size ≡ span.old.size }
    ensures rises { steps.old ≤ steps.new }
{
    for i in 0..table.basis_len() {
        match put_acting(alloc, table, i + 1, rows, span, steps) {
            Ok(()) => {}
            Err(fault) => return Err(fault),
        }
    }
    Ok(())
}
