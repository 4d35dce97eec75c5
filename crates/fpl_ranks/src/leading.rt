//! Places at which nothing in the span of rows has its lead. Brackets of matrices have the supertrace 0, those of even ones
//! also the trace 0 in both even blocks, and the places of a block are 0 where all have the other parity: so rows fill up
//! their places but one or two, and all further rows depend on them.
//!
//! Nothing is known beforehand here: each row is tested.
ghost use Rattle.std.specs.Prelude.{◌≡◌, ◌≤◌, ◌<◌, ◌+◌, ◌-◌, ◌*◌, Some, length, IfOk, IfSome, IsTrue};
ghost use Rattle.fpl_numbers.specs.Numbers.{IsElement, IsField, residue};
ghost use Rattle.fpl_rows.specs.Meaning.{IsRowOf, AreRows};
ghost use Rattle.fpl_matrices.specs.Matrices.{IsShape};
ghost use Rattle.fpl_ranks.specs.Leads.{OthersNeverLead, EachRow, IsBlankAt, IsSolvedBy, AddsProduct, LowersLead};

use fpl_matrices::Shape;
use fpl_rows::{Row, Rows};
use fpl_scalar::{Field, Residue};
use fpl_table::Table;
use std::alloc::{AllocError, Global};

// Whether each row has 0 at place `s`, which counts from 0.
fn are_blank(table: &Table<Residue>, rows: &Rows<Residue>, places: u32, s: u32) -> bool
    requires rows { AreRows table.now.kind places rows.now }
    requires within { s < places }
    ensures { IsTrue result → EachRow (IsBlankAt s) rows.now }
{
    for k in 0..rows.len() {
        if let Some(row) = rows.get(k) {
            if !table.field().is_zero(row.at(s + 1)) {
                return false;
            }
        }
    }
    true
}

// The sum and the product of `a` and `b`, where both operations fit.
fn add_product(table: &Table<Residue>, sum: u32, a: u32, b: u32) -> Option<u32>
    requires field { IsField table.now.kind }
    requires sum { IsElement table.now.kind (residue sum) }
    requires left { IsElement table.now.kind (residue a) }
    requires right { IsElement table.now.kind (residue b) }
    ensures { IfSome result (λ more. AddsProduct table.now.kind sum a b more) }
{
    let field = table.field();
    if field.is_zero(b) {
        return Some(sum);
    }
    match field.mul(a, b) {
        Ok(product) => match field.add(sum, product) {
            Ok(more) => Some(more),
            Err(_) => None,
        },
        Err(_) => None,
    }
}

// Whether the product sum of the row and the test was found to be 0.
fn is_solved(table: &Table<Residue>, row: &Row<Residue>, test: &Row<Residue>) -> bool
    requires field { IsField table.now.kind }
    requires row { IsRowOf table.now.kind (length test.now) row.now }
    requires test { IsRowOf table.now.kind (length test.now) test.now }
    ensures { IsTrue result → IsSolvedBy table.now.kind test.now row.now }
{
    let mut sum = table.field().zero();
    for s in 0..test.len() {
        match add_product(table, sum, row.at(s + 1), test.at(s + 1)) {
            Some(more) => sum = more,
            None => return false,
        }
    }
    table.field().is_zero(sum)
}

fn are_solved(table: &Table<Residue>, rows: &Rows<Residue>, test: &Row<Residue>) -> bool
    requires field { IsField table.now.kind }
    requires rows { AreRows table.now.kind (length test.now) rows.now }
    requires test { IsRowOf table.now.kind (length test.now) test.now }
    ensures { IsTrue result → EachRow (IsSolvedBy table.now.kind test.now) rows.now }
{
    for k in 0..rows.len() {
        if let Some(row) = rows.get(k) {
            if !is_solved(table, row, test) {
                return false;
            }
        }
    }
    true
}

/// Takes down the flag at the place of the lead, a position, which counts from 1.
pub(crate) fn settle(flags: &mut Vec<bool>, lead: u32)
    ensures { LowersLead flags.old.items (Some lead) flags.new.items }
{
    let lead = lead as usize;
    if 1 <= lead && lead <= flags.len() {
        flags[lead - 1] = false;
    }
}

// Takes down the flag at the least place of the test that isn't 0, if each row passes: the product sum with what the rows
// span is 0, and of a vector with its lead there it would be one product alone.
fn lower_first(
    table: &Table<Residue>,
    rows: &Rows<Residue>,
    test: &Row<Residue>,
    flags: &mut Vec<bool>,
)
    requires field { IsField table.now.kind }
    requires rows { AreRows table.now.kind (length test.now) rows.now }
    requires test { IsRowOf table.now.kind (length test.now) test.now }
    requires flags { OthersNeverLead table.now.kind rows.now flags.old.items }
    ensures { OthersNeverLead table.now.kind rows.now flags.new.items }
{
    if let Some(first) = test.next(0) {
        if are_solved(table, rows, test) {
            settle(flags, first);
        }
    }
}

// What the supertrace of rows and columns from `from` on takes of place `s`: both count from 0.
fn trace_at(table: &Table<Residue>, shape: Shape, from: u32, s: u32) -> u32
    requires { IsShape shape.even (shape.even + shape.odd) }
    ensures { IsElement table.now.kind (residue result) }
{
    let field = table.field();
    let row = s / shape.size();
    if row != s % shape.size() || row < from {
        field.zero()
    } else if row < shape.even {
        field.one()
    } else {
        field.neg(field.one())
    }
}

fn trace_from(
    alloc: Global,
    table: &Table<Residue>,
    shape: Shape,
    from: u32,
) -> Result<Row<Residue>, AllocError>
    requires { IsShape shape.even (shape.even + shape.odd) }
    ensures { IfOk result (λ test. IsRowOf table.now.kind ((shape.even + shape.odd) * (shape.even + shape.odd)) test) }
{
    let size = shape.size();
    let mut numbers = Vec::new(alloc);
    for s in 0..size * size {
        numbers.push(trace_at(table, shape, from, s))?;
    }
    Ok(Row::from_vec(table.field(), numbers))
}

// Flags at the places where some row isn't 0.
fn filled(
    alloc: Global,
    table: &Table<Residue>,
    rows: &Rows<Residue>,
    places: u32,
) -> Result<Vec<bool>, AllocError>
    requires field { IsField table.now.kind }
    requires rows { AreRows table.now.kind places rows.now }
    ensures { IfOk result (λ flags. OthersNeverLead table.now.kind rows.now flags.items) }
{
    let mut flags = Vec::new(alloc);
    for s in 0..places {
        flags.push(!are_blank(table, rows, places, s))?;
    }
    Ok(flags)
}

/// Flags at the places at which something in the span of the rows may have its lead, for rows of the numbers of matrices of
/// the shape. Places count from 0.
pub(crate) fn may_lead(
    alloc: Global,
    table: &Table<Residue>,
    shape: Shape,
    rows: &Rows<Residue>,
) -> Result<Vec<bool>, AllocError>
    requires shape { IsShape shape.even (shape.even + shape.odd) }
    requires field { IsField table.now.kind }
    requires rows { AreRows table.now.kind ((shape.even + shape.odd) * (shape.even + shape.odd)) rows.now }
    ensures { IfOk result (λ flags. OthersNeverLead table.now.kind rows.now flags.items) }
{
    let size = shape.size();
    let mut flags = filled(alloc, table, rows, size * size)?;
    let whole = trace_from(alloc, table, shape, 0)?;
    lower_first(table, rows, &whole, &mut flags);
    let odd = trace_from(alloc, table, shape, shape.even)?;
    lower_first(table, rows, &odd, &mut flags);
    Ok(flags)
}
