//! The text of the view series.
ghost use Rattle.std.specs.Prelude.{◌≡◌, ◌≤◌, ◌<◌, ◌+◌, ◌-◌, ◌^◌, ◌++◌, length, take, codes, count_by, not, IfOk, OnOk};
ghost use Rattle.math_algebra.specs.Symbols.{is_odd};
ghost use Rattle.fpl_print.specs.TableText.{text_of};
ghost use Rattle.fpl_print.specs.SeriesText.{even_count, odd_count, counts_text, weight_line, series_text};

use crate::lines::push_head_line;
use fpl_model::{Parity, Presentation};
use fpl_scalar::Field;
use fpl_spelling::push_number;
use fpl_table::Table;
use std::alloc::{AllocError, Global};

/// How many basis elements are even, and how many odd.
#[derive(Clone, Copy)]
pub(crate) struct Counts {
    pub evens: u32,
    pub odds: u32,
}

// The counts of the basis elements from place `from` up to place `to`, which count from 0.
fn counts_between<F: Field>(table: &Table<F>, from: u32, to: u32) -> Counts
    requires { (from ≤ to) × (to ≤ length table.now.basis) }
    ensures evens { count_by (λ b. not (is_odd b.parity)) (take to table.now.basis) ≡ count_by (λ b. not (is_odd b.parity)) (take from table.now.basis) + result.evens }
    ensures odds { count_by (λ b. is_odd b.parity) (take to table.now.basis) ≡ count_by (λ b. is_odd b.parity) (take from table.now.basis) + result.odds }
{
    let mut counts = Counts { evens: 0, odds: 0 };
    for i in from..to {
        match table.basis(i + 1).parity {
            Parity::Even => counts.evens += 1,
            Parity::Odd => counts.odds += 1,
        }
    }
    counts
}

/// The counts of the basis elements of a weight, which is at least 1.
pub(crate) fn counts_of<F: Field>(table: &Table<F>, w: u32) -> Counts
    requires { (1 ≤ w) × (w ≤ table.now.weight) }
    ensures evens { result.evens ≡ even_count table.now w }
    ensures odds { result.odds ≡ odd_count table.now w }
{
    counts_between(table, table.through(w - 1), table.through(w))
}

fn push_counts(out: &mut Vec<u8>, counts: Counts) -> Result<(), AllocError>
    ensures { OnOk result (out.new.items ≡ out.old.items ++ counts_text counts.evens counts.odds) }
{
    out.extend_from_slice(b" even ")?;
    push_number(out, counts.evens)?;
    out.extend_from_slice(b" odd ")?;
    push_number(out, counts.odds)?;
    out.extend_from_slice(b"\n")
}

fn push_weight_line<F: Field>(out: &mut Vec<u8>, table: &Table<F>, w: u32) -> Result<(), AllocError>
    requires { (1 ≤ w) × (w ≤ table.now.weight) }
    ensures { OnOk result (out.new.items ≡ out.old.items ++ weight_line table.now (w - 1)) }
{
    out.extend_from_slice(b"weight ")?;
    push_number(out, w)?;
    push_counts(out, counts_of(table, w))
}

fn push_weights<F: Field>(out: &mut Vec<u8>, table: &Table<F>) -> Result<(), AllocError>
    ensures { OnOk result (out.new.items ≡ out.old.items ++ text_of table.now.weight (weight_line table.now)) }
{
    for w in 0..table.weight() {
        push_weight_line(out, table, w + 1)?;
    }
    Ok(())
}

fn push_totals<F: Field>(out: &mut Vec<u8>, table: &Table<F>) -> Result<(), AllocError>
    ensures { OnOk result (out.new.items ≡ out.old.items
        ++ (codes "total" ++ counts_text (count_by (λ b. not (is_odd b.parity)) table.now.basis) (count_by (λ b. is_odd b.parity) table.now.basis))) }
{
    out.extend_from_slice(b"total")?;
    push_counts(out, counts_between(table, 0, table.basis_len()))
}

/// The text of the view series: how many even and how many odd basis elements the table has in each weight.
pub fn series_text<F: Field>(
    alloc: Global,
    p: &Presentation,
    table: &Table<F>,
) -> Result<Vec<u8>, AllocError>
    requires { table.now.kind ≡ p.now.field }
    ensures { IfOk result (λ text. text.items ≡ series_text table.now) }
{
    let mut out = Vec::new(alloc);
    push_head_line(&mut out, b"series", p.field, table.weight())?;
    push_weights(&mut out, table)?;
    push_totals(&mut out, table)?;
    out.extend_from_slice(b"end\n")?;
    Ok(out)
}
