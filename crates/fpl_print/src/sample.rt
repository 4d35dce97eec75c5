//! The text of the view sample.
ghost use Rattle.std.specs.Prelude.{◌≡◌, ◌≤◌, ◌+◌, ◌-◌, ◌++◌, length, codes, IfOk, OnOk};
ghost use Rattle.fpl_print.specs.Lines.{count_line};
ghost use Rattle.fpl_print.specs.TableText.{text_of, brackets_of};
ghost use Rattle.fpl_print.specs.SeriesText.{even_count, odd_count};
ghost use Rattle.fpl_print.specs.SampleText.{dimension_text, sample_text};

use crate::lines::push_count;
use crate::series::counts_of;
use crate::table::brackets_of;
use fpl_scalar::Field;
use fpl_spelling::push_number;
use fpl_table::Table;
use std::alloc::{AllocError, Global};

// How many basis elements have a weight.
fn dimension<F: Field>(table: &Table<F>, w: u32) -> u64
    requires { (1 ≤ w) × (w ≤ table.now.weight) }
    ensures { result ≡ even_count table.now w + odd_count table.now w }
{
    let counts = counts_of(table, w);
    u64::from(counts.evens) + u64::from(counts.odds)
}

fn push_dimension<F: Field>(out: &mut Vec<u8>, table: &Table<F>, w: u32) -> Result<(), AllocError>
    requires { (1 ≤ w) × (w ≤ table.now.weight) }
    ensures { OnOk result (out.new.items ≡ out.old.items ++ dimension_text table.now (w - 1)) }
{
    out.extend_from_slice(b" ")?;
    push_number(out, dimension(table, w))
}

fn push_dimensions<F: Field>(out: &mut Vec<u8>, table: &Table<F>) -> Result<(), AllocError>
    ensures { OnOk result (out.new.items ≡ out.old.items ++ text_of table.now.weight (dimension_text table.now)) }
{
    for w in 0..table.weight() {
        push_dimension(out, table, w + 1)?;
    }
    Ok(())
}

fn push_brackets_count<F: Field>(
    alloc: Global,
    out: &mut Vec<u8>,
    table: &Table<F>,
) -> Result<(), AllocError>
    ensures { OnOk result (out.new.items ≡ out.old.items ++ count_line (codes "brackets ") (length (brackets_of table.now))) }
{
    let valued = brackets_of(alloc, table)?;
    push_count(out, b"brackets ", valued.len())
}

/// The text of the view sample: the weight, the size of the basis, how many basis elements each weight has, and how
/// many brackets of basis elements aren't 0.
pub fn sample_text<F: Field>(alloc: Global, table: &Table<F>) -> Result<Vec<u8>, AllocError>
    ensures { IfOk result (λ text. text.items ≡ sample_text table.now) }
{
    let mut out = Vec::new(alloc);
    push_count(&mut out, b"sample ", table.weight() as usize)?;
    push_count(&mut out, b"basis ", table.basis_len() as usize)?;
    out.extend_from_slice(b"weights")?;
    push_dimensions(&mut out, table)?;
    out.extend_from_slice(b"\n")?;
    push_brackets_count(alloc, &mut out, table)?;
    out.extend_from_slice(b"end\n")?;
    Ok(out)
}
