//! The text of the view `envelope`.
ghost use Rattle.std.specs.Prelude.{◌≡◌, IfOk};
ghost use Rattle.fpl_envelope.specs.Action.{IsEnveloped};
ghost use Rattle.fpl_envelope_text.specs.Plain.{envelope_text};

use crate::counting::push_weight_lines;
use crate::lines::{count_through, push_levels};
use crate::lists::listed;
use fpl_envelope::products_through;
use fpl_print::{push_count, push_head_line};
use fpl_scalar::Field;
use fpl_table::Table;
use std::alloc::{AllocError, Global};

/// The text of the view `envelope`: how many ordered words of each weight are even and odd, and each product of a basis element and an ordered word that
/// isn't ordered, through the table's weight, as a combination of ordered words. The table is over a prime.
pub fn envelope_text<F: Field>(alloc: Global, table: &Table<F>) -> Result<Vec<u8>, AllocError>
    requires { IsEnveloped table.now }
    ensures { IfOk result (λ text. text.items ≡ envelope_text table.now) }
{
    let weight = table.weight();
    let products = products_through(alloc, table, weight)?;
    let lists = listed(alloc, table, &products)?;
    let mut out = Vec::new(alloc);
    push_head_line(&mut out, b"envelope", table.field().kind(), weight)?;
    push_weight_lines(&mut out, table, &lists)?;
    push_count(
        &mut out,
        b"products ",
        count_through(table, &products) as usize,
    )?;
    push_levels(&mut out, table, &products, &lists)?;
    out.extend_from_slice(b"end\n")?;
    Ok(out)
}
