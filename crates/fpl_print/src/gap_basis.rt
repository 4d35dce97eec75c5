//! The weights and parities of the basis, as fields of a record of GAP.
ghost use Rattle.std.specs.Prelude.{◌≡◌, ◌<◌, ◌+◌, ◌^◌, ◌++◌, length, codes, OnOk};
ghost use Rattle.fpl_model.specs.Meaning.{parity_in};
ghost use Rattle.fpl_print.specs.GapText.{parity_number, item_text, items_text, weight_item, parity_item, list_line};

use crate::gap_lists::{push_comma, push_text};
use fpl_model::Parity;
use fpl_scalar::Field;
use fpl_spelling::push_number;
use fpl_table::Table;
use std::alloc::AllocError;

fn push_weight<F: Field>(out: &mut Vec<u8>, table: &Table<F>, i: u32) -> Result<(), AllocError>
    requires { (i < length table.now.basis) × (i + 1 < 2 ^ 32) }
    ensures { OnOk result (out.new.items ≡ out.old.items ++ item_text (weight_item table.now) i) }
{
    push_comma(out, i == 0)?;
    push_number(out, table.basis(i + 1).weight)
}

fn push_weights<F: Field>(out: &mut Vec<u8>, table: &Table<F>) -> Result<(), AllocError>
    ensures { OnOk result (out.new.items ≡ out.old.items ++ items_text (length table.now.basis) (weight_item table.now)) }
{
    for i in 0..table.basis_len() {
        push_weight(out, table, i)?;
    }
    Ok(())
}

/// Appends the field with the weights of the basis elements.
pub(crate) fn push_weight_line<F: Field>(
    out: &mut Vec<u8>,
    table: &Table<F>,
) -> Result<(), AllocError>
    ensures { OnOk result (out.new.items ≡ out.old.items ++ list_line (codes "  weights := [") (items_text (length table.now.basis) (weight_item table.now))) }
{
    push_text(out, b"  weights := [")?;
    push_weights(out, table)?;
    push_text(out, b" ],\n")
}

fn parity_number(parity: Parity) -> u32
    ensures { result ≡ parity_number (parity_in parity) }
{
    match parity {
        Parity::Even => 0,
        Parity::Odd => 1,
    }
}

fn push_parity<F: Field>(out: &mut Vec<u8>, table: &Table<F>, i: u32) -> Result<(), AllocError>
    requires { (i < length table.now.basis) × (i + 1 < 2 ^ 32) }
    ensures { OnOk result (out.new.items ≡ out.old.items ++ item_text (parity_item table.now) i) }
{
    push_comma(out, i == 0)?;
    push_number(out, parity_number(table.basis(i + 1).parity))
}

fn push_parities<F: Field>(out: &mut Vec<u8>, table: &Table<F>) -> Result<(), AllocError>
    ensures { OnOk result (out.new.items ≡ out.old.items ++ items_text (length table.now.basis) (parity_item table.now)) }
{
    for i in 0..table.basis_len() {
        push_parity(out, table, i)?;
    }
    Ok(())
}

/// Appends the field with their parities.
pub(crate) fn push_parity_line<F: Field>(
    out: &mut Vec<u8>,
    table: &Table<F>,
) -> Result<(), AllocError>
    ensures { OnOk result (out.new.items ≡ out.old.items ++ list_line (codes "  parities := [") (items_text (length table.now.basis) (parity_item table.now))) }
{
    out.extend_from_slice(b"  parities := [")?;
    push_parities(out, table)?;
    out.extend_from_slice(b" ],\n")
}
