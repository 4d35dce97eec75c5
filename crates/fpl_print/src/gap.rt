//! The text of the view gap: a table as a record in the syntax of GAP.
ghost use Rattle.std.specs.Prelude.{◌≡◌, ◌≤◌, ◌<◌, ◌-◌, ◌++◌, length, map, codes, All, IfOk, OnOk};
ghost use Rattle.math_algebra.specs.Table.{of_pair};
ghost use Rattle.fpl_model.specs.Meaning.{generators_in};
ghost use Rattle.fpl_table.specs.declared.symbol.Symbol.{Symbol};
ghost use Rattle.fpl_table.specs.Plain.{symbol_in};
ghost use Rattle.fpl_spelling.specs.Spelling.{names_of};
ghost use Rattle.fpl_print.specs.TableText.{HasElements, IsEntry};
ghost use Rattle.fpl_print.specs.GapText.{characteristic, item_text, items_text, IsWithin, if_within, generators_within, name_item, image_item, bracket_text, bracket_item, number_line, list_line, head_lines, basis_lines, generator_lines, bracket_lines, gap_text};

use crate::gap_basis::{push_parity_line, push_weight_line};
use crate::gap_lists::{push_comma, push_row, push_text};
use crate::table::brackets_of;
use fpl_model::{Generators, Presentation};
use fpl_numbers::Kind;
use fpl_scalar::Field;
use fpl_spelling::push_number;
use fpl_table::{Symbol, Table};
use std::alloc::{AllocError, Global};

// Appends a generator, which counts from 0, where it weighs at most the table's weight.
fn push_if_within<F: Field>(
    p: &Presentation,
    table: &Table<F>,
    g: u32,
    within: &mut Vec<u32>,
) -> Result<(), AllocError>
    requires number { g < length table.now.generators }
    requires generators { table.now.generators ≡ generators_in p.now }
    ensures value { OnOk result (within.new.items ≡ within.old.items ++ if_within table.now g) }
    ensures all { OnOk result (All (IsWithin table.now) within.old.items → All (IsWithin table.now) within.new.items) }
{
    if p.generators.as_slice()[g as usize].weight <= table.weight() {
        within.push(g)?;
    }
    Ok(())
}

// The generators that weigh at most the table's weight, counted from 0.
fn generators_within<F: Field>(
    alloc: Global,
    p: &Presentation,
    table: &Table<F>,
) -> Result<Vec<u32>, AllocError>
    requires few { length p.now.generators ≤ 64 }
    requires generators { table.now.generators ≡ generators_in p.now }
    ensures value { IfOk result (λ within. within.items ≡ generators_within table.now (length table.now.generators)) }
    ensures all { IfOk result (λ within. All (IsWithin table.now) within.items) }
{
    let mut within = Vec::new(alloc);
    for g in 0..p.generators.len() {
        push_if_within(p, table, g as u32, &mut within)?;
    }
    Ok(within)
}

fn push_name(
    out: &mut Vec<u8>,
    generators: &Generators,
    within: &[u32],
    k: usize,
) -> Result<(), AllocError>
    requires number { k < length within.now }
    requires all { All (λ g. g < length generators.now) within.now }
    ensures { OnOk result (out.new.items ≡ out.old.items ++ item_text (name_item (map (λ g. g.name) generators.now) within.now) k) }
{
    push_comma(out, k == 0)?;
    out.extend_from_slice(b"\"")?;
    let generator = &generators.as_slice()[within[k] as usize];
    out.extend_from_slice(generator.name.text().as_bytes())?;
    out.extend_from_slice(b"\"")
}

fn push_names(out: &mut Vec<u8>, generators: &Generators, within: &[u32]) -> Result<(), AllocError>
    requires { All (λ g. g < length generators.now) within.now }
    ensures { OnOk result (out.new.items ≡ out.old.items ++ items_text (length within.now) (name_item (map (λ g. g.name) generators.now) within.now)) }
{
    for k in 0..within.len() {
        push_name(out, generators, within, k)?;
    }
    Ok(())
}

fn push_name_line(
    out: &mut Vec<u8>,
    generators: &Generators,
    within: &[u32],
) -> Result<(), AllocError>
    requires { All (λ g. g < length generators.now) within.now }
    ensures { OnOk result (out.new.items ≡ out.old.items ++ list_line (codes "  names := [") (items_text (length within.now) (name_item (map (λ g. g.name) generators.now) within.now))) }
{
    out.extend_from_slice(b"  names := [")?;
    push_names(out, generators, within)?;
    out.extend_from_slice(b" ],\n")
}

fn push_image<F: Field>(
    out: &mut Vec<u8>,
    table: &Table<F>,
    within: &[u32],
    k: usize,
) -> Result<(), AllocError>
    requires number { k < length within.now }
    requires few { length table.now.generators ≤ 64 }
    requires all { All (IsWithin table.now) within.now }
    requires elements { HasElements table.now }
    ensures { OnOk result (out.new.items ≡ out.old.items ++ item_text (image_item table.now within.now) k) }
{
    push_comma(out, k == 0)?;
    push_row(out, table.field(), table.image(within[k] + 1))
}

fn push_images<F: Field>(
    out: &mut Vec<u8>,
    table: &Table<F>,
    within: &[u32],
) -> Result<(), AllocError>
    requires few { length table.now.generators ≤ 64 }
    requires all { All (IsWithin table.now) within.now }
    requires elements { HasElements table.now }
    ensures { OnOk result (out.new.items ≡ out.old.items ++ items_text (length within.now) (image_item table.now within.now)) }
{
    for k in 0..within.len() {
        push_image(out, table, within, k)?;
    }
    Ok(())
}

fn push_image_line<F: Field>(
    out: &mut Vec<u8>,
    table: &Table<F>,
    within: &[u32],
) -> Result<(), AllocError>
    requires few { length table.now.generators ≤ 64 }
    requires all { All (IsWithin table.now) within.now }
    requires elements { HasElements table.now }
    ensures { OnOk result (out.new.items ≡ out.old.items ++ list_line (codes "  images := [") (items_text (length within.now) (image_item table.now within.now))) }
{
    push_text(out, b"  images := [")?;
    push_images(out, table, within)?;
    push_text(out, b" ],\n")
}

fn push_pair<F: Field>(
    out: &mut Vec<u8>,
    table: &Table<F>,
    i: u32,
    j: u32,
) -> Result<(), AllocError>
    requires entry { IsEntry table.now (Symbol.Pair i j) }
    requires elements { HasElements table.now }
    ensures { OnOk result (out.new.items ≡ out.old.items ++ bracket_text table.now (of_pair (i - 1) (j - 1))) }
{
    out.extend_from_slice(b"[ ")?;
    push_number(out, i)?;
    out.extend_from_slice(b", ")?;
    push_number(out, j)?;
    out.extend_from_slice(b", ")?;
    push_row(out, table.field(), table.entry(i, j))?;
    out.extend_from_slice(b" ]")
}

fn push_bracket<F: Field>(
    out: &mut Vec<u8>,
    table: &Table<F>,
    valued: &[Symbol],
    k: usize,
) -> Result<(), AllocError>
    requires number { k < length valued.now }
    requires entries { All (IsEntry table.now) valued.now }
    requires elements { HasElements table.now }
    ensures { OnOk result (out.new.items ≡ out.old.items ++ item_text (bracket_item table.now (map symbol_in valued.now)) k) }
{
    push_comma(out, k == 0)?;
    match valued[k] {
        Symbol::Gen(_) => Ok(()),
        Symbol::Pair(i, j) => push_pair(out, table, i, j),
    }
}

fn push_brackets<F: Field>(
    out: &mut Vec<u8>,
    table: &Table<F>,
    valued: &[Symbol],
) -> Result<(), AllocError>
    requires entries { All (IsEntry table.now) valued.now }
    requires elements { HasElements table.now }
    ensures { OnOk result (out.new.items ≡ out.old.items ++ items_text (length valued.now) (bracket_item table.now (map symbol_in valued.now))) }
{
    for k in 0..valued.len() {
        push_bracket(out, table, valued, k)?;
    }
    Ok(())
}

fn characteristic(field: Kind) -> u32
    ensures { result ≡ characteristic field }
{
    match field {
        Kind::Rational => 0,
        Kind::Prime(p) => p,
    }
}

fn push_number_line(out: &mut Vec<u8>, word: &[u8], n: u32) -> Result<(), AllocError>
    ensures { OnOk result (out.new.items ≡ out.old.items ++ number_line word.now n) }
{
    out.extend_from_slice(word)?;
    push_number(out, n)?;
    out.extend_from_slice(b",\n")
}

// The field of the presentation, and the weight.
fn push_head<F: Field>(
    out: &mut Vec<u8>,
    p: &Presentation,
    table: &Table<F>,
) -> Result<(), AllocError>
    requires { table.now.kind ≡ p.now.field }
    ensures { OnOk result (out.new.items ≡ out.old.items ++ head_lines table.now) }
{
    push_number_line(
        out,
        b"fplsa := rec(\n  characteristic := ",
        characteristic(p.field),
    )?;
    push_number_line(out, b"  limit := ", table.weight())
}

fn push_basis<F: Field>(out: &mut Vec<u8>, table: &Table<F>) -> Result<(), AllocError>
    ensures { OnOk result (out.new.items ≡ out.old.items ++ basis_lines table.now) }
{
    push_weight_line(out, table)?;
    push_parity_line(out, table)
}

fn push_generators<F: Field>(
    out: &mut Vec<u8>,
    p: &Presentation,
    table: &Table<F>,
    within: &[u32],
) -> Result<(), AllocError>
    requires generators { table.now.generators ≡ generators_in p.now }
    requires few { length table.now.generators ≤ 64 }
    requires all { All (IsWithin table.now) within.now }
    requires elements { HasElements table.now }
    ensures { OnOk result (out.new.items ≡ out.old.items ++ generator_lines (names_of p.now) table.now within.now) }
{
    push_name_line(out, &p.generators, within)?;
    push_image_line(out, table, within)
}

fn push_last<F: Field>(
    out: &mut Vec<u8>,
    table: &Table<F>,
    valued: &[Symbol],
) -> Result<(), AllocError>
    requires entries { All (IsEntry table.now) valued.now }
    requires elements { HasElements table.now }
    ensures { OnOk result (out.new.items ≡ out.old.items ++ bracket_lines table.now (map symbol_in valued.now)) }
{
    push_text(out, b"  brackets := [")?;
    push_brackets(out, table, valued)?;
    push_text(out, b" ]\n);\n")
}

/// The text of the view gap: the table as a record of GAP, with its field's characteristic, the weight and parity of
/// each basis element, the names and images of the generators within its weight, and the brackets that aren't 0.
pub fn gap_text<F: Field>(
    alloc: Global,
    p: &Presentation,
    table: &Table<F>,
) -> Result<Vec<u8>, AllocError>
    requires few { length p.now.generators ≤ 64 }
    requires kind { table.now.kind ≡ p.now.field }
    requires generators { table.now.generators ≡ generators_in p.now }
    requires elements { HasElements table.now }
    ensures { IfOk result (λ text. text.items ≡ gap_text (names_of p.now) table.now) }
{
    let within = generators_within(alloc, p, table)?;
    let valued = brackets_of(alloc, table)?;
    let mut out = Vec::new(alloc);
    push_head(&mut out, p, table)?;
    push_basis(&mut out, table)?;
    push_generators(&mut out, p, table, &within)?;
    push_last(&mut out, table, &valued)?;
    Ok(out)
}
