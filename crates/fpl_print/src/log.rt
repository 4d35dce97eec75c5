//! The text of the view log: steps and closed rows.
ghost use Rattle.std.specs.Prelude.{◌≡◌, ◌<◌, ◌+◌, ◌^◌, ◌++◌, length, map, nat_eq, All, IfOk, OnOk};
ghost use Rattle.fpl_table.specs.Plain.{symbol_in};
ghost use Rattle.fpl_table.specs.Shape.{IsNumbered};
ghost use Rattle.fpl_spelling.specs.Spelling.{names_of};
ghost use Rattle.fpl_print.specs.Lines.{text_at};
ghost use Rattle.fpl_print.specs.TableText.{text_of};
ghost use Rattle.fpl_print.specs.LogText.{symbol_text, symbol_name, coefficient_text, coefficients_text, closed_line, section_lines, weight_lines, log_text};

use crate::combinations::{push_coefficient, push_pair_name};
use crate::lines::push_head_line;
use crate::steps::push_steps;
use fpl_log::{ClosedList, ClosedRow, Coefficient, Section, Sections};
use fpl_model::{Generators, Presentation};
use fpl_scalar::Field;
use fpl_spelling::{push_name, push_number};
use fpl_table::{Symbol, Table};
use std::alloc::{AllocError, Global};

fn push_symbol(out: &mut Vec<u8>, generators: &Generators, x: Symbol) -> Result<(), AllocError>
    requires { IsNumbered x }
    ensures { OnOk result (out.new.items ≡ out.old.items ++ symbol_text (map (λ g. g.name) generators.now) (symbol_in x)) }
{
    match x {
        Symbol::Gen(g) => push_name(out, generators, g),
        Symbol::Pair(i, j) => push_pair_name(out, i, j),
    }
}

// Appends the name of a symbol by its number. One that isn't there has no name.
fn push_symbol_name(
    out: &mut Vec<u8>,
    generators: &Generators,
    symbols: &[Symbol],
    s: u32,
) -> Result<(), AllocError>
    requires { All IsNumbered symbols.now }
    ensures { OnOk result (out.new.items ≡ out.old.items ++ symbol_name (map (λ g. g.name) generators.now) (map symbol_in symbols.now) s) }
{
    match symbols.get(s.saturating_sub(1) as usize) {
        Some(x) => push_symbol(out, generators, *x),
        None => Ok(()),
    }
}

fn push_closed_term(
    out: &mut Vec<u8>,
    generators: &Generators,
    symbols: &[Symbol],
    first: bool,
    c: Coefficient,
) -> Result<(), AllocError>
    requires { All IsNumbered symbols.now }
    ensures { OnOk result (out.new.items ≡ out.old.items ++ coefficient_text (map (λ g. g.name) generators.now) (map symbol_in symbols.now) first c) }
{
    push_coefficient(out, first, c.number)?;
    push_symbol_name(out, generators, symbols, c.symbol)
}

// Appends the term of coefficient `k`, which counts from 0, if there is one.
fn push_coefficient_at(
    out: &mut Vec<u8>,
    generators: &Generators,
    symbols: &[Symbol],
    row: &ClosedRow,
    k: usize,
) -> Result<(), AllocError>
    requires { All IsNumbered symbols.now }
    ensures { OnOk result (out.new.items ≡ out.old.items ++ text_at (coefficient_text (map (λ g. g.name) generators.now) (map symbol_in symbols.now) (nat_eq k 0)) row.now k) }
{
    match row.get(k) {
        Some(c) => push_closed_term(out, generators, symbols, k == 0, c),
        None => Ok(()),
    }
}

fn push_row(
    out: &mut Vec<u8>,
    generators: &Generators,
    symbols: &[Symbol],
    row: &ClosedRow,
) -> Result<(), AllocError>
    requires { All IsNumbered symbols.now }
    ensures { OnOk result (out.new.items ≡ out.old.items ++ coefficients_text (map (λ g. g.name) generators.now) (map symbol_in symbols.now) row.now) }
{
    for k in 0..row.len() {
        push_coefficient_at(out, generators, symbols, row, k)?;
    }
    Ok(())
}

// Appends closed row `k`, which counts from 0, if there is one.
fn push_row_at(
    out: &mut Vec<u8>,
    generators: &Generators,
    symbols: &[Symbol],
    closed: &ClosedList,
    k: usize,
) -> Result<(), AllocError>
    requires { All IsNumbered symbols.now }
    ensures { OnOk result (out.new.items ≡ out.old.items ++ text_at (coefficients_text (map (λ g. g.name) generators.now) (map symbol_in symbols.now)) closed.now k) }
{
    match closed.get(k) {
        Some(row) => push_row(out, generators, symbols, row),
        None => Ok(()),
    }
}

// Appends the line of closed row `k`, which counts from 0.
fn push_closed_line(
    out: &mut Vec<u8>,
    generators: &Generators,
    symbols: &[Symbol],
    closed: &ClosedList,
    k: usize,
) -> Result<(), AllocError>
    requires { All IsNumbered symbols.now }
    ensures { OnOk result (out.new.items ≡ out.old.items ++ closed_line (map (λ g. g.name) generators.now) (map symbol_in symbols.now) closed.now k) }
{
    out.extend_from_slice(b"row ")?;
    push_row_at(out, generators, symbols, closed, k)?;
    out.extend_from_slice(b"\n")
}

fn push_closed(
    out: &mut Vec<u8>,
    generators: &Generators,
    symbols: &[Symbol],
    closed: &ClosedList,
) -> Result<(), AllocError>
    requires { All IsNumbered symbols.now }
    ensures { OnOk result (out.new.items ≡ out.old.items ++ text_of (length closed.now) (closed_line (map (λ g. g.name) generators.now) (map symbol_in symbols.now) closed.now)) }
{
    for k in 0..closed.len() {
        push_closed_line(out, generators, symbols, closed, k)?;
    }
    Ok(())
}

fn push_section(
    out: &mut Vec<u8>,
    generators: &Generators,
    symbols: &[Symbol],
    section: &Section,
) -> Result<(), AllocError>
    requires { All IsNumbered symbols.now }
    ensures { OnOk result (out.new.items ≡ out.old.items ++ section_lines (map (λ g. g.name) generators.now) (map symbol_in symbols.now) section.now) }
{
    push_steps(out, &section.steps)?;
    push_closed(out, generators, symbols, &section.closed)
}

// Appends the lines of the section of the weight above `v`, if there is one.
fn push_section_at(
    out: &mut Vec<u8>,
    generators: &Generators,
    symbols: &[Symbol],
    sections: &Sections,
    v: u32,
) -> Result<(), AllocError>
    requires { All IsNumbered symbols.now }
    ensures { OnOk result (out.new.items ≡ out.old.items ++ text_at (section_lines (map (λ g. g.name) generators.now) (map symbol_in symbols.now)) sections.now v) }
{
    match sections.get(v as usize) {
        Some(section) => push_section(out, generators, symbols, section),
        None => Ok(()),
    }
}

// Appends the lines of the weight above `v`.
fn push_weight<F: Field>(
    alloc: Global,
    out: &mut Vec<u8>,
    p: &Presentation,
    table: &Table<F>,
    sections: &Sections,
    v: u32,
) -> Result<(), AllocError>
    requires { (v < table.now.weight) × (v + 1 < 2 ^ 32) }
    ensures { OnOk result (out.new.items ≡ out.old.items ++ weight_lines (names_of p.now) table.now sections.now v) }
{
    let symbols = table.symbol_list(alloc, v + 1)?;
    out.extend_from_slice(b"weight ")?;
    push_number(out, v + 1)?;
    out.extend_from_slice(b" symbols ")?;
    push_number(out, symbols.len() as u64)?;
    out.extend_from_slice(b"\n")?;
    push_section_at(out, &p.generators, &symbols, sections, v)
}

fn push_weights<F: Field>(
    alloc: Global,
    out: &mut Vec<u8>,
    p: &Presentation,
    table: &Table<F>,
    sections: &Sections,
) -> Result<(), AllocError>
    ensures { OnOk result (out.new.items ≡ out.old.items ++ text_of table.now.weight (weight_lines (names_of p.now) table.now sections.now)) }
{
    for v in 0..table.weight() {
        push_weight(alloc, out, p, table, sections, v)?;
    }
    Ok(())
}

/// The text of the view log: for each weight of the table the steps and the closed rows of its section.
pub fn log_text<F: Field>(
    alloc: Global,
    p: &Presentation,
    table: &Table<F>,
    sections: &Sections,
) -> Result<Vec<u8>, AllocError>
    requires { table.now.kind ≡ p.now.field }
    ensures { IfOk result (λ text. text.items ≡ log_text (names_of p.now) table.now sections.now) }
{
    let mut out = Vec::new(alloc);
    push_head_line(&mut out, b"log", p.field, table.weight())?;
    push_weights(alloc, &mut out, p, table, sections)?;
    out.extend_from_slice(b"end\n")?;
    Ok(out)
}
