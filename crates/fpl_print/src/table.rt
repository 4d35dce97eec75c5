//! The text of a table.
ghost use Rattle.std.specs.Prelude.{◌≡◌, ◌≤◌, ◌<◌, ◌+◌, ◌-◌, ◌++◌, [], ◌∷◌, length, map, codes, filter, count_by, nat_le, All, IfOk, OnOk};
ghost use Rattle.math_algebra.specs.Tree.{none};
ghost use Rattle.fpl_numbers.specs.Numbers.{IsElement};
ghost use Rattle.fpl_scalar.specs.Vectors.{AreElements};
ghost use Rattle.fpl_model.specs.Meaning.{plain, generators_in};
ghost use Rattle.fpl_model.specs.Mono.{expr_of};
ghost use Rattle.math_algebra.specs.Table.{of_pair};
ghost use Rattle.math_algebra.specs.Symbols.{symbols_of};
ghost use Rattle.fpl_table.specs.declared.symbol.Symbol.{Symbol};
ghost use Rattle.fpl_table.specs.Plain.{symbol_in, table_in, shell_in};
ghost use Rattle.fpl_spelling.specs.Spelling.{names_of};
ghost use Rattle.fpl_print.specs.Combinations.{combination_text, none_after, term_or_nothing};
ghost use Rattle.fpl_print.specs.TableText.{HasElements, IsEntry, text_of, tree_text, basis_name, pair_name, basis_line, is_within, image_line, has_value, brackets_of, bracket_line, bracket_lines, table_text};
ghost use Rattle.fpl_print.specs.Lines.{count_line};

use crate::combinations::{push_basis_name, push_combination, push_pair_name};
use crate::lines::{push_count, push_head_line};
use fpl_model::{Generators, Mono, Presentation};
use fpl_rows::Row;
use fpl_scalar::Field;
use fpl_spelling::{push_name, push_number, push_parity};
use fpl_table::{Symbol, Table};
use std::alloc::{AllocError, Global};

#[tactic(auto, using(crate::proofs::Trees::trees))]
fn push_tree(out: &mut Vec<u8>, generators: &Generators, tree: &Mono) -> Result<(), AllocError>
    ensures { OnOk result (out.new.items ≡ out.old.items ++ tree_text (map (λ g. g.name) generators.now) (plain (expr_of tree.now))) }
{
    match tree {
        Mono::Gen(g) => push_name(out, generators, *g),
        Mono::Pair(left, right) => {
            out.extend_from_slice(b"[")?;
            push_tree(out, generators, left)?;
            out.extend_from_slice(b",")?;
            push_tree(out, generators, right)?;
            out.extend_from_slice(b"]")
        }
    }
}

fn push_basis_line<F: Field>(
    out: &mut Vec<u8>,
    p: &Presentation,
    table: &Table<F>,
    i: u32,
) -> Result<(), AllocError>
    requires { (1 ≤ i) × (i ≤ length table.now.basis) }
    ensures { OnOk result (out.new.items ≡ out.old.items ++ basis_line (names_of p.now) table.now (i - 1)) }
{
    let element = table.basis(i);
    push_basis_name(out, i)?;
    out.extend_from_slice(b" weight ")?;
    push_number(out, element.weight)?;
    out.extend_from_slice(b" ")?;
    push_parity(out, element.parity)?;
    out.extend_from_slice(b" = ")?;
    push_tree(out, &p.generators, table.mono(i))?;
    out.extend_from_slice(b"\n")
}

fn push_basis<F: Field>(
    out: &mut Vec<u8>,
    p: &Presentation,
    table: &Table<F>,
) -> Result<(), AllocError>
    ensures { OnOk result (out.new.items ≡ out.old.items ++ text_of (length table.now.basis) (basis_line (names_of p.now) table.now)) }
{
    for i in 0..table.basis_len() {
        push_basis_line(out, p, table, i + 1)?;
    }
    Ok(())
}

fn push_image_line<F: Field>(
    out: &mut Vec<u8>,
    p: &Presentation,
    table: &Table<F>,
    g: u32,
) -> Result<(), AllocError>
    requires number { (1 ≤ g) × (g ≤ length table.now.generators) }
    requires generators { table.now.generators ≡ generators_in p.now }
    requires elements { HasElements table.now }
    ensures { OnOk result (out.new.items ≡ out.old.items ++ image_line (names_of p.now) table.now (g - 1)) }
{
    let generator = &p.generators.as_slice()[g as usize - 1];
    if generator.weight > table.weight() {
        return Ok(());
    }
    out.extend_from_slice(generator.name.text().as_bytes())?;
    out.extend_from_slice(b" = ")?;
    push_combination(out, table.field(), table.image(g))?;
    out.extend_from_slice(b"\n")
}

fn push_images<F: Field>(
    out: &mut Vec<u8>,
    p: &Presentation,
    table: &Table<F>,
) -> Result<(), AllocError>
    requires few { length p.now.generators ≤ 64 }
    requires generators { table.now.generators ≡ generators_in p.now }
    requires elements { HasElements table.now }
    ensures { OnOk result (out.new.items ≡ out.old.items ++ text_of (length table.now.generators) (image_line (names_of p.now) table.now)) }
{
    for g in 0..p.generators.len() {
        push_image_line(out, p, table, g as u32 + 1)?;
    }
    Ok(())
}

fn count_within(generators: &Generators, weight: u32) -> usize
    ensures { result ≡ count_by (λ g. nat_le g.weight weight) generators.now }
{
    let mut count = 0;
    for g in generators.as_slice() {
        if g.weight <= weight {
            count += 1;
        }
    }
    count
}

fn has_value<F: Field>(table: &Table<F>, x: Symbol) -> bool
    requires { IsEntry table.now x }
    ensures { result ≡ has_value table.now (symbol_in x) }
{
    match x {
        Symbol::Gen(_) => false,
        Symbol::Pair(i, j) => table.entry(i, j).lead().is_some(),
    }
}

// The symbols of a weight.
fn symbols_of<F: Field>(alloc: Global, table: &Table<F>, w: u32) -> Result<Vec<Symbol>, AllocError>
    requires { w ≤ table.now.weight }
    ensures value { IfOk result (λ list. map symbol_in list.items ≡ symbols_of (shell_in table.now.kind table.now) (table_in table.now.kind table.now) w) }
    ensures entries { IfOk result (λ list. All (IsEntry table.now) list.items) }
{
    let list = table.symbol_list(alloc, w)?;
    Ok(list)
}

fn push_if_valued<F: Field>(
    table: &Table<F>,
    x: Symbol,
    valued: &mut Vec<Symbol>,
) -> Result<(), AllocError>
    requires { IsEntry table.now x }
    ensures value { OnOk result (map symbol_in valued.new.items ≡ map symbol_in valued.old.items ++ filter (has_value table.now) (symbol_in x ∷ [])) }
    ensures entries { OnOk result (All (IsEntry table.now) valued.old.items → All (IsEntry table.now) valued.new.items) }
{
    if has_value(table, x) {
        valued.push(x)?;
    }
    Ok(())
}

fn push_valued<F: Field>(
    alloc: Global,
    table: &Table<F>,
    w: u32,
    valued: &mut Vec<Symbol>,
) -> Result<(), AllocError>
    requires { w ≤ table.now.weight }
    ensures value { OnOk result (map symbol_in valued.new.items ≡ map symbol_in valued.old.items
        ++ filter (has_value table.now) (symbols_of (shell_in table.now.kind table.now) (table_in table.now.kind table.now) w)) }
    ensures entries { OnOk result (All (IsEntry table.now) valued.old.items → All (IsEntry table.now) valued.new.items) }
{
    let symbols = symbols_of(alloc, table, w)?;
    for x in &symbols {
        push_if_valued(table, *x, valued)?;
    }
    Ok(())
}

/// The brackets that aren't 0.
pub(crate) fn brackets_of<F: Field>(
    alloc: Global,
    table: &Table<F>,
) -> Result<Vec<Symbol>, AllocError>
    ensures value { IfOk result (λ valued. map symbol_in valued.items ≡ brackets_of table.now) }
    ensures entries { IfOk result (λ valued. All (IsEntry table.now) valued.items) }
{
    let mut valued = Vec::new(alloc);
    for w in 0..table.weight() {
        push_valued(alloc, table, w + 1, &mut valued)?;
    }
    Ok(valued)
}

fn push_pair_line<F: Field>(
    out: &mut Vec<u8>,
    table: &Table<F>,
    i: u32,
    j: u32,
) -> Result<(), AllocError>
    requires entry { IsEntry table.now (Symbol.Pair i j) }
    requires elements { HasElements table.now }
    ensures { OnOk result (out.new.items ≡ out.old.items ++ bracket_line table.now (of_pair (i - 1) (j - 1))) }
{
    push_pair_name(out, i, j)?;
    out.extend_from_slice(b" = ")?;
    push_combination(out, table.field(), table.entry(i, j))?;
    out.extend_from_slice(b"\n")
}

fn push_bracket_line<F: Field>(
    out: &mut Vec<u8>,
    table: &Table<F>,
    x: Symbol,
) -> Result<(), AllocError>
    requires entry { IsEntry table.now x }
    requires elements { HasElements table.now }
    ensures { OnOk result (out.new.items ≡ out.old.items ++ bracket_line table.now (symbol_in x)) }
{
    match x {
        Symbol::Gen(_) => Ok(()),
        Symbol::Pair(i, j) => push_pair_line(out, table, i, j),
    }
}

fn push_brackets<F: Field>(
    out: &mut Vec<u8>,
    table: &Table<F>,
    valued: &[Symbol],
) -> Result<(), AllocError>
    requires entries { All (IsEntry table.now) valued.now }
    requires elements { HasElements table.now }
    ensures { OnOk result (out.new.items ≡ out.old.items ++ bracket_lines table.now (map symbol_in valued.now)) }
{
    for x in valued {
        push_bracket_line(out, table, *x)?;
    }
    Ok(())
}

// How many generators are within the table's weight.
fn images_count<F: Field>(p: &Presentation, table: &Table<F>) -> usize
    requires { table.now.generators ≡ generators_in p.now }
    ensures { result ≡ count_by (is_within table.now) table.now.generators }
{
    count_within(&p.generators, table.weight())
}

fn push_bracket_part<F: Field>(
    alloc: Global,
    out: &mut Vec<u8>,
    table: &Table<F>,
) -> Result<(), AllocError>
    requires { HasElements table.now }
    ensures { OnOk result (out.new.items ≡ out.old.items ++ (count_line (codes "brackets ") (length (brackets_of table.now))
        ++ bracket_lines table.now (brackets_of table.now))) }
{
    let valued = brackets_of(alloc, table)?;
    push_count(out, b"brackets ", valued.len())?;
    push_brackets(out, table, &valued)
}

/// The text of a table of the presentation: its basis, the images of the generators within its weight, and the
/// brackets that aren't 0.
pub fn table_text<F: Field>(
    alloc: Global,
    p: &Presentation,
    table: &Table<F>,
) -> Result<Vec<u8>, AllocError>
    requires few { length p.now.generators ≤ 64 }
    requires kind { table.now.kind ≡ p.now.field }
    requires generators { table.now.generators ≡ generators_in p.now }
    requires elements { HasElements table.now }
    ensures { IfOk result (λ text. text.items ≡ table_text (names_of p.now) table.now) }
{
    let mut out = Vec::new(alloc);
    push_head_line(&mut out, b"table", p.field, table.weight())?;
    push_count(&mut out, b"basis ", table.basis_len() as usize)?;
    push_basis(&mut out, p, table)?;
    push_count(&mut out, b"images ", images_count(p, table))?;
    push_images(&mut out, p, table)?;
    push_bracket_part(alloc, &mut out, table)?;
    out.extend_from_slice(b"end\n")?;
    Ok(out)
}
