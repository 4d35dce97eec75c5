ghost use Rattle.std.specs.Prelude.{◌≡◌, ◌≤◌, ◌<◌, ◌+◌, ◌-◌, ◌^◌, length, map, IfOk, slice_index_or};
ghost use Rattle.fpl_numbers.specs.Numbers.{IsElement};
ghost use Rattle.fpl_numbers.specs.Results.{GivesBy};
ghost use Rattle.fpl_scalar.specs.Vectors.{AreElements, scale_of};
ghost use Rattle.math_algebra.specs.Tree.{trees};
ghost use Rattle.fpl_model.specs.Meaning.{plain};
ghost use Rattle.fpl_model.specs.Sound.{IsSound, IsTerm, AreTerms, HaveWeights, count_tree, count_trees};
ghost use Rattle.fpl_table.specs.Plain.{symbols_in};
ghost use Rattle.fpl_table.specs.Shape.{Agrees, IsRowUpTo};
ghost use Rattle.fpl_table.specs.Value.{zero_row};
ghost use Rattle.fpl_rewrite.specs.Rows.{outer_of, counts, symbol_unit, generator_place, form_of, forms_of, relation_row_of, equation_row};

use crate::jacobi::zero_row;
use fpl_model::{Degree, Equation, Expr, Exprs, Presentation};
use fpl_rows::Row;
use fpl_scalar::{Fault, Field, Num};
use fpl_table::{Symbol, Symbols, Table};
use std::alloc::Global;

/// The bracket of two rows over the basis, with each pair's symbol in place of its entry.
fn outer<F: Field>(
    alloc: Global,
    table: &Table<F>,
    symbols: &Symbols,
    a: &Row<F>,
    b: &Row<F>,
) -> Result<Row<F>, Fault>
    requires symbols { symbols.now.symbols ≡ symbols_in table.now }
    requires left { IsRowUpTo table.now.kind (length table.now.basis) a.now }
    requires right { IsRowUpTo table.now.kind (length table.now.basis) b.now }
    ensures value { GivesBy (λ r. r) result (outer_of table.now a.now b.now) }
    ensures elements { IfOk result (λ r. AreElements table.now.kind r) }
    ensures whole { IfOk result (λ r. length r ≡ length symbols.now.symbols) }
{
    let mut row = zero_row(alloc, table, symbols)?;
    match table.add_bracket(symbols, a, b, &mut row) {
        Ok(()) => Ok(row),
        Err(fault) => Err(fault),
    }
}

/// 1 at the symbol of generator `g`.
fn unit<F: Field>(
    alloc: Global,
    table: &Table<F>,
    symbols: &Symbols,
    g: u32,
) -> Result<Row<F>, Fault>
    requires symbols { symbols.now.symbols ≡ symbols_in table.now }
    requires number { 1 ≤ g }
    ensures value { GivesBy (λ r. r) result (symbol_unit table.now (generator_place table.now (g - 1))) }
    ensures elements { IfOk result (λ r. AreElements table.now.kind r) }
    ensures whole { IfOk result (λ r. length r ≡ length symbols.now.symbols) }
{
    let field = table.field();
    let mut row = zero_row(alloc, table, symbols)?;
    symbols.add_at(field, Symbol::Gen(g), field.one(), &mut row)?;
    Ok(row)
}

/// Whether an expression has a weight as written, or several.
fn is_of_some_weight<F: Field>(table: &Table<F>, p: &Presentation, e: &Expr) -> bool
    requires agrees { Agrees table.now p.now }
    requires weights { HaveWeights p.now.generators }
    requires term { IsTerm p.now.field (length p.now.generators) (plain e.now) }
    requires few { count_tree (plain e.now) < 2 ^ 40 }
    ensures { result ≡ counts table.now (plain e.now) }
{
    match p.weight_of(e) {
        Degree::Any => false,
        Degree::Exact(_) => true,
        Degree::Mixed => true,
    }
}

/// `c` times a row.
fn multiple<F: Field>(table: &Table<F>, c: &Num, row: Row<F>) -> Result<Row<F>, Fault>
    requires factor { IsElement table.now.kind c.now }
    requires row { AreElements table.now.kind row }
    ensures value { GivesBy (λ r. r) result (scale_of table.now.kind c.now row) }
    ensures elements { IfOk result (λ r. AreElements table.now.kind r) }
    ensures whole { IfOk result (λ r. length r ≡ length row) }
{
    let mut product = row;
    match product.scale(table.field(), table.field().of(c)) {
        Ok(()) => Ok(product),
        Err(fault) => Err(fault),
    }
}

/// An expression over the symbols: a generator is its symbol, an outermost bracket of two
/// basis elements its pair's symbol, and inner brackets are their values in the table.
/// 0 where the expression has no weight.
#[cycle(forming)]
#[tactic(auto, using(fpl_model::proofs::Plain::plain_forms))]
fn form<F: Field>(
    alloc: Global,
    table: &Table<F>,
    p: &Presentation,
    symbols: &Symbols,
    e: &Expr,
) -> Result<Row<F>, Fault>
    requires agrees { Agrees table.now p.now }
    requires weights { HaveWeights p.now.generators }
    requires term { IsTerm p.now.field (length p.now.generators) (plain e.now) }
    requires few { count_tree (plain e.now) < 2 ^ 40 }
    requires symbols { symbols.now.symbols ≡ symbols_in table.now }
    ensures value { GivesBy (λ r. r) result (form_of table.now (plain e.now)) }
    ensures elements { IfOk result (λ r. AreElements table.now.kind r) }
    ensures whole { IfOk result (λ r. length r ≡ length symbols.now.symbols) }
{
    match e {
        Expr::Gen(g) => unit(alloc, table, symbols, *g),
        Expr::Zero => zero_row(alloc, table, symbols),
        Expr::Sum(members) => form_all(alloc, table, p, symbols, members.get()),
        Expr::Times(c, factor) => {
            if !is_of_some_weight(table, p, factor.get()) {
                return zero_row(alloc, table, symbols);
            }
            let row = form(alloc, table, p, symbols, factor.get())?;
            multiple(table, &c.number(), row)
        }
        Expr::Br(a, b) => {
            if !is_of_some_weight(table, p, e) {
                return zero_row(alloc, table, symbols);
            }
            let left = table.value(alloc, p, a.get())?;
            let right = table.value(alloc, p, b.get())?;
            outer(alloc, table, symbols, &left, &right)
        }
    }
}

/// The sum of the members that have a weight, in order.
#[cycle(forming)]
#[tactic(auto, using(fpl_model::proofs::Plain::plain_forms))]
fn form_all<F: Field>(
    alloc: Global,
    table: &Table<F>,
    p: &Presentation,
    symbols: &Symbols,
    members: &Exprs,
) -> Result<Row<F>, Fault>
    requires agrees { Agrees table.now p.now }
    requires weights { HaveWeights p.now.generators }
    requires terms { AreTerms p.now.field (length p.now.generators) (trees (map plain members.now)) }
    requires few { count_trees (trees (map plain members.now)) < 2 ^ 40 }
    requires symbols { symbols.now.symbols ≡ symbols_in table.now }
    ensures value { GivesBy (λ r. r) result (forms_of table.now (trees (map plain members.now)) (zero_row (length (symbols_in table.now)))) }
    ensures elements { IfOk result (λ r. AreElements table.now.kind r) }
    ensures whole { IfOk result (λ r. length r ≡ length symbols.now.symbols) }
{
    let mut sum = zero_row(alloc, table, symbols)?;
    for e in members.as_slice() {
        if is_of_some_weight(table, p, e) {
            let x = form(alloc, table, p, symbols, e)?;
            match sum.axpy(table.field(), table.field().one(), &x) {
                Ok(()) => {}
                Err(fault) => return Err(fault),
            }
        }
    }
    Ok(sum)
}

/// The left side minus the right side of an equation.
fn difference<F: Field>(
    alloc: Global,
    table: &Table<F>,
    p: &Presentation,
    symbols: &Symbols,
    q: &Equation,
) -> Result<Row<F>, Fault>
    requires agrees { Agrees table.now p.now }
    requires weights { HaveWeights p.now.generators }
    requires left { IsTerm p.now.field (length p.now.generators) (plain q.now.left) }
    requires right { IsTerm p.now.field (length p.now.generators) (plain q.now.right) }
    requires few { count_tree (plain q.now.left) + count_tree (plain q.now.right) < 2 ^ 40 }
    requires symbols { symbols.now.symbols ≡ symbols_in table.now }
    ensures value { GivesBy (λ row. row) result (relation_row_of table.now q.now) }
    ensures elements { IfOk result (λ row. AreElements table.now.kind row) }
    ensures whole { IfOk result (λ row. length row ≡ length symbols.now.symbols) }
{
    let mut row = form(alloc, table, p, symbols, &q.left)?;
    let right = form(alloc, table, p, symbols, &q.right)?;
    let field = table.field();
    row.axpy(field, field.neg(field.one()), &right)?;
    Ok(row)
}

/// The left side minus the right side of relation `r`, over the symbols of the weight after
/// the table's, which is the relation's. `Unfit` is the first operation that does not fit.
pub fn relation_row<F: Field>(
    alloc: Global,
    table: &Table<F>,
    p: &Presentation,
    symbols: &Symbols,
    r: u32,
) -> Result<Row<F>, Fault>
    requires sound { IsSound p.now }
    requires agrees { Agrees table.now p.now }
    requires symbols { symbols.now.symbols ≡ symbols_in table.now }
    requires number { (1 ≤ r) × (r ≤ length p.now.relations) }
    ensures value { GivesBy (λ row. row) result (equation_row table.now p.now.relations r) }
    ensures elements { IfOk result (λ row. AreElements table.now.kind row) }
    ensures whole { IfOk result (λ row. length row ≡ length symbols.now.symbols) }
{
    let relation = &p.relations.as_slice()[r as usize - 1];
    difference(alloc, table, p, symbols, relation)
}
