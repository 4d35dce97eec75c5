//! The symbols of the weight after a table's, as expressions.
ghost use Rattle.std.specs.Prelude.{◌≡◌, ◌≤◌, ◌<◌, length, map, All, IfOk};
ghost use Rattle.fpl_table.specs.Plain.{symbol_in, symbols_in};
ghost use Rattle.fpl_table.specs.Shape.{IsNumbered, IsBefore};
ghost use Rattle.fpl_forms.specs.Ledgers.{PlainLedger};
ghost use Rattle.fpl_table_facts.specs.Known.{symbol_expr, IsKnown, IsNext};

use crate::known::{Known, Next};
use fpl_forms::bracket;
use fpl_model::Expr;
use fpl_table::{Symbol, Symbols};
use std::alloc::{AllocError, Global};

/// The expression of a symbol.
fn symbol_tree(alloc: Global, basis: &[Expr], symbol: Symbol) -> Result<Expr, AllocError>
    requires numbered { IsNumbered symbol }
    requires within { IsBefore (length basis.now) (symbol_in symbol) }
    ensures { IfOk result (λ e. e ≡ symbol_expr basis.now (symbol_in symbol)) }
{
    match symbol {
        Symbol::Gen(g) => Ok(Expr::Gen(g)),
        Symbol::Pair(i, j) => bracket(alloc, &basis[i as usize - 1], &basis[j as usize - 1]),
    }
}

/// The expressions of symbols, in order.
fn symbol_trees(alloc: Global, basis: &[Expr], symbols: &Symbols) -> Result<Vec<Expr>, AllocError>
    requires { All (IsBefore (length basis.now)) symbols.now.symbols }
    ensures { IfOk result (λ es. es.items ≡ map (symbol_expr basis.now) symbols.now.symbols) }
{
    let mut trees = Vec::new(alloc);
    for s in 0..symbols.len() {
        let tree = symbol_tree(alloc, basis, symbols.symbol(s + 1))?;
        trees.push(tree)?;
    }
    Ok(trees)
}

/// The symbols of the weight after the table's, with their expressions.
pub fn next_of(alloc: Global, known: &Known) -> Result<Next, AllocError>
    requires known { (L : PlainLedger) × IsKnown L known.now }
    requires weight { known.now.table.weight < 1000 }
    requires few { length (symbols_in known.now.table) ≤ 2000000 }
    ensures next { IfOk result (λ n. (L : PlainLedger) → IsKnown L known.now → IsNext L known.now n) }
{
    let symbols = known.table.symbols(alloc, known.table.weight() + 1)?;
    let trees = symbol_trees(alloc, &known.basis, &symbols)?;
    Ok(Next { symbols, trees })
}
