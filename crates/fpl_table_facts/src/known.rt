//! What is known of a table while a proof is made.
ghost use Rattle.std.specs.Prelude.{◌≡◌, ◌≤◌, ◌<◌, length, IfOk};
ghost use Rattle.math_algebra.specs.Symbols.{symbols_of, place_of};
ghost use Rattle.fpl_table.specs.Plain.{symbol_in, shell_in, table_in};
ghost use Rattle.fpl_table.specs.Shape.{IsNumbered};
ghost use Rattle.fpl_table_facts.specs.Known.{IsKnown, IsFormOf, symbol_expr};

use fpl_forms::{Fact, Ledger};
use fpl_model::Expr;
use fpl_scalar::Residue;
use fpl_table::{Symbol, Symbols, Table};
use std::alloc::{AllocError, Global};

/// The symbols of a weight, and for each, in order, a form over the basis.
#[derive(Drop)]
pub struct Level {
    pub symbols: Symbols,
    pub values: Vec<Fact>,
}

/// A table, its basis elements as expressions, and a level for each of its weights, from 1.
#[derive(Drop)]
pub struct Known {
    pub table: Table<Residue>,
    pub basis: Vec<Expr>,
    pub levels: Vec<Level>,
}

/// The symbols of the weight after a table's, with their expressions.
#[derive(Drop)]
pub struct Next {
    pub symbols: Symbols,
    pub trees: Vec<Expr>,
}

/// The form over the basis of a symbol of weight `w`.
pub(crate) fn symbol_form<'a>(
    alloc: Global,
    ledger: &Ledger<'a>,
    known: &Known,
    w: u32,
    x: Symbol,
) -> Result<Fact, AllocError>
    requires known { IsKnown ledger.now known.now }
    requires weight { (1 ≤ w) × (w ≤ known.now.table.weight) }
    requires numbered { IsNumbered x }
    requires listed { place_of (symbol_in x) (symbols_of (shell_in known.now.table.kind known.now.table) (table_in known.now.table.kind known.now.table) w)
        < length (symbols_of (shell_in known.now.table.kind known.now.table) (table_in known.now.table.kind known.now.table) w) }
    ensures { IfOk result (λ f. IsFormOf ledger.now known.now.basis.items (symbol_expr known.now.basis.items (symbol_in x)) f) }
{
    let _ = ledger;
    let level = &known.levels[w as usize - 1];
    match level.symbols.number(x) {
        Some(s) => {
            let value = level.values[s as usize - 1].copy(alloc)?;
            Ok(value)
        }
        None => unreachable!(),
    }
}
