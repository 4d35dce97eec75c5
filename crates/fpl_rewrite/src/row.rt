ghost use Rattle.std.specs.Prelude.{◌≡◌, length, IfOk, OnOk, Contains};
ghost use Rattle.fpl_numbers.specs.Results.{Gives, GivesBy};
ghost use Rattle.fpl_scalar.specs.Vectors.{AreElements};
ghost use Rattle.fpl_model.specs.Sound.{IsSound};
ghost use Rattle.fpl_table.specs.Plain.{symbols_in};
ghost use Rattle.fpl_table.specs.Shape.{Agrees};
ghost use Rattle.fpl_table.specs.Value.{zero_row};
ghost use Rattle.fpl_rewrite.specs.Origins.{origins_of};
ghost use Rattle.fpl_rewrite.specs.Rows.{row_of_origin};

use crate::forms::relation_row;
use crate::guide::Guide;
use crate::jacobi::{cube_row, fill_cube, fill_jacobi, jacobi_row, zero_row};
use fpl_log::Origin;
use fpl_model::Presentation;
use fpl_rows::{Row, Work};
use fpl_scalar::{Fault, Field};
use fpl_table::{Symbols, Table};
use std::alloc::Global;

/// The row of an origin of the weight after the table's, over the symbols of that weight.
/// `Unfit` is the first operation that does not fit.
pub fn origin_row<F: Field>(
    alloc: Global,
    table: &Table<F>,
    p: &Presentation,
    symbols: &Symbols,
    origin: Origin,
) -> Result<Row<F>, Fault>
    requires sound { IsSound p.now }
    requires agrees { Agrees table.now p.now }
    requires symbols { symbols.now.symbols ≡ symbols_in table.now }
    requires listed { Contains (origins_of table.now p.now) origin }
    ensures value { GivesBy (λ r. r) result (row_of_origin table.now p.now origin) }
    ensures elements { IfOk result (λ r. AreElements table.now.kind r) }
    ensures whole { IfOk result (λ r. length r ≡ length (symbols_in table.now)) }
{
    match origin {
        Origin::Relation(r) => relation_row(alloc, table, p, symbols, r),
        Origin::Jacobi(i, j, k) => jacobi_row(alloc, table, symbols, i, j, k),
        Origin::Cube(i) => cube_row(alloc, table, symbols, i),
        Origin::Row(_) => zero_row(alloc, table, symbols),
    }
}

/// Fills an empty row in work with the row of an origin, as `origin_row` has it. After a `Fault`
/// it has its length and no promised numbers.
#[inline(always)]
pub fn fill_row<F: Field>(
    alloc: Global,
    table: &Table<F>,
    p: &Presentation,
    guide: &Guide,
    origin: Origin,
    work: &mut Work<F>,
) -> Result<(), Fault>
    requires sound { IsSound p.now }
    requires agrees { Agrees table.now p.now }
    requires symbols { guide.now.symbols.now.symbols ≡ symbols_in table.now }
    requires listed { Contains (origins_of table.now p.now) origin }
    requires kind { work.old.kind ≡ table.now.kind }
    requires empty { work.old.row ≡ zero_row (length (symbols_in table.now)) }
    ensures value { Gives result work.new.row (row_of_origin table.now p.now origin) }
    ensures kind { work.new.kind ≡ table.now.kind }
    ensures whole { length work.new.row ≡ length (symbols_in table.now) }
{
    match origin {
        Origin::Relation(r) => {
            let row = relation_row(alloc, table, p, guide.symbols, r)?;
            work.load(&row);
            Ok(())
        }
        Origin::Jacobi(i, j, k) => fill_jacobi(table, guide, i, j, k, work),
        Origin::Cube(i) => fill_cube(table, guide, i, work),
        Origin::Row(_) => Ok(()),
    }
}
