ghost use Rattle.std.specs.Prelude.{◌≡◌, ◌≤◌, length, IfOk};
ghost use Rattle.math_linear.specs.Span.{SpansKind};
ghost use Rattle.fpl_numbers.specs.Kinds.{field_of};
ghost use Rattle.fpl_rows.specs.Meaning.{IsClosedList, row_in};
ghost use Rattle.math_algebra.specs.SourceRows.{IsSource};
ghost use Rattle.fpl_model.specs.Meaning.{presentation_in};
ghost use Rattle.fpl_table.specs.Plain.{symbols_in, table_in};
ghost use Rattle.plain_tables.specs.Holds.{Holds};
ghost use Rattle.fpl_rewrite.specs.Filling.{empty_for};
ghost use Rattle.fpl_check.specs.Refusal.{GivesCheck};
ghost use Rattle.fpl_check.specs.Premises.{IsSectionFor};
ghost use Rattle.fpl_check.specs.Check.{check_of};

use crate::CheckFault;
use crate::closed::closed_rows;
use crate::origins::{test_count, test_origins};
use crate::steps::conclude_all;
use fpl_log::Section;
use fpl_model::Presentation;
use fpl_rewrite::Guide;
use fpl_rows::{Rows, Work};
use fpl_scalar::Field;
use fpl_table::Table;
use std::alloc::Global;

/// The tests of a section, and its closed rows. Rows are formed in an empty row in work.
fn tested_rows<F: Field>(
    alloc: Global,
    table: &Table<F>,
    p: &Presentation,
    guide: &Guide,
    section: &Section,
    work: &mut Work<F>,
) -> Result<Rows<F>, CheckFault>
    requires holds { Holds p.now table.now }
    requires symbols { guide.now.symbols.now.symbols ≡ symbols_in table.now }
    requires section { IsSectionFor table.now section.now }
    requires empty { work.old ≡ empty_for table.now }
    ensures value { GivesCheck (λ rows. rows) result (check_of table.now p.now section.now) }
    ensures closed { IfOk result (λ rows. IsClosedList table.now.kind (length (symbols_in table.now)) rows) }
{
    let conclusions = match conclude_all(alloc, table, p, guide, &section.steps, work) {
        Ok(conclusions) => conclusions,
        Err(fault) => return Err(fault),
    };
    let rows = match closed_rows(alloc, table, guide.symbols.len(), section, conclusions) {
        Ok(rows) => rows,
        Err(fault) => return Err(fault),
    };
    match test_count(table, p, section.origins) {
        Ok(()) => {}
        Err(fault) => return Err(fault),
    }
    match test_origins(alloc, table, p, guide, section, &rows, work) {
        Ok(()) => Ok(rows),
        Err(fault) => Err(fault),
    }
}

/// The tests of a section, and its closed rows.
fn checked_rows<F: Field>(
    alloc: Global,
    table: &Table<F>,
    p: &Presentation,
    section: &Section,
) -> Result<Rows<F>, CheckFault>
    requires holds { Holds p.now table.now }
    requires few { length (symbols_in table.now) ≤ 2000000 }
    requires section { IsSectionFor table.now section.now }
    ensures value { GivesCheck (λ rows. rows) result (check_of table.now p.now section.now) }
    ensures closed { IfOk result (λ rows. IsClosedList table.now.kind (length (symbols_in table.now)) rows) }
{
    let symbols = match table.symbols(alloc, table.weight() + 1) {
        Ok(symbols) => symbols,
        Err(_) => return Err(CheckFault::NoMemory),
    };
    let guide = match Guide::of(alloc, table, &symbols) {
        Ok(guide) => guide,
        Err(_) => return Err(CheckFault::NoMemory),
    };
    let mut work = match Work::new(alloc, *table.field(), symbols.len()) {
        Ok(work) => work,
        Err(_) => return Err(CheckFault::NoMemory),
    };
    tested_rows(alloc, table, p, &guide, section, &mut work)
}

/// Checks a section of the weight after the table's, whoever made it: its closed rows, over the
/// symbols of that weight, which are those of the standard basis.
///
/// `Bad` names the first test that fails, in this order: each step; the number of Close steps; the
/// form of each closed row; that each is the conclusion of its Close step; that they are closed;
/// the number of origins; that the row of each origin is in their span. `Unfit` is the first
/// operation that does not fit, before any test fails.
pub fn check_section<F: Field>(
    alloc: Global,
    table: &Table<F>,
    p: &Presentation,
    section: &Section,
) -> Result<Rows<F>, CheckFault>
    requires holds { Holds p.now table.now }
    requires few { length (symbols_in table.now) ≤ 2000000 }
    requires section { IsSectionFor table.now section.now }
    ensures value { GivesCheck (λ rows. rows) result (check_of table.now p.now section.now) }
    ensures closed { IfOk result (λ rows. IsClosedList table.now.kind (length (symbols_in table.now)) rows) }
    ensures spans { IfOk result (λ rows. SpansKind (field_of p.now.field) (IsSource (field_of p.now.field) (presentation_in p.now)
        (table_in p.now.field table.now)) (length rows) (row_in p.now.field rows)) }
{
    checked_rows(alloc, table, p, section)
}
