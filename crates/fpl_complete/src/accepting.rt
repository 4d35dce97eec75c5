ghost use Rattle.std.specs.Prelude.{◌≡◌, ◌≤◌, length, IfOk, IfSome};
ghost use Rattle.math_linear.specs.Span.{SpansKind};
ghost use Rattle.fpl_numbers.specs.Kinds.{field_of};
ghost use Rattle.fpl_rows.specs.Meaning.{IsClosedList, row_in};
ghost use Rattle.math_algebra.specs.SourceRows.{IsSource};
ghost use Rattle.fpl_model.specs.Meaning.{presentation_in};
ghost use Rattle.fpl_table.specs.Plain.{symbols_in, table_in};
ghost use Rattle.plain_tables.specs.Holds.{Holds};
ghost use Rattle.fpl_rewrite.specs.Origins.{origins_of};
ghost use Rattle.plain_weights.specs.Section.{slimmed};
ghost use Rattle.fpl_check.specs.Refusal.{GivesCheck};
ghost use Rattle.fpl_check.specs.Premises.{IsSectionFor};
ghost use Rattle.fpl_check.specs.Check.{check_of};

use crate::weighed::Weighed;
use fpl_check::{CheckFault, check_section, count_origins};
use fpl_log::Section;
use fpl_model::Presentation;
use fpl_scalar::Field;
use fpl_table::Table;
use std::alloc::Global;

/// The number of origins of the weight after the table's, which the section may tell.
fn origins_told<F: Field>(table: &Table<F>, p: &Presentation, told: Option<u64>) -> Option<u64>
    requires holds { Holds p.now table.now }
    requires told { IfSome told (λ n. n ≡ length (origins_of table.now p.now)) }
    ensures { IfSome result (λ n. n ≡ length (origins_of table.now p.now)) }
{
    match told {
        Some(origins) => Some(origins),
        None => count_origins(table, p),
    }
}

/// Checks a section of the weight after the table's: its closed rows, and the slimmed section.
pub fn accept<F: Field>(
    alloc: Global,
    table: &Table<F>,
    p: &Presentation,
    section: Section,
) -> Result<Weighed<F>, CheckFault>
    requires holds { Holds p.now table.now }
    requires few { length (symbols_in table.now) ≤ 2000000 }
    requires section { IsSectionFor table.now section }
    ensures value { GivesCheck (λ w. w.rows) result (check_of table.now p.now section) }
    ensures section { IfOk result (λ w. w.section ≡ slimmed table.now p.now section) }
    ensures closed { IfOk result (λ w. IsClosedList table.now.kind (length (symbols_in table.now)) w.rows) }
    ensures spans { IfOk result (λ w. SpansKind (field_of p.now.field) (IsSource (field_of p.now.field) (presentation_in p.now) (table_in p.now.field table.now))
        (length w.rows) (row_in p.now.field w.rows)) }
{
    let rows = match check_section(alloc, table, p, &section) {
        Ok(rows) => rows,
        Err(fault) => return Err(fault),
    };
    let origins = match origins_told(table, p, section.origins) {
        Some(origins) => origins,
        None => return Err(CheckFault::NoMemory),
    };
    match section.slim(alloc, origins) {
        Ok(section) => Ok(Weighed { rows, section }),
        Err(_) => Err(CheckFault::NoMemory),
    }
}
