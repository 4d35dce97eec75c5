//! The centre.
ghost use Rattle.std.specs.Prelude.{◌≡◌, ◌≤◌, List, length, IfOk};
ghost use Rattle.math_structure.specs.Structure.{IsCentral};
ghost use Rattle.fpl_numbers.specs.declared.number.Num.{Num};
ghost use Rattle.fpl_numbers.specs.Kinds.{field_of};
ghost use Rattle.fpl_numbers.specs.Results.{GivesBy};
ghost use Rattle.fpl_rows.specs.Meaning.{AreRows};
ghost use Rattle.fpl_model.specs.declared.presentation.Presentation.{Presentation};
ghost use Rattle.fpl_table.specs.Plain.{table_in};
ghost use Rattle.plain_tables.specs.Holds.{Holds};
ghost use Rattle.plain_structure.specs.Plain.{centre_of};
ghost use Rattle.plain_structure.specs.Means.{AreRowsOf};

use crate::columns::centre_rows;
use fpl_echelon::kernel;
use fpl_rows::Rows;
use fpl_scalar::{Fault, Field};
use fpl_steps::Steps;
use fpl_table::Table;
use std::alloc::Global;
use std::sync::ledger::Ledger;

/// The closed rows of the centre: all vectors of the table whose bracket with each basis element,
/// and so with each vector, is 0.
///
/// `Unfit` is the first operation that does not fit; over a prime there is none.
pub fn centre<F: Field, L: Ledger>(
    alloc: Global,
    table: &Table<F>,
    steps: &mut Steps<L>,
) -> Result<Rows<F>, Fault>
    ensures value { GivesBy (λ (rows : List (List Num)). rows) result (centre_of table.now) }
    ensures rows { IfOk result (λ rows. AreRows table.now.kind (length table.now.basis) rows) }
    ensures means { (p : Presentation) → Holds p table.now →
        IfOk result (λ rows. AreRowsOf p.field table.now rows (IsCentral (field_of p.field) (table_in p.field table.now))) }
    ensures rises { steps.old ≤ steps.new }
{
    let rows = centre_rows(alloc, table)?;
    kernel(alloc, *table.field(), rows, table.basis_len(), steps)
}
