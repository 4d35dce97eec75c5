ghost use Rattle.std.specs.Prelude.{◌≡◌, ◌≤◌, ◌-◌, [], length, All, IfOk, IfSome, Contains, option_map, slice_get, slice_index_or, Some, None};
ghost use Rattle.fpl_numbers.specs.Numbers.{IsElement};
ghost use Rattle.fpl_numbers.specs.Results.{GivesBy, and_then};
ghost use Rattle.fpl_rows.specs.Meaning.{AreRows, IsRowOf};
ghost use Rattle.fpl_log.specs.Plain.{IsTermOf, conclude_of};
ghost use Rattle.fpl_table.specs.Plain.{symbols_in};
ghost use Rattle.plain_tables.specs.Holds.{Holds};
ghost use Rattle.fpl_rewrite.specs.Origins.{origins_of};
ghost use Rattle.fpl_rewrite.specs.Filling.{empty_for};
ghost use Rattle.fpl_rewrite.specs.Rows.{row_of_origin};
ghost use Rattle.fpl_check.specs.Refusal.{GivesCheck};
ghost use Rattle.fpl_check.specs.Premises.{AreFactorsOf, HasNumbersOf};
ghost use Rattle.fpl_check.specs.Steps.{scale_if, test_dependent, insert_of_step, close_of_step, conclusion_of_step, conclusions_from};

use crate::cites::{Cited, is_named, test_cites};
use crate::origin::is_origin;
use crate::remainder::{fault_of, is_zero, test_zero};
use crate::taking::conclude_work;
use crate::{CheckFault, Spot, Why};
use fpl_log::{Origin, Step, StepList, Terms};
use fpl_model::Presentation;
use fpl_rewrite::{Guide, fill_row};
use fpl_rows::{Row, Rows, Work};
use fpl_scalar::{Fault, Field, Num};
use fpl_table::Table;
use std::alloc::Global;

/// The scale of an Insert step, where it is not 0.
fn scale_if<F: Field>(field: &F, scale: &Num) -> Option<F::Elem>
    requires { IsElement (F.kind_of field.now) scale.now }
    ensures value { option_map F.number result ≡ scale_if scale.now }
    ensures element { IfSome result (λ k. IsElement (F.kind_of field.now) (F.number k)) }
{
    if is_zero(scale) {
        None
    } else {
        Some(field.of(scale))
    }
}

/// The row of an origin less the terms, multiplied by a scale that is not 0.
fn conclude_insert<F: Field>(
    alloc: Global,
    table: &Table<F>,
    p: &Presentation,
    guide: &Guide,
    earlier: &Rows<F>,
    origin: Origin,
    terms: &Terms,
    scale: &Num,
    work: &mut Work<F>,
) -> Result<Row<F>, Fault>
    requires holds { Holds p.now table.now }
    requires symbols { guide.now.symbols.now.symbols ≡ symbols_in table.now }
    requires listed { Contains (origins_of table.now p.now) origin }
    requires earlier { AreRows table.now.kind (length (symbols_in table.now)) earlier.now }
    requires terms { All (IsTermOf table.now.kind (length earlier.now)) terms.now }
    requires scale { IsElement table.now.kind scale.now }
    requires empty { work.old ≡ empty_for table.now }
    ensures value { GivesBy (λ row. row) result (and_then (λ row. conclude_of table.now.kind earlier.now row terms.now (scale_if scale.now))
        (row_of_origin table.now p.now origin)) }
    ensures row { IfOk result (λ row. IsRowOf table.now.kind (length (symbols_in table.now)) row) }
    ensures emptied { IfOk result (λ row. work.new ≡ work.old) }
{
    match fill_row(alloc, table, p, guide, origin, work) {
        Err(fault) => Err(fault),
        Ok(()) => {
            let field = table.field();
            let scale = scale_if(field, scale);
            let row = conclude_work(alloc, field, terms, scale, earlier, work);
            work.clear();
            row
        }
    }
}

/// Tests that the row of an Insert step with scale 0 is zero.
fn test_dependent<F: Field>(
    table: &Table<F>,
    n: u64,
    scale: &Num,
    row: &Row<F>,
) -> Result<(), CheckFault>
    requires { IsRowOf table.now.kind (length (symbols_in table.now)) row.now }
    ensures { GivesCheck (λ done. done) result (test_dependent n scale.now row.now) }
{
    if is_zero(scale) {
        test_zero(table.field(), Spot::Step(n), row)
    } else {
        Ok(())
    }
}

/// Tests an Insert step, and concludes it.
fn conclude_tested_insert<F: Field>(
    alloc: Global,
    table: &Table<F>,
    p: &Presentation,
    guide: &Guide,
    steps: &StepList,
    earlier: &Rows<F>,
    origin: Origin,
    terms: &Terms,
    scale: &Num,
    work: &mut Work<F>,
) -> Result<Row<F>, CheckFault>
    requires holds { Holds p.now table.now }
    requires symbols { guide.now.symbols.now.symbols ≡ symbols_in table.now }
    requires earlier { AreRows table.now.kind (length (symbols_in table.now)) earlier.now }
    requires terms { AreFactorsOf table.now.kind terms.now }
    requires scale { IsElement table.now.kind scale.now }
    requires empty { work.old ≡ empty_for table.now }
    ensures value { GivesCheck (λ row. row) result (insert_of_step table.now p.now steps.now earlier.now origin terms.now scale.now) }
    ensures row { IfOk result (λ row. IsRowOf table.now.kind (length (symbols_in table.now)) row) }
    ensures emptied { IfOk result (λ row. work.new ≡ work.old) }
{
    let n = earlier.len() as u64 + 1;
    if !is_origin(table, p, origin) {
        return Err(CheckFault::Bad {
            spot: Spot::Step(n),
            why: Why::BadOrigin,
        });
    }
    match test_cites(Cited::Inserts, steps, n, terms) {
        Ok(()) => {}
        Err(fault) => return Err(fault),
    }
    let row = match conclude_insert(alloc, table, p, guide, earlier, origin, terms, scale, work) {
        Ok(row) => row,
        Err(fault) => return Err(fault_of(fault)),
    };
    match test_dependent(table, n, scale, &row) {
        Ok(()) => Ok(row),
        Err(fault) => Err(fault),
    }
}

/// The conclusion of step `of`, less no terms: the row itself.
fn conclude_bare<F: Field>(
    alloc: Global,
    table: &Table<F>,
    earlier: &Rows<F>,
    of: u64,
    start: &Row<F>,
    terms: &Terms,
) -> Result<Row<F>, Fault>
    requires earlier { AreRows table.now.kind (length (symbols_in table.now)) earlier.now }
    requires start { Some start.now ≡ slice_get earlier.now (of - 1) }
    requires none { length terms.now ≡ 0 }
    ensures value { GivesBy (λ row. row) result (conclude_of table.now.kind earlier.now (slice_index_or earlier.now (of - 1) []) terms.now None) }
    ensures row { IfOk result (λ row. IsRowOf table.now.kind (length (symbols_in table.now)) row) }
{
    match start.copy(alloc) {
        Ok(row) => Ok(row),
        Err(_) => Err(Fault::NoMemory),
    }
}

/// The conclusion of step `of`, less the terms.
fn conclude_close<F: Field>(
    alloc: Global,
    table: &Table<F>,
    earlier: &Rows<F>,
    of: u64,
    terms: &Terms,
    work: &mut Work<F>,
) -> Result<Row<F>, Fault>
    requires earlier { AreRows table.now.kind (length (symbols_in table.now)) earlier.now }
    requires of { (1 ≤ of) × (of ≤ length earlier.now) }
    requires terms { All (IsTermOf table.now.kind (length earlier.now)) terms.now }
    requires empty { work.old ≡ empty_for table.now }
    ensures value { GivesBy (λ row. row) result (conclude_of table.now.kind earlier.now (slice_index_or earlier.now (of - 1) []) terms.now None) }
    ensures row { IfOk result (λ row. IsRowOf table.now.kind (length (symbols_in table.now)) row) }
    ensures emptied { IfOk result (λ row. work.new ≡ work.old) }
{
    match earlier.get(of as usize - 1) {
        None => unreachable!(),
        Some(start) => {
            if terms.len() == 0 {
                return conclude_bare(alloc, table, earlier, of, start, terms);
            }
            work.load(start);
            let row = conclude_work(alloc, table.field(), terms, None, earlier, work);
            work.clear();
            row
        }
    }
}

/// Tests a Close step, and concludes it.
fn conclude_tested_close<F: Field>(
    alloc: Global,
    table: &Table<F>,
    steps: &StepList,
    earlier: &Rows<F>,
    of: u64,
    terms: &Terms,
    work: &mut Work<F>,
) -> Result<Row<F>, CheckFault>
    requires earlier { AreRows table.now.kind (length (symbols_in table.now)) earlier.now }
    requires terms { AreFactorsOf table.now.kind terms.now }
    requires empty { work.old ≡ empty_for table.now }
    ensures value { GivesCheck (λ row. row) result (close_of_step table.now steps.now earlier.now of terms.now) }
    ensures row { IfOk result (λ row. IsRowOf table.now.kind (length (symbols_in table.now)) row) }
    ensures emptied { IfOk result (λ row. work.new ≡ work.old) }
{
    let n = earlier.len() as u64 + 1;
    if !is_named(Cited::Inserts, steps, n, of) {
        return Err(CheckFault::Bad {
            spot: Spot::Step(n),
            why: Why::BadCite(of),
        });
    }
    match test_cites(Cited::Closes, steps, n, terms) {
        Ok(()) => {}
        Err(fault) => return Err(fault),
    }
    match conclude_close(alloc, table, earlier, of, terms, work) {
        Ok(row) => Ok(row),
        Err(fault) => Err(fault_of(fault)),
    }
}

/// Tests a step, and concludes it.
fn conclude_tested<F: Field>(
    alloc: Global,
    table: &Table<F>,
    p: &Presentation,
    guide: &Guide,
    steps: &StepList,
    earlier: &Rows<F>,
    step: &Step,
    work: &mut Work<F>,
) -> Result<Row<F>, CheckFault>
    requires holds { Holds p.now table.now }
    requires symbols { guide.now.symbols.now.symbols ≡ symbols_in table.now }
    requires earlier { AreRows table.now.kind (length (symbols_in table.now)) earlier.now }
    requires numbers { HasNumbersOf table.now.kind step.now }
    requires empty { work.old ≡ empty_for table.now }
    ensures value { GivesCheck (λ row. row) result (conclusion_of_step table.now p.now steps.now earlier.now step.now) }
    ensures row { IfOk result (λ row. IsRowOf table.now.kind (length (symbols_in table.now)) row) }
    ensures emptied { IfOk result (λ row. work.new ≡ work.old) }
{
    match step {
        Step::Insert {
            origin,
            terms,
            scale,
        } => conclude_tested_insert(
            alloc, table, p, guide, steps, earlier, *origin, terms, scale, work,
        ),
        Step::Close { of, terms } => {
            conclude_tested_close(alloc, table, steps, earlier, *of, terms, work)
        }
    }
}

/// Tests all steps in order, and concludes them.
pub fn conclude_all<F: Field>(
    alloc: Global,
    table: &Table<F>,
    p: &Presentation,
    guide: &Guide,
    steps: &StepList,
    work: &mut Work<F>,
) -> Result<Rows<F>, CheckFault>
    requires holds { Holds p.now table.now }
    requires symbols { guide.now.symbols.now.symbols ≡ symbols_in table.now }
    requires numbers { All (HasNumbersOf table.now.kind) steps.now }
    requires empty { work.old ≡ empty_for table.now }
    ensures value { GivesCheck (λ rows. rows) result (conclusions_from table.now p.now steps.now [] steps.now) }
    ensures rows { IfOk result (λ rows. AreRows table.now.kind (length (symbols_in table.now)) rows) }
    ensures whole { IfOk result (λ rows. length rows ≡ length steps.now) }
    ensures emptied { IfOk result (λ rows. work.new ≡ work.old) }
{
    let mut earlier = Rows::new(alloc);
    for i in 0..steps.len() {
        match steps.get(i) {
            None => {}
            Some(step) => match conclude_tested(
                alloc, table, p, guide, steps, &earlier, step, work,
            ) {
                Err(fault) => return Err(fault),
                Ok(row) => match earlier.push(row) {
                    Ok(()) => {}
                    Err(_) => return Err(CheckFault::NoMemory),
                },
            },
        }
    }
    Ok(earlier)
}
