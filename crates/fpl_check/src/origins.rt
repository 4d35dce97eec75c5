ghost use Rattle.std.specs.Prelude.{◌≡◌, ◌≤◌, ◌-◌, ◌^◌, true, length, IfOk, IfSome, IfNone, Contains};
ghost use Rattle.fpl_rows.specs.Meaning.{IsClosedList};
ghost use Rattle.fpl_model.specs.Sound.{IsSound};
ghost use Rattle.fpl_table.specs.Plain.{symbols_in};
ghost use Rattle.fpl_table.specs.Shape.{Agrees};
ghost use Rattle.plain_tables.specs.Holds.{Holds};
ghost use Rattle.fpl_rewrite.specs.Origins.{origins_of};
ghost use Rattle.fpl_rewrite.specs.Filling.{empty_for};
ghost use Rattle.fpl_check.specs.Refusal.{GivesCheck};
ghost use Rattle.fpl_echelon.specs.Leads.{IsLeadIndex};
ghost use Rattle.fpl_check.specs.Premises.{IsSectionFor};
ghost use Rattle.fpl_check.specs.Closing.{shows, AreTested};
ghost use Rattle.fpl_check.specs.Check.{test_count, test_origin, test_origins};

use crate::closing::{inserts, shows};
use crate::reach::{is_late, reach_of};
use crate::remainder::{fault_of, test_work_zero};
use crate::{CheckFault, Spot, Why};
use fpl_echelon::{Leads, sweep_work_by};
use fpl_log::{Origin, Section, StepList};
use fpl_model::Presentation;
use fpl_rewrite::{Guide, Origins, fill_row};
use fpl_rows::{Rows, Work};
use fpl_scalar::Field;
use fpl_table::Table;
use std::alloc::{AllocError, Global};

/// The number of origins of the weight after the table's, where it is below 2^64 - 1.
pub fn count_origins<F: Field>(table: &Table<F>, p: &Presentation) -> Option<u64>
    requires sound { IsSound p.now }
    requires agrees { Agrees table.now p.now }
    ensures some { IfSome result (λ found. found ≡ length (origins_of table.now p.now)) }
    ensures none { IfNone result (2 ^ 64 - 1 ≤ length (origins_of table.now p.now)) }
{
    let mut origins = Origins::start(table, p, table.weight() + 1);
    for found in 0..u64::MAX {
        match origins.next(table, p) {
            None => return Some(found),
            Some(_) => {}
        }
    }
    None
}

/// Tests the number of origins, where a section tells it. To list more than 2^64 of them takes
/// more memory than there is.
pub fn test_count<F: Field>(
    table: &Table<F>,
    p: &Presentation,
    stored: Option<u64>,
) -> Result<(), CheckFault>
    requires sound { IsSound p.now }
    requires agrees { Agrees table.now p.now }
    ensures { GivesCheck (λ done. done) result (test_count stored (length (origins_of table.now p.now))) }
{
    let stored = match stored {
        None => return Ok(()),
        Some(stored) => stored,
    };
    match count_origins(table, p) {
        None => Err(CheckFault::NoMemory),
        Some(found) => {
            if stored == found {
                return Ok(());
            }
            Err(CheckFault::Bad {
                spot: Spot::Whole,
                why: Why::OriginCount { stored, found },
            })
        }
    }
}

/// Tests that the row of an origin, formed in an empty row in work, is in the span of closed rows.
fn test_origin<F: Field>(
    alloc: Global,
    table: &Table<F>,
    p: &Presentation,
    guide: &Guide,
    rows: &Rows<F>,
    leads: &Leads,
    origin: Origin,
    work: &mut Work<F>,
) -> Result<(), CheckFault>
    requires holds { Holds p.now table.now }
    requires symbols { guide.now.symbols.now.symbols ≡ symbols_in table.now }
    requires listed { Contains (origins_of table.now p.now) origin }
    requires closed { IsClosedList table.now.kind (length (symbols_in table.now)) rows.now }
    requires leads { IsLeadIndex rows.now leads.now }
    requires empty { work.old ≡ empty_for table.now }
    ensures value { GivesCheck (λ done. done) result (test_origin table.now p.now rows.now origin) }
    ensures emptied { IfOk result (λ done. work.new ≡ work.old) }
{
    match fill_row(alloc, table, p, guide, origin, work) {
        Ok(()) => match sweep_work_by(table.field(), rows, leads, work) {
            Ok(()) => {
                let done = test_work_zero(table.field(), Spot::Origin(origin), work);
                work.clear();
                done
            }
            Err(u) => Err(CheckFault::Unfit(u)),
        },
        Err(fault) => Err(fault_of(fault)),
    }
}

/// The same, but that nothing is formed where the step at place `next`, counted from 0, is of this
/// origin, and the steps show the rows of their origins. Gives the place of the step to look at for
/// the next origin.
fn test_next<F: Field>(
    alloc: Global,
    table: &Table<F>,
    p: &Presentation,
    guide: &Guide,
    section: &Section,
    rows: &Rows<F>,
    leads: &Leads,
    next: Option<usize>,
    origin: Origin,
    work: &mut Work<F>,
) -> Result<Option<usize>, CheckFault>
    requires holds { Holds p.now table.now }
    requires symbols { guide.now.symbols.now.symbols ≡ symbols_in table.now }
    requires section { IsSectionFor table.now section.now }
    requires tested { AreTested table.now p.now section.now rows.now }
    requires listed { Contains (origins_of table.now p.now) origin }
    requires closed { IsClosedList table.now.kind (length (symbols_in table.now)) rows.now }
    requires leads { IsLeadIndex rows.now leads.now }
    requires shown { IfSome next (λ k. shows table.now.kind section.now.steps ≡ true) }
    requires empty { work.old ≡ empty_for table.now }
    ensures value { GivesCheck (λ after. tt) result (test_origin table.now p.now rows.now origin) }
    ensures shown { IfOk result (λ after. IfSome after (λ k. shows table.now.kind section.now.steps ≡ true)) }
    ensures emptied { IfOk result (λ after. work.new ≡ work.old) }
{
    if let Some(k) = next {
        if k < section.steps.len() && inserts(&section.steps, k, origin) {
            return Ok(Some(k + 1));
        }
    }
    match test_origin(alloc, table, p, guide, rows, leads, origin, work) {
        Ok(()) => Ok(next),
        Err(fault) => Err(fault),
    }
}

/// The first place at which a step is looked for, where the steps show the rows of their origins.
fn first_step<F: Field>(
    alloc: Global,
    field: &F,
    steps: &StepList,
) -> Result<Option<usize>, AllocError>
    ensures { IfOk result (λ first. IfSome first (λ k. shows (F.kind_of field.now) steps.now ≡ true)) }
{
    if shows(alloc, field, steps)? {
        Ok(Some(0))
    } else {
        Ok(None)
    }
}

/// Tests that the rows of all origins are in the span of the closed rows of a section whose other
/// tests pass.
///
/// Steps stand mostly in the order of their origins, so these are met one beside the other; the
/// row of an origin whose step isn't met is formed and swept. Over a prime other than 3 the triples
/// behind the last generator follow from the others, and aren't looked at.
pub fn test_origins<F: Field>(
    alloc: Global,
    table: &Table<F>,
    p: &Presentation,
    guide: &Guide,
    section: &Section,
    rows: &Rows<F>,
    work: &mut Work<F>,
) -> Result<(), CheckFault>
    requires holds { Holds p.now table.now }
    requires symbols { guide.now.symbols.now.symbols ≡ symbols_in table.now }
    requires section { IsSectionFor table.now section.now }
    requires tested { AreTested table.now p.now section.now rows.now }
    requires closed { IsClosedList table.now.kind (length (symbols_in table.now)) rows.now }
    requires empty { work.old ≡ empty_for table.now }
    ensures { GivesCheck (λ done. done) result (test_origins table.now p.now rows.now (origins_of table.now p.now)) }
{
    let leads = match Leads::of(alloc, guide.symbols.len(), rows) {
        Ok(leads) => leads,
        Err(_) => return Err(CheckFault::NoMemory),
    };
    let mut step = match first_step(alloc, table.field(), &section.steps) {
        Ok(step) => step,
        Err(_) => return Err(CheckFault::NoMemory),
    };
    let bound = reach_of(table);
    let mut origins = Origins::start(table, p, table.weight() + 1);
    'origins: loop {
        match origins.next(table, p) {
            None => return Ok(()),
            Some(origin) => {
                if is_late(bound, origin) {
                    return Ok(());
                }
                match test_next(
                    alloc, table, p, guide, section, rows, &leads, step, origin, work,
                ) {
                    Ok(after) => step = after,
                    Err(fault) => return Err(fault),
                }
            }
        }
    }
}
