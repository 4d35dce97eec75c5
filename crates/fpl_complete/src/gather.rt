//! The rows of the origins of a weight, gathered in echelon form.
ghost use Rattle.std.specs.Prelude.{◌≡◌, ◌≤◌, ◌<◌, ◌+◌, length, Ok, IfOk, IfErr, OnOk, IfSome, OnSome, Contains};
ghost use Rattle.fpl_numbers.specs.Results.{Gives, GivesBy};
ghost use Rattle.fpl_table.specs.Plain.{symbols_in};
ghost use Rattle.plain_tables.specs.Holds.{Holds};
ghost use Rattle.fpl_rewrite.specs.Origins.{origins_of};
ghost use Rattle.fpl_rewrite.specs.Cursor.{to_come};
ghost use Rattle.fpl_model.specs.Sound.{IsSound};
ghost use Rattle.fpl_table.specs.Shape.{Agrees};
ghost use Rattle.plain_weights.specs.Weight.{begun};
ghost use Rattle.fpl_rewrite.specs.Filling.{empty_for};
ghost use Rattle.plain_weights.specs.Lean.{put_lean, gather_lean};

use fpl_check::{is_late, reach_of};
use fpl_echelon::Echelon;
use fpl_log::Origin;
use fpl_model::Presentation;
use fpl_rewrite::{Guide, Origins, fill_row};
use fpl_rows::Work;
use fpl_scalar::{Fault, Field};
use fpl_steps::Steps;
use fpl_table::{Symbols, Table};
use std::alloc::Global;
use std::sync::ledger::Ledger;

/// The rows of origins in echelon form, and how many origins there are.
#[derive(Drop)]
pub(crate) struct Gathered<F: Field> {
    pub echelon: Echelon<F>,
    pub origins: u64,
}

/// Forms the row of an origin in an empty row in work, and inserts it.
#[inline(always)]
fn put<F: Field, L: Ledger>(
    alloc: Global,
    table: &Table<F>,
    p: &Presentation,
    guide: &Guide,
    origin: Origin,
    work: &mut Work<F>,
    echelon: &mut Echelon<F>,
    steps: &mut Steps<L>,
) -> Result<(), Fault>
    requires holds { Holds p.now table.now }
    requires symbols { guide.now.symbols.now.symbols ≡ symbols_in table.now }
    requires listed { Contains (origins_of table.now p.now) origin }
    requires empty { work.old ≡ empty_for table.now }
    requires kind { echelon.old.kind ≡ table.now.kind }
    requires size { echelon.old.size ≡ length (symbols_in table.now) }
    ensures value { Gives result echelon.new (put_lean table.now p.now origin echelon.old) }
    ensures kind { echelon.new.kind ≡ echelon.old.kind }
    ensures size { echelon.new.size ≡ echelon.old.size }
    ensures emptied { OnOk result (work.new ≡ work.old) }
    ensures step { OnOk result (steps.new ≡ steps.old + 1) }
    ensures most { (steps.old ≤ steps.new) × (steps.new ≤ steps.old + 1) }
{
    match fill_row(alloc, table, p, guide, origin, work) {
        Ok(()) => match echelon.insert_lean(work, origin, steps) {
            Ok(_) => Ok(()),
            Err(fault) => Err(fault),
        },
        Err(fault) => Err(fault),
    }
}

/// An empty row in work over the symbols of the weight after the table's.
pub(crate) fn empty_work<F: Field>(
    alloc: Global,
    table: &Table<F>,
    symbols: &Symbols,
) -> Result<Work<F>, Fault>
    requires symbols { symbols.now.symbols ≡ symbols_in table.now }
    ensures value { IfOk result (λ w. w ≡ empty_for table.now) }
    ensures fault { IfErr result (λ fault. fault ≡ Fault.NoMemory) }
{
    match Work::new(alloc, *table.field(), symbols.len()) {
        Ok(work) => Ok(work),
        Err(_) => Err(Fault::NoMemory),
    }
}

/// Passes over all origins that are still to come, each of them a step, and counts on from `passed`,
/// up to 2^64 - 1.
fn pass_over<F: Field, L: Ledger>(
    table: &Table<F>,
    p: &Presentation,
    at: &mut Origins,
    passed: u64,
    steps: &mut Steps<L>,
) -> Option<u64>
    requires sound { IsSound p.now }
    requires agrees { Agrees table.now p.now }
    requires weight { at.old.weight ≡ table.now.weight + 1 }
    ensures some { IfSome result (λ count. count ≡ passed + length (to_come table.now p.now at.old)) }
    ensures step { OnSome result (steps.new ≡ steps.old + length (to_come table.now p.now at.old)) }
    ensures most { (steps.old ≤ steps.new) × (steps.new ≤ steps.old + length (to_come table.now p.now at.old)) }
{
    for count in passed..u64::MAX {
        match at.next(table, p) {
            None => return Some(count),
            Some(_) => steps.tick(),
        }
    }
    None
}

/// Gathers the rows of all origins of the weight after the table's; those of triples behind the
/// last generator add nothing over a prime other than 3, and aren't formed. To list 2^64 origins
/// takes more memory than there is.
pub(crate) fn gather<F: Field, L: Ledger>(
    alloc: Global,
    table: &Table<F>,
    p: &Presentation,
    guide: &Guide,
    steps: &mut Steps<L>,
) -> Result<Gathered<F>, Fault>
    requires holds { Holds p.now table.now }
    requires symbols { guide.now.symbols.now.symbols ≡ symbols_in table.now }
    ensures value { GivesBy (λ g. g.echelon) result (gather_lean table.now p.now (origins_of table.now p.now) (begun table.now)) }
    ensures kind { IfOk result (λ g. g.echelon.kind ≡ table.now.kind) }
    ensures size { IfOk result (λ g. g.echelon.size ≡ length (symbols_in table.now)) }
    ensures origins { IfOk result (λ g. g.origins ≡ length (origins_of table.now p.now)) }
    ensures step { OnOk result (steps.new ≡ steps.old + length (origins_of table.now p.now)) }
    ensures most { (steps.old ≤ steps.new) × (steps.new ≤ steps.old + length (origins_of table.now p.now)) }
{
    let mut work = empty_work(alloc, table, guide.symbols)?;
    let mut echelon = match Echelon::start(alloc, *table.field(), guide.symbols.len()) {
        Ok(echelon) => echelon,
        Err(_) => return Err(Fault::NoMemory),
    };
    let bound = reach_of(table);
    let mut at = Origins::start(table, p, table.weight() + 1);
    for origins in 0..u64::MAX {
        match at.next(table, p) {
            None => return Ok(Gathered { echelon, origins }),
            Some(origin) => {
                if is_late(bound, origin) {
                    steps.tick();
                    return match pass_over(table, p, &mut at, origins + 1, steps) {
                        Some(origins) => Ok(Gathered { echelon, origins }),
                        None => Err(Fault::NoMemory),
                    };
                }
                match put(
                    alloc,
                    table,
                    p,
                    guide,
                    origin,
                    &mut work,
                    &mut echelon,
                    steps,
                ) {
                    Ok(()) => {}
                    Err(fault) => return Err(fault),
                }
            }
        }
    }
    Err(Fault::NoMemory)
}
