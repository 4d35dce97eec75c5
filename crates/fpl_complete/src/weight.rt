//! The closed rows of a weight, and its section.
ghost use Rattle.std.specs.Prelude.{◌≡◌, ◌≤◌, ◌<◌, ◌+◌, length, Ok, IfOk, OnOk, Contains};
ghost use Rattle.fpl_numbers.specs.Results.{Gives, GivesBy, map_ok, and_then};
ghost use Rattle.fpl_rows.specs.Meaning.{IsClosedList};
ghost use Rattle.plain_elimination.specs.Plain.{Held, rows_of, sweep_rows};
ghost use Rattle.fpl_rewrite.specs.Rows.{row_of_origin};
ghost use Rattle.fpl_echelon.specs.Outcomes.{closed_as};
ghost use Rattle.fpl_echelon.specs.Leads.{IsLeadIndex};
ghost use Rattle.fpl_table.specs.Plain.{symbols_in};
ghost use Rattle.plain_tables.specs.Holds.{Holds};
ghost use Rattle.fpl_rewrite.specs.Origins.{origins_of};
ghost use Rattle.plain_weights.specs.Weight.{again, close_weight};
ghost use Rattle.fpl_rewrite.specs.Filling.{empty_for};
ghost use Rattle.plain_weights.specs.Lean.{close_lean};
ghost use Rattle.plain_weights.specs.Section.{section_of};
ghost use Rattle.fpl_complete.specs.State.{weighed_as};

use crate::gather::{Gathered, empty_work, gather};
use crate::section::section_of;
use crate::weighed::Weighed;
use fpl_echelon::{Closed, Leads, sweep_work_by};
use fpl_log::Origin;
use fpl_model::Presentation;
use fpl_rewrite::{Guide, Origins, fill_row};
use fpl_rows::{Rows, Work};
use fpl_scalar::{Fault, Field, Kind};
use fpl_steps::Steps;
use fpl_table::Table;
use std::alloc::Global;
use std::sync::ledger::Ledger;

/// The closed rows of a weight, the steps that made them, and how many origins there are.
#[derive(Drop)]
struct ClosedWeight<F: Field> {
    closed: Closed<F>,
    origins: u64,
}

/// Forms the row of an origin again in an empty row in work, and sweeps it by closed rows.
#[inline(always)]
fn sweep_one<F: Field>(
    alloc: Global,
    table: &Table<F>,
    p: &Presentation,
    guide: &Guide,
    rows: &Rows<F>,
    leads: &Leads,
    origin: Origin,
    work: &mut Work<F>,
) -> Result<(), Fault>
    requires holds { Holds p.now table.now }
    requires symbols { guide.now.symbols.now.symbols ≡ symbols_in table.now }
    requires listed { Contains (origins_of table.now p.now) origin }
    requires closed { IsClosedList table.now.kind (length (symbols_in table.now)) rows.now }
    requires leads { IsLeadIndex rows.now leads.now }
    requires empty { work.old ≡ empty_for table.now }
    ensures value { (h : Held) → Gives result h (and_then (λ row. and_then (λ left. Ok h) (sweep_rows table.now.kind rows.now row)) (row_of_origin table.now p.now origin)) }
    ensures emptied { OnOk result (work.new ≡ work.old) }
{
    match fill_row(alloc, table, p, guide, origin, work) {
        Ok(()) => match sweep_work_by(table.field(), rows, leads, work) {
            Ok(()) => {
                work.clear();
                Ok(())
            }
            Err(u) => Err(Fault::Unfit(u)),
        },
        Err(fault) => Err(fault),
    }
}

/// Forms the rows of all origins again, and sweeps each by the closed rows.
fn sweep_again<F: Field>(
    alloc: Global,
    table: &Table<F>,
    p: &Presentation,
    guide: &Guide,
    rows: &Rows<F>,
) -> Result<(), Fault>
    requires holds { Holds p.now table.now }
    requires symbols { guide.now.symbols.now.symbols ≡ symbols_in table.now }
    requires closed { IsClosedList table.now.kind (length (symbols_in table.now)) rows.now }
    ensures value { (h : Held) → Gives result h (again table.now p.now rows.now (origins_of table.now p.now) h) }
{
    let leads = match Leads::of(alloc, guide.symbols.len(), rows) {
        Ok(leads) => leads,
        Err(_) => return Err(Fault::NoMemory),
    };
    let mut work = empty_work(alloc, table, guide.symbols)?;
    let mut origins = Origins::start(table, p, table.weight() + 1);
    'origins: loop {
        match origins.next(table, p) {
            None => return Ok(()),
            Some(origin) => {
                match sweep_one(alloc, table, p, guide, rows, &leads, origin, &mut work) {
                    Ok(()) => {}
                    Err(fault) => return Err(fault),
                }
            }
        }
    }
}

/// Closes the weight after the table's, and records no step of a dependent origin.
fn close_weight<F: Field, L: Ledger>(
    alloc: Global,
    table: &Table<F>,
    p: &Presentation,
    steps: &mut Steps<L>,
) -> Result<ClosedWeight<F>, Fault>
    requires holds { Holds p.now table.now }
    requires few { length (symbols_in table.now) ≤ 2000000 }
    ensures value { GivesBy (λ c. closed_as c.closed.rows c.closed.steps) result (map_ok (λ h. closed_as (rows_of h.pivots) h.steps) (close_lean table.now p.now)) }
    ensures closed { IfOk result (λ c. IsClosedList table.now.kind (length (symbols_in table.now)) c.closed.rows) }
    ensures origins { IfOk result (λ c. c.origins ≡ length (origins_of table.now p.now)) }
    ensures step { OnOk result (steps.new ≡ steps.old + length (origins_of table.now p.now)) }
    ensures most { (steps.old ≤ steps.new) × (steps.new ≤ steps.old + length (origins_of table.now p.now)) }
{
    let symbols = match table.symbols(alloc, table.weight() + 1) {
        Ok(symbols) => symbols,
        Err(_) => return Err(Fault::NoMemory),
    };
    let guide = match Guide::of(alloc, table, &symbols) {
        Ok(guide) => guide,
        Err(_) => return Err(Fault::NoMemory),
    };
    let Gathered { echelon, origins } = match gather(alloc, table, p, &guide, steps) {
        Ok(gathered) => gathered,
        Err(fault) => return Err(fault),
    };
    let closed = match echelon.close() {
        Ok(closed) => closed,
        Err(fault) => return Err(fault),
    };
    match table.field().kind() {
        Kind::Prime(_) => Ok(ClosedWeight { closed, origins }),
        Kind::Rational => match sweep_again(alloc, table, p, &guide, &closed.rows) {
            Ok(()) => Ok(ClosedWeight { closed, origins }),
            Err(fault) => Err(fault),
        },
    }
}

/// Completes the weight after the table's: its closed rows, and its slimmed section.
pub fn complete_weight<F: Field, L: Ledger>(
    alloc: Global,
    table: &Table<F>,
    p: &Presentation,
    steps: &mut Steps<L>,
) -> Result<Weighed<F>, Fault>
    requires holds { Holds p.now table.now }
    requires few { length (symbols_in table.now) ≤ 2000000 }
    requires weight { table.now.weight < 1000 }
    ensures value { GivesBy (λ w. weighed_as w.rows w.section) result (map_ok (λ h. weighed_as (rows_of h.pivots) (section_of table.now p.now h))
        (close_weight table.now p.now)) }
    ensures closed { IfOk result (λ w. IsClosedList table.now.kind (length (symbols_in table.now)) w.rows) }
    ensures step { OnOk result (steps.new ≡ steps.old + length (origins_of table.now p.now)) }
    ensures most { (steps.old ≤ steps.new) × (steps.new ≤ steps.old + length (origins_of table.now p.now)) }
{
    let ClosedWeight { closed, origins } = match close_weight(alloc, table, p, steps) {
        Ok(closed) => closed,
        Err(fault) => return Err(fault),
    };
    let Closed {
        steps: recorded,
        rows,
    } = closed;
    let weight = table.weight() + 1;
    match section_of(alloc, table.field(), weight, origins, recorded, &rows) {
        Ok(section) => Ok(Weighed { rows, section }),
        Err(_) => Err(Fault::NoMemory),
    }
}
