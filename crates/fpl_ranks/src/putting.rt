//! What rows of residues span. A row of a matrix has few 0, so it is swept as it is, in lanes, and not in work.
ghost use Rattle.std.specs.Prelude.{◌≡◌, ◌≤◌, ◌+◌, ℕ, List, map, false, slice_index_or, Ok, OnOk, IsTrue, IfOk, IfErr};
ghost use Rattle.fpl_numbers.specs.declared.number.Num.{Num};
ghost use Rattle.fpl_numbers.specs.declared.number.Fault.TheVariants.{NoMemory};
ghost use Rattle.fpl_numbers.specs.Results.{Gives, GivesBy, map_ok};
ghost use Rattle.fpl_log.specs.declared.step.Origin.TheVariants.{Row as OfRow};
ghost use Rattle.fpl_rows.specs.Meaning.{IsRowOf, AreRows};
ghost use Rattle.plain_elimination.specs.Plain.{insert_of, inserted_as, rows_of};
ghost use Rattle.plain_elimination.specs.Spans.{ClosesTo};
ghost use Rattle.plain_spans.specs.Plain.{begin, put_row, closed_of, span_of};
ghost use Rattle.fpl_echelon.specs.Outcomes.{lead_in};
ghost use Rattle.fpl_ranks.specs.Leads.{IsOverPrime, OthersNeverLead, LowersLead, SpansRows};

use crate::leading::settle;
use fpl_echelon::{Echelon, Outcome};
use fpl_log::Origin;
use fpl_rows::{Row, Rows};
use fpl_scalar::{Fault, Residue};
use fpl_steps::Steps;
use fpl_table::Table;
use std::alloc::Global;
use std::sync::ledger::Ledger;

fn are_down(flags: &[bool]) -> bool
    ensures { IsTrue result → (s : ℕ) → slice_index_or flags.now s false ≡ false }
{
    for flag in flags {
        if *flag {
            return false;
        }
    }
    true
}

// Puts a row in, and takes down the flag at the place of its lead.
fn put<L: Ledger>(
    echelon: &mut Echelon<Residue>,
    flags: &mut Vec<bool>,
    row: Row<Residue>,
    steps: &mut Steps<L>,
) -> Result<Outcome, Fault>
    requires { IsRowOf echelon.old.kind echelon.old.size row }
    ensures value { Gives result echelon.new (put_row (Ok row) echelon.old) }
    ensures held { GivesBy (λ outcome. inserted_as (lead_in outcome) echelon.new.held) result (insert_of echelon.old row (OfRow 0)) }
    ensures kind { echelon.new.kind ≡ echelon.old.kind }
    ensures size { echelon.new.size ≡ echelon.old.size }
    ensures flags { IfOk result (λ outcome. LowersLead flags.old.items (lead_in outcome) flags.new.items) }
    ensures step { steps.new ≡ steps.old + 1 }
{
    match echelon.insert(row, Origin::Row(0), steps) {
        Ok(Outcome::Pivot(lead)) => {
            settle(flags, lead);
            Ok(Outcome::Pivot(lead))
        }
        Ok(Outcome::Dependent) => Ok(Outcome::Dependent),
        Err(fault) => Err(fault),
    }
}

// Puts rows in until each place that may lead has its pivot row: the others then depend on these.
fn put_all<L: Ledger>(
    alloc: Global,
    echelon: &mut Echelon<Residue>,
    flags: &mut Vec<bool>,
    rows: &Rows<Residue>,
    steps: &mut Steps<L>,
) -> Result<(), Fault>
    requires over { IsOverPrime echelon.old.kind }
    requires rows { AreRows echelon.old.kind echelon.old.size rows.now }
    requires none { echelon.old ≡ begin echelon.old.kind echelon.old.size }
    requires flags { OthersNeverLead echelon.old.kind rows.now flags.old.items }
    ensures spans { OnOk result (SpansRows echelon.new rows.now) }
    ensures kind { echelon.new.kind ≡ echelon.old.kind }
    ensures size { echelon.new.size ≡ echelon.old.size }
    ensures fault { IfErr result (λ fault. fault ≡ NoMemory) }
    ensures rises { steps.old ≤ steps.new }
{
    for k in 0..rows.len() {
        if are_down(flags) {
            return Ok(());
        }
        if let Some(row) = rows.get(k) {
            let copy = row.copy(alloc)?;
            match put(echelon, flags, copy, steps) {
                Ok(_) => {}
                Err(fault) => return Err(fault),
            }
        }
    }
    Ok(())
}

fn close(echelon: Echelon<Residue>) -> Result<Rows<Residue>, Fault>
    ensures value { GivesBy (λ (rows : List (List Num)). rows) result (map_ok rows_of (closed_of echelon)) }
    ensures form { IfOk result (λ rows. ClosesTo echelon rows) }
{
    match echelon.close() {
        Ok(closed) => Ok(closed.rows),
        Err(fault) => Err(fault),
    }
}

/// What rows span, closed. Nothing in their span has its lead at a place without a flag.
pub(crate) fn closed_rows<L: Ledger>(
    alloc: Global,
    table: &Table<Residue>,
    places: u32,
    rows: &Rows<Residue>,
    flags: &mut Vec<bool>,
    steps: &mut Steps<L>,
) -> Result<Rows<Residue>, Fault>
    requires over { IsOverPrime table.now.kind }
    requires rows { AreRows table.now.kind places rows.now }
    requires flags { OthersNeverLead table.now.kind rows.now flags.old.items }
    ensures value { GivesBy (λ (closed : List (List Num)). closed) result (span_of table.now.kind places (map Ok rows.now)) }
    ensures rises { steps.old ≤ steps.new }
{
    let mut echelon = Echelon::start(alloc, *table.field(), places)?;
    match put_all(alloc, &mut echelon, flags, rows, steps) {
        Ok(()) => close(echelon),
        Err(fault) => Err(fault),
    }
}
