//! The next weight of what is known.
ghost use Rattle.std.specs.Prelude.{◌≡◌, ◌≤◌, ◌<◌, length, OnOk};
ghost use Rattle.fpl_table.specs.Plain.{symbols_in};
ghost use Rattle.fpl_table.specs.Push.{push_of};
ghost use Rattle.fpl_check.specs.Premises.{IsSectionFor};
ghost use Rattle.fpl_check.specs.Check.{Accepts, rows_stored};
ghost use Rattle.fpl_forms.specs.Ledgers.{Grows};
ghost use Rattle.fpl_table_facts.specs.Known.{IsKnown};

use crate::closed::{close_zeros, leads_of, stored_rows};
use crate::level::{new_basis, symbol_values};
use crate::steps::conclusions;
use fpl_forms::Ledger;
use fpl_log::Section;
use fpl_model::Presentation;
use fpl_table_facts::{Known, Level, next_of};
use std::alloc::{AllocError, Global};

/// From an accepted section: what is known of the weight after the table's.
pub(crate) fn learn<'a>(
    alloc: Global,
    ledger: &mut Ledger<'a>,
    p: &Presentation,
    known: &mut Known,
    section: &Section,
) -> Result<(), AllocError>
    requires presentation { p.now ≡ ledger.old.presentation }
    requires known { IsKnown ledger.old known.old }
    requires weight { known.old.table.weight < 1000 }
    requires few { length (symbols_in known.old.table) ≤ 2000000 }
    requires section { IsSectionFor known.old.table section.now }
    requires accepted { Accepts known.old.table ledger.old.presentation section.now (rows_stored known.old.table section.now) }
    ensures grows { OnOk result (Grows ledger.old ledger.new) }
    ensures known { OnOk result (IsKnown ledger.new known.new) }
    ensures table { OnOk result (known.new.table ≡ push_of known.old.table (rows_stored known.old.table section.now)) }
{
    ledger.sound();
    let next = next_of(alloc, known)?;
    let zeros = conclusions(alloc, ledger, p, known, &next, section)?;
    let closed = close_zeros(alloc, &section.steps, zeros)?;
    let rows = stored_rows(
        alloc,
        known.table.field(),
        next.symbols.len(),
        &section.closed,
    )?;
    let leads = leads_of(alloc, &rows)?;
    known.table.push_weight(&rows)?;
    let before = known.basis.len();
    new_basis(alloc, &mut known.basis, &next.trees, &leads)?;
    let values = symbol_values(
        alloc,
        ledger,
        &known.basis,
        before,
        &next.trees,
        &leads,
        &closed,
    )?;
    let symbols = next.symbols;
    known.levels.push(Level { symbols, values })?;
    Ok(())
}
