//! Terms of the coboundary of a 2-form.
ghost use Rattle.std.specs.Prelude.{◌≡◌, ◌≤◌, ◌<◌, ◌+◌, ◌-◌, length, OnOk};
ghost use Rattle.fpl_numbers.specs.Numbers.{IsElement};
ghost use Rattle.fpl_numbers.specs.Results.{Gives};
ghost use Rattle.fpl_scalar.specs.Vectors.{AreElements};
ghost use Rattle.fpl_table.specs.Plain.{plain_basis, first_partner, pairing};
ghost use Rattle.fpl_table.specs.Shape.{IsRowUpTo};
ghost use Rattle.fpl_table.specs.Sums.{add_each};
ghost use Rattle.plain_cohomology.specs.Plain.{add_pair, add_term, add_terms};

use crate::pairs::Pairs;
use fpl_rows::Row;
use fpl_scalar::{Fault, Field};
use fpl_table::{PairSign, Table};

/// Adds `c` at the pair of basis elements `i` and `j`, with the sign of the exchange that brings
/// them in order. An even element with itself gives nothing.
fn add_pair<F: Field>(
    table: &Table<F>,
    pairs: &Pairs,
    i: u32,
    j: u32,
    c: F::Elem,
    row: &mut Row<F>,
) -> Result<(), Fault>
    requires left { (1 ≤ i) × (i ≤ length table.now.basis) }
    requires right { (1 ≤ j) × (j ≤ length table.now.basis) }
    requires added { IsElement table.now.kind (F.number c) }
    requires row { AreElements table.now.kind row.old }
    requires whole { length row.old ≡ length pairs.now }
    ensures value { Gives result row.new (add_pair table.now pairs.now (pairing table.now (i - 1) (j - 1)) (F.number c) row.old) }
    ensures elements { OnOk result (AreElements table.now.kind row.new) }
    ensures whole { length row.new ≡ length row.old }
{
    let field = table.field();
    match table.pair(i, j) {
        PairSign::Zero => Ok(()),
        PairSign::Plus(k, l) => pairs.add_at(field, k, l, c, row),
        PairSign::Minus(k, l) => pairs.add_at(field, k, l, field.neg(c), row),
    }
}

/// Where the numbers of an entry go: beside the basis element at a place, from 0, and with the
/// opposite sign where it is negated.
#[derive(Clone, Copy, Debug)]
pub(crate) struct Beside {
    pub place: u32,
    pub negated: bool,
}

/// Adds the number of one basis element of an entry, which counts from 1.
fn add_term<F: Field>(
    table: &Table<F>,
    pairs: &Pairs,
    beside: Beside,
    t: u32,
    c: F::Elem,
    row: &mut Row<F>,
) -> Result<(), Fault>
    requires place { beside.place < length table.now.basis }
    requires term { (1 ≤ t) × (t ≤ length table.now.basis) }
    requires added { IsElement table.now.kind (F.number c) }
    requires row { AreElements table.now.kind row.old }
    requires whole { length row.old ≡ length pairs.now }
    ensures value { Gives result row.new (add_term table.now pairs.now beside.negated beside.place (t - 1) (F.number c) row.old) }
    ensures elements { OnOk result (AreElements table.now.kind row.new) }
    ensures whole { length row.new ≡ length row.old }
{
    let _count = table.basis_len();
    let signed = if beside.negated {
        table.field().neg(c)
    } else {
        c
    };
    add_pair(table, pairs, t, beside.place + 1, signed, row)
}

/// Adds the numbers of an entry, each at its pair, by ascending basis element.
fn add_each<F: Field>(
    table: &Table<F>,
    pairs: &Pairs,
    entry: &Row<F>,
    beside: Beside,
    row: &mut Row<F>,
) -> Result<(), Fault>
    requires place { beside.place < length table.now.basis }
    requires entry { IsRowUpTo table.now.kind (length table.now.basis) entry.now }
    requires row { AreElements table.now.kind row.old }
    requires whole { length row.old ≡ length pairs.now }
    ensures value { Gives result row.new (add_each (add_term table.now pairs.now beside.negated beside.place) 0 entry.now row.old) }
    ensures elements { OnOk result (AreElements table.now.kind row.new) }
    ensures whole { length row.new ≡ length row.old }
{
    let mut after = 0;
    while let Some(t) = entry.next(after) {
        match add_term(table, pairs, beside, t, entry.at(t), row) {
            Ok(()) => {}
            Err(fault) => return Err(fault),
        }
        after = t;
    }
    Ok(())
}

/// Adds the numbers of the entry of a regular pair of places, from 0, within the table's weight.
pub(crate) fn add_terms<F: Field>(
    table: &Table<F>,
    pairs: &Pairs,
    i: u32,
    j: u32,
    beside: Beside,
    row: &mut Row<F>,
) -> Result<(), Fault>
    requires left { i < length table.now.basis }
    requires right { j < length table.now.basis }
    requires regular { first_partner table.now i ≤ j }
    requires reached { (plain_basis table.now i).weight + (plain_basis table.now j).weight ≤ table.now.weight }
    requires place { beside.place < length table.now.basis }
    requires row { AreElements table.now.kind row.old }
    requires whole { length row.old ≡ length pairs.now }
    ensures value { Gives result row.new (add_terms table.now pairs.now beside.negated i j beside.place row.old) }
    ensures elements { OnOk result (AreElements table.now.kind row.new) }
    ensures whole { length row.new ≡ length row.old }
{
    let _count = table.basis_len();
    add_each(table, pairs, table.entry(i + 1, j + 1), beside, row)
}
