ghost use Rattle.std.specs.Prelude.{◌≡◌, ◌≤◌, ◌+◌, ◌-◌, length, map};
ghost use Rattle.fpl_numbers.specs.Numbers.{IsElement};
ghost use Rattle.fpl_numbers.specs.Results.{Gives};
ghost use Rattle.fpl_scalar.specs.Vectors.{AreElements};
ghost use Rattle.fpl_rows.specs.Packing.{IsPacking};
ghost use Rattle.fpl_table.specs.Plain.{plain_basis, symbols_in, pairing};
ghost use Rattle.fpl_table.specs.Shape.{IsRowUpTo};
ghost use Rattle.fpl_table.specs.Sums.{add_each};
ghost use Rattle.fpl_rewrite.specs.Rows.{add_signed, add_symbol, entry_if};
ghost use Rattle.fpl_rewrite.specs.Terms.{add_if, add_cells, terms_of, IsPlace};

use crate::guide::Guide;
use fpl_rows::{Row, Work};
use fpl_scalar::{Fault, Field};
use fpl_table::{PairSign, Table};

/// The basis element that stands in a bracket with each basis element of an entry, and its side.
#[derive(Clone, Copy, Debug)]
pub enum Beside {
    /// `[b_i, b_t]` for each `b_t`.
    After(u32),
    /// `[b_t, b_k]` for each `b_t`.
    Before(u32),
}

/// Adds `c` at the symbol of a pair. What is none of the symbols counts as 0.
#[inline(always)]
fn add_symbol<F: Field>(
    table: &Table<F>,
    guide: &Guide,
    i: u32,
    j: u32,
    c: F::Elem,
    work: &mut Work<F>,
) -> Result<(), Fault>
    requires numbered { (1 ≤ i) × (1 ≤ j) }
    requires symbols { guide.now.symbols.now.symbols ≡ symbols_in table.now }
    requires kind { work.old.kind ≡ table.now.kind }
    requires added { IsElement table.now.kind (F.number c) }
    requires whole { length work.old.row ≡ length guide.now.symbols.now.symbols }
    ensures value { Gives result work.new.row (add_symbol table.now (i - 1) (j - 1) (F.number c) work.old.row) }
    ensures kind { work.new.kind ≡ table.now.kind }
    ensures whole { length work.new.row ≡ length work.old.row }
{
    match guide.number(table, i, j) {
        None => Ok(()),
        Some(s) => match work.add_at(s, c) {
            Ok(()) => Ok(()),
            Err(u) => Err(Fault::Unfit(u)),
        },
    }
}

/// Adds `c` at the bracket of basis elements `i` and `j`, with the sign of its pair.
#[inline(always)]
pub fn add_signed<F: Field>(
    table: &Table<F>,
    guide: &Guide,
    i: u32,
    j: u32,
    c: F::Elem,
    work: &mut Work<F>,
) -> Result<(), Fault>
    requires left { (1 ≤ i) × (i ≤ length table.now.basis) }
    requires right { (1 ≤ j) × (j ≤ length table.now.basis) }
    requires symbols { guide.now.symbols.now.symbols ≡ symbols_in table.now }
    requires added { IsElement table.now.kind (F.number c) }
    requires kind { work.old.kind ≡ table.now.kind }
    requires whole { length work.old.row ≡ length guide.now.symbols.now.symbols }
    ensures value { Gives result work.new.row (add_signed table.now (pairing table.now (i - 1) (j - 1)) (F.number c) work.old.row) }
    ensures kind { work.new.kind ≡ table.now.kind }
    ensures whole { length work.new.row ≡ length work.old.row }
{
    let field = table.field();
    match table.pair(i, j) {
        PairSign::Zero => Ok(()),
        PairSign::Plus(k, l) => add_symbol(table, guide, k, l, c, work),
        PairSign::Minus(k, l) => add_symbol(table, guide, k, l, field.neg(c), work),
    }
}

/// Adds the number of one basis element of an entry.
#[inline(always)]
fn add_term<F: Field>(
    table: &Table<F>,
    guide: &Guide,
    beside: Beside,
    negated: bool,
    t: u32,
    c: F::Elem,
    work: &mut Work<F>,
) -> Result<(), Fault>
    requires place { IsPlace table.now beside }
    requires term { (1 ≤ t) × (t ≤ length table.now.basis) }
    requires symbols { guide.now.symbols.now.symbols ≡ symbols_in table.now }
    requires added { IsElement table.now.kind (F.number c) }
    requires kind { work.old.kind ≡ table.now.kind }
    requires whole { length work.old.row ≡ length guide.now.symbols.now.symbols }
    ensures value { Gives result work.new.row (terms_of table.now beside negated (t - 1) (F.number c) work.old.row) }
    ensures kind { work.new.kind ≡ table.now.kind }
    ensures whole { length work.new.row ≡ length work.old.row }
{
    let signed = if negated { table.field().neg(c) } else { c };
    match beside {
        Beside::After(i) => add_signed(table, guide, i, t, signed, work),
        Beside::Before(k) => add_signed(table, guide, t, k, signed, work),
    }
}

/// The same where the number is not 0.
#[inline(always)]
fn add_cell<F: Field>(
    table: &Table<F>,
    guide: &Guide,
    beside: Beside,
    negated: bool,
    t: u32,
    c: F::Elem,
    work: &mut Work<F>,
) -> Result<(), Fault>
    requires place { IsPlace table.now beside }
    requires term { (1 ≤ t) × (t ≤ length table.now.basis) }
    requires symbols { guide.now.symbols.now.symbols ≡ symbols_in table.now }
    requires added { IsElement table.now.kind (F.number c) }
    requires kind { work.old.kind ≡ table.now.kind }
    requires whole { length work.old.row ≡ length guide.now.symbols.now.symbols }
    ensures value { Gives result work.new.row (add_if (terms_of table.now beside negated) (t - 1) (F.number c) work.old.row) }
    ensures kind { work.new.kind ≡ table.now.kind }
    ensures whole { length work.new.row ≡ length work.old.row }
{
    if table.field().is_zero(c) {
        return Ok(());
    }
    add_term(table, guide, beside, negated, t, c, work)
}

/// Adds the numbers of an entry at some places, which count from 0, each at its pair.
#[inline(always)]
fn add_cells<F: Field>(
    table: &Table<F>,
    guide: &Guide,
    places: &[u32],
    numbers: &[F::Elem],
    beside: Beside,
    negated: bool,
    work: &mut Work<F>,
) -> Result<(), Fault>
    requires place { IsPlace table.now beside }
    requires packing { IsPacking (length table.now.basis) places.now (length numbers.now) }
    requires numbers { AreElements table.now.kind (map F.number numbers.now) }
    requires symbols { guide.now.symbols.now.symbols ≡ symbols_in table.now }
    requires kind { work.old.kind ≡ table.now.kind }
    requires whole { length work.old.row ≡ length guide.now.symbols.now.symbols }
    ensures value { Gives result work.new.row (add_cells (terms_of table.now beside negated) places.now (map F.number numbers.now) work.old.row) }
    ensures kind { work.new.kind ≡ table.now.kind }
    ensures whole { length work.new.row ≡ length work.old.row }
{
    // its clause bounds the places
    let _count = table.basis_len();
    for k in 0..places.len() {
        match add_cell(
            table,
            guide,
            beside,
            negated,
            places[k] + 1,
            numbers[k],
            work,
        ) {
            Ok(()) => {}
            Err(fault) => return Err(fault),
        }
    }
    Ok(())
}

/// Adds the numbers of an entry, each at its pair, from one position that is not 0 to the next.
#[inline(always)]
fn add_by_position<F: Field>(
    table: &Table<F>,
    guide: &Guide,
    entry: &Row<F>,
    beside: Beside,
    negated: bool,
    work: &mut Work<F>,
) -> Result<(), Fault>
    requires place { IsPlace table.now beside }
    requires entry { IsRowUpTo table.now.kind (length table.now.basis) entry.now }
    requires symbols { guide.now.symbols.now.symbols ≡ symbols_in table.now }
    requires kind { work.old.kind ≡ table.now.kind }
    requires whole { length work.old.row ≡ length guide.now.symbols.now.symbols }
    ensures value { Gives result work.new.row (add_each (terms_of table.now beside negated) 0 entry.now work.old.row) }
    ensures kind { work.new.kind ≡ table.now.kind }
    ensures whole { length work.new.row ≡ length work.old.row }
{
    let mut after = 0;
    while let Some(t) = entry.next(after) {
        match add_term(table, guide, beside, negated, t, entry.at(t), work) {
            Ok(()) => {}
            Err(fault) => return Err(fault),
        }
        after = t;
    }
    Ok(())
}

/// Adds the numbers of an entry, each at its pair, by ascending basis element.
#[inline(always)]
fn add_terms<F: Field>(
    table: &Table<F>,
    guide: &Guide,
    entry: &Row<F>,
    beside: Beside,
    negated: bool,
    work: &mut Work<F>,
) -> Result<(), Fault>
    requires place { IsPlace table.now beside }
    requires entry { IsRowUpTo table.now.kind (length table.now.basis) entry.now }
    requires symbols { guide.now.symbols.now.symbols ≡ symbols_in table.now }
    requires kind { work.old.kind ≡ table.now.kind }
    requires whole { length work.old.row ≡ length guide.now.symbols.now.symbols }
    ensures value { Gives result work.new.row (add_each (terms_of table.now beside negated) 0 entry.now work.old.row) }
    ensures kind { work.new.kind ≡ table.now.kind }
    ensures whole { length work.new.row ≡ length work.old.row }
{
    match entry.cells() {
        Some((places, numbers)) => {
            add_cells(table, guide, places, numbers, beside, negated, work)
        }
        None => add_by_position(table, guide, entry, beside, negated, work),
    }
}

/// Adds the numbers of the entry of `(i, j)` for `i <= j`. There is none for an even element
/// with itself.
#[inline(always)]
pub fn add_entry<F: Field>(
    table: &Table<F>,
    guide: &Guide,
    i: u32,
    j: u32,
    beside: Beside,
    negated: bool,
    work: &mut Work<F>,
) -> Result<(), Fault>
    requires first { (1 ≤ i) × (i ≤ j) }
    requires within { j ≤ length table.now.basis }
    requires reached { (plain_basis table.now (i - 1)).weight + (plain_basis table.now (j - 1)).weight ≤ table.now.weight }
    requires place { IsPlace table.now beside }
    requires symbols { guide.now.symbols.now.symbols ≡ symbols_in table.now }
    requires kind { work.old.kind ≡ table.now.kind }
    requires whole { length work.old.row ≡ length guide.now.symbols.now.symbols }
    ensures value { Gives result work.new.row (add_each (terms_of table.now beside negated) 0 (entry_if table.now (i - 1) (j - 1)) work.old.row) }
    ensures kind { work.new.kind ≡ table.now.kind }
    ensures whole { length work.new.row ≡ length work.old.row }
{
    match table.pair(i, j) {
        PairSign::Plus(_, _) => add_terms(table, guide, table.entry(i, j), beside, negated, work),
        PairSign::Zero | PairSign::Minus(_, _) => Ok(()),
    }
}
