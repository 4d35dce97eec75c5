ghost use Rattle.std.specs.Prelude.{◌≡◌, ◌≤◌, ◌+◌, ◌-◌, ◌*◌, length, IfOk, IfErr};
ghost use Rattle.fpl_numbers.specs.Results.{Gives, GivesBy};
ghost use Rattle.fpl_scalar.specs.Vectors.{AreElements};
ghost use Rattle.math_algebra.specs.Tree.{odd};
ghost use Rattle.fpl_table.specs.Plain.{plain_basis, symbols_in};
ghost use Rattle.fpl_table.specs.Shape.{HasShape};
ghost use Rattle.fpl_table.specs.Sums.{add_each};
ghost use Rattle.fpl_table.specs.Value.{zero_row};
ghost use Rattle.fpl_rewrite.specs.Rows.{jacobi_row_of, cube_row_of, swapped, third_terms, entry_if};
ghost use Rattle.fpl_rewrite.specs.Terms.{signed};
ghost use Rattle.fpl_numbers.specs.declared.number.Num.{Num};

use crate::entries::{Beside, add_entry};
use crate::guide::Guide;
use fpl_model::Parity;
use fpl_rows::{Row, Work};
use fpl_scalar::{Fault, Field};
use fpl_table::{Symbols, Table};
use std::alloc::Global;

/// 0 at each symbol.
pub fn zero_row<F: Field>(
    alloc: Global,
    table: &Table<F>,
    symbols: &Symbols,
) -> Result<Row<F>, Fault>
    ensures value { GivesBy (λ r. r) result (Ok (zero_row (length symbols.now.symbols))) }
    ensures elements { IfOk result (λ r. AreElements table.now.kind r) }
    ensures whole { IfOk result (λ r. length r ≡ length symbols.now.symbols) }
{
    match Row::zero(alloc, table.field(), symbols.len()) {
        Ok(row) => Ok(row),
        Err(_) => Err(Fault::NoMemory),
    }
}

/// Whether `-(-1)^(|b_i||b_j|)` is -1.
#[inline(always)]
fn is_third_negated<F: Field>(table: &Table<F>, i: u32, j: u32) -> bool
    requires first { (1 ≤ i) × (i ≤ length table.now.basis) }
    requires second { (1 ≤ j) × (j ≤ length table.now.basis) }
    ensures sign { (c : Num) → signed table.now result c ≡ swapped table.now (plain_basis table.now (i - 1)).parity (plain_basis table.now (j - 1)).parity c }
    ensures shape { HasShape table.now }
{
    match (table.basis(i).parity, table.basis(j).parity) {
        (Parity::Odd, Parity::Odd) => false,
        (Parity::Odd, Parity::Even) | (Parity::Even, _) => true,
    }
}

/// Adds `-(-1)^(|b_i||b_j|) [b_j, [b_i, b_k]]`, whose sign is minus where `negated` is true.
#[inline(always)]
fn add_third<F: Field>(
    table: &Table<F>,
    guide: &Guide,
    i: u32,
    j: u32,
    k: u32,
    negated: bool,
    work: &mut Work<F>,
) -> Result<(), Fault>
    requires sign { (c : Num) → signed table.now negated c ≡ swapped table.now (plain_basis table.now (i - 1)).parity (plain_basis table.now (j - 1)).parity c }
    requires symbols { guide.now.symbols.now.symbols ≡ symbols_in table.now }
    requires order { (1 ≤ i) × (i ≤ j) × (j ≤ k) × (k ≤ length table.now.basis) }
    requires reached { (plain_basis table.now (i - 1)).weight + (plain_basis table.now (k - 1)).weight ≤ table.now.weight }
    requires kind { work.old.kind ≡ table.now.kind }
    requires whole { length work.old.row ≡ length guide.now.symbols.now.symbols }
    ensures value { Gives result work.new.row (add_each (third_terms table.now (i - 1) (j - 1)) 0 (entry_if table.now (i - 1) (k - 1)) work.old.row) }
    ensures kind { work.new.kind ≡ table.now.kind }
    ensures whole { length work.new.row ≡ length work.old.row }
{
    add_entry(table, guide, i, k, Beside::After(j), negated, work)
}

/// Adds `[b_i, [b_j, b_k]] - [[b_i, b_j], b_k] - (-1)^(|b_i||b_j|) [b_j, [b_i, b_k]]` to an empty
/// row in work, as `jacobi_row` has it.
#[inline(always)]
pub fn fill_jacobi<F: Field>(
    table: &Table<F>,
    guide: &Guide,
    i: u32,
    j: u32,
    k: u32,
    work: &mut Work<F>,
) -> Result<(), Fault>
    requires symbols { guide.now.symbols.now.symbols ≡ symbols_in table.now }
    requires order { (1 ≤ i) × (i ≤ j) × (j ≤ k) × (k ≤ length table.now.basis) }
    requires weight { (plain_basis table.now (i - 1)).weight + (plain_basis table.now (j - 1)).weight + (plain_basis table.now (k - 1)).weight
        ≡ table.now.weight + 1 }
    requires kind { work.old.kind ≡ table.now.kind }
    requires empty { work.old.row ≡ zero_row (length guide.now.symbols.now.symbols) }
    ensures value { Gives result work.new.row (jacobi_row_of table.now (i - 1) (j - 1) (k - 1)) }
    ensures kind { work.new.kind ≡ table.now.kind }
    ensures whole { length work.new.row ≡ length guide.now.symbols.now.symbols }
{
    let negated = is_third_negated(table, i, j);
    match add_entry(table, guide, j, k, Beside::After(i), false, work) {
        Ok(()) => {}
        Err(fault) => return Err(fault),
    }
    match add_entry(table, guide, i, j, Beside::Before(k), true, work) {
        Ok(()) => {}
        Err(fault) => return Err(fault),
    }
    add_third(table, guide, i, j, k, negated, work)
}

/// Adds `[b_i, [b_i, b_i]]` to an empty row in work, as `cube_row` has it.
pub fn fill_cube<F: Field>(
    table: &Table<F>,
    guide: &Guide,
    i: u32,
    work: &mut Work<F>,
) -> Result<(), Fault>
    requires symbols { guide.now.symbols.now.symbols ≡ symbols_in table.now }
    requires number { (1 ≤ i) × (i ≤ length table.now.basis) }
    requires odd { (plain_basis table.now (i - 1)).parity ≡ odd }
    requires weight { 3 * (plain_basis table.now (i - 1)).weight ≡ table.now.weight + 1 }
    requires kind { work.old.kind ≡ table.now.kind }
    requires empty { work.old.row ≡ zero_row (length guide.now.symbols.now.symbols) }
    ensures value { Gives result work.new.row (cube_row_of table.now (i - 1)) }
    ensures kind { work.new.kind ≡ table.now.kind }
    ensures whole { length work.new.row ≡ length guide.now.symbols.now.symbols }
{
    add_entry(table, guide, i, i, Beside::After(i), false, work)
}

/// An empty row in work, with a position for each symbol.
fn empty_work<F: Field>(
    alloc: Global,
    table: &Table<F>,
    symbols: &Symbols,
) -> Result<Work<F>, Fault>
    ensures value { IfOk result (λ w. w ≡ record { kind = table.now.kind; row = zero_row (length symbols.now.symbols) }) }
    ensures fault { IfErr result (λ fault. fault ≡ Fault.NoMemory) }
{
    match Work::new(alloc, *table.field(), symbols.len()) {
        Ok(work) => Ok(work),
        Err(_) => Err(Fault::NoMemory),
    }
}

/// The row that was filled. Each number times 1 fits, so there is no fault but want of memory.
fn filled<F: Field>(alloc: Global, field: &F, work: &Work<F>) -> Result<Row<F>, Fault>
    requires { work.now.kind ≡ F.kind_of field.now }
    ensures value { IfOk result (λ r. r ≡ work.now.row) }
    ensures elements { IfOk result (λ r. AreElements work.now.kind r) }
    ensures fault { IfErr result (λ fault. fault ≡ Fault.NoMemory) }
{
    // its clauses say that the numbers are elements
    let _count = work.len();
    match work.gather(alloc, field.one()) {
        Ok(row) => Ok(row),
        Err(_) => Err(Fault::NoMemory),
    }
}

/// `[b_i, [b_j, b_k]] - [[b_i, b_j], b_k] - (-1)^(|b_i||b_j|) [b_j, [b_i, b_k]]` over the
/// symbols of the weight after the table's, for basis elements `i <= j <= k` whose weights
/// sum to it. `Unfit` is the first operation that does not fit.
pub fn jacobi_row<F: Field>(
    alloc: Global,
    table: &Table<F>,
    symbols: &Symbols,
    i: u32,
    j: u32,
    k: u32,
) -> Result<Row<F>, Fault>
    requires symbols { symbols.now.symbols ≡ symbols_in table.now }
    requires order { (1 ≤ i) × (i ≤ j) × (j ≤ k) × (k ≤ length table.now.basis) }
    requires weight { (plain_basis table.now (i - 1)).weight + (plain_basis table.now (j - 1)).weight + (plain_basis table.now (k - 1)).weight
        ≡ table.now.weight + 1 }
    ensures value { GivesBy (λ r. r) result (jacobi_row_of table.now (i - 1) (j - 1) (k - 1)) }
    ensures elements { IfOk result (λ r. AreElements table.now.kind r) }
    ensures whole { IfOk result (λ r. length r ≡ length symbols.now.symbols) }
{
    let guide = Guide::without_hints(alloc, symbols);
    let mut work = empty_work(alloc, table, symbols)?;
    match fill_jacobi(table, &guide, i, j, k, &mut work) {
        Ok(()) => filled(alloc, table.field(), &work),
        Err(fault) => Err(fault),
    }
}

/// `[b_i, [b_i, b_i]]` over the symbols of the weight after the table's, for an odd basis
/// element three times the weight of which is that weight.
pub fn cube_row<F: Field>(
    alloc: Global,
    table: &Table<F>,
    symbols: &Symbols,
    i: u32,
) -> Result<Row<F>, Fault>
    requires symbols { symbols.now.symbols ≡ symbols_in table.now }
    requires number { (1 ≤ i) × (i ≤ length table.now.basis) }
    requires odd { (plain_basis table.now (i - 1)).parity ≡ odd }
    requires weight { 3 * (plain_basis table.now (i - 1)).weight ≡ table.now.weight + 1 }
    ensures value { GivesBy (λ r. r) result (cube_row_of table.now (i - 1)) }
    ensures elements { IfOk result (λ r. AreElements table.now.kind r) }
    ensures whole { IfOk result (λ r. length r ≡ length symbols.now.symbols) }
{
    let guide = Guide::without_hints(alloc, symbols);
    let mut work = empty_work(alloc, table, symbols)?;
    match fill_cube(table, &guide, i, &mut work) {
        Ok(()) => filled(alloc, table.field(), &work),
        Err(fault) => Err(fault),
    }
}
