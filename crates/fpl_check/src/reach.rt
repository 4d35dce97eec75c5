ghost use Rattle.std.specs.Prelude.{ℕ, ◌≡◌, ◌-◌, ◌<◌, ◌≤◌, length};
ghost use Rattle.math_algebra.specs.Table.{of_generator};
ghost use Rattle.fpl_table.specs.Plain.{plain_basis};
ghost use Rattle.plain_sources.specs.Late.{IsReach, is_late};

use fpl_log::Origin;
use fpl_scalar::{Field, Kind};
use fpl_table::{Symbol, Table};

/// The number of the last basis element that stands for a generator; 0 where there is none.
fn last_generator<F: Field>(table: &Table<F>) -> u32
    ensures { (i g : ℕ) → i < length table.now.basis → (plain_basis table.now i).symbol ≡ of_generator g → i < result }
{
    let mut last = table.basis_len();
    while last > 0 {
        match table.basis(last).symbol {
            Symbol::Gen(_) => return last,
            Symbol::Pair(_, _) => last -= 1,
        }
    }
    0
}

/// A number of basis elements: over a prime other than 3, a triple whose first member is numbered
/// above it has a row that is a combination of those before it. Elsewhere each triple counts, since
/// over fractions its row may not fit, and modulo 3 cubes come behind it.
pub fn reach_of<F: Field>(table: &Table<F>) -> u32
    ensures { IsReach table.now result }
{
    match table.field().kind() {
        Kind::Rational => table.basis_len(),
        Kind::Prime(p) => {
            if p == 3 {
                return table.basis_len();
            }
            last_generator(table)
        }
    }
}

/// Whether an origin is a triple whose first member is numbered above `bound`.
pub fn is_late(bound: u32, origin: Origin) -> bool
    ensures { result ≡ is_late bound origin }
{
    match origin {
        Origin::Jacobi(i, _, _) => bound < i,
        _ => false,
    }
}
