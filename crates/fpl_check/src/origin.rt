ghost use Rattle.std.specs.Prelude.{◌≡◌};
ghost use Rattle.fpl_model.specs.Sound.{IsSound};
ghost use Rattle.fpl_table.specs.Shape.{Agrees};
ghost use Rattle.fpl_check.specs.Steps.{is_relation, is_origin, is_triple_of, is_cube_of};

use fpl_log::Origin;
use fpl_model::{Parity, Presentation};
use fpl_scalar::{Field, Kind};
use fpl_table::Table;

fn is_relation<F: Field>(table: &Table<F>, p: &Presentation, r: u32) -> bool
    requires sound { IsSound p.now }
    requires agrees { Agrees table.now p.now }
    ensures { result ≡ is_relation table.now p.now r }
{
    if r < 1 {
        return false;
    }
    match p.relations.as_slice().get(r as usize - 1) {
        None => false,
        Some(q) => p.has_weight(q, table.weight() + 1),
    }
}

fn is_triple<F: Field>(table: &Table<F>, i: u32, j: u32, k: u32) -> bool
    ensures { result ≡ is_triple_of table.now i j k }
{
    if i < 1 || i > j || j > k || k > table.basis_len() {
        return false;
    }
    let weight = table.basis(i).weight + table.basis(j).weight + table.basis(k).weight;
    weight == table.weight() + 1
}

fn is_cube<F: Field>(table: &Table<F>, i: u32) -> bool
    ensures { result ≡ is_cube_of table.now i }
{
    match table.field().kind() {
        Kind::Rational => return false,
        Kind::Prime(p) => {
            if p != 3 {
                return false;
            }
        }
    }
    if i < 1 || i > table.basis_len() {
        return false;
    }
    let b = table.basis(i);
    match b.parity {
        Parity::Even => false,
        Parity::Odd => 3 * b.weight == table.weight() + 1,
    }
}

/// Whether an origin is one of the weight after the table's.
pub fn is_origin<F: Field>(table: &Table<F>, p: &Presentation, origin: Origin) -> bool
    requires sound { IsSound p.now }
    requires agrees { Agrees table.now p.now }
    ensures { result ≡ is_origin table.now p.now origin }
{
    match origin {
        Origin::Relation(r) => is_relation(table, p, r),
        Origin::Jacobi(i, j, k) => is_triple(table, i, j, k),
        Origin::Cube(i) => is_cube(table, i),
        Origin::Row(_) => false,
    }
}
