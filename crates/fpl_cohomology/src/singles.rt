//! The basis elements of a weight.
ghost use Rattle.std.specs.Prelude.{◌≡◌, ◌≤◌, ◌<◌, ◌^◌, length, IfOk};
ghost use Rattle.fpl_table.specs.Shape.{HasShape};
ghost use Rattle.plain_cohomology.specs.Plain.{singles};

use fpl_scalar::Field;
use fpl_table::Table;
use std::alloc::{AllocError, Global};

/// The places, from 0, of the basis elements of weight `w`, ascending.
pub(crate) fn singles<F: Field>(
    alloc: Global,
    table: &Table<F>,
    w: u32,
) -> Result<Vec<u32>, AllocError>
    requires { (1 ≤ w) × (w ≤ table.now.weight) }
    ensures value { IfOk result (λ list. list.items ≡ singles table.now w) }
    ensures shape { HasShape table.now }
    ensures few { IfOk result (λ list. length list.items < 2 ^ 32) }
{
    let mut list = Vec::new(alloc);
    let from = table.through(w - 1);
    let to = table.through(w);
    for i in from..to {
        list.push(i)?;
    }
    Ok(list)
}
