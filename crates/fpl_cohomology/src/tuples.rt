//! The tuples of a weight, made once.
ghost use Rattle.std.specs.Prelude.{◌≡◌, ◌≤◌, IfOk};
ghost use Rattle.fpl_cohomology.specs.Rows.{AreTuplesOf};

use crate::pairs::Pairs;
use crate::singles::singles;
use crate::triples::{Places, triples};
use fpl_scalar::Field;
use fpl_table::Table;
use std::alloc::{AllocError, Global};

/// The tuples of one weight.
#[derive(Drop)]
pub(crate) struct Tuples {
    pub weight: u32,
    /// The places, from 0, of its basis elements.
    pub singles: Vec<u32>,
    pub pairs: Pairs,
    pub triples: Vec<Places>,
}

impl Tuples {
    /// The tuples of weight `w`.
    pub fn of<F: Field>(alloc: Global, table: &Table<F>, w: u32) -> Result<Tuples, AllocError>
        requires { (1 ≤ w) × (w ≤ table.now.weight) }
        ensures value { IfOk result (λ tuples. AreTuplesOf table.now tuples) }
        ensures weight { IfOk result (λ tuples. tuples.weight ≡ w) }
    {
        Ok(Tuples {
            weight: w,
            singles: singles(alloc, table, w)?,
            pairs: Pairs::of(alloc, table, w)?,
            triples: triples(alloc, table, w)?,
        })
    }
}
