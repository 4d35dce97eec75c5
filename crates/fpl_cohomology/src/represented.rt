//! What represents H1 and H2.
ghost use Rattle.std.specs.Prelude.{◌≡◌, ◌<◌, ◌^◌, ◌++◌, ◌∷◌, [], OnOk, OnErr, length, option_map, slice_get};
ghost use Rattle.fpl_cohomology.specs.Rows.{low_as};

use fpl_rows::Rows;
use fpl_scalar::Field;
use std::alloc::{AllocError, Global};
use std::marker::Model;

/// Rows that represent the cohomology of a weight: H1 over its basis elements, H2 over its
/// regular pairs, each in the order of `forms`.
#[derive(Drop)]
pub struct Low<F: Field> {
    pub weight: u32,
    pub h1: Rows<F>,
    pub h2: Rows<F>,
}

/// What represents H1 and H2 of the weights from 1 on.
#[derive(Drop)]
pub struct Lows<F: Field> {
    items: Vec<Low<F>>,
}

impl<F: Field> Model for Lows<F> {
    ghost use Rattle.std.specs.Prelude.{List, map};
    ghost use Rattle.plain_cohomology.specs.Plain.{Low};
    ghost use Rattle.fpl_cohomology.specs.Rows.{low_as};

    ghost Value = { List Low };

    ghost view = { λ l. map (λ low. low_as low.h1 low.h2) l.items.items };
}

impl<F: Field> Lows<F> {
    pub fn new(alloc: Global) -> Self
        ensures { result ≡ [] }
    {
        Lows {
            items: Vec::new(alloc),
        }
    }

    pub fn len(&self) -> usize
        ensures value { result ≡ length self.now }
        ensures range { length self.now < 2 ^ 63 }
    {
        self.items.len()
    }

    /// That of weight `n + 1`.
    pub fn get(&self, n: usize) -> Option<&Low<F>>
        ensures { option_map (λ low. low_as low.now.h1 low.now.h2) result ≡ slice_get self.now n }
    {
        self.items.get(n)
    }

    /// Puts it last. On a refusal the list is unchanged and the item is gone.
    pub fn push(&mut self, item: Low<F>) -> Result<(), AllocError>
        ensures ok { OnOk result (self.new ≡ self.old ++ low_as item.h1 item.h2 ∷ []) }
        ensures err { OnErr result (self.new ≡ self.old) }
    {
        self.items.push(item)?;
        Ok(())
    }
}
