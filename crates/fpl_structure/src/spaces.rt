ghost use Rattle.std.specs.Prelude.{◌≡◌, ◌++◌, ◌∷◌, [], OnOk, OnErr, length, slice_get};
ghost use Rattle.std.specs.Option.{option_copied};

use fpl_rows::Rows;
use fpl_scalar::Field;
use std::alloc::{AllocError, Global};
use std::marker::Model;

/// A list of spaces, each by its closed rows.
#[derive(Drop)]
pub struct Spaces<F: Field> {
    spaces: Vec<Rows<F>>,
}

impl<F: Field> Model for Spaces<F> {
    ghost use Rattle.std.specs.Prelude.{List};
    ghost use Rattle.fpl_numbers.specs.declared.number.Num.{Num};

    ghost Value = { List (List (List Num)) };

    ghost view = { λ s. s.spaces.items };
}

impl<F: Field> Spaces<F> {
    pub fn new(alloc: Global) -> Self
        ensures { result ≡ [] }
    {
        Spaces {
            spaces: Vec::new(alloc),
        }
    }

    pub fn len(&self) -> usize
        ensures { result ≡ length self.now }
    {
        self.spaces.len()
    }

    /// Space `n`, counted from 0.
    pub fn get(&self, n: usize) -> Option<&Rows<F>>
        ensures { option_copied result ≡ slice_get self.now n }
    {
        self.spaces.get(n)
    }

    /// Puts the space last. On a refusal the list is unchanged and the space is gone.
    pub fn push(&mut self, rows: Rows<F>) -> Result<(), AllocError>
        ensures ok { OnOk result (self.new ≡ self.old ++ rows ∷ []) }
        ensures err { OnErr result (self.new ≡ self.old) }
    {
        self.spaces.push(rows)?;
        Ok(())
    }
}
