//! Tuples of basis elements.
ghost use Rattle.std.specs.Prelude.{◌≡◌, ◌<◌, ◌^◌, ◌++◌, ◌∷◌, [], OnOk, OnErr, length, slice_get};
ghost use Rattle.std.specs.Option.{option_copied};

use std::alloc::{AllocError, Global};
use std::marker::Model;

/// Basis elements, by their numbers from 1.
#[derive(Drop)]
pub struct Tuple {
    items: Vec<u32>,
}

impl Model for Tuple {
    ghost use Rattle.std.specs.Prelude.{List, ℕ};

    ghost Value = { List ℕ };

    ghost view = { λ l. l.items.items };
}

impl Tuple {
    pub fn new(alloc: Global) -> Self
        ensures { result ≡ [] }
    {
        Tuple {
            items: Vec::new(alloc),
        }
    }

    pub fn len(&self) -> usize
        ensures value { result ≡ length self.now }
        ensures range { length self.now < 2 ^ 63 }
    {
        self.items.len()
    }

    /// Number `n`, counted from 0.
    pub fn get(&self, n: usize) -> Option<&u32>
        ensures { option_copied result ≡ slice_get self.now n }
    {
        self.items.get(n)
    }

    /// Puts it last. On a refusal the list is unchanged and the item is gone.
    pub fn push(&mut self, item: u32) -> Result<(), AllocError>
        ensures ok { OnOk result (self.new ≡ self.old ++ item ∷ []) }
        ensures err { OnErr result (self.new ≡ self.old) }
    {
        self.items.push(item)?;
        Ok(())
    }
}

/// The tuples of a degree and a weight, at which forms have their values.
#[derive(Drop)]
pub struct Forms {
    items: Vec<Tuple>,
}

impl Model for Forms {
    ghost use Rattle.std.specs.Prelude.{List, ℕ};

    ghost Value = { List (List ℕ) };

    ghost view = { λ l. l.items.items };
}

impl Forms {
    pub fn new(alloc: Global) -> Self
        ensures { result ≡ [] }
    {
        Forms {
            items: Vec::new(alloc),
        }
    }

    pub fn len(&self) -> usize
        ensures value { result ≡ length self.now }
        ensures range { length self.now < 2 ^ 63 }
    {
        self.items.len()
    }

    /// Tuple `n`, counted from 0.
    pub fn get(&self, n: usize) -> Option<&Tuple>
        ensures { option_copied result ≡ slice_get self.now n }
    {
        self.items.get(n)
    }

    /// Puts it last. On a refusal the list is unchanged and the item is gone.
    pub fn push(&mut self, item: Tuple) -> Result<(), AllocError>
        ensures ok { OnOk result (self.new ≡ self.old ++ item ∷ []) }
        ensures err { OnErr result (self.new ≡ self.old) }
    {
        self.items.push(item)?;
        Ok(())
    }
}
