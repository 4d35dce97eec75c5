//! Answers to queries.
ghost use Rattle.std.specs.Prelude.{◌≡◌, ◌<◌, ◌^◌, ◌++◌, ◌∷◌, [], length, slice_get, option_map, OnOk, OnErr};
ghost use Rattle.fpl_print.specs.EqualText.{answer_in};

use fpl_rows::Row;
use fpl_scalar::Field;
use std::alloc::{AllocError, Global};
use std::marker::Model;

/// What is answered to a query.
#[derive(Drop)]
pub enum Answer<F: Field> {
    /// Both sides have one value.
    Same,
    /// They have these two, over the basis.
    Different { left: Row<F>, right: Row<F> },
    /// The query is past the table's weight.
    Beyond,
}

/// The answers to the queries of a presentation, in their order.
#[derive(Drop)]
pub struct Answers<F: Field> {
    items: Vec<Answer<F>>,
}

impl<F: Field> Model for Answers<F> {
    ghost use Rattle.std.specs.Prelude.{List, map};
    ghost use Rattle.fpl_print.specs.EqualText.{Answer, answer_in};

    ghost Value = { List Answer };

    ghost view = { λ a. map answer_in a.items.items };
}

impl<F: Field> Answers<F> {
    pub fn new(alloc: Global) -> Self
        ensures { result ≡ [] }
    {
        Answers {
            items: Vec::new(alloc),
        }
    }

    pub fn len(&self) -> usize
        ensures value { result ≡ length self.now }
        ensures range { length self.now < 2 ^ 63 }
    {
        self.items.len()
    }

    /// Answer `n`, counted from 0.
    pub fn get(&self, n: usize) -> Option<&Answer<F>>
        ensures { option_map (λ a. answer_in a.now) result ≡ slice_get self.now n }
    {
        self.items.get(n)
    }

    /// Puts it last. On a refusal the list is unchanged and the item is gone.
    pub fn push(&mut self, item: Answer<F>) -> Result<(), AllocError>
        ensures ok { OnOk result (self.new ≡ self.old ++ answer_in item ∷ []) }
        ensures err { OnErr result (self.new ≡ self.old) }
    {
        self.items.push(item)?;
        Ok(())
    }
}
