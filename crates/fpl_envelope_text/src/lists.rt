//! The words of each weight.
ghost use Rattle.std.specs.Prelude.{◌≡◌, ◌≤◌, ◌<◌, [], suc, length, get_or, IfOk};
ghost use Rattle.fpl_envelope.specs.Kept.{AreProducts};
ghost use Rattle.fpl_envelope_text.specs.Lists.{AreLists};

use fpl_envelope::{Products, Word};
use fpl_scalar::Field;
use fpl_table::Table;
use std::alloc::{AllocError, Global};
use std::marker::Model;

/// The ordered words of the weights from 0 on.
#[derive(Drop)]
pub(crate) struct Lists {
    lists: Vec<Vec<Word>>,
}

impl Model for Lists {
    ghost use Rattle.std.specs.Prelude.{ℕ, List, map};

    ghost Value = { List (List (List ℕ)) };

    ghost view = { λ l. map (λ v. v.items) l.lists.items };
}

impl Lists {
    /// Those of weight `w`.
    pub(crate) fn of(&self, w: u32) -> &[Word]
        requires { w < length self.now }
        ensures { result.now ≡ get_or self.now w [] }
    {
        &self.lists[w as usize]
    }
}

/// Those of the weights up to the table's.
pub(crate) fn listed<F: Field>(
    alloc: Global,
    table: &Table<F>,
    products: &Products<F>,
) -> Result<Lists, AllocError>
    requires products { AreProducts table.now products.now }
    requires whole { length products.now.levels ≡ suc table.now.weight }
    ensures lists { IfOk result (λ lists. AreLists table.now lists) }
    ensures depth { IfOk result (λ lists. length lists ≡ suc table.now.weight) }
{
    let mut lists = Vec::new(alloc);
    for w in 0..table.weight() + 1 {
        let words = products.words(alloc, table, w)?;
        lists.push(words)?;
    }
    Ok(Lists { lists })
}
