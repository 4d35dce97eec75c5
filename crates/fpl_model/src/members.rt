ghost use Rattle.std.specs.Prelude.{◌≡◌, [], ◌∷◌, ◌++◌, ◌↔◌, IfOk, IsTrue, OnErr, OnOk};

use crate::Expr;
use sqlite_items::{Boxed, Items};
use std::alloc::{AllocError, Global};
use std::marker::Model;

/// The members of a sum that is being made.
#[derive(Drop)]
pub struct Members {
    items: Vec<Expr>,
}

impl Model for Members {
    ghost use Rattle.std.specs.Prelude.{List};
    ghost use Rattle.std.specs.Coded.{codes};
    ghost use Rattle.fpl_model.specs.declared.expr.Expr.{Expr};
    ghost use Rattle.fpl_model.specs.contracts.expr.Expr as e;

    ghost Value = { List Expr };

    ghost coded = { Prim.hlevel (codes, e.the_row.coded) };

    ghost view = { λ m. m.items.items };
}

impl Members {
    pub fn new(alloc: Global) -> Members
        ensures { result ≡ [] }
    {
        Members {
            items: Vec::new(alloc),
        }
    }

    pub fn is_empty(&self) -> bool
        ensures { IsTrue result ↔ (self.now ≡ []) }
    {
        self.items.is_empty()
    }

    // Most sums are short: room is taken for two members first, and then for half as many more as there are.
    fn make_room(&mut self) -> Result<(), AllocError>
        ensures { self.new ≡ self.old }
    {
        let len = self.items.len();
        if len < self.items.capacity() {
            return Ok(());
        }
        self.items.reserve_exact(if len < 2 { 2 } else { len / 2 })
    }

    pub fn push(&mut self, e: Expr) -> Result<(), AllocError>
        ensures ok { OnOk result (self.new ≡ self.old ++ e ∷ []) }
        ensures err { OnErr result (self.new ≡ self.old) }
    {
        self.make_room()?;
        self.items.push(e)?;
        Ok(())
    }

    /// The sum.
    pub fn sum(self, alloc: Global) -> Result<Expr, AllocError>
        ensures { IfOk result (λ e. e ≡ Expr.Sum self) }
    {
        let Members { items } = self;
        Ok(Expr::Sum(Boxed::new(alloc, Items::from_vec(items))?))
    }
}
