ghost use Rattle.std.specs.Prelude.{◌≡◌, IfOk};
ghost use Rattle.fpl_model.specs.Mono.{expr_of};

use crate::Expr;
use sqlite_items::Boxed;
use std::alloc::{AllocError, Global};
use std::rc::Rc;

/// A bracket tree over generators, which count from 1, whose children are shared.
#[derive(Drop)]
pub enum Mono {
    Gen(u32),
    Pair(Rc<Mono>, Rc<Mono>),
}

impl Mono {
    /// The tree of a generator alone.
    pub fn of_gen(alloc: Global, g: u32) -> Result<Rc<Mono>, AllocError>
        ensures { IfOk result (λ m. expr_of m.value ≡ Expr.Gen g) }
    {
        Ok(Rc::new(alloc, Mono::Gen(g))?)
    }

    /// The bracket of two trees.
    pub fn of_pair(alloc: Global, a: &Rc<Mono>, b: &Rc<Mono>) -> Result<Rc<Mono>, AllocError>
        ensures { IfOk result (λ m. expr_of m.value ≡ Expr.Br (expr_of a.now.value) (expr_of b.now.value)) }
    {
        Ok(Rc::new(alloc, Mono::Pair(a.clone()?, b.clone()?))?)
    }

    /// The same tree as an expression.
    pub fn expr(&self, alloc: Global) -> Result<Expr, AllocError>
        ensures { IfOk result (λ e. e ≡ expr_of self.now) }
    {
        match self {
            Mono::Gen(g) => Ok(Expr::Gen(*g)),
            Mono::Pair(a, b) => Ok(Expr::Br(
                Boxed::new(alloc, a.expr(alloc)?)?,
                Boxed::new(alloc, b.expr(alloc)?)?,
            )),
        }
    }
}
