ghost use Rattle.std.specs.Prelude.{◌≡◌, IfOk};

use crate::{Members, Scalar};
use sqlite_items::{Boxed, Items};
use std::alloc::{AllocError, Global};

/// A list of expressions.
pub type Exprs = Items<Expr>;

/// A bracket expression over the generators of a presentation.
///
/// Each variant takes two words at most beside its tag, since a text of n bytes may have n / 2 terms.
#[derive(Drop)]
pub enum Expr {
    /// A generator, by its number in order of declaration, from 1.
    Gen(u32),
    Zero,
    /// The sum of its members; of none it is zero.
    Sum(Boxed<Items<Expr>>),
    /// A multiple.
    Times(Scalar, Boxed<Expr>),
    /// The bracket of two expressions.
    Br(Boxed<Expr>, Boxed<Expr>),
}

const _: () = prove!(size_of::<Expr>() == 24);

impl Expr {
    /// An equal expression.
    #[cycle(copying)]
    pub fn copy(&self, alloc: Global) -> Result<Expr, AllocError>
        ensures { IfOk result (λ e. e ≡ self.now) }
    {
        match self {
            Expr::Gen(g) => Ok(Expr::Gen(*g)),
            Expr::Zero => Ok(Expr::Zero),
            Expr::Sum(members) => copy_all(alloc, members.get())?.sum(alloc),
            Expr::Times(c, e) => Ok(Expr::Times(
                c.share()?,
                Boxed::new(alloc, e.get().copy(alloc)?)?,
            )),
            Expr::Br(a, b) => Ok(Expr::Br(
                Boxed::new(alloc, a.get().copy(alloc)?)?,
                Boxed::new(alloc, b.get().copy(alloc)?)?,
            )),
        }
    }
}

#[cycle(copying)]
fn copy_all(alloc: Global, members: &Exprs) -> Result<Members, AllocError>
    ensures { IfOk result (λ all. all ≡ members.now) }
{
    let mut all = Members::new(alloc);
    for e in members.as_slice() {
        all.push(e.copy(alloc)?)?;
    }
    Ok(all)
}
