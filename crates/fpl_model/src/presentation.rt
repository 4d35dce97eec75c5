ghost use Rattle.std.specs.Prelude.{◌≡◌, IfOk};

use crate::{Expr, Exprs, Name};
use fpl_numbers::Kind;
use sqlite_items::Items;
use std::alloc::{AllocError, Global};

#[derive(Clone, Copy, Debug, PartialEq, Eq)]
pub enum Parity {
    Even,
    Odd,
}

/// A declared generator. Its weight is 1 to 1000.
#[derive(Drop)]
pub struct Generator {
    pub name: Name,
    pub parity: Parity,
    pub weight: u32,
}

/// Two expressions that are set equal.
#[derive(Drop)]
pub struct Equation {
    pub left: Expr,
    pub right: Expr,
}

/// Generators, in order of declaration.
pub type Generators = Items<Generator>;

/// A list of equations.
pub type Equations = Items<Equation>;

/// A Lie superalgebra by generators and relations; with the elements of an ideal and the queries that some views answer.
#[derive(Drop)]
pub struct Presentation {
    pub field: Kind,
    pub generators: Generators,
    pub relations: Equations,
    pub ideals: Exprs,
    pub queries: Equations,
}

impl Generator {
    fn copy(&self, alloc: Global) -> Result<Generator, AllocError>
        ensures { IfOk result (λ g. g ≡ self.now) }
    {
        Ok(Generator {
            name: Name::of_text(alloc, self.name.text())?,
            parity: self.parity,
            weight: self.weight,
        })
    }
}

impl Equation {
    fn copy(&self, alloc: Global) -> Result<Equation, AllocError>
        ensures { IfOk result (λ q. q ≡ self.now) }
    {
        Ok(Equation {
            left: self.left.copy(alloc)?,
            right: self.right.copy(alloc)?,
        })
    }
}

fn copy_generators(alloc: Global, from: &Generators) -> Result<Generators, AllocError>
    ensures { IfOk result (λ all. all ≡ from.now) }
{
    let mut all = Items::new(alloc);
    for g in from.as_slice() {
        all.push(g.copy(alloc)?)?;
    }
    Ok(all)
}

fn copy_equations(alloc: Global, from: &Equations) -> Result<Equations, AllocError>
    ensures { IfOk result (λ all. all ≡ from.now) }
{
    let mut all = Items::new(alloc);
    for q in from.as_slice() {
        all.push(q.copy(alloc)?)?;
    }
    Ok(all)
}

fn copy_exprs(alloc: Global, from: &Exprs) -> Result<Exprs, AllocError>
    ensures { IfOk result (λ all. all ≡ from.now) }
{
    let mut all = Items::new(alloc);
    for e in from.as_slice() {
        all.push(e.copy(alloc)?)?;
    }
    Ok(all)
}

impl Presentation {
    /// An equal presentation.
    pub fn copy(&self, alloc: Global) -> Result<Presentation, AllocError>
        ensures { IfOk result (λ p. p ≡ self.now) }
    {
        Ok(Presentation {
            field: self.field,
            generators: copy_generators(alloc, &self.generators)?,
            relations: copy_equations(alloc, &self.relations)?,
            ideals: copy_exprs(alloc, &self.ideals)?,
            queries: copy_equations(alloc, &self.queries)?,
        })
    }
}
