ghost use Rattle.std.specs.Prelude.{◌≡◌, ◌<◌, ◌^◌, ◌++◌, ◌∷◌, [], IfOk, OnOk, OnErr, List, length, slice_get};
ghost use Rattle.std.specs.Option.{option_copied};

use crate::Terms;
use fpl_scalar::Num;
use std::alloc::{AllocError, Global};
use std::marker::Model;

/// Where a row comes from. Relations and basis elements count from 1.
#[derive(Clone, Copy, Debug, PartialEq, Eq)]
pub enum Origin {
    /// A relation.
    Relation(u32),
    /// The Jacobi identity of three basis elements.
    Jacobi(u32, u32, u32),
    /// `[b, [b, b]]` for an odd basis element, modulo 3.
    Cube(u32),
    /// A row of another list.
    Row(u64),
}

/// What makes a row of earlier ones. Steps count from 1.
#[derive(Drop)]
pub enum Step {
    /// Concludes scale * (row of the origin - sum of factor * conclusion of each term).
    Insert {
        origin: Origin,
        terms: Terms,
        scale: Num,
    },
    /// Concludes the conclusion of step `of` - sum of factor * conclusion of each term.
    Close {
        of: u64,
        terms: Terms,
    },
}

impl Step {
    pub fn copy(&self, alloc: Global) -> Result<Step, AllocError>
        ensures { IfOk result (λ s. s ≡ self.now) }
    {
        match self {
            Step::Insert {
                origin,
                terms,
                scale,
            } => Ok(Step::Insert {
                origin: *origin,
                terms: terms.copy(alloc)?,
                scale: *scale,
            }),
            Step::Close { of, terms } => Ok(Step::Close {
                of: *of,
                terms: terms.copy(alloc)?,
            }),
        }
    }
}

/// Steps, each of which names earlier ones.
#[derive(Drop)]
pub struct StepList {
    items: Vec<Step>,
}

impl Model for StepList {
    ghost use Rattle.std.specs.Prelude.{List};
    ghost use Rattle.fpl_log.specs.declared.step.Step.{Step};

    ghost Value = { List Step };

    ghost view = { λ l. l.items.items };
}

impl StepList {
    pub fn new(alloc: Global) -> Self
        ensures { result ≡ [] }
    {
        StepList {
            items: Vec::new(alloc),
        }
    }

    pub fn len(&self) -> usize
        ensures value { result ≡ length self.now }
        ensures range { length self.now < 2 ^ 63 }
    {
        self.items.len()
    }

    /// Step `n`, counted from 0.
    pub fn get(&self, n: usize) -> Option<&Step>
        ensures { option_copied result ≡ slice_get self.now n }
    {
        self.items.get(n)
    }

    /// Puts it last. On a refusal the list is unchanged and the item is gone.
    pub fn push(&mut self, item: Step) -> Result<(), AllocError>
        ensures ok { OnOk result (self.new ≡ self.old ++ item ∷ []) }
        ensures err { OnErr result (self.new ≡ self.old) }
    {
        self.items.push(item)?;
        Ok(())
    }

    /// Takes the last step back.
    pub fn pop(&mut self)
        ensures { (xs : List Step) (x : Step) → self.old ≡ xs ++ x ∷ [] → self.new ≡ xs }
    {
        self.items.pop();
    }

    pub fn copy(&self, alloc: Global) -> Result<StepList, AllocError>
        ensures { IfOk result (λ l. l ≡ self.now) }
    {
        let mut items = Vec::new(alloc);
        for item in &self.items {
            items.push(item.copy(alloc)?)?;
        }
        Ok(StepList { items })
    }
}
