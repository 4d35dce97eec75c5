ghost use Rattle.std.specs.Prelude.{◌≡◌, ◌<◌, ◌^◌, ◌++◌, ◌∷◌, [], IfOk, OnOk, OnErr, List, length, slice_get};

use crate::compact::{Compact, Narrow};
use fpl_scalar::Num;
use std::alloc::{AllocError, Global};
use std::marker::Model;

/// A step, counted from 1, and how often its conclusion is taken off.
#[derive(Clone, Copy, Debug, PartialEq, Eq)]
pub struct Term {
    pub step: u64,
    pub factor: Num,
}

/// A term of a small step and a small whole factor.
#[derive(Clone, Copy)]
pub struct SmallTerm {
    step: u32,
    factor: i32,
}

impl Narrow for Term {
    ghost use Rattle.fpl_log.specs.Compact.{whole};

    type Small = SmallTerm;

    ghost widened = { λ small. record { step = small.step; factor = whole small.factor } };

    fn narrow(self) -> Option<SmallTerm> {
        let step = u32::try_from(self.step).ok()?;
        let factor = self.factor.narrow()?;
        Some(SmallTerm { step, factor })
    }

    fn widen(small: SmallTerm) -> Term {
        Term {
            step: small.step as u64,
            factor: Num::widen(small.factor),
        }
    }
}

/// The terms of a step, in the order in which they are taken off.
#[derive(Drop)]
pub struct Terms {
    items: Compact<Term>,
}

impl Model for Terms {
    ghost use Rattle.std.specs.Prelude.{List};
    ghost use Rattle.fpl_log.specs.declared.terms.Term.{Term};

    ghost Value = { List Term };

    ghost view = { λ l. l.items };
}

impl Terms {
    pub fn new(alloc: Global) -> Self
        ensures { result ≡ [] }
    {
        Terms {
            items: Compact::new(alloc),
        }
    }

    /// No terms, with room for `count` of them.
    pub fn with_capacity(alloc: Global, count: usize) -> Result<Self, AllocError>
        ensures { IfOk result (λ l. l ≡ []) }
    {
        Ok(Terms {
            items: Compact::with_capacity(alloc, count)?,
        })
    }

    /// These terms, with room for no more.
    pub fn of(alloc: Global, items: &[Term]) -> Result<Self, AllocError>
        ensures { IfOk result (λ l. l ≡ items.now) }
    {
        let mut terms = Terms::with_capacity(alloc, items.len())?;
        for i in 0..items.len() {
            terms.push(items[i])?;
        }
        Ok(terms)
    }

    pub fn len(&self) -> usize
        ensures value { result ≡ length self.now }
        ensures range { length self.now < 2 ^ 63 }
    {
        self.items.len()
    }

    /// Term `n`, counted from 0.
    pub fn get(&self, n: usize) -> Option<Term>
        ensures { result ≡ slice_get self.now n }
    {
        self.items.get(n)
    }

    /// Puts it last. On a refusal the list is unchanged and the item is gone.
    pub fn push(&mut self, item: Term) -> Result<(), AllocError>
        ensures ok { OnOk result (self.new ≡ self.old ++ item ∷ []) }
        ensures err { OnErr result (self.new ≡ self.old) }
    {
        self.items.push(item)?;
        Ok(())
    }

    pub fn copy(&self, alloc: Global) -> Result<Terms, AllocError>
        ensures { IfOk result (λ l. l ≡ self.now) }
    {
        Ok(Terms {
            items: self.items.copy(alloc)?,
        })
    }
}
