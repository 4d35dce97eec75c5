ghost use Rattle.std.specs.Prelude.{◌≡◌, ◌<◌, ◌^◌, ◌++◌, ◌∷◌, [], IfOk, OnOk, OnErr, List, length, slice_get};
ghost use Rattle.std.specs.Option.{option_copied};

use crate::compact::{Compact, Narrow};
use fpl_scalar::Num;
use std::alloc::{AllocError, Global};
use std::marker::Model;

/// A number that is not 0, and its symbol, counted from 1.
#[derive(Clone, Copy, Debug, PartialEq, Eq)]
pub struct Coefficient {
    pub symbol: u32,
    pub number: Num,
}

/// A coefficient whose number is whole and small.
#[derive(Clone, Copy)]
pub struct SmallCoefficient {
    symbol: u32,
    number: i32,
}

impl Narrow for Coefficient {
    ghost use Rattle.fpl_log.specs.Compact.{whole};

    type Small = SmallCoefficient;

    ghost widened = { λ small. record { symbol = small.symbol; number = whole small.number } };

    fn narrow(self) -> Option<SmallCoefficient> {
        let number = self.number.narrow()?;
        Some(SmallCoefficient {
            symbol: self.symbol,
            number,
        })
    }

    fn widen(small: SmallCoefficient) -> Coefficient {
        Coefficient {
            symbol: small.symbol,
            number: Num::widen(small.number),
        }
    }
}

/// A closed row, as its coefficients by ascending symbol.
#[derive(Drop)]
pub struct ClosedRow {
    items: Compact<Coefficient>,
}

impl Model for ClosedRow {
    ghost use Rattle.std.specs.Prelude.{List};
    ghost use Rattle.fpl_log.specs.declared.closed.Coefficient.{Coefficient};

    ghost Value = { List Coefficient };

    ghost view = { λ l. l.items };
}

impl ClosedRow {
    pub fn new(alloc: Global) -> Self
        ensures { result ≡ [] }
    {
        ClosedRow {
            items: Compact::new(alloc),
        }
    }

    /// No coefficients, with room for `count` of them.
    pub fn with_capacity(alloc: Global, count: usize) -> Result<Self, AllocError>
        ensures { IfOk result (λ l. l ≡ []) }
    {
        Ok(ClosedRow {
            items: Compact::with_capacity(alloc, count)?,
        })
    }

    pub fn len(&self) -> usize
        ensures value { result ≡ length self.now }
        ensures range { length self.now < 2 ^ 63 }
    {
        self.items.len()
    }

    /// Coefficient `n`, counted from 0.
    pub fn get(&self, n: usize) -> Option<Coefficient>
        ensures { result ≡ slice_get self.now n }
    {
        self.items.get(n)
    }

    /// Puts it last. On a refusal the list is unchanged and the item is gone.
    pub fn push(&mut self, item: Coefficient) -> Result<(), AllocError>
        ensures ok { OnOk result (self.new ≡ self.old ++ item ∷ []) }
        ensures err { OnErr result (self.new ≡ self.old) }
    {
        self.items.push(item)?;
        Ok(())
    }

    pub fn copy(&self, alloc: Global) -> Result<ClosedRow, AllocError>
        ensures { IfOk result (λ l. l ≡ self.now) }
    {
        Ok(ClosedRow {
            items: self.items.copy(alloc)?,
        })
    }
}

/// Closed rows, by ascending pivot.
#[derive(Drop)]
pub struct ClosedList {
    items: Vec<ClosedRow>,
}

impl Model for ClosedList {
    ghost use Rattle.std.specs.Prelude.{List};
    ghost use Rattle.fpl_log.specs.declared.closed.Coefficient.{Coefficient};

    ghost Value = { List (List Coefficient) };

    ghost view = { λ l. l.items.items };
}

impl ClosedList {
    pub fn new(alloc: Global) -> Self
        ensures { result ≡ [] }
    {
        ClosedList {
            items: Vec::new(alloc),
        }
    }

    /// No rows, with room for `count` of them.
    pub fn with_capacity(alloc: Global, count: usize) -> Result<Self, AllocError>
        ensures { IfOk result (λ l. l ≡ []) }
    {
        Ok(ClosedList {
            items: Vec::with_capacity(alloc, count)?,
        })
    }

    pub fn len(&self) -> usize
        ensures value { result ≡ length self.now }
        ensures range { length self.now < 2 ^ 63 }
    {
        self.items.len()
    }

    /// Row `n`, counted from 0.
    pub fn get(&self, n: usize) -> Option<&ClosedRow>
        ensures { option_copied result ≡ slice_get self.now n }
    {
        self.items.get(n)
    }

    /// Puts it last. On a refusal the list is unchanged and the item is gone.
    pub fn push(&mut self, item: ClosedRow) -> Result<(), AllocError>
        ensures ok { OnOk result (self.new ≡ self.old ++ item ∷ []) }
        ensures err { OnErr result (self.new ≡ self.old) }
    {
        self.items.push(item)?;
        Ok(())
    }

    pub fn copy(&self, alloc: Global) -> Result<ClosedList, AllocError>
        ensures { IfOk result (λ l. l ≡ self.now) }
    {
        let mut items = Vec::new(alloc);
        for item in &self.items {
            items.push(item.copy(alloc)?)?;
        }
        Ok(ClosedList { items })
    }
}
