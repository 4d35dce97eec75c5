ghost use Rattle.std.specs.Prelude.{◌≡◌, ◌<◌, ◌^◌, ◌++◌, ◌∷◌, [], IfOk, IfSome, OnOk, OnErr, List, length, map, slice_get};

use fpl_scalar::Num;
use std::alloc::{AllocError, Global};
use std::marker::Model;

/// A value that has a small form, where its numbers are small.
pub trait Narrow: Copy {
    type Small: Copy;

    /// The value of a small form.
    ghost widened: { Self.Small → Self };

    /// The small form, where there is one.
    fn narrow(self) -> Option<Self::Small>
        ensures { IfSome result (λ small. widened small ≡ self) };

    fn widen(small: Self::Small) -> Self
        ensures { result ≡ widened small };
}

impl Narrow for Num {
    ghost use Rattle.fpl_log.specs.Compact.{whole};

    type Small = i32;

    ghost widened = { whole };

    fn narrow(self) -> Option<i32> {
        if self.denominator != 1 {
            return None;
        }
        i32::try_from(self.numerator).ok()
    }

    fn widen(small: i32) -> Num {
        Num {
            numerator: small as i128,
            denominator: 1,
        }
    }
}

/// How a list keeps its items.
#[derive(Drop)]
enum Form<T: Narrow> {
    /// All have a small form.
    Small(Vec<T::Small>),
    /// As they are, once one has none.
    Wide(Vec<T>),
}

/// A list of items that mostly have a small form.
#[derive(Drop)]
pub struct Compact<T: Narrow> {
    form: Form<T>,
}

impl<T: Narrow> Model for Compact<T> {
    ghost use Rattle.std.specs.Prelude.{List};
    ghost use Rattle.fpl_log.specs.Compact.{items_in};

    ghost Value = { List T };

    ghost view = { λ l. items_in T.widened l.form };
}

/// The items of their small forms, and one more.
fn wide_with<T: Narrow>(items: &Vec<T::Small>, item: T) -> Result<Vec<T>, AllocError>
    ensures { IfOk result (λ wide. wide.items ≡ map T.widened items.now.items ++ item ∷ []) }
{
    let mut wide = Vec::with_capacity(*items.allocator(), items.len() + 1)?;
    for i in 0..items.len() {
        wide.push(T::widen(items[i]))?;
    }
    wide.push(item)?;
    Ok(wide)
}

impl<T: Narrow> Compact<T> {
    pub fn new(alloc: Global) -> Self
        ensures { result ≡ [] }
    {
        Compact {
            form: Form::Small(Vec::new(alloc)),
        }
    }

    /// No items, with room for `count` small ones.
    pub fn with_capacity(alloc: Global, count: usize) -> Result<Self, AllocError>
        ensures { IfOk result (λ l. l ≡ []) }
    {
        Ok(Compact {
            form: Form::Small(Vec::with_capacity(alloc, count)?),
        })
    }

    pub fn len(&self) -> usize
        ensures value { result ≡ length self.now }
        ensures range { length self.now < 2 ^ 63 }
    {
        match &self.form {
            Form::Small(items) => items.len(),
            Form::Wide(items) => items.len(),
        }
    }

    /// Item `n`, counted from 0.
    pub fn get(&self, n: usize) -> Option<T>
        ensures { result ≡ slice_get self.now n }
    {
        match &self.form {
            Form::Small(items) => match items.get(n) {
                None => None,
                Some(small) => Some(T::widen(*small)),
            },
            Form::Wide(items) => items.get(n).copied(),
        }
    }

    /// Puts it last. On a refusal the list is unchanged and the item is gone.
    pub fn push(&mut self, item: T) -> Result<(), AllocError>
        ensures ok { OnOk result (self.new ≡ self.old ++ item ∷ []) }
        ensures err { OnErr result (self.new ≡ self.old) }
    {
        match (&mut self.form, item.narrow()) {
            (Form::Small(items), Some(small)) => items.push(small)?,
            (Form::Small(items), None) => self.form = Form::Wide(wide_with(items, item)?),
            (Form::Wide(items), _) => items.push(item)?,
        }
        Ok(())
    }

    pub fn copy(&self, alloc: Global) -> Result<Self, AllocError>
        ensures { IfOk result (λ l. l ≡ self.now) }
    {
        let form = match &self.form {
            Form::Small(items) => Form::Small(Vec::from_slice(alloc, items)?),
            Form::Wide(items) => Form::Wide(Vec::from_slice(alloc, items)?),
        };
        Ok(Compact { form })
    }
}
