ghost use Rattle.std.specs.Prelude.{◌≡◌, IfOk};
ghost use Rattle.fpl_model.specs.Scalars.{number_stored};

use fpl_numbers::Num;
use sqlite_items::Boxed;
use std::alloc::{AllocError, Global};
use std::marker::Model;
use std::rc::Rc;

/// A number in one of two sizes: most are small, and take half the memory of a large one.
#[derive(Drop)]
enum Stored {
    /// A numerator and a denominator.
    Small(i64, i64),
    Large(Boxed<Num>),
}

/// A number as expressions hold it: one word, which leads to a number that several expressions may share.
#[derive(Drop)]
pub struct Scalar {
    shared: Rc<Stored>,
}

impl Model for Scalar {
    ghost use Rattle.fpl_numbers.specs.declared.number.Num.{Num};
    ghost use Rattle.fpl_model.specs.Scalars.{number_stored};

    ghost Value = { Num };

    ghost view = { λ s. number_stored s.shared.value };
}

fn store(alloc: Global, number: Num) -> Result<Stored, AllocError>
    ensures { IfOk result (λ s. number_stored s ≡ number) }
{
    let numerator = i64::try_from(number.numerator);
    let denominator = i64::try_from(number.denominator);
    match (numerator, denominator) {
        (Ok(numerator), Ok(denominator)) => Ok(Stored::Small(numerator, denominator)),
        _ => Ok(Stored::Large(Boxed::new(alloc, number)?)),
    }
}

impl Scalar {
    pub fn new(alloc: Global, number: Num) -> Result<Scalar, AllocError>
        ensures { IfOk result (λ s. s ≡ number) }
    {
        Ok(Scalar {
            shared: Rc::new(alloc, store(alloc, number)?)?,
        })
    }

    pub fn number(&self) -> Num
        ensures { result ≡ self.now }
    {
        match self.shared.as_ref() {
            Stored::Small(numerator, denominator) => Num {
                numerator: i128::from(*numerator),
                denominator: i128::from(*denominator),
            },
            Stored::Large(number) => *number.get(),
        }
    }

    /// The same number, in the same memory.
    pub fn share(&self) -> Result<Scalar, AllocError>
        ensures { IfOk result (λ s. s ≡ self.now) }
    {
        Ok(Scalar {
            shared: self.shared.clone()?,
        })
    }
}
