ghost use Rattle.std.specs.Prelude.{◌≡◌};
ghost use Rattle.fpl_numbers.specs.Numbers.{is_listed};

use std::alloc::AllocError;
use thiserror::Error;

/// A number. Over a prime it is a residue from 0 to the prime less 1, over 1.
/// Over fractions it is in lowest terms, with a denominator above 0; zero is 0/1.
#[derive(Clone, Copy, Debug, PartialEq, Eq)]
pub struct Num {
    pub numerator: i128,
    pub denominator: i128,
}

/// Which field: the fractions, or the residues modulo a prime.
#[derive(Clone, Copy, Debug, PartialEq, Eq)]
pub enum Kind {
    Rational,
    Prime(u32),
}

/// An operation that may not fit. Negatives and inverses always do.
#[derive(Clone, Copy, Debug, PartialEq, Eq)]
pub enum Op {
    Add,
    Mul,
}

/// An operation that does not fit, with its operands in their order.
#[derive(Clone, Copy, Debug, PartialEq, Eq)]
pub struct Unfit {
    pub op: Op,
    pub a: Num,
    pub b: Num,
}

/// Why a call that computes and takes memory gave up.
#[derive(Clone, Copy, Debug, PartialEq, Eq, Error)]
pub enum Fault {
    #[error("an operation does not fit")]
    Unfit(Unfit),
    #[error("no memory")]
    NoMemory,
}

impl From<AllocError> for Fault {
    ghost use Rattle.std.specs.Prelude.{◌≡◌};
    ghost use Rattle.fpl_numbers.specs.declared.number.Fault.TheVariants.{NoMemory};

    ghost from_gives = { λ error e. e ≡ NoMemory };

    fn from(_error: AllocError) -> Fault {
        Fault::NoMemory
    }
}

/// The accepted primes, ascending.
pub const PRIMES: [u32; 15] = [
    3, 5, 7, 11, 13, 17, 19, 23, 29, 31, 101, 251, 10007, 32003, 65521,
];

/// Whether `p` is an accepted prime.
pub fn is_listed(p: u128) -> bool
    ensures { result ≡ is_listed p }
{
    PRIMES.iter().any(|q| p == u128::from(*q))
}
