ghost use Rattle.std.specs.Prelude.{◌≡◌, ◌≤◌, pos, true, IfOk, IsTrue};
ghost use Rattle.fpl_numbers.specs.Numbers.{most_number};
ghost use Rattle.fpl_numbers.specs.Quotients.{quotient_of};
ghost use Rattle.fpl_syntax.specs.Grammar.{coefficient_of, signed, or_nought};
ghost use Rattle.fpl_syntax.specs.Kinds.{is_field};

use fpl_model::Scalar;
use fpl_numbers::{Kind, Num};
use fpl_scalar::quotient;
use std::alloc::{AllocError, Global};

/// The greatest number that a text may write.
const MOST: u128 = 170141183460469231731687303715884105727;

const NOUGHT: Num = Num {
    numerator: 0,
    denominator: 1,
};

fn signed(negative: bool, a: u128) -> i128
    requires { a ≤ most_number }
    ensures { result ≡ signed negative a }
{
    let a = a as i128;
    if negative { -a } else { a }
}

#[tactic(auto, using(crate::proofs::Coefficients::known_field, crate::proofs::Coefficients::signed_small))]
fn quotient_or_nought(kind: Kind, negative: bool, a: u128, b: u128) -> Num
    requires field { IsTrue (is_field kind) }
    requires above { a ≤ most_number }
    requires below { b ≤ most_number }
    ensures { result ≡ or_nought (quotient_of kind (signed negative a) (pos b)) }
{
    match quotient(kind, signed(negative, a), b as i128) {
        Some(c) => c,
        None => NOUGHT,
    }
}

/// The canonical number of a quotient, or of its negative; 0 where there is none.
#[tactic(auto, unfolding(crate::specs::Grammar::coefficient_of))]
pub fn coefficient(kind: Kind, negative: bool, a: u128, b: u128) -> Num
    requires { IsTrue (is_field kind) }
    ensures { result ≡ coefficient_of kind negative a b }
{
    if a > MOST || b > MOST {
        return NOUGHT;
    }
    quotient_or_nought(kind, negative, a, b)
}

/// The number of a term that has a `-` and no number.
pub fn minus_one(alloc: Global, kind: Kind) -> Result<Scalar, AllocError>
    requires { IsTrue (is_field kind) }
    ensures { IfOk result (λ c. c ≡ coefficient_of kind true 1 1) }
{
    Scalar::new(alloc, coefficient(kind, true, 1, 1))
}
