ghost use Rattle.std.specs.Prelude.{◌≡◌, true, ◌≤◌, ◌<◌, ◌*◌, ◌/◌, ◌*ℤ◌, pos, nat_le, unsigned_abs, IfOk, if◌then◌else◌};
ghost use Rattle.fpl_numbers.specs.declared.number.Kind.TheVariants.{Rational};
ghost use Rattle.fpl_numbers.specs.declared.number.Op.TheVariants.{Add, Mul};
ghost use Rattle.fpl_numbers.specs.Numbers.{IsElement, most_number, divided, fraction_fits, fraction_product, fraction_sum, is_within};
ghost use Rattle.fpl_numbers.specs.Results.{Answers};
ghost use Rattle.fpl_scalar.specs.Vectors.{fused};

use crate::Field;
use crate::divisor::{gcd, over};
use crate::whole::{plus, times, whole, whole_fused};
use fpl_numbers::{Kind, Num, Op, Unfit};

/// The fractions whose numerator and denominator are at most 2^127 - 1 in magnitude.
#[derive(Clone, Copy, Debug)]
pub struct Fraction;

/// `a` times the quotient of `n` by `d`, where it is within the bound.
fn multiple(a: i128, n: u128, d: u128) -> Option<i128>
    requires positive { 0 < d }
    requires fits { n ≤ most_number }
    ensures { result ≡ (if is_within (a *ℤ pos (n / d)) then Some (a *ℤ pos (n / d)) else None) }
{
    times(a, over(n, d) as i128)
}

/// The product of the quotients of `n` by `d` and of `m` by `e`, where it is within the bound.
fn joined(n: u128, d: u128, m: u128, e: u128) -> Option<i128>
    requires left { 0 < d }
    requires right { 0 < e }
    requires left_fits { n ≤ most_number }
    requires right_fits { m ≤ most_number }
    ensures { result ≡ (if nat_le (n / d * (m / e)) most_number then Some (pos (n / d * (m / e))) else None) }
{
    multiple(over(n, d) as i128, m, e)
}

/// `n` divided by `d`, towards 0.
pub fn reduced_by(n: i128, d: u128) -> i128
    requires positive { 0 < d }
    requires fits { d ≤ most_number }
    ensures { result ≡ divided n d }
{
    match (i64::try_from(n), i64::try_from(d)) {
        (Ok(x), Ok(y)) => i128::from(x / y),
        _ => n / d as i128,
    }
}

/// The denominator.
fn below(a: Num) -> u128
    requires { IsElement Rational a }
    ensures value { result ≡ unsigned_abs a.denominator }
    ensures positive { 0 < result }
    ensures fits { result ≤ most_number }
{
    a.denominator.unsigned_abs()
}

/// The exact sum, where it fits.
fn sum(a: Num, b: Num) -> Option<Num>
    requires left { IsElement Rational a }
    requires right { IsElement Rational b }
    ensures { result ≡ (if fraction_fits Add a b then Some (fraction_sum a b) else None) }
{
    if a.denominator == 1 && b.denominator == 1 {
        whole(plus(a.numerator, b.numerator))
    } else {
        reduced_sum(a, b)
    }
}

/// The exact sum, where it fits: over the least common denominator, then reduced.
fn reduced_sum(a: Num, b: Num) -> Option<Num>
    requires left { IsElement Rational a }
    requires right { IsElement Rational b }
    ensures { result ≡ (if fraction_fits Add a b then Some (fraction_sum a b) else None) }
{
    let a_below = below(a);
    let b_below = below(b);
    let common = gcd(a_below, b_below);
    let Some(left) = multiple(a.numerator, b_below, common) else {
        return None;
    };
    let Some(right) = multiple(b.numerator, a_below, common) else {
        return None;
    };
    let Some(total) = plus(left, right) else {
        return None;
    };
    let shared = gcd(total.unsigned_abs(), common);
    let Some(denominator) = joined(a_below, common, b_below, shared) else {
        return None;
    };
    Some(Num {
        numerator: reduced_by(total, shared),
        denominator,
    })
}

/// The exact product, where it fits.
fn product(a: Num, b: Num) -> Option<Num>
    requires left { IsElement Rational a }
    requires right { IsElement Rational b }
    ensures { result ≡ (if fraction_fits Mul a b then Some (fraction_product a b) else None) }
{
    if a.denominator == 1 && b.denominator == 1 {
        whole(times(a.numerator, b.numerator))
    } else {
        reduced_product(a, b)
    }
}

/// The exact product, where it fits. Each numerator and the other denominator are first divided
/// by their greatest common divisor, so that no part is greater than that of the product.
fn reduced_product(a: Num, b: Num) -> Option<Num>
    requires left { IsElement Rational a }
    requires right { IsElement Rational b }
    ensures { result ≡ (if fraction_fits Mul a b then Some (fraction_product a b) else None) }
{
    let a_below = below(a);
    let b_below = below(b);
    let left = gcd(a.numerator.unsigned_abs(), b_below);
    let right = gcd(b.numerator.unsigned_abs(), a_below);
    let above = times(
        reduced_by(a.numerator, left),
        reduced_by(b.numerator, right),
    );
    let Some(numerator) = above else {
        return None;
    };
    let Some(denominator) = joined(a_below, right, b_below, left) else {
        return None;
    };
    Some(Num {
        numerator,
        denominator,
    })
}

/// The product before the sum.
fn fused(sum: Num, c: Num, x: Num) -> Result<Num, Unfit>
    requires sum { IsElement Rational sum }
    requires factor { IsElement Rational c }
    requires other { IsElement Rational x }
    ensures value { Answers (λ s. s) result (fused Rational sum c x) }
    ensures element { IfOk result (λ s. IsElement Rational s) }
{
    match Fraction.mul(c, x) {
        Ok(product) => Fraction.add(sum, product),
        Err(u) => Err(u),
    }
}

impl Field for Fraction {
    type Elem = Num;

    ghost kind_of = { λ f. Rational };

    ghost number = { λ a. a };

    ghost is_field = { λ f. tt };

    ghost same_number = { λ f a b is_a is_b e. e };

    type Sum = Num;

    ghost summed = { λ r sum. sum };

    ghost has_room = { λ r sum. true };

    fn kind(&self) -> Kind {
        Kind::Rational
    }

    fn zero(&self) -> Num {
        Num {
            numerator: 0,
            denominator: 1,
        }
    }

    fn one(&self) -> Num {
        Num {
            numerator: 1,
            denominator: 1,
        }
    }

    fn is_zero(&self, a: Num) -> bool {
        a.numerator == 0
    }

    fn same(&self, a: Num, b: Num) -> bool {
        a == b
    }

    fn add(&self, a: Num, b: Num) -> Result<Num, Unfit> {
        match sum(a, b) {
            Some(c) => Ok(c),
            None => Err(Unfit { op: Op::Add, a, b }),
        }
    }

    fn mul(&self, a: Num, b: Num) -> Result<Num, Unfit> {
        match product(a, b) {
            Some(c) => Ok(c),
            None => Err(Unfit { op: Op::Mul, a, b }),
        }
    }

    fn neg(&self, a: Num) -> Num {
        Num {
            numerator: -a.numerator,
            denominator: a.denominator,
        }
    }

    fn inverse(&self, a: Num) -> Num {
        if a.numerator < 0 {
            Num {
                numerator: -a.denominator,
                denominator: -a.numerator,
            }
        } else {
            Num {
                numerator: a.denominator,
                denominator: a.numerator,
            }
        }
    }

    fn of(&self, n: &Num) -> Num {
        *n
    }

    fn num(&self, a: Num) -> Num {
        a
    }

    fn blank(&self) -> Num {
        self.zero()
    }

    #[inline(always)]
    fn fuse(&self, sum: Num, c: Num, x: Num) -> Result<Num, Unfit> {
        match whole_fused(sum, c, x) {
            Some(total) => Ok(total),
            None => fused(sum, c, x),
        }
    }

    fn settle(&self, sum: Num) -> Num {
        sum
    }
}
