ghost use Rattle.std.specs.Prelude.{◌≡◌, ◌+ℤ◌, ◌*ℤ◌, Ok, IfSome, option_map, if◌then◌else◌};
ghost use Rattle.fpl_numbers.specs.declared.number.Kind.TheVariants.{Rational};
ghost use Rattle.fpl_numbers.specs.declared.number.Op.TheVariants.{Add, Mul};
ghost use Rattle.fpl_numbers.specs.Numbers.{IsElement, fraction_fits, fraction_product, fraction_sum, is_within};
ghost use Rattle.fpl_numbers.specs.Quotients.{whole};
ghost use Rattle.fpl_scalar.specs.Vectors.{fused};

use fpl_numbers::Num;

/// The product of two whole numbers, where it is within the bound.
#[inline(always)]
pub fn times(a: i128, b: i128) -> Option<i128>
    ensures { result ≡ (if is_within (a *ℤ b) then Some (a *ℤ b) else None) }
{
    match (i64::try_from(a), i64::try_from(b)) {
        // at most 2^126, so that no test is needed
        (Ok(x), Ok(y)) => Some(i128::from(x) * i128::from(y)),
        _ => wide_times(a, b),
    }
}

fn wide_times(a: i128, b: i128) -> Option<i128>
    ensures { result ≡ (if is_within (a *ℤ b) then Some (a *ℤ b) else None) }
{
    match a.checked_mul(b) {
        Some(product) if product != i128::MIN => Some(product),
        _ => None,
    }
}

/// The sum of two whole numbers, where it is within the bound.
#[inline(always)]
pub fn plus(a: i128, b: i128) -> Option<i128>
    ensures { result ≡ (if is_within (a +ℤ b) then Some (a +ℤ b) else None) }
{
    match a.checked_add(b) {
        Some(sum) if sum != i128::MIN => Some(sum),
        _ => None,
    }
}

/// A whole number as a fraction.
#[inline(always)]
pub fn whole(n: Option<i128>) -> Option<Num>
    ensures { result ≡ option_map (whole Rational) n }
{
    match n {
        Some(numerator) => Some(Num {
            numerator,
            denominator: 1,
        }),
        None => None,
    }
}

/// The exact sum of two whole numbers, where it fits. Of other numbers there is none.
#[inline(always)]
fn whole_sum(a: Num, b: Num) -> Option<Num>
    requires left { IsElement Rational a }
    requires right { IsElement Rational b }
    ensures { IfSome result (λ c. Some c ≡ (if fraction_fits Add a b then Some (fraction_sum a b) else None)) }
{
    if a.denominator == 1 && b.denominator == 1 {
        whole(plus(a.numerator, b.numerator))
    } else {
        None
    }
}

/// The exact product of two whole numbers, where it fits. Of other numbers there is none.
#[inline(always)]
fn whole_product(a: Num, b: Num) -> Option<Num>
    requires left { IsElement Rational a }
    requires right { IsElement Rational b }
    ensures { IfSome result (λ c. Some c ≡ (if fraction_fits Mul a b then Some (fraction_product a b) else None)) }
{
    if a.denominator == 1 && b.denominator == 1 {
        whole(times(a.numerator, b.numerator))
    } else {
        None
    }
}

/// `sum` and `c` times `x`, where all three are whole and both operations fit. It is put into the
/// loops that it serves, as the general way is not.
#[inline(always)]
pub fn whole_fused(sum: Num, c: Num, x: Num) -> Option<Num>
    requires sum { IsElement Rational sum }
    requires factor { IsElement Rational c }
    requires other { IsElement Rational x }
    ensures value { IfSome result (λ s. fused Rational sum c x ≡ Ok s) }
    ensures element { IfSome result (λ s. IsElement Rational s) }
{
    match whole_product(c, x) {
        Some(product) => whole_sum(sum, product),
        None => None,
    }
}
