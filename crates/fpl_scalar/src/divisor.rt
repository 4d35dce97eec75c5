ghost use Rattle.std.specs.Prelude.{◌≡◌, ◌<◌, ◌≤◌, ◌/◌};
ghost use Rattle.math_fields.specs.Gcd.{gcd};

/// The turns that Euclid's algorithm takes at most on numbers of 128 bits: each turn but the
/// first at least halves the product of the two numbers, which is below 2^256.
const TURNS: u32 = 257;

/// The greatest common divisor, by Euclid's algorithm.
pub fn gcd(a: u128, b: u128) -> u128
    ensures value { result ≡ gcd a b }
    ensures positive { 0 < b → 0 < result }
    ensures within { 0 < b → result ≤ b }
{
    match (u64::try_from(a), u64::try_from(b)) {
        (Ok(x), Ok(y)) => u128::from(narrow_gcd(x, y)),
        _ => wide_gcd(a, b),
    }
}

fn wide_gcd(a: u128, b: u128) -> u128
    ensures value { result ≡ gcd a b }
    ensures positive { 0 < b → 0 < result }
    ensures within { 0 < b → result ≤ b }
{
    let mut x = a;
    let mut y = b;
    for _turn in 0..TURNS {
        if y == 0 {
            break;
        }
        let rest = x % y;
        x = y;
        y = rest;
    }
    x
}

// Division of 64 bits is much faster.
fn narrow_gcd(a: u64, b: u64) -> u64
    ensures value { result ≡ gcd a b }
    ensures positive { 0 < b → 0 < result }
    ensures within { 0 < b → result ≤ b }
{
    let mut x = a;
    let mut y = b;
    for _turn in 0..TURNS {
        if y == 0 {
            break;
        }
        let rest = x % y;
        x = y;
        y = rest;
    }
    x
}

/// The quotient, rounded down.
pub fn over(a: u128, b: u128) -> u128
    requires { 0 < b }
    ensures { result ≡ a / b }
{
    match (u64::try_from(a), u64::try_from(b)) {
        (Ok(x), Ok(y)) => u128::from(x / y),
        _ => a / b,
    }
}
