//! Fields, and the two that the program computes in: residues modulo a prime, and fractions.
//!
//! Each function does nothing: what it ensures is a law, on which one of these fields rests.
#![tactic(auto)]

ghost use Rattle.std.specs.Prelude.{◌≡◌, ◌≢◌, ◌<◌, ◌≤◌, ◌+◌, ◌*◌, ◌%◌, ℕ};
ghost use Rattle.std.specs.Int.{IsGcd};
ghost use Rattle.math_fields.specs.Primes.{IsPrime};

/// A number above 1 is prime where no number up to its root divides it.
pub fn primes_by_trial()
    ensures { (k p : ℕ) → 1 < p → p < (k + 2) * (k + 2) →
        ((d : ℕ) → 1 < d → d ≤ k + 1 → p % d ≢ 0) → IsPrime p }
{}

/// Modulo a prime each number that it does not divide has an inverse.
pub fn residues_have_inverses()
    ensures { (p a : ℕ) → IsPrime p → a % p ≢ 0 → (x : ℕ) × ((a * x) % p ≡ 1) }
{}

/// Any two numbers have a greatest common divisor.
pub fn numbers_have_gcds()
    ensures { (a b : ℕ) → (g : ℕ) × IsGcd a b g }
{}

/// Equal fractions in lowest terms have one numerator and one denominator.
pub fn fractions_have_one_lowest_form()
    ensures { (n e m h : ℕ) → 0 < e → 0 < h → IsGcd n e 1 → IsGcd m h 1 → n * h ≡ m * e →
        (n ≡ m) × (e ≡ h) }
{}
