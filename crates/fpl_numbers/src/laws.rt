//! Laws of the numbers. Each function does nothing: what it ensures is the law.

ghost use Rattle.std.specs.Prelude.{◌≡◌, ◌<◌, ◌+ℤ◌, ◌↔◌, ℕ, ℤ, pos, true, Ok, None, IfSome};
ghost use Rattle.std.specs.Int.{IsGcd};
ghost use Rattle.math_fields.specs.Primes.{IsPrime};
ghost use Rattle.fpl_numbers.specs.declared.number.Kind.{Kind};
ghost use Rattle.fpl_numbers.specs.declared.number.Kind.TheVariants.{Prime};
ghost use Rattle.fpl_numbers.specs.declared.number.Num.{Num};
ghost use Rattle.fpl_numbers.specs.declared.number.Op.{Op};
ghost use Rattle.math_fields.specs.Gcd.{gcd};
ghost use Rattle.fpl_numbers.specs.Numbers.{IsListed, IsField, IsNumber, IsSmall, fits, operate, result_of};
ghost use Rattle.fpl_numbers.specs.Kinds.{field_of, number_of};
ghost use Rattle.fpl_numbers.specs.Quotients.{quotient_of, whole};
ghost use Rattle.fpl_numbers.specs.Reads.{Reads, ReadsExactly, IsReadOnto};

/// Each accepted prime is prime, and odd.
pub fn primes_are_prime()
    ensures prime { (p : ℕ) → IsListed p → IsPrime p }
    ensures odd { (p : ℕ) → IsListed p → 2 < p }
{}

/// Canonical numbers of any size stand for the numbers of their field, different ones for
/// different ones, and their exact sum, product, negative and inverse are canonical and those of
/// the field. The field has no other numbers. Numbers that fit, with the operations that
/// fit, stand for them too.
pub fn numbers_are_of_their_field()
    ensures exact { (k : Kind) → IsField k → ReadsExactly k (field_of k) (number_of k) }
    ensures every { (k : Kind) → IsField k → IsReadOnto k (field_of k) (number_of k) }
    ensures elements { (k : Kind) → IsField k → Reads k (field_of k) (number_of k) }
{}

/// An operation fits where its operands and its exact result have parts below 2^63.
pub fn small_operations_fit()
    ensures { (k : Kind) (op : Op) (a b : Num) →
        IsSmall a → IsSmall b → IsSmall (result_of k op a b) → fits k op a b ≡ true }
{}

/// An operation on residues always fits.
pub fn residues_fit()
    ensures { (p : ℕ) (op : Op) (a b : Num) → operate (Prime p) op a b ≡ Ok (result_of (Prime p) op a b) }
{}

/// Euclid's algorithm finds the greatest common divisor.
pub fn gcd_is_greatest()
    ensures { (a b : ℕ) → IsGcd a b (gcd a b) }
{}

/// A whole number of a field is a sum of so many units, or a negative of one.
pub fn whole_numbers_are_sums_of_units()
    ensures number { (k : Kind) (a : ℤ) → IsField k → IsNumber k (whole k a) }
    ensures one { (k : Kind) → IsField k → number_of k (whole k (pos 1)) ≡ (field_of k).unit }
    ensures sum { (k : Kind) (a b : ℤ) → IsField k →
        number_of k (whole k (a +ℤ b)) ≡ (field_of k).plus (number_of k (whole k a)) (number_of k (whole k b)) }
{}

/// The quotient of two whole numbers is the number of the field that times the second is the
/// first, and there is none exactly where the second is 0 in the field.
pub fn quotients_are_of_their_field()
    ensures value { (k : Kind) (a b : ℤ) → IsField k →
        IfSome (quotient_of k a b) (λ q. IsNumber k q × ((field_of k).times (number_of k q) (number_of k (whole k b)) ≡ number_of k (whole k a))) }
    ensures none { (k : Kind) (a b : ℤ) → IsField k →
        ((quotient_of k a b ≡ None) ↔ (number_of k (whole k b) ≡ (field_of k).nought)) }
{}
