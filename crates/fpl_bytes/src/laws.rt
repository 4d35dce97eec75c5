//! Laws of the fields. Each function does nothing: what it ensures is the law.

ghost use Rattle.std.specs.Prelude.{ℕ, ◌<◌, ◌^◌};
ghost use Rattle.std.specs.Int.{w32, w64, to_be_bytes};
ghost use Rattle.fpl_numbers.specs.declared.number.Kind.{Kind};
ghost use Rattle.fpl_bytes.specs.declared.version.Version.{Version};
ghost use Rattle.fpl_bytes.specs.Codes.{IsCode};
ghost use Rattle.fpl_bytes.specs.Reading.{whole_at};
ghost use Rattle.fpl_bytes.specs.Numbers.{number_bytes, number_at, IsStored};

/// Whole numbers are read back, and what is read is written so.
pub fn wholes_are_read_back()
    ensures four { (end : ℕ) → IsCode (to_be_bytes w32) (whole_at w32 end) (λ n. n < 2 ^ 32) }
    ensures eight { (end : ℕ) → IsCode (to_be_bytes w64) (whole_at w64 end) (λ n. n < 2 ^ 64) }
{}

/// Numbers that are stored are read back, and what is read is stored and is written so.
pub fn numbers_are_read_back()
    ensures { (version : Version) (kind : Kind) (end : ℕ) → IsCode (number_bytes version kind) (number_at version kind end) (IsStored version kind) }
{}
