//! Fields, parities and the names of generators.
ghost use Rattle.std.specs.Prelude.{◌≡◌, ◌++◌, List, ℕ, map, OnOk, decimal};
ghost use Rattle.fpl_spelling.specs.Fronts.{KeepsFront};
ghost use Rattle.fpl_model.specs.Meaning.{parity_in};
ghost use Rattle.fpl_spelling.specs.Spelling.{field_text, parity_text, name_text};

use crate::numbers::push_number;
use fpl_model::{Generators, Parity};
use fpl_numbers::Kind;
use std::alloc::AllocError;

/// Appends bytes.
pub fn push_text(out: &mut Vec<u8>, text: &[u8]) -> Result<(), AllocError>
    ensures text { OnOk result (out.new.items ≡ out.old.items ++ text.now) }
    ensures front { KeepsFront out.old.items out.new.items }
{
    out.extend_from_slice(text)
}

/// Appends `Q`, or the prime.
pub fn push_field(out: &mut Vec<u8>, field: Kind) -> Result<(), AllocError>
    ensures text { OnOk result (out.new.items ≡ out.old.items ++ field_text field) }
    ensures front { KeepsFront out.old.items out.new.items }
{
    match field {
        Kind::Rational => push_text(out, b"Q"),
        Kind::Prime(p) => push_number(out, p),
    }
}

/// Appends `even` or `odd`.
pub fn push_parity(out: &mut Vec<u8>, parity: Parity) -> Result<(), AllocError>
    ensures text { OnOk result (out.new.items ≡ out.old.items ++ parity_text (parity_in parity)) }
    ensures front { KeepsFront out.old.items out.new.items }
{
    match parity {
        Parity::Even => push_text(out, b"even"),
        Parity::Odd => push_text(out, b"odd"),
    }
}

/// Appends the name of a generator; these count from 1. One that isn't there has no name.
pub fn push_name(out: &mut Vec<u8>, generators: &Generators, g: u32) -> Result<(), AllocError>
    ensures text { OnOk result (out.new.items ≡ out.old.items ++ name_text (map (λ g. g.name) generators.now) g) }
    ensures front { KeepsFront out.old.items out.new.items }
{
    match generators.get(g.saturating_sub(1) as usize) {
        Some(generator) => push_text(out, generator.name.text().as_bytes()),
        None => Ok(()),
    }
}
