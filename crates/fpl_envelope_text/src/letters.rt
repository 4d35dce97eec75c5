//! The names of words.
ghost use Rattle.std.specs.Prelude.{◌≡◌, ◌++◌, ◌∷◌, OnOk};
ghost use Rattle.fpl_envelope_text.specs.Texts.{further_text, word_text};

use fpl_spelling::push_number;
use std::alloc::AllocError;

/// Appends letters, each after a dot.
fn push_further(out: &mut Vec<u8>, letters: &[u32]) -> Result<(), AllocError>
    ensures { OnOk result (out.new.items ≡ out.old.items ++ further_text letters.now) }
{
    for k in 0..letters.len() {
        out.extend_from_slice(b".b")?;
        push_number(out, letters[k])?;
    }
    Ok(())
}

/// Appends the name of a word of at least one letter.
pub(crate) fn push_joined(out: &mut Vec<u8>, first: u32, rest: &[u32]) -> Result<(), AllocError>
    ensures { OnOk result (out.new.items ≡ out.old.items ++ word_text (first ∷ rest.now)) }
{
    out.extend_from_slice(b"b")?;
    push_number(out, first)?;
    push_further(out, rest)
}

/// Appends the name of a word.
pub(crate) fn push_word(out: &mut Vec<u8>, letters: &[u32]) -> Result<(), AllocError>
    ensures { OnOk result (out.new.items ≡ out.old.items ++ word_text letters.now) }
{
    match letters.split_first() {
        Some((first, rest)) => push_joined(out, *first, rest),
        None => Ok(()),
    }
}
