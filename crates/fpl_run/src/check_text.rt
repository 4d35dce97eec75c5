//! The text of a check.
ghost use Rattle.std.specs.Prelude.{◌≡◌, ◌++◌, IfOk};
ghost use Rattle.fpl_run.specs.CheckText.{check_text};

use fpl_numbers::Kind;
use fpl_spelling::{push_field, push_number};
use std::alloc::{AllocError, Global};

/// How many sections stood whole and passed, through the limit, and how many bytes stand after them.
pub fn check_text(
    alloc: Global,
    field: Kind,
    limit: u32,
    sections: u32,
    rest: u64,
) -> Result<Vec<u8>, AllocError>
    ensures { IfOk result (λ text. text.items ≡ check_text field limit sections rest) }
{
    let mut out = Vec::from_slice(alloc, b"check ")?;
    push_field(&mut out, field)?;
    out.extend_from_slice(b" through ")?;
    push_number(&mut out, limit)?;
    out.extend_from_slice(b"\nsections ")?;
    push_number(&mut out, sections)?;
    out.extend_from_slice(b"\nrest ")?;
    push_number(&mut out, rest)?;
    out.extend_from_slice(b"\nend\n")?;
    Ok(out)
}
