//! Lines that several texts share.
ghost use Rattle.std.specs.Prelude.{◌≡◌, ◌++◌, OnOk};
ghost use Rattle.fpl_spelling.specs.Fronts.{KeepsFront};
ghost use Rattle.fpl_print.specs.Lines.{head_line, count_line};

use fpl_numbers::Kind;
use fpl_spelling::{push_field, push_number, push_text};
use std::alloc::AllocError;

/// Appends the first line of a text: its word, the field and the weight.
pub fn push_head_line(
    out: &mut Vec<u8>,
    word: &[u8],
    field: Kind,
    weight: u32,
) -> Result<(), AllocError>
    ensures text { OnOk result (out.new.items ≡ out.old.items ++ head_line word.now field weight) }
    ensures front { KeepsFront out.old.items out.new.items }
{
    push_text(out, word)?;
    push_text(out, b" ")?;
    push_field(out, field)?;
    push_text(out, b" through ")?;
    push_number(out, weight)?;
    push_text(out, b"\n")
}

/// Appends a line of a word and a number.
pub fn push_count(out: &mut Vec<u8>, word: &[u8], count: usize) -> Result<(), AllocError>
    ensures text { OnOk result (out.new.items ≡ out.old.items ++ count_line word.now count) }
    ensures front { KeepsFront out.old.items out.new.items }
{
    push_text(out, word)?;
    push_number(out, count as u64)?;
    push_text(out, b"\n")
}
