//! The text of the view equal.
ghost use Rattle.std.specs.Prelude.{◌≡◌, ◌<◌, ◌^◌, ◌++◌, length, IfOk, OnOk};
ghost use Rattle.fpl_scalar.specs.Vectors.{AreElements};
ghost use Rattle.fpl_print.specs.Lines.{text_at};
ghost use Rattle.fpl_print.specs.TableText.{text_of};
ghost use Rattle.fpl_print.specs.EqualText.{answer_in, IsOfKind, AreOfKind, value_text, values_text, answer_text, answer_line, equal_text};

use crate::answers::{Answer, Answers};
use crate::combinations::push_combination;
use crate::lines::push_head_line;
use fpl_rows::Row;
use fpl_scalar::Field;
use fpl_spelling::push_number;
use fpl_table::Table;
use std::alloc::{AllocError, Global};

fn push_value<F: Field>(
    out: &mut Vec<u8>,
    table: &Table<F>,
    word: &[u8],
    value: &Row<F>,
) -> Result<(), AllocError>
    requires { AreElements table.now.kind value.now }
    ensures { OnOk result (out.new.items ≡ out.old.items ++ value_text word.now value.now) }
{
    out.extend_from_slice(word)?;
    push_combination(out, table.field(), value)
}

fn push_values<F: Field>(
    out: &mut Vec<u8>,
    table: &Table<F>,
    left: &Row<F>,
    right: &Row<F>,
) -> Result<(), AllocError>
    requires left { AreElements table.now.kind left.now }
    requires right { AreElements table.now.kind right.now }
    ensures { OnOk result (out.new.items ≡ out.old.items ++ values_text left.now right.now) }
{
    push_value(out, table, b"different left ", left)?;
    push_value(out, table, b" right ", right)
}

fn push_answer<F: Field>(
    out: &mut Vec<u8>,
    table: &Table<F>,
    answer: &Answer<F>,
) -> Result<(), AllocError>
    requires { IsOfKind table.now.kind (answer_in answer.now) }
    ensures { OnOk result (out.new.items ≡ out.old.items ++ answer_text (answer_in answer.now)) }
{
    match answer {
        Answer::Same => out.extend_from_slice(b"equal"),
        Answer::Different { left, right } => push_values(out, table, left, right),
        Answer::Beyond => out.extend_from_slice(b"beyond"),
    }
}

// Appends answer `k`, which counts from 0, if there is one.
fn push_answer_at<F: Field>(
    out: &mut Vec<u8>,
    table: &Table<F>,
    answers: &Answers<F>,
    k: usize,
) -> Result<(), AllocError>
    requires { AreOfKind table.now.kind answers.now }
    ensures { OnOk result (out.new.items ≡ out.old.items ++ text_at answer_text answers.now k) }
{
    match answers.get(k) {
        Some(answer) => push_answer(out, table, answer),
        None => Ok(()),
    }
}

// Appends the line of answer `k`, which counts from 0.
fn push_answer_line<F: Field>(
    out: &mut Vec<u8>,
    table: &Table<F>,
    answers: &Answers<F>,
    k: usize,
) -> Result<(), AllocError>
    requires number { k < 2 ^ 63 }
    requires elements { AreOfKind table.now.kind answers.now }
    ensures { OnOk result (out.new.items ≡ out.old.items ++ answer_line answers.now k) }
{
    out.extend_from_slice(b"query ")?;
    push_number(out, k as u64 + 1)?;
    out.extend_from_slice(b" ")?;
    push_answer_at(out, table, answers, k)?;
    out.extend_from_slice(b"\n")
}

fn push_answers<F: Field>(
    out: &mut Vec<u8>,
    table: &Table<F>,
    answers: &Answers<F>,
) -> Result<(), AllocError>
    requires { AreOfKind table.now.kind answers.now }
    ensures { OnOk result (out.new.items ≡ out.old.items ++ text_of (length answers.now) (answer_line answers.now)) }
{
    for k in 0..answers.len() {
        push_answer_line(out, table, answers, k)?;
    }
    Ok(())
}

/// The text of the view equal: a line for each answer, in order.
pub fn equal_text<F: Field>(
    alloc: Global,
    table: &Table<F>,
    answers: &Answers<F>,
) -> Result<Vec<u8>, AllocError>
    requires { AreOfKind table.now.kind answers.now }
    ensures { IfOk result (λ text. text.items ≡ equal_text table.now answers.now) }
{
    let mut out = Vec::new(alloc);
    push_head_line(&mut out, b"equal", table.field().kind(), table.weight())?;
    push_answers(&mut out, table, answers)?;
    out.extend_from_slice(b"end\n")?;
    Ok(out)
}
