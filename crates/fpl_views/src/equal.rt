//! The view `equal`.
ghost use Rattle.std.specs.Prelude.{◌≡◌, ◌≤◌, ◌<◌, ◌^◌, length, Ok, Err, IfOk, IfErr, IsErrOf};
ghost use Rattle.fpl_numbers.specs.Results.{GivesBy};
ghost use Rattle.fpl_scalar.specs.Vectors.{AreElements};
ghost use Rattle.fpl_model.specs.Sound.{IsSound, IsSoundEquation, count_equation};
ghost use Rattle.fpl_table.specs.Shape.{Agrees};
ghost use Rattle.fpl_table.specs.Standard.{IsTableOf};
ghost use Rattle.fpl_print.specs.EqualText.{answer_in, IsOfKind, AreOfKind};
ghost use Rattle.fpl_reply.specs.declared.view_fault.ViewFault.{ViewFault};
ghost use Rattle.fpl_views.specs.Equal.{same_row, compared, answer_by, answer_of, answers_of, text_of_equal};

use crate::shown::ShowError;
use fpl_model::{Equation, Presentation};
use fpl_print::{Answer, Answers, equal_text};
use fpl_queries::is_beyond;
use fpl_reply::ViewFault;
use fpl_rows::Row;
use fpl_scalar::{Fault, Field};
use fpl_table::Table;
use std::alloc::Global;

fn is_same<F: Field>(field: &F, left: &Row<F>, right: &Row<F>) -> bool
    requires whole { length left.now ≡ length right.now }
    requires left { AreElements (F.kind_of field.now) left.now }
    requires right { AreElements (F.kind_of field.now) right.now }
    ensures { result ≡ same_row left.now right.now }
{
    for s in 0..left.len() {
        if !field.same(left.at(s + 1), right.at(s + 1)) {
            return false;
        }
    }
    true
}

fn compared<F: Field>(field: &F, left: Row<F>, right: Row<F>) -> Answer<F>
    requires whole { length left ≡ length right }
    requires left { AreElements (F.kind_of field.now) left }
    requires right { AreElements (F.kind_of field.now) right }
    ensures value { answer_in result ≡ compared left right }
    ensures elements { IsOfKind (F.kind_of field.now) (answer_in result) }
{
    if is_same(field, &left, &right) {
        return Answer::Same;
    }
    Answer::Different { left, right }
}

// The answer to a query within the table's weight: the value of the left side, then that of the right.
fn answer_by<F: Field>(
    alloc: Global,
    p: &Presentation,
    table: &Table<F>,
    q: &Equation,
) -> Result<Answer<F>, Fault>
    requires sound { IsSound p.now }
    requires agrees { Agrees table.now p.now }
    requires query { IsSoundEquation p.now q.now }
    requires small { count_equation q.now < 2 ^ 40 }
    ensures value { GivesBy answer_in result (answer_by table.now q.now) }
    ensures elements { IfOk result (λ a. IsOfKind table.now.kind (answer_in a)) }
{
    match table.value(alloc, p, &q.left) {
        Ok(left) => match table.value(alloc, p, &q.right) {
            Ok(right) => Ok(compared(table.field(), left, right)),
            Err(fault) => Err(fault),
        },
        Err(fault) => Err(fault),
    }
}

fn answer<F: Field>(
    alloc: Global,
    p: &Presentation,
    table: &Table<F>,
    q: &Equation,
) -> Result<Answer<F>, Fault>
    requires sound { IsSound p.now }
    requires agrees { Agrees table.now p.now }
    requires query { IsSoundEquation p.now q.now }
    requires small { count_equation q.now < 2 ^ 40 }
    ensures value { GivesBy answer_in result (answer_of p.now table.now q.now) }
    ensures elements { IfOk result (λ a. IsOfKind table.now.kind (answer_in a)) }
{
    if is_beyond(p, table, q) {
        return Ok(Answer::Beyond);
    }
    answer_by(alloc, p, table, q)
}

// The answers to the queries, in their order.
fn answers_of<F: Field>(
    alloc: Global,
    p: &Presentation,
    table: &Table<F>,
) -> Result<Answers<F>, Fault>
    requires sound { IsSound p.now }
    requires agrees { Agrees table.now p.now }
    ensures value { GivesBy (λ a. a) result (answers_of p.now table.now p.now.queries) }
    ensures elements { IfOk result (λ a. AreOfKind table.now.kind a) }
{
    let mut answers = Answers::new(alloc);
    for q in p.queries.as_slice() {
        match answer(alloc, p, table, q) {
            Ok(next) => answers.push(next)?,
            Err(fault) => return Err(fault),
        }
    }
    Ok(answers)
}

/// For each query whether its two sides are equal, or their values where they aren't.
pub(crate) fn show_equal<F: Field>(
    alloc: Global,
    p: &Presentation,
    table: &Table<F>,
) -> Result<Vec<u8>, ShowError>
    requires sound { IsSound p.now }
    requires standard { IsTableOf p.now table.now.weight table.now }
    ensures text { IfOk result (λ text. text_of_equal p.now table.now ≡ Ok text.items) }
    ensures fault { (fault : ViewFault) → IsErrOf result (ShowError.Fault fault) → text_of_equal p.now table.now ≡ Err fault }
{
    match answers_of(alloc, p, table) {
        Ok(answers) => match equal_text(alloc, table, &answers) {
            Ok(text) => Ok(text),
            Err(_) => Err(ShowError::NoMemory),
        },
        Err(Fault::Unfit(u)) => Err(ShowError::Fault(ViewFault::Overflow(u))),
        Err(Fault::NoMemory) => Err(ShowError::NoMemory),
    }
}
