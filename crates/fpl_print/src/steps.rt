//! The lines of steps.
ghost use Rattle.std.specs.Prelude.{◌≡◌, ◌<◌, ◌^◌, ◌++◌, length, OnOk};
ghost use Rattle.fpl_print.specs.Lines.{text_at};
ghost use Rattle.fpl_print.specs.TableText.{text_of};
ghost use Rattle.fpl_print.specs.LogText.{taken_sign, origin_text, term_text, terms_text, step_text, step_line};

use fpl_log::{Origin, Step, StepList, Term, Terms};
use fpl_spelling::{is_below_nought, push_magnitude, push_num, push_number};
use std::alloc::AllocError;

fn push_origin(out: &mut Vec<u8>, origin: Origin) -> Result<(), AllocError>
    ensures { OnOk result (out.new.items ≡ out.old.items ++ origin_text origin) }
{
    match origin {
        Origin::Relation(r) => {
            out.extend_from_slice(b"R")?;
            push_number(out, r)
        }
        Origin::Jacobi(i, j, k) => {
            out.extend_from_slice(b"J(")?;
            push_number(out, i)?;
            out.extend_from_slice(b",")?;
            push_number(out, j)?;
            out.extend_from_slice(b",")?;
            push_number(out, k)?;
            out.extend_from_slice(b")")
        }
        Origin::Cube(i) => {
            out.extend_from_slice(b"C(")?;
            push_number(out, i)?;
            out.extend_from_slice(b")")
        }
        Origin::Row(_) => Ok(()),
    }
}

fn push_taken(out: &mut Vec<u8>, below: bool) -> Result<(), AllocError>
    ensures { OnOk result (out.new.items ≡ out.old.items ++ taken_sign below) }
{
    if below {
        return out.extend_from_slice(b" + ");
    }
    out.extend_from_slice(b" - ")
}

fn push_term(out: &mut Vec<u8>, term: Term) -> Result<(), AllocError>
    ensures { OnOk result (out.new.items ≡ out.old.items ++ term_text term) }
{
    push_taken(out, is_below_nought(term.factor))?;
    push_magnitude(out, term.factor)?;
    out.extend_from_slice(b"*s")?;
    push_number(out, term.step)
}

// Appends term `k`, which counts from 0, if there is one.
fn push_term_at(out: &mut Vec<u8>, terms: &Terms, k: usize) -> Result<(), AllocError>
    ensures { OnOk result (out.new.items ≡ out.old.items ++ text_at term_text terms.now k) }
{
    match terms.get(k) {
        Some(term) => push_term(out, term),
        None => Ok(()),
    }
}

fn push_terms(out: &mut Vec<u8>, terms: &Terms) -> Result<(), AllocError>
    ensures { OnOk result (out.new.items ≡ out.old.items ++ terms_text terms.now) }
{
    for k in 0..terms.len() {
        push_term_at(out, terms, k)?;
    }
    Ok(())
}

fn push_step(out: &mut Vec<u8>, step: &Step) -> Result<(), AllocError>
    ensures { OnOk result (out.new.items ≡ out.old.items ++ step_text step.now) }
{
    match step {
        Step::Insert {
            origin,
            terms,
            scale,
        } => {
            push_num(out, *scale)?;
            out.extend_from_slice(b"*( ")?;
            push_origin(out, *origin)?;
            push_terms(out, terms)?;
            out.extend_from_slice(b" )")
        }
        Step::Close { of, terms } => {
            out.extend_from_slice(b"s")?;
            push_number(out, *of)?;
            push_terms(out, terms)
        }
    }
}

// Appends step `n`, which counts from 0, if there is one.
fn push_step_at(out: &mut Vec<u8>, steps: &StepList, n: usize) -> Result<(), AllocError>
    ensures { OnOk result (out.new.items ≡ out.old.items ++ text_at step_text steps.now n) }
{
    match steps.get(n) {
        Some(step) => push_step(out, step),
        None => Ok(()),
    }
}

// Appends the line of step `n`, which counts from 0.
fn push_step_line(out: &mut Vec<u8>, steps: &StepList, n: usize) -> Result<(), AllocError>
    requires { n < 2 ^ 63 }
    ensures { OnOk result (out.new.items ≡ out.old.items ++ step_line steps.now n) }
{
    out.extend_from_slice(b"s")?;
    push_number(out, n as u64 + 1)?;
    out.extend_from_slice(b" = ")?;
    push_step_at(out, steps, n)?;
    out.extend_from_slice(b"\n")
}

/// Appends a line for each step.
pub(crate) fn push_steps(out: &mut Vec<u8>, steps: &StepList) -> Result<(), AllocError>
    ensures { OnOk result (out.new.items ≡ out.old.items ++ text_of (length steps.now) (step_line steps.now)) }
{
    for n in 0..steps.len() {
        push_step_line(out, steps, n)?;
    }
    Ok(())
}
