ghost use Rattle.std.specs.Prelude.{◌≡◌, ◌<◌, ◌^◌, ◌++◌, length, All, OnOk, IfOk, IsSome};
ghost use Rattle.std.specs.List.{AllByRecursion};
ghost use Rattle.std.specs.Int.{w32, w64, to_be_bytes};
ghost use Rattle.fpl_bytes.specs.Codes.{counted_bytes};
ghost use Rattle.fpl_numbers.specs.Numbers.{IsElement};
ghost use Rattle.fpl_bytes.specs.declared.version.Version.TheVariants.{Two};
ghost use Rattle.fpl_section_bytes.specs.Spelling.{origin_bytes, origins_bytes, term_bytes, terms_bytes, step_bytes, coefficient_bytes, row_bytes, payload_bytes, section_bytes_of};
ghost use Rattle.fpl_section_bytes.specs.Stored.{IsStoredCount, IsStoredOrigin, IsStoredTerm, AreStoredTerms, IsStoredStep, IsStoredCoefficient, IsStoredRow, IsStoredSection, IsWritableOrigin, AreWritableTerms, IsWritableStep, IsWritableRow, IsWritable};

use crate::tags::{CLOSE, CUBE, INSERT, JACOBI, RELATION};
use fpl_bytes::push_number;
use fpl_log::{ClosedList, ClosedRow, Coefficient, Origin, Section, Step, StepList, Term, Terms};
use fpl_scalar::Kind;
use std::alloc::{AllocError, Global};

fn push_u32(out: &mut Vec<u8>, n: u32) -> Result<(), AllocError>
    ensures { OnOk result (out.new.items ≡ out.old.items ++ to_be_bytes w32 n) }
{
    out.extend_from_slice(&n.to_be_bytes())
}

fn push_u64(out: &mut Vec<u8>, n: u64) -> Result<(), AllocError>
    ensures { OnOk result (out.new.items ≡ out.old.items ++ to_be_bytes w64 n) }
{
    out.extend_from_slice(&n.to_be_bytes())
}

// A row of another list has no bytes.
fn push_origin(out: &mut Vec<u8>, origin: Origin) -> Result<(), AllocError>
    requires { IsWritableOrigin origin }
    ensures bytes { OnOk result (out.new.items ≡ out.old.items ++ origin_bytes origin) }
    ensures stored { OnOk result (IsStoredOrigin Two origin) }
{
    match origin {
        Origin::Relation(relation) => {
            out.push(RELATION)?;
            push_u32(out, relation)?;
        }
        Origin::Jacobi(i, j, k) => {
            out.push(JACOBI)?;
            push_u32(out, i)?;
            push_u32(out, j)?;
            push_u32(out, k)?;
        }
        Origin::Cube(i) => {
            out.push(CUBE)?;
            push_u32(out, i)?;
        }
        Origin::Row(_) => {}
    }
    Ok(())
}

fn push_term(out: &mut Vec<u8>, kind: Kind, term: &Term) -> Result<(), AllocError>
    requires { IsElement kind term.now.factor }
    ensures bytes { OnOk result (out.new.items ≡ out.old.items ++ term_bytes Two kind term.now) }
    ensures stored { OnOk result (IsStoredTerm Two kind term.now) }
{
    push_u64(out, term.step)?;
    push_number(out, kind, &term.factor)?;
    Ok(())
}

fn push_terms(out: &mut Vec<u8>, kind: Kind, terms: &Terms) -> Result<(), AllocError>
    requires { AreWritableTerms kind terms.now }
    ensures bytes { OnOk result (out.new.items ≡ out.old.items ++ terms_bytes Two kind terms.now) }
    ensures stored { OnOk result (AreStoredTerms Two kind terms.now) }
{
    push_u32(out, terms.len() as u32)?;
    for n in 0..terms.len() {
        match terms.get(n) {
            None => {}
            Some(term) => push_term(out, kind, &term)?,
        }
    }
    Ok(())
}

fn push_step(out: &mut Vec<u8>, kind: Kind, step: &Step) -> Result<(), AllocError>
    requires { IsWritableStep kind step.now }
    ensures bytes { OnOk result (out.new.items ≡ out.old.items ++ step_bytes Two kind step.now) }
    ensures stored { OnOk result (IsStoredStep Two kind step.now) }
{
    match step {
        Step::Insert {
            origin,
            terms,
            scale,
        } => {
            out.push(INSERT)?;
            push_origin(out, *origin)?;
            push_number(out, kind, scale)?;
            push_terms(out, kind, terms)?;
        }
        Step::Close { of, terms } => {
            out.push(CLOSE)?;
            push_u64(out, *of)?;
            push_terms(out, kind, terms)?;
        }
    }
    Ok(())
}

fn push_steps(out: &mut Vec<u8>, kind: Kind, steps: &StepList) -> Result<(), AllocError>
    requires { All (IsWritableStep kind) steps.now }
    ensures bytes { OnOk result (out.new.items ≡ out.old.items ++ counted_bytes w64 (step_bytes Two kind) steps.now) }
    ensures stored { OnOk result ((length steps.now < 2 ^ 64) × AllByRecursion (IsStoredStep Two kind) steps.now) }
{
    push_u64(out, steps.len() as u64)?;
    for n in 0..steps.len() {
        match steps.get(n) {
            None => {}
            Some(step) => push_step(out, kind, step)?,
        }
    }
    Ok(())
}

fn push_coefficient(
    out: &mut Vec<u8>,
    kind: Kind,
    coefficient: &Coefficient,
) -> Result<(), AllocError>
    requires { IsElement kind coefficient.now.number }
    ensures bytes { OnOk result (out.new.items ≡ out.old.items ++ coefficient_bytes Two kind coefficient.now) }
    ensures stored { OnOk result (IsStoredCoefficient Two kind coefficient.now) }
{
    push_u32(out, coefficient.symbol)?;
    push_number(out, kind, &coefficient.number)?;
    Ok(())
}

fn push_row(out: &mut Vec<u8>, kind: Kind, row: &ClosedRow) -> Result<(), AllocError>
    requires { IsWritableRow kind row.now }
    ensures bytes { OnOk result (out.new.items ≡ out.old.items ++ row_bytes Two kind row.now) }
    ensures stored { OnOk result (IsStoredRow Two kind row.now) }
{
    push_u32(out, row.len() as u32)?;
    for n in 0..row.len() {
        match row.get(n) {
            None => {}
            Some(coefficient) => push_coefficient(out, kind, &coefficient)?,
        }
    }
    Ok(())
}

fn push_rows(out: &mut Vec<u8>, kind: Kind, rows: &ClosedList) -> Result<(), AllocError>
    requires count { length rows.now < 2 ^ 32 }
    requires rows { All (IsWritableRow kind) rows.now }
    ensures bytes { OnOk result (out.new.items ≡ out.old.items ++ counted_bytes w32 (row_bytes Two kind) rows.now) }
    ensures stored { OnOk result ((length rows.now < 2 ^ 32) × AllByRecursion (IsStoredRow Two kind) rows.now) }
{
    push_u32(out, rows.len() as u32)?;
    for n in 0..rows.len() {
        match rows.get(n) {
            None => {}
            Some(row) => push_row(out, kind, row)?,
        }
    }
    Ok(())
}

fn push_origins(out: &mut Vec<u8>, origins: Option<u64>) -> Result<(), AllocError>
    requires { IsSome origins }
    ensures bytes { OnOk result (out.new.items ≡ out.old.items ++ origins_bytes Two origins) }
    ensures stored { OnOk result (IsStoredCount Two origins) }
{
    match origins {
        Some(origins) => push_u64(out, origins),
        None => Ok(()),
    }
}

fn payload(alloc: Global, kind: Kind, section: &Section) -> Result<Vec<u8>, AllocError>
    requires { IsWritable kind section.now }
    ensures bytes { IfOk result (λ v. v.items ≡ payload_bytes Two kind section.now) }
    ensures stored { IfOk result (λ v. IsStoredSection Two kind section.now) }
{
    let mut out = Vec::new(alloc);
    push_origins(&mut out, section.origins)?;
    push_steps(&mut out, kind, &section.steps)?;
    push_rows(&mut out, kind, &section.closed)?;
    Ok(out)
}

/// A section in version 2. It needs the number of origins, no origin that is a row of another
/// list, no Insert step with scale 0, canonical numbers that fit in the field, and fewer than
/// 2^32 closed rows, coefficients a closed row, and terms a step. So it is read back as it was.
pub fn section_bytes(alloc: Global, kind: Kind, section: &Section) -> Result<Vec<u8>, AllocError>
    requires { IsWritable kind section.now }
    ensures bytes { IfOk result (λ v. v.items ≡ section_bytes_of Two kind section.now) }
    ensures stored { IfOk result (λ v. IsStoredSection Two kind section.now × (length (payload_bytes Two kind section.now) < 2 ^ 64)) }
{
    let payload = payload(alloc, kind, section)?;
    let mut out = Vec::new(alloc);
    push_u32(&mut out, section.weight)?;
    push_u64(&mut out, payload.len() as u64)?;
    out.extend_from_slice(&payload)?;
    Ok(out)
}
