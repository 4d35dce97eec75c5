//! The text of the view `why`.
ghost use Rattle.std.specs.Prelude.{◌≡◌, ◌++◌, IfOk, OnOk};
ghost use Rattle.fpl_reasons.specs.Why.{reason_text, reason_lines, query_text, queries_text, why_text};

use fpl_lines::Proof;
use fpl_model::Presentation;
use fpl_print::push_head_line;
use fpl_spelling::push_number;
use fpl_why::push_proof;
use sqlite_items::Items;
use std::alloc::{AllocError, Global};

/// What is said of a query.
#[derive(Drop)]
pub enum Reason {
    /// Its weight is past the table's.
    Beyond,
    /// Its sides have different values.
    Different,
    /// A proof from the axioms that its sides are equal.
    Proved(Proof),
}

/// What is said of the queries of a presentation, in their order.
pub type Reasons = Items<Reason>;

fn push_reason(out: &mut Vec<u8>, reason: &Reason) -> Result<(), AllocError>
    ensures { OnOk result (out.new.items ≡ out.old.items ++ reason_text reason.now) }
{
    match reason {
        Reason::Beyond => out.extend_from_slice(b"beyond"),
        Reason::Different => out.extend_from_slice(b"different"),
        Reason::Proved(proof) => {
            out.extend_from_slice(b"lines ")?;
            push_number(out, proof.as_slice().len() as u64)
        }
    }
}

fn push_lines(out: &mut Vec<u8>, p: &Presentation, reason: &Reason) -> Result<(), AllocError>
    ensures { OnOk result (out.new.items ≡ out.old.items ++ reason_lines p.now reason.now) }
{
    match reason {
        Reason::Beyond | Reason::Different => Ok(()),
        Reason::Proved(proof) => push_proof(out, p, proof),
    }
}

fn push_query(
    out: &mut Vec<u8>,
    p: &Presentation,
    n: u64,
    reason: &Reason,
) -> Result<(), AllocError>
    ensures { OnOk result (out.new.items ≡ out.old.items ++ query_text p.now n reason.now) }
{
    out.extend_from_slice(b"query ")?;
    push_number(out, n)?;
    out.extend_from_slice(b" ")?;
    push_reason(out, reason)?;
    out.extend_from_slice(b"\n")?;
    push_lines(out, p, reason)
}

fn push_queries(out: &mut Vec<u8>, p: &Presentation, reasons: &Reasons) -> Result<(), AllocError>
    ensures { OnOk result (out.new.items ≡ out.old.items ++ queries_text p.now 1 reasons.now) }
{
    let all = reasons.as_slice();
    for n in 0..all.len() {
        push_query(out, p, n as u64 + 1, &all[n])?;
    }
    Ok(())
}

/// The text of the view `why` through a weight: for each query, in order, that it is past the weight,
/// that its sides differ, or the lines of a proof.
pub fn why_text(
    alloc: Global,
    p: &Presentation,
    weight: u32,
    reasons: &Reasons,
) -> Result<Vec<u8>, AllocError>
    ensures { IfOk result (λ text. text.items ≡ why_text p.now weight reasons.now) }
{
    let mut out = Vec::new(alloc);
    push_head_line(&mut out, b"why", p.field, weight)?;
    push_queries(&mut out, p, reasons)?;
    out.extend_from_slice(b"end\n")?;
    Ok(out)
}
