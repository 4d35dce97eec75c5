//! The view `why`, whose text is no function of the table: any proof will do.
ghost use Rattle.std.specs.Prelude.{◌≡◌, ◌≤◌, ◌<◌, ◌^◌, IfOk};
ghost use Rattle.fpl_model.specs.Sound.{IsSound, IsSoundEquation, count_equation};
ghost use Rattle.fpl_table.specs.Standard.{count_through};
ghost use Rattle.fpl_complete.specs.State.{AreAccepted, AreOfWeights};
ghost use Rattle.fpl_reasons.specs.Why.{IsReason, AreReasons, IsWhyText};

use fpl_log::Sections;
use fpl_model::{Equation, Presentation};
use fpl_prove::{WhyError, prove};
use fpl_queries::is_beyond;
use fpl_reasons::{Reason, Reasons, why_text};
use fpl_scalar::Residue;
use fpl_table::Table;
use std::alloc::{AllocError, Global};

// What is said of a query.
fn reason(
    alloc: Global,
    p: &Presentation,
    table: &Table<Residue>,
    sections: &Sections,
    q: &Equation,
) -> Result<Reason, AllocError>
    requires sound { IsSound p.now }
    requires accepted { AreAccepted p.now table.now sections.now }
    requires weights { AreOfWeights table.now.weight sections.now }
    requires few { count_through table.now table.now.weight ≤ 2000000 }
    requires query { IsSoundEquation p.now q.now }
    requires small { count_equation q.now < 2 ^ 40 }
    ensures { IfOk result (λ r. IsReason p.now table.now q.now r) }
{
    if is_beyond(p, table, q) {
        return Ok(Reason::Beyond);
    }
    match prove(alloc, table, p, sections, q) {
        Ok(proof) => Ok(Reason::Proved(proof)),
        Err(WhyError::NotEqual) => Ok(Reason::Different),
        Err(WhyError::NoMemory) => Err(AllocError),
    }
}

// What is said of each query, in their order.
fn reasons_of(
    alloc: Global,
    p: &Presentation,
    table: &Table<Residue>,
    sections: &Sections,
) -> Result<Reasons, AllocError>
    requires sound { IsSound p.now }
    requires accepted { AreAccepted p.now table.now sections.now }
    requires weights { AreOfWeights table.now.weight sections.now }
    requires few { count_through table.now table.now.weight ≤ 2000000 }
    ensures { IfOk result (λ rs. AreReasons p.now table.now p.now.queries rs) }
{
    let mut reasons = Reasons::new(alloc);
    for q in p.queries.as_slice() {
        reasons.push(reason(alloc, p, table, sections, q)?)?;
    }
    Ok(reasons)
}

/// For each query a proof from the axioms that its two sides are equal; or that they aren't, or that its weight is past the
/// table's. The sections are those that raised the table.
pub fn show_why(
    alloc: Global,
    p: &Presentation,
    table: &Table<Residue>,
    sections: &Sections,
) -> Result<Vec<u8>, AllocError>
    requires sound { IsSound p.now }
    requires accepted { AreAccepted p.now table.now sections.now }
    requires weights { AreOfWeights table.now.weight sections.now }
    requires few { count_through table.now table.now.weight ≤ 2000000 }
    ensures { IfOk result (λ text. IsWhyText p.now table.now text.items) }
{
    let reasons = reasons_of(alloc, p, table, sections)?;
    why_text(alloc, p, table.weight(), &reasons)
}
