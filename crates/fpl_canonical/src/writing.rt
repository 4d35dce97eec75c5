//! The lines of a presentation.
ghost use Rattle.std.specs.Prelude.{◌≡◌, ◌++◌, map, codes, IfOk, OnOk};
ghost use Rattle.fpl_spelling.specs.Fronts.{KeepsFront};
ghost use Rattle.fpl_spelling.specs.Spelling.{names_of};
ghost use Rattle.fpl_canonical.specs.Canonical.{side_text, field_line, generator_line, equation_line, ideal_line, lines, canonical_of};

use crate::expression::{Stand, push_expression};
use fpl_model::{Equation, Expr, Generator, Presentation};
use fpl_spelling::{push_field, push_number, push_parity, push_text};
use std::alloc::{AllocError, Global};

fn push_field_line(out: &mut Vec<u8>, p: &Presentation) -> Result<(), AllocError>
    ensures text { OnOk result (out.new.items ≡ out.old.items ++ field_line p.now.field) }
    ensures front { KeepsFront out.old.items out.new.items }
{
    push_text(out, b"field ")?;
    push_field(out, p.field)?;
    push_text(out, b";\n")
}

fn push_generator_line(out: &mut Vec<u8>, g: &Generator) -> Result<(), AllocError>
    ensures text { OnOk result (out.new.items ≡ out.old.items ++ generator_line g.now) }
    ensures front { KeepsFront out.old.items out.new.items }
{
    push_parity(out, g.parity)?;
    push_text(out, b" ")?;
    push_text(out, g.name.text().as_bytes())?;
    push_text(out, b":")?;
    push_number(out, g.weight)?;
    push_text(out, b";\n")
}

/// Appends the text of a side of an equation, or of an ideal element.
pub fn push_side(out: &mut Vec<u8>, p: &Presentation, e: &Expr) -> Result<(), AllocError>
    ensures text { OnOk result (out.new.items ≡ out.old.items ++ side_text p.now e.now) }
    ensures front { KeepsFront out.old.items out.new.items }
{
    push_expression(out, &p.generators, Stand::Alone, e)
}

fn push_equation_line(
    out: &mut Vec<u8>,
    word: &[u8],
    p: &Presentation,
    q: &Equation,
) -> Result<(), AllocError>
    ensures text { OnOk result (out.new.items ≡ out.old.items ++ equation_line word.now p.now q.now) }
    ensures front { KeepsFront out.old.items out.new.items }
{
    push_text(out, word)?;
    push_side(out, p, &q.left)?;
    push_text(out, b" = ")?;
    push_side(out, p, &q.right)?;
    push_text(out, b";\n")
}

fn push_ideal_line(out: &mut Vec<u8>, p: &Presentation, e: &Expr) -> Result<(), AllocError>
    ensures text { OnOk result (out.new.items ≡ out.old.items ++ ideal_line p.now e.now) }
    ensures front { KeepsFront out.old.items out.new.items }
{
    push_text(out, b"ideal ")?;
    push_side(out, p, e)?;
    push_text(out, b";\n")
}

fn push_generators(out: &mut Vec<u8>, p: &Presentation) -> Result<(), AllocError>
    ensures text { OnOk result (out.new.items ≡ out.old.items ++ lines generator_line p.now.generators) }
    ensures front { KeepsFront out.old.items out.new.items }
{
    for g in p.generators.as_slice() {
        push_generator_line(out, g)?;
    }
    Ok(())
}

fn push_equations(
    out: &mut Vec<u8>,
    word: &[u8],
    p: &Presentation,
    equations: &[Equation],
) -> Result<(), AllocError>
    ensures text { OnOk result (out.new.items ≡ out.old.items ++ lines (equation_line word.now p.now) equations.now) }
    ensures front { KeepsFront out.old.items out.new.items }
{
    for q in equations {
        push_equation_line(out, word, p, q)?;
    }
    Ok(())
}

fn push_ideals(out: &mut Vec<u8>, p: &Presentation) -> Result<(), AllocError>
    ensures text { OnOk result (out.new.items ≡ out.old.items ++ lines (ideal_line p.now) p.now.ideals) }
    ensures front { KeepsFront out.old.items out.new.items }
{
    for e in p.ideals.as_slice() {
        push_ideal_line(out, p, e)?;
    }
    Ok(())
}

/// The canonical text of a presentation: a line for its field, and one for each generator with its weight, each
/// relation and query with both sides, and each ideal element.
pub fn write(alloc: Global, p: &Presentation) -> Result<Vec<u8>, AllocError>
    ensures { IfOk result (λ text. text.items ≡ canonical_of p.now) }
{
    let mut out = Vec::new(alloc);
    push_field_line(&mut out, p)?;
    push_generators(&mut out, p)?;
    push_equations(&mut out, b"relation ", p, p.relations.as_slice())?;
    push_ideals(&mut out, p)?;
    push_equations(&mut out, b"equal ", p, p.queries.as_slice())?;
    Ok(out)
}
