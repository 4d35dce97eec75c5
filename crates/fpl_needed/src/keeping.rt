//! A proof without the lines that aren't needed.
ghost use Rattle.std.specs.Prelude.{◌≡◌, ◌≤◌, length, reverse, IfOk};
ghost use Rattle.fpl_model.specs.declared.presentation.Presentation.{Presentation};
ghost use Rattle.fpl_forms.specs.Distinct.{HasSides};
ghost use Rattle.fpl_needed.specs.Needed.{IsDistinctProof, NoneIsIdle, last_line};
ghost use Rattle.fpl_needed.specs.Numbers.{CiteEarlier, AreKept, number_in};

use crate::marking::numbers;
use crate::renumbering::renumbered;
use fpl_lines::{Line, Proof};
use sqlite_items::Items;
use std::alloc::{AllocError, Global};

/// The lines that have a new number, from the last to the first.
fn taken(alloc: Global, mut proof: Proof, new: &[u64]) -> Result<Vec<Line>, AllocError>
    requires count { length new.now ≡ length proof }
    requires cite { CiteEarlier proof }
    ensures { IfOk result (λ lines. AreKept (number_in new.now) proof new.now (reverse lines.items)) }
{
    let mut lines = Vec::new(alloc);
    while let Some(line) = proof.pop() {
        if new[proof.len()] > 0 {
            let Line { left, right, why } = line;
            let why = renumbered(why, new);
            lines.push(Line { left, right, why })?;
        }
    }
    Ok(lines)
}

/// The lines of a proof that its last line needs, in order and with new numbers.
///
/// The last line has its sides still, and each line before it is cited by a later one.
pub fn needed_lines(alloc: Global, proof: Proof) -> Result<Proof, AllocError>
    requires { (p : Presentation) × IsDistinctProof p proof }
    ensures proof { IfOk result (λ ls. (p : Presentation) → IsDistinctProof p proof → IsDistinctProof p ls) }
    ensures last { IfOk result (λ ls. HasSides (last_line ls) (last_line proof).left (last_line proof).right) }
    ensures needed { IfOk result NoneIsIdle }
{
    let new = numbers(alloc, proof.as_slice())?;
    let mut lines = taken(alloc, proof, new.as_slice())?;
    lines.reverse();
    Ok(Items::from_vec(lines))
}
