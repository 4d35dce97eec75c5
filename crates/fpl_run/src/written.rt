//! The parts of a checkpoint that are put.
ghost use Rattle.std.specs.Prelude.{◌≡◌, ◌≤◌, ◌++◌, ◌∷◌, ◌<◌, ◌^◌, List, [], length, IfErr};
ghost use Rattle.fpl_log.specs.declared.section.Section.{Section};
ghost use Rattle.fpl_bytes.specs.declared.version.Version.TheVariants.{Two};
ghost use Rattle.fpl_section_bytes.specs.Spelling.{section_bytes_of};
ghost use Rattle.fpl_canonical.specs.Canonical.{canonical_of};
ghost use Rattle.fpl_checkpoint.specs.Heads.{VERSION, head_bytes_of};
ghost use Rattle.fpl_outside.specs.Outside.{Rose};
ghost use Rattle.fpl_reply.specs.Put.{Puts};

use fpl_checkpoint::{head_bytes, section_bytes};
use fpl_model::Presentation;
use fpl_outside::Sink;
use fpl_reply::{Cut, put_text};
use fpl_scalar::Field;
use fpl_walk::Run;
use std::alloc::Global;

/// Puts the head of a checkpoint.
pub(crate) fn put_head<O: Sink>(
    alloc: Global,
    presentation: &Presentation,
    out: &mut O,
) -> Result<(), Cut>
    requires { length (canonical_of presentation.now) < 2 ^ 32 }
    ensures puts { Puts (head_bytes_of VERSION presentation.now) (O.taken out.old) (O.taken out.new) result }
    ensures fault { IfErr result (λ cut. cut ≡ Cut.WriteFault → Rose (O.faults out.old) (O.faults out.new)) }
    ensures later { O.faults out.old ≤ O.faults out.new }
{
    put_text(out, head_bytes(alloc, presentation))
}

/// Puts the section of the weight that was added last.
pub(crate) fn put_last_section<F: Field, O: Sink>(
    alloc: Global,
    run: &Run<F>,
    out: &mut O,
) -> Result<(), Cut>
    requires { 0 < run.now.stage.table.weight }
    ensures puts { (before : List Section) (section : Section) → run.now.stage.sections ≡ before ++ section ∷ [] →
        Puts (section_bytes_of Two run.now.presentation.field section) (O.taken out.old) (O.taken out.new) result }
    ensures fault { IfErr result (λ cut. cut ≡ Cut.WriteFault → Rose (O.faults out.old) (O.faults out.new)) }
    ensures later { O.faults out.old ≤ O.faults out.new }
{
    let field = run.state().presentation().field;
    let sections = run.state().sections();
    match sections.get(sections.len() - 1) {
        Some(section) => put_text(out, section_bytes(alloc, field, section)),
        None => Ok(()),
    }
}
