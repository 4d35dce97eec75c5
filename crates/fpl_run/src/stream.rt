//! A checkpoint, written as the run goes through the weights.
ghost use Rattle.std.specs.Prelude.{◌≡◌, ◌≤◌, ◌<◌, ◌+◌, ◌^◌, ◌⊎◌, length};
ghost use Rattle.fpl_canonical.specs.Canonical.{canonical_of};
ghost use Rattle.fpl_outside.specs.Outside.{Rose};
ghost use Rattle.fpl_reply.specs.Reply.{status_of};
ghost use Rattle.fpl_reply.specs.Outcome.{reply_of};
ghost use Rattle.fpl_reply.specs.Leaves.{Leaves};
ghost use Rattle.fpl_run.specs.declared.task.Way.{Way};
ghost use Rattle.fpl_run.specs.Words.{IsInRange};
ghost use Rattle.fpl_run.specs.Start.{cost_for};
ghost use Rattle.fpl_run.specs.Answer.{AnswersTask, IsFront};
ghost use Rattle.fpl_run.specs.Begin.{start_from, HasBegun};
ghost use Rattle.fpl_run.specs.Pace.{IsPaced};

use crate::task::{Task, Way};
use crate::walk::add_weight;
use crate::written::{put_head, put_last_section};
use fpl_outside::Sink;
use fpl_reply::{Outcome, Status};
use fpl_scalar::Field;
use fpl_steps::Steps;
use fpl_walk::Run;
use std::alloc::Global;
use std::sync::ledger::Ledger;

/// Writes the head, and then goes through the weights, up to the limit or to a stop, and writes the section of
/// each before the next is begun.
pub(crate) fn stream<F: Field, O: Sink, L: Ledger>(
    alloc: Global,
    task: Task,
    run: &mut Run<F>,
    bytes: &[u8],
    out: &mut O,
    steps: &mut Steps<L>,
) -> Outcome
    requires way { task.way ≡ Way.Write }
    requires range { IsInRange task.limit task.entries }
    requires begun { HasBegun run.old }
    requires version { (run.old.version ≡ 1) ⊎ (run.old.version ≡ 2) }
    requires short { length (canonical_of run.old.presentation) < 2 ^ 32 }
    ensures reply { Leaves (AnswersTask task (start_from run.old bytes.now)) (IsFront task (start_from run.old bytes.now)) (O.taken out.old) (O.taken out.new)
        (reply_of result) }
    ensures fault { status_of (reply_of result) ≡ Status.WriteFault → Rose (O.faults out.old) (O.faults out.new) }
    ensures rises { steps.old ≤ steps.new }
    ensures cost { steps.new ≤ steps.old + cost_for task (start_from run.old bytes.now) }
    ensures paced { IsPaced task (start_from run.old bytes.now) (O.taken out.old) (O.taken out.new) steps.old steps.new }
{
    if let Err(cut) = put_head(alloc, run.state().presentation(), out) {
        return cut.outcome();
    }
    'weights: while run.weight() < task.limit {
        match add_weight(run, bytes, task, steps) {
            Ok(true) => {}
            Ok(false) => return Outcome::Done,
            Err(outcome) => return outcome,
        }
        if let Err(cut) = put_last_section(alloc, run, out) {
            return cut.outcome();
        }
    }
    Outcome::Done
}
