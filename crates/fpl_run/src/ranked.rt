//! The text of what matrices see of the weights.
ghost use Rattle.std.specs.Prelude.{◌≡◌, ◌≤◌, ◌⊎◌, Ok, Err, IfOk, IfErr};
ghost use Rattle.fpl_matrices.specs.Matrices.{IsAssignment};
ghost use Rattle.fpl_reply.specs.declared.view_fault.ViewFault.{ViewFault};
ghost use Rattle.fpl_reply.specs.Reply.{done, failed_in_view, no_memory, status_of};
ghost use Rattle.fpl_reply.specs.Outcome.{reply_of};
ghost use Rattle.fpl_run.specs.Words.{IsInRange};
ghost use Rattle.fpl_run.specs.Matrices.{text_of_ranks};
ghost use Rattle.fpl_run.specs.Start.{with_matrices};
ghost use Rattle.fpl_run.specs.Answer.{AnswersTask};
ghost use Rattle.fpl_run.specs.Begin.{start_from, HasBegun, Stops};

use crate::task::{Task, Way};
use crate::walk::walk;
use fpl_matrices::Assignment;
use fpl_ranks::{map_text, ranks};
use fpl_reply::{Outcome, Status, ViewFault};
use fpl_scalar::{Fault, Residue};
use fpl_steps::Steps;
use fpl_walk::Run;
use std::alloc::Global;
use std::sync::ledger::Ledger;

// The text of the ranks, or what comes in place of it.
fn ranks_text<L: Ledger>(
    alloc: Global,
    run: &Run<Residue>,
    a: &Assignment,
    steps: &mut Steps<L>,
) -> Result<Vec<u8>, Outcome>
    requires { IsAssignment run.now.presentation a.now }
    ensures text { IfOk result (λ text. text_of_ranks run.now.presentation a.now run.now.stage.table ≡ Ok text.items) }
    ensures fault { IfErr result (λ outcome. (reply_of outcome ≡ no_memory) ⊎ ((fault : ViewFault) × (reply_of outcome ≡ failed_in_view fault)
        × (text_of_ranks run.now.presentation a.now run.now.stage.table ≡ Err fault))) }
    ensures write { IfErr result (λ outcome. status_of (reply_of outcome) ≡ Status.WriteFault → ⊥) }
    ensures rises { steps.old ≤ steps.new }
{
    let state = run.state();
    match ranks(alloc, state.table(), a, steps) {
        Ok(ranks) => match map_text(alloc, state.presentation(), state.table(), &ranks) {
            Ok(text) => Ok(text),
            Err(_) => Err(Outcome::NoMemory),
        },
        Err(Fault::Unfit(unfit)) => Err(Outcome::InView(ViewFault::Overflow(unfit))),
        Err(Fault::NoMemory) => Err(Outcome::NoMemory),
    }
}

/// The text of what matrices see of the weights, after the weights.
pub(crate) fn rank_through<L: Ledger>(
    alloc: Global,
    task: Task,
    run: &mut Run<Residue>,
    a: &Assignment,
    bytes: &[u8],
    steps: &mut Steps<L>,
) -> Result<Vec<u8>, Outcome>
    requires way { task.way ≡ Way.Rank }
    requires range { IsInRange task.limit task.entries }
    requires begun { HasBegun run.old }
    requires version { (run.old.version ≡ 1) ⊎ (run.old.version ≡ 2) }
    requires assignment { IsAssignment run.old.presentation a.now }
    ensures text { IfOk result (λ text. AnswersTask task (with_matrices a.now (start_from run.old bytes.now)) (done text.items)) }
    ensures stop { IfErr result (λ outcome. Stops task (with_matrices a.now (start_from run.old bytes.now)) (reply_of outcome)) }
    ensures write { IfErr result (λ outcome. status_of (reply_of outcome) ≡ Status.WriteFault → ⊥) }
    ensures rises { steps.old ≤ steps.new }
{
    match walk(run, bytes, task, steps) {
        Ok(()) => ranks_text(alloc, run, a, steps),
        Err(outcome) => Err(outcome),
    }
}
