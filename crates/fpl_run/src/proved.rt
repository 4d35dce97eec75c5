//! The text of proofs, once the weights are done.
ghost use Rattle.std.specs.Prelude.{◌≡◌, ◌≤◌, ◌+◌, ◌⊎◌, IfOk, IfErr};
ghost use Rattle.fpl_reasons.specs.Why.{IsWhyText};
ghost use Rattle.fpl_reply.specs.Reply.{done, no_memory, status_of};
ghost use Rattle.fpl_reply.specs.Outcome.{reply_of};
ghost use Rattle.fpl_run.specs.Words.{IsInRange};
ghost use Rattle.fpl_run.specs.Task.{IsServed};
ghost use Rattle.fpl_run.specs.Start.{cost_for};
ghost use Rattle.fpl_run.specs.Answer.{AnswersTask};
ghost use Rattle.fpl_run.specs.Begin.{start_from, HasBegun, Stops};

use crate::task::{Task, Way};
use crate::walk::walk;
use fpl_reply::{Outcome, Status};
use fpl_steps::Steps;
use fpl_views::{Viewed, residues, show_why};
use fpl_walk::Run;
use std::alloc::Global;
use std::sync::ledger::Ledger;

// The text of the proofs of the queries.
fn proofs_text<F: Viewed>(alloc: Global, run: &Run<F>) -> Result<Vec<u8>, Outcome>
    requires served { IsServed Way.Prove run.now.presentation.field }
    ensures text { IfOk result (λ text. IsWhyText run.now.presentation run.now.stage.table text.items) }
    ensures memory { IfErr result (λ outcome. reply_of outcome ≡ no_memory) }
    ensures write { IfErr result (λ outcome. status_of (reply_of outcome) ≡ Status.WriteFault → ⊥) }
{
    let state = run.state();
    let sections = state.sections();
    let table = state.table();
    match show_why(alloc, state.presentation(), residues(table), sections) {
        Ok(text) => Ok(text),
        Err(_) => Err(Outcome::NoMemory),
    }
}

/// The text of the proofs of the queries, after the weights.
pub(crate) fn prove_through<F: Viewed, L: Ledger>(
    alloc: Global,
    task: Task,
    run: &mut Run<F>,
    bytes: &[u8],
    steps: &mut Steps<L>,
) -> Result<Vec<u8>, Outcome>
    requires way { task.way ≡ Way.Prove }
    requires served { IsServed Way.Prove run.old.presentation.field }
    requires range { IsInRange task.limit task.entries }
    requires begun { HasBegun run.old }
    requires version { (run.old.version ≡ 1) ⊎ (run.old.version ≡ 2) }
    ensures text { IfOk result (λ text. AnswersTask task (start_from run.old bytes.now) (done text.items)) }
    ensures stop { IfErr result (λ outcome. Stops task (start_from run.old bytes.now) (reply_of outcome)) }
    ensures write { IfErr result (λ outcome. status_of (reply_of outcome) ≡ Status.WriteFault → ⊥) }
    ensures rises { steps.old ≤ steps.new }
    ensures cost { steps.new ≤ steps.old + cost_for task (start_from run.old bytes.now) }
{
    match walk(run, bytes, task, steps) {
        Ok(()) => proofs_text(alloc, run),
        Err(outcome) => Err(outcome),
    }
}
