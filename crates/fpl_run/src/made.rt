//! The texts that are made once the weights are done.
ghost use Rattle.std.specs.Prelude.{◌≡◌, ◌≤◌, ◌+◌, ◌-◌, ◌⊎◌, length, Ok, Err, IfOk, IfErr};
ghost use Rattle.fpl_outside.specs.Outside.{Rose};
ghost use Rattle.fpl_reply.specs.declared.view_fault.ViewFault.{ViewFault};
ghost use Rattle.fpl_reply.specs.Reply.{done, failed_in_view, no_memory, status_of};
ghost use Rattle.fpl_reply.specs.Outcome.{reply_of};
ghost use Rattle.fpl_reply.specs.Leaves.{Leaves};
ghost use Rattle.fpl_views.specs.Views.{text_of_view};
ghost use Rattle.fpl_run.specs.Words.{IsInRange};
ghost use Rattle.fpl_run.specs.Task.{IsCounted, IsServed};
ghost use Rattle.fpl_run.specs.CheckText.{check_text};
ghost use Rattle.fpl_run.specs.Start.{Start, cost_for};
ghost use Rattle.fpl_run.specs.Answer.{AnswersTask, IsFront};
ghost use Rattle.fpl_run.specs.Begin.{start_from, HasBegun, Stops};

use crate::check_text::check_text;
use crate::task::{Task, Way};
use crate::walk::walk;
use fpl_outside::Sink;
use fpl_reply::{Outcome, Status, put_whole};
use fpl_scalar::Field;
use fpl_steps::Steps;
use fpl_views::{ShowError, Shown, Viewed, show};
use fpl_walk::Run;
use std::alloc::Global;
use std::sync::ledger::Ledger;

// The text of a view of the table, or what comes in place of it.
fn shown_text<F: Viewed, L: Ledger>(
    alloc: Global,
    shown: Shown,
    entries: u64,
    run: &Run<F>,
    steps: &mut Steps<L>,
) -> Result<Vec<u8>, Outcome>
    requires entries { entries ≤ 2000000 }
    requires served { IsServed (Way.Show shown) run.now.presentation.field }
    ensures text { IfOk result (λ text. text_of_view shown entries run.now.presentation run.now.stage.table run.now.stage.sections ≡ Ok text.items) }
    ensures fault { IfErr result (λ outcome. (reply_of outcome ≡ no_memory) ⊎ ((fault : ViewFault) × (reply_of outcome ≡ failed_in_view fault)
        × (text_of_view shown entries run.now.presentation run.now.stage.table run.now.stage.sections ≡ Err fault))) }
    ensures write { IfErr result (λ outcome. status_of (reply_of outcome) ≡ Status.WriteFault → ⊥) }
    ensures rises { steps.old ≤ steps.new }
    ensures idle { IsCounted (Way.Show shown) → steps.new ≡ steps.old }
{
    let state = run.state();
    let sections = state.sections();
    match show(
        alloc,
        shown,
        entries,
        state.presentation(),
        state.table(),
        sections,
        steps,
    ) {
        Ok(text) => Ok(text),
        Err(ShowError::Fault(fault)) => Err(Outcome::InView(fault)),
        Err(ShowError::NoMemory) => Err(Outcome::NoMemory),
    }
}

// The text of a check that found nothing wrong.
fn checked_text<F: Field>(
    alloc: Global,
    limit: u32,
    run: &Run<F>,
    bytes: &[u8],
) -> Result<Vec<u8>, Outcome>
    ensures text { IfOk result (λ text. text.items ≡ check_text run.now.presentation.field limit run.now.stage.table.weight (length bytes.now - run.now.stage.place)) }
    ensures memory { IfErr result (λ outcome. reply_of outcome ≡ no_memory) }
    ensures write { IfErr result (λ outcome. status_of (reply_of outcome) ≡ Status.WriteFault → ⊥) }
{
    let field = run.state().presentation().field;
    let rest = bytes.len().saturating_sub(run.place()) as u64;
    match check_text(alloc, field, limit, run.weight(), rest) {
        Ok(text) => Ok(text),
        Err(_) => Err(Outcome::NoMemory),
    }
}

/// The text of a view of the table, after the weights.
pub(crate) fn show_through<F: Viewed, L: Ledger>(
    alloc: Global,
    task: Task,
    shown: Shown,
    run: &mut Run<F>,
    bytes: &[u8],
    steps: &mut Steps<L>,
) -> Result<Vec<u8>, Outcome>
    requires way { task.way ≡ Way.Show shown }
    requires served { IsServed (Way.Show shown) run.old.presentation.field }
    requires range { IsInRange task.limit task.entries }
    requires begun { HasBegun run.old }
    requires version { (run.old.version ≡ 1) ⊎ (run.old.version ≡ 2) }
    ensures text { IfOk result (λ text. AnswersTask task (start_from run.old bytes.now) (done text.items)) }
    ensures stop { IfErr result (λ outcome. Stops task (start_from run.old bytes.now) (reply_of outcome)) }
    ensures write { IfErr result (λ outcome. status_of (reply_of outcome) ≡ Status.WriteFault → ⊥) }
    ensures rises { steps.old ≤ steps.new }
    ensures cost { IsCounted task.way → steps.new ≤ steps.old + cost_for task (start_from run.old bytes.now) }
{
    match walk(run, bytes, task, steps) {
        Ok(()) => shown_text(alloc, shown, task.entries, run, steps),
        Err(outcome) => Err(outcome),
    }
}

/// The text of a check, after the weights.
pub(crate) fn check_through<F: Field, L: Ledger>(
    alloc: Global,
    task: Task,
    run: &mut Run<F>,
    bytes: &[u8],
    steps: &mut Steps<L>,
) -> Result<Vec<u8>, Outcome>
    requires way { task.way ≡ Way.Check }
    requires range { IsInRange task.limit task.entries }
    requires begun { HasBegun run.old }
    requires version { (run.old.version ≡ 1) ⊎ (run.old.version ≡ 2) }
    ensures text { IfOk result (λ text. AnswersTask task (start_from run.old bytes.now) (done text.items)) }
    ensures stop { IfErr result (λ outcome. Stops task (start_from run.old bytes.now) (reply_of outcome)) }
    ensures write { IfErr result (λ outcome. status_of (reply_of outcome) ≡ Status.WriteFault → ⊥) }
    ensures rises { steps.old ≤ steps.new }
    ensures cost { steps.new ≤ steps.old + cost_for task (start_from run.old bytes.now) }
{
    match walk(run, bytes, task, steps) {
        Ok(()) => checked_text(alloc, task.limit, run, bytes),
        Err(outcome) => Err(outcome),
    }
}

/// Puts a text that was made.
pub(crate) fn put_made<O: Sink>(out: &mut O, made: Result<Vec<u8>, Outcome>) -> Outcome
    requires { IfErr made (λ outcome. status_of (reply_of outcome) ≡ Status.WriteFault → ⊥) }
    ensures reply { (task : Task) (s : Start) → IfOk made (λ text. AnswersTask task s (done text.items)) →
        IfErr made (λ outcome. Stops task s (reply_of outcome)) → Leaves (AnswersTask task s) (IsFront task s) (O.taken out.old)
        (O.taken out.new) (reply_of result) }
    ensures fault { status_of (reply_of result) ≡ Status.WriteFault → Rose (O.faults out.old) (O.faults out.new) }
{
    match made {
        Ok(text) => put_whole(out, &text),
        Err(outcome) => outcome,
    }
}
