//! The walk through the weights of what was read.
ghost use Rattle.std.specs.Prelude.{◌≡◌, ◌≤◌, ◌<◌, ◌+◌, ◌⊎◌, OnOk, OnErr, IfOk, IfErr};
ghost use Rattle.fpl_walk.specs.Walk.{step_of, step_cost, walk_of, cost_of};
ghost use Rattle.fpl_walk.specs.Stops.{stored_in};
ghost use Rattle.fpl_reply.specs.Reply.{status_of};
ghost use Rattle.fpl_reply.specs.Outcome.{reply_of};
ghost use Rattle.fpl_run.specs.Words.{IsInRange};
ghost use Rattle.fpl_run.specs.Task.{does_compute};
ghost use Rattle.fpl_run.specs.Begin.{Adds, Fails, HasEnded, HasFailed};

use crate::task::{Task, does_compute};
use fpl_reply::{Outcome, Status};
use fpl_scalar::Field;
use fpl_steps::Steps;
use fpl_walk::{Run, Stop};
use std::sync::ledger::Ledger;

/// Adds the next weight, or says why not. The answer is `false` where nothing more is stored, and nothing is to be
/// computed.
pub(crate) fn add_weight<F: Field, L: Ledger>(
    run: &mut Run<F>,
    bytes: &[u8],
    task: Task,
    steps: &mut Steps<L>,
) -> Result<bool, Outcome>
    requires weight { run.old.stage.table.weight < 1000 }
    requires entries { task.entries ≤ 2000000 }
    requires version { (run.old.version ≡ 1) ⊎ (run.old.version ≡ 2) }
    ensures presentation { run.new.presentation ≡ run.old.presentation }
    ensures version { run.new.version ≡ run.old.version }
    ensures adds { IfOk result (λ added. Adds added (step_of (does_compute task.way) task.entries run.old.presentation (stored_in run.old bytes.now) run.old.stage) run.old.stage run.new.stage) }
    ensures fails { IfErr result (λ outcome. Fails (step_of (does_compute task.way) task.entries run.old.presentation (stored_in run.old bytes.now) run.old.stage) (reply_of outcome)) }
    ensures write { IfErr result (λ outcome. status_of (reply_of outcome) ≡ Status.WriteFault → ⊥) }
    ensures unchanged { OnErr result (run.new ≡ run.old) }
    ensures most { (steps.old ≤ steps.new) × (steps.new ≤ steps.old + step_cost (does_compute task.way) task.entries run.old.presentation (stored_in run.old bytes.now) run.old.stage) }
{
    match run.advance(bytes, does_compute(task.way), task.entries, steps) {
        Ok(()) => Ok(true),
        Err(Stop::Ended) => Ok(false),
        Err(Stop::TooMany { weight, count }) => Err(Outcome::Limit { weight, count }),
        Err(Stop::BadBytes(bad)) => Err(Outcome::BadBytes(bad)),
        Err(Stop::BadSection { weight, spot, why }) => {
            Err(Outcome::BadSection { weight, spot, why })
        }
        Err(Stop::Overflow { weight, op, a, b }) => Err(Outcome::Overflow { weight, op, a, b }),
        Err(Stop::NoMemory) => Err(Outcome::NoMemory),
    }
}

/// Goes through the weights, up to the limit, to the end of what is stored or to a stop.
pub(crate) fn walk<F: Field, L: Ledger>(
    run: &mut Run<F>,
    bytes: &[u8],
    task: Task,
    steps: &mut Steps<L>,
) -> Result<(), Outcome>
    requires range { IsInRange task.limit task.entries }
    requires start { run.old.stage.table.weight ≡ 0 }
    requires version { (run.old.version ≡ 1) ⊎ (run.old.version ≡ 2) }
    ensures presentation { run.new.presentation ≡ run.old.presentation }
    ensures comes { OnOk result (HasEnded run.new.stage (walk_of (does_compute task.way) task.entries run.old.presentation (stored_in run.old bytes.now) task.limit run.old.stage)) }
    ensures fails { IfErr result (λ outcome. HasFailed run.new.stage (walk_of (does_compute task.way) task.entries run.old.presentation (stored_in run.old bytes.now) task.limit run.old.stage) (reply_of outcome)) }
    ensures write { IfErr result (λ outcome. status_of (reply_of outcome) ≡ Status.WriteFault → ⊥) }
    ensures rises { steps.old ≤ steps.new }
    ensures cost { steps.new ≤ steps.old + cost_of (does_compute task.way) task.entries run.old.presentation (stored_in run.old bytes.now) task.limit run.old.stage }
{
    'weights: while run.weight() < task.limit {
        match add_weight(run, bytes, task, steps) {
            Ok(true) => {}
            Ok(false) => return Ok(()),
            Err(outcome) => return Err(outcome),
        }
    }
    Ok(())
}
