//! The run of what was read, from its beginning.
ghost use Rattle.std.specs.Prelude.{◌≡◌, ◌≤◌, ◌<◌, ◌+◌, ◌^◌, ◌⊎◌, length, IfOk, IfSome, IfNone};
ghost use Rattle.fpl_numbers.specs.Numbers.{IsField};
ghost use Rattle.fpl_model.specs.Sound.{IsSound};
ghost use Rattle.fpl_canonical.specs.Canonical.{canonical_of};
ghost use Rattle.fpl_outside.specs.Outside.{Rose};
ghost use Rattle.fpl_walk.specs.Walk.{begun as begun_at};
ghost use Rattle.fpl_reply.specs.Reply.{status_of};
ghost use Rattle.fpl_reply.specs.Outcome.{reply_of};
ghost use Rattle.fpl_reply.specs.Leaves.{Leaves};
ghost use Rattle.fpl_run.specs.Words.{IsInRange};
ghost use Rattle.fpl_run.specs.Task.{way_of, task_for, IsCounted, IsServed};
ghost use Rattle.fpl_run.specs.Start.{Start, cost_for};
ghost use Rattle.fpl_run.specs.Answer.{AnswersTask, AnswersStart, IsFront, FrontsStart};
ghost use Rattle.fpl_run.specs.Begin.{start_in, start_from, HasBegun};
ghost use Rattle.fpl_run.specs.Pace.{IsPaced};

use crate::made::{check_through, put_made, show_through};
use crate::proved::prove_through;
use crate::stream::stream;
use crate::task::{Task, Way, way_of};
use crate::words::Command;
use fpl_model::Presentation;
use fpl_numbers::Kind;
use fpl_outside::Sink;
use fpl_reply::{Outcome, Status};
use fpl_scalar::{Field, Fraction, Residue};
use fpl_steps::Steps;
use fpl_views::Viewed;
use fpl_walk::Run;
use std::alloc::{AllocError, Global};
use std::sync::ledger::Ledger;

/// What a run begins with: a presentation, and where its first stored section begins, if any are stored.
#[derive(Drop)]
pub(crate) struct Begin {
    pub presentation: Presentation,
    pub version: u8,
    pub place: usize,
    pub stored: bool,
}

// What a task comes to.
fn through<F: Viewed, O: Sink, L: Ledger>(
    alloc: Global,
    task: Task,
    run: &mut Run<F>,
    bytes: &[u8],
    out: &mut O,
    steps: &mut Steps<L>,
) -> Outcome
    requires range { IsInRange task.limit task.entries }
    requires begun { HasBegun run.old }
    requires version { (run.old.version ≡ 1) ⊎ (run.old.version ≡ 2) }
    requires served { IsServed task.way run.old.presentation.field }
    requires plain { task.way ≡ Way.Rank → ⊥ }
    requires short { task.way ≡ Way.Write → length (canonical_of run.old.presentation) < 2 ^ 32 }
    ensures reply { Leaves (AnswersTask task (start_from run.old bytes.now)) (IsFront task (start_from run.old bytes.now)) (O.taken out.old) (O.taken out.new)
        (reply_of result) }
    ensures fault { status_of (reply_of result) ≡ Status.WriteFault → Rose (O.faults out.old) (O.faults out.new) }
    ensures rises { steps.old ≤ steps.new }
    ensures cost { IsCounted task.way → steps.new ≤ steps.old + cost_for task (start_from run.old bytes.now) }
    ensures paced { task.way ≡ Way.Write → IsPaced task (start_from run.old bytes.now) (O.taken out.old) (O.taken out.new) steps.old steps.new }
{
    match task.way {
        Way::Write => stream(alloc, task, run, bytes, out, steps),
        Way::Show(shown) => put_made(out, show_through(alloc, task, shown, run, bytes, steps)),
        Way::Check => put_made(out, check_through(alloc, task, run, bytes, steps)),
        Way::Prove => put_made(out, prove_through(alloc, task, run, bytes, steps)),
        Way::Rank => unreachable!(),
    }
}

/// A run at weight 0.
pub(crate) fn begin_run<F: Field>(
    alloc: Global,
    field: F,
    begin: Begin,
) -> Result<Run<F>, AllocError>
    requires kind { F.kind_of field ≡ begin.presentation.field }
    requires sound { IsSound begin.presentation }
    ensures { IfOk result (λ run. run ≡ record {
      presentation = begin.presentation;
      version = begin.version;
      stage = begun_at begin.presentation
          begin.place begin.stored;
    }) }
{
    Run::start(
        alloc,
        field,
        begin.presentation,
        begin.version,
        begin.place,
        begin.stored,
    )
}

// What a task comes to, where there was memory to begin.
fn run_through<F: Viewed, O: Sink, L: Ledger>(
    alloc: Global,
    task: Task,
    begun: Result<Run<F>, AllocError>,
    bytes: &[u8],
    out: &mut O,
    steps: &mut Steps<L>,
) -> Outcome
    requires range { IsInRange task.limit task.entries }
    requires begun { IfOk begun HasBegun }
    requires version { IfOk begun (λ run. (run.version ≡ 1) ⊎ (run.version ≡ 2)) }
    requires served { IfOk begun (λ run. IsServed task.way run.presentation.field) }
    requires plain { task.way ≡ Way.Rank → ⊥ }
    requires short { task.way ≡ Way.Write → IfOk begun (λ run. length (canonical_of run.presentation) < 2 ^ 32) }
    ensures reply { (s : Start) → IfOk begun (λ run. start_from run bytes.now ≡ s) → Leaves (AnswersTask task s) (IsFront task s) (O.taken out.old)
        (O.taken out.new) (reply_of result) }
    ensures fault { status_of (reply_of result) ≡ Status.WriteFault → Rose (O.faults out.old) (O.faults out.new) }
    ensures rises { steps.old ≤ steps.new }
    ensures cost { (s : Start) → IfOk begun (λ run. start_from run bytes.now ≡ s) → IsCounted task.way → steps.new ≤ steps.old + cost_for task s }
    ensures paced { (s : Start) → IfOk begun (λ run. start_from run bytes.now ≡ s) → task.way ≡ Way.Write → IsPaced task s (O.taken out.old) (O.taken out.new) steps.old steps.new }
{
    match begun {
        Ok(mut run) => through(alloc, task, &mut run, bytes, out, steps),
        Err(_) => Outcome::NoMemory,
    }
}

/// The residues, where the kind is a prime.
pub(crate) fn residues(kind: Kind) -> Option<Residue>
    requires { IsField kind }
    ensures some { IfSome result (λ field. ⟦<Residue as Field>⟧.kind_of field ≡ kind) }
    ensures none { IfNone result (kind ≡ Kind.Rational) }
{
    match kind {
        Kind::Rational => None,
        Kind::Prime(prime) => Residue::of(prime),
    }
}

/// What a command comes to for what was read. Sections are stored in `bytes`.
pub(crate) fn answer_start<O: Sink, L: Ledger>(
    alloc: Global,
    c: Command,
    begin: Begin,
    bytes: &[u8],
    out: &mut O,
    steps: &mut Steps<L>,
) -> Outcome
    requires sound { IsSound begin.presentation }
    requires served { IsServed (way_of c.view) begin.presentation.field }
    requires plain { way_of c.view ≡ Way.Rank → ⊥ }
    requires short { way_of c.view ≡ Way.Write → length (canonical_of begin.presentation) < 2 ^ 32 }
    requires version { (begin.version ≡ 1) ⊎ (begin.version ≡ 2) }
    requires range { IsInRange c.limit c.entries }
    ensures reply { Leaves (AnswersStart c (start_in begin bytes.now)) (FrontsStart c (start_in begin bytes.now)) (O.taken out.old) (O.taken out.new) (reply_of result) }
    ensures fault { status_of (reply_of result) ≡ Status.WriteFault → Rose (O.faults out.old) (O.faults out.new) }
    ensures rises { steps.old ≤ steps.new }
    ensures cost { (way : Way) → way_of c.view ≡ way → IsCounted way → steps.new ≤ steps.old + cost_for (task_for c way) (start_in begin bytes.now) }
    ensures paced { way_of c.view ≡ Way.Write → IsPaced (task_for c Way.Write) (start_in begin bytes.now) (O.taken out.old) (O.taken out.new) steps.old steps.new }
{
    let task = Task {
        way: way_of(c.view),
        limit: c.limit,
        entries: c.entries,
    };
    match residues(begin.presentation.field) {
        Some(field) => run_through(
            alloc,
            task,
            begin_run(alloc, field, begin),
            bytes,
            out,
            steps,
        ),
        None => run_through(
            alloc,
            task,
            begin_run(alloc, Fraction, begin),
            bytes,
            out,
            steps,
        ),
    }
}
