//! What a view that takes matrices comes to.
ghost use Rattle.std.specs.Prelude.{◌≡◌, ◌≤◌, ◌⊎◌, ℕ, List, IfOk, IfErr};
ghost use Rattle.fpl_model.specs.Sound.{IsSound};
ghost use Rattle.fpl_matrices.specs.Matrices.{IsAssignment};
ghost use Rattle.fpl_ranks.specs.Texts.{broken_text};
ghost use Rattle.fpl_outside.specs.Outside.{Rose};
ghost use Rattle.fpl_reply.specs.declared.outcome.Refusal.{Refusal};
ghost use Rattle.fpl_reply.specs.Reply.{done, refused, no_memory, status_of};
ghost use Rattle.fpl_reply.specs.Outcome.{refusal_text, reply_of};
ghost use Rattle.fpl_reply.specs.Leaves.{Leaves};
ghost use Rattle.fpl_run.specs.Words.{IsInRange};
ghost use Rattle.fpl_run.specs.Task.{way_of, IsServed};
ghost use Rattle.fpl_run.specs.Matrices.{HasMatrices, MapFails};
ghost use Rattle.fpl_run.specs.Start.{with_matrices};
ghost use Rattle.fpl_run.specs.Read.{Presents, IsNotMapped};
ghost use Rattle.fpl_run.specs.Answer.{AnswersStart, AnswersCommand, FrontsStart, FrontsCommand};
ghost use Rattle.fpl_run.specs.Begin.{start_in};
ghost use Rattle.fpl_run.specs.Run.{Spends};

use crate::made::put_made;
use crate::ranked::rank_through;
use crate::separator::{after_separator, separator};
use crate::start::{Begin, begin_run, residues};
use crate::task::{Task, Way};
use crate::words::Command;
use fpl_matrices::{Assignment, MapError, first_broken, read_map};
use fpl_model::Presentation;
use fpl_outside::Sink;
use fpl_ranks::broken_text;
use fpl_reply::{Outcome, Refusal, Status, put_whole};
use fpl_steps::Steps;
use std::alloc::Global;
use std::sync::ledger::Ledger;

// Why the text of the matrices is refused.
fn refused_map(error: MapError) -> Outcome
    ensures { (reply_of result ≡ no_memory) ⊎ ((place : ℕ) × (why : Refusal) × MapFails error place why × (reply_of result ≡ refused place (refusal_text why))) }
{
    match error {
        MapError::Syntax(place) => Outcome::Refused {
            place,
            why: Refusal::MapSyntax,
        },
        MapError::Size(place) => Outcome::Refused {
            place,
            why: Refusal::MapSize,
        },
        MapError::Number(place) => Outcome::Refused {
            place,
            why: Refusal::MapNumber,
        },
        MapError::Parity(place) => Outcome::Refused {
            place,
            why: Refusal::MapParity,
        },
        MapError::NoMemory => Outcome::NoMemory,
    }
}

// The matrices that the text after the separating line gives, or what comes in place of them.
fn matrices_of(alloc: Global, p: &Presentation, bytes: &[u8]) -> Result<Assignment, Outcome>
    requires sound { IsSound p.now }
    requires served { IsServed Way.Rank p.now.field }
    ensures given { IfOk result (λ a. HasMatrices bytes.now p.now a) }
    ensures assignment { IfOk result (λ a. IsAssignment p.now a) }
    ensures stop { IfErr result (λ outcome. (reply_of outcome ≡ no_memory) ⊎ ((limit : ℕ) → IsNotMapped limit bytes.now p.now (reply_of outcome))) }
    ensures write { IfErr result (λ outcome. status_of (reply_of outcome) ≡ Status.WriteFault → ⊥) }
{
    let Some(at) = separator(bytes) else {
        return Err(Outcome::Refused {
            place: bytes.len() as u64,
            why: Refusal::NoMatrices,
        });
    };
    match read_map(alloc, p, bytes, after_separator(bytes, at)) {
        Ok(a) => Ok(a),
        Err(error) => Err(refused_map(error)),
    }
}

// The text that says which relation is the least that is broken.
fn put_broken<O: Sink>(alloc: Global, p: &Presentation, limit: u32, k: u32, out: &mut O) -> Outcome
    ensures reply { Leaves (λ reply. reply ≡ done (broken_text p.now.field limit k)) (λ front. ⊥) (O.taken out.old) (O.taken out.new) (reply_of result) }
    ensures fault { status_of (reply_of result) ≡ Status.WriteFault → Rose (O.faults out.old) (O.faults out.new) }
{
    match broken_text(alloc, p, limit, k) {
        Ok(text) => put_whole(out, &text),
        Err(_) => Outcome::NoMemory,
    }
}

// What the view comes to where all relations hold.
fn answer_ranks<O: Sink, L: Ledger>(
    alloc: Global,
    c: Command,
    begin: Begin,
    a: &Assignment,
    stored: &[u8],
    out: &mut O,
    steps: &mut Steps<L>,
) -> Outcome
    requires sound { IsSound begin.presentation }
    requires way { way_of c.view ≡ Way.Rank }
    requires served { IsServed Way.Rank begin.presentation.field }
    requires version { (begin.version ≡ 1) ⊎ (begin.version ≡ 2) }
    requires range { IsInRange c.limit c.entries }
    requires assignment { IsAssignment begin.presentation a.now }
    ensures reply { Leaves (AnswersStart c (with_matrices a.now (start_in begin stored.now))) (FrontsStart c (with_matrices a.now (start_in begin stored.now)))
        (O.taken out.old) (O.taken out.new) (reply_of result) }
    ensures fault { status_of (reply_of result) ≡ Status.WriteFault → Rose (O.faults out.old) (O.faults out.new) }
    ensures rises { steps.old ≤ steps.new }
{
    let task = Task {
        way: Way::Rank,
        limit: c.limit,
        entries: c.entries,
    };
    match residues(begin.presentation.field) {
        Some(field) => match begin_run(alloc, field, begin) {
            Ok(mut run) => put_made(out, rank_through(alloc, task, &mut run, a, stored, steps)),
            Err(_) => Outcome::NoMemory,
        },
        None => unreachable!(),
    }
}

// What the view comes to with matrices.
fn answer_mapped<O: Sink, L: Ledger>(
    alloc: Global,
    c: Command,
    begin: Begin,
    a: &Assignment,
    stored: &[u8],
    out: &mut O,
    steps: &mut Steps<L>,
) -> Outcome
    requires sound { IsSound begin.presentation }
    requires way { way_of c.view ≡ Way.Rank }
    requires served { IsServed Way.Rank begin.presentation.field }
    requires version { (begin.version ≡ 1) ⊎ (begin.version ≡ 2) }
    requires range { IsInRange c.limit c.entries }
    requires assignment { IsAssignment begin.presentation a.now }
    ensures reply { (bytes : List ℕ) → Presents c bytes (start_in begin stored.now) → HasMatrices bytes begin.presentation a.now →
        Leaves (AnswersCommand c bytes) (FrontsCommand c bytes) (O.taken out.old) (O.taken out.new) (reply_of result) }
    ensures fault { status_of (reply_of result) ≡ Status.WriteFault → Rose (O.faults out.old) (O.faults out.new) }
    ensures cost { (bytes : List ℕ) → Presents c bytes (start_in begin stored.now) → HasMatrices bytes begin.presentation a.now →
        Spends c bytes (O.taken out.old) (O.taken out.new) steps.old steps.new }
{
    match first_broken(alloc, &begin.presentation, a) {
        Ok(Some(k)) => put_broken(alloc, &begin.presentation, c.limit, k, out),
        Ok(None) => answer_ranks(alloc, c, begin, a, stored, out, steps),
        Err(_) => Outcome::NoMemory,
    }
}

/// What a view that takes matrices comes to for a presentation over a prime.
pub(crate) fn answer_map<O: Sink, L: Ledger>(
    alloc: Global,
    c: Command,
    begin: Begin,
    bytes: &[u8],
    stored: &[u8],
    out: &mut O,
    steps: &mut Steps<L>,
) -> Outcome
    requires sound { IsSound begin.presentation }
    requires way { way_of c.view ≡ Way.Rank }
    requires served { IsServed Way.Rank begin.presentation.field }
    requires version { (begin.version ≡ 1) ⊎ (begin.version ≡ 2) }
    requires range { IsInRange c.limit c.entries }
    requires presents { Presents c bytes.now (start_in begin stored.now) }
    ensures reply { Leaves (AnswersCommand c bytes.now) (FrontsCommand c bytes.now) (O.taken out.old) (O.taken out.new) (reply_of result) }
    ensures fault { status_of (reply_of result) ≡ Status.WriteFault → Rose (O.faults out.old) (O.faults out.new) }
    ensures cost { Spends c bytes.now (O.taken out.old) (O.taken out.new) steps.old steps.new }
{
    match matrices_of(alloc, &begin.presentation, bytes) {
        Ok(a) => answer_mapped(alloc, c, begin, &a, stored, out, steps),
        Err(outcome) => outcome,
    }
}
