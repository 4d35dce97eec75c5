//! The entry of the program.
ghost use Rattle.std.specs.Prelude.{◌≡◌, ◌⊎◌, ◌↔◌, List, ℕ, IfSome};
ghost use Rattle.std.specs.Io.KnownBytes.{IsAtEnd};
ghost use Rattle.fpl_bytes.specs.Codes.{IsBytes};
ghost use Rattle.fpl_outside.specs.Outside.{Rose, Takes};
ghost use Rattle.fpl_reply.specs.Reply.{Reply, read_fault, status_of, line_of};
ghost use Rattle.fpl_reply.specs.Outcome.{reply_of};
ghost use Rattle.fpl_reply.specs.Leaves.{Says, Leaves, IsAnswered};
ghost use Rattle.fpl_views.specs.declared.shown.Shown.{Shown};
ghost use Rattle.fpl_run.specs.declared.words.Command.{Command};
ghost use Rattle.fpl_run.specs.declared.task.Way.TheVariants.{Show, Rank, Prove};
ghost use Rattle.fpl_run.specs.Words.{spelled, IsCommand, IsNoCommand};
ghost use Rattle.fpl_run.specs.Task.{way_of};
ghost use Rattle.fpl_run.specs.Answer.{Answers, Fronts};
ghost use Rattle.fpl_run.specs.Run.{ReadsNothing, IfTold, Means, MeansMap, MeansWhy, MayPut, Spends};

use crate::read::answer_command;
use crate::spelling::command;
use fpl_outside::{Sink, Source};
use fpl_reply::{Outcome, Status, put_line};
use fpl_steps::Steps;
use std::alloc::Global;
use std::sync::ledger::Ledger;

// What words and an input come to. The view's text is written then.
fn answer_words<I: Source, O: Sink, L: Ledger>(
    alloc: Global,
    words: &Vec<String>,
    input: &mut I,
    out: &mut O,
    steps: &mut Steps<L>,
) -> Outcome
    ensures usage { (status_of (reply_of result) ≡ Status.Usage) ↔ IsNoCommand (spelled words.now.items) }
    ensures reply { IfTold (ReadsNothing (spelled words.now.items)) (I.left input.old) (λ bytes. (reply_of result ≡ read_fault) ⊎ Leaves (Answers (spelled words.now.items) bytes)
        (Fronts (spelled words.now.items) bytes) (O.taken out.old) (O.taken out.new) (reply_of result)) }
    ensures nothing { ((c : Command) → IsCommand (spelled words.now.items) c → MayPut c.view (status_of (reply_of result)) → ⊥) → O.taken out.new ≡ O.taken out.old }
    ensures unread { ReadsNothing (spelled words.now.items) → input.new ≡ input.old }
    ensures bytes { status_of (reply_of result) ≡ Status.Done → (ReadsNothing (spelled words.now.items) → ⊥) → IfSome (I.left input.old) IsBytes }
    ensures cost { IfTold (ReadsNothing (spelled words.now.items)) (I.left input.old) (λ bytes. (c : Command) → IsCommand (spelled words.now.items) c → Spends c bytes (O.taken out.old) (O.taken out.new) steps.old steps.new) }
    ensures read { status_of (reply_of result) ≡ Status.ReadFault → Rose (I.faults input.old) (I.faults input.new) × (ReadsNothing (spelled words.now.items) → ⊥) }
    ensures write { status_of (reply_of result) ≡ Status.WriteFault → Rose (O.faults out.old) (O.faults out.new) }
    ensures end { status_of (reply_of result) ≡ Status.Done → ReadsNothing (spelled words.now.items) ⊎ IsAtEnd (I.left input.new) }
{
    match command(words) {
        Some(c) => answer_command(alloc, c, input, out, steps),
        None => Outcome::Usage,
    }
}

/// Answers words and an input: writes the view's text to `out`, or a line that says why not to `err`. It is all
/// that the program does. A step is one row given to an elimination.
///
/// A checkpoint is written as it is made: its head first, and each section as soon as its weight is complete. Where
/// a fault stops the run, or memory runs out, what was written stands. Every other text is made first.
pub fn run<I: Source, O: Sink, E: Sink, L: Ledger>(
    alloc: Global,
    words: &Vec<String>,
    input: &mut I,
    out: &mut O,
    err: &mut E,
    steps: &mut Steps<L>,
) -> Status
    ensures usage { (result ≡ Status.Usage) ↔ IsNoCommand (spelled words.now.items) }

    // Where the input tells its bytes, or isn't read, the words and the bytes decide the status, the text and the line, but for want of memory and faults.
    ensures answer { IfTold (ReadsNothing (spelled words.now.items)) (I.left input.old) (λ bytes. IsAnswered (Answers (spelled words.now.items) bytes) (Fronts (spelled words.now.items) bytes) result
        (O.taken out.old) (O.taken out.new) (E.taken err.old) (E.taken err.new) (E.faults err.old) (E.faults err.new)) }

    // What was written shows the standard table of the presentation that was read, in the words of the algebra.
    ensures means { result ≡ Status.Done → IfTold (ReadsNothing (spelled words.now.items)) (I.left input.old) (λ bytes. (c : Command) (v : Shown) → IsCommand (spelled words.now.items) c →
        way_of c.view ≡ Show v → (text : List ℕ) × Takes (O.taken out.old) (O.taken out.new) text × Means c bytes v text) }

    // Of matrices, what was written shows whether the presentation's relations hold for them, and what they see of its standard table.
    ensures maps { result ≡ Status.Done → IfTold (ReadsNothing (spelled words.now.items)) (I.left input.old) (λ bytes. (c : Command) → IsCommand (spelled words.now.items) c →
        way_of c.view ≡ Rank → (text : List ℕ) × Takes (O.taken out.old) (O.taken out.new) text × MeansMap c bytes text) }

    // Of proofs, what was written shows for each query one from the axioms, each of whose lines is derivable; or that its sides aren't derivably equal.
    ensures proofs { result ≡ Status.Done → IfTold (ReadsNothing (spelled words.now.items)) (I.left input.old) (λ bytes. (c : Command) → IsCommand (spelled words.now.items) c →
        way_of c.view ≡ Prove → (text : List ℕ) × Takes (O.taken out.old) (O.taken out.new) text × MeansWhy c bytes text) }

    ensures line { (reply : Reply) × (status_of reply ≡ result) × Says (E.taken err.old) (E.taken err.new) (E.faults err.old) (E.faults err.new) (line_of reply) }

    // A faulty input or output alone gives these, and only where the input is read.
    ensures read { result ≡ Status.ReadFault → Rose (I.faults input.old) (I.faults input.new) × (ReadsNothing (spelled words.now.items) → ⊥) }
    ensures write { result ≡ Status.WriteFault → Rose (O.faults out.old) (O.faults out.new) }

    ensures nothing { ((c : Command) → IsCommand (spelled words.now.items) c → MayPut c.view result → ⊥) → O.taken out.new ≡ O.taken out.old }
    ensures end { result ≡ Status.Done → ReadsNothing (spelled words.now.items) ⊎ IsAtEnd (I.left input.new) }
    ensures unread { ReadsNothing (spelled words.now.items) → input.new ≡ input.old }

    // What a command costs, whatever the answer.
    ensures cost { IfTold (ReadsNothing (spelled words.now.items)) (I.left input.old) (λ bytes. (c : Command) → IsCommand (spelled words.now.items) c → Spends c bytes (O.taken out.old) (O.taken out.new) steps.old steps.new) }
{
    let outcome = answer_words(alloc, words, input, out, steps);
    let _ = put_line(err, &outcome);
    outcome.status()
}
