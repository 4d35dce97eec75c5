//! Finitely presented Lie superalgebras, weight by weight.
#![tactic(auto)]

ghost use Rattle.std.specs.Prelude.{◌≡◌, ◌<◌, ◌⊎◌, ◌↔◌, List, ℕ, IfSome};
ghost use Rattle.std.specs.Io.KnownBytes.{IsAtEnd};
ghost use Rattle.fpl_outside.specs.Outside.{Rose, Takes};
ghost use Rattle.fpl_reply.specs.Reply.{Reply, no_memory, status_of, line_of};
ghost use Rattle.fpl_reply.specs.Leaves.{Says, IsAnswered};
ghost use Rattle.fpl_views.specs.declared.shown.Shown.{Shown};
ghost use Rattle.fpl_run.specs.declared.words.Command.{Command};
ghost use Rattle.fpl_run.specs.declared.task.Way.TheVariants.{Show, Rank};
ghost use Rattle.fpl_run.specs.Words.{spelled, IsCommand, IsNoCommand};
ghost use Rattle.fpl_run.specs.Task.{way_of};
ghost use Rattle.fpl_run.specs.Answer.{Answers, Fronts};
ghost use Rattle.fpl_run.specs.Run.{ReadsNothing, Means, MeansMap, MayPut};

use fpl_outside::{Sink, Source, StdSink, StdSource};
use fpl_reply::{Outcome, Status, put_line};
use fpl_run::run;
use fpl_steps::Steps;
use std::alloc::{AllocError, Global};
use std::marker::Brand;
use std::process::ExitCode;
use std::sync::ledger::{Blank, Ledger};
use std::{env, io};

// Runs with a counter of steps that nobody reads.
fn run_uncounted<L: Ledger, I: Source, O: Sink, E: Sink>(
    blank: Blank,
    alloc: Global,
    words: &Vec<String>,
    input: &mut I,
    out: &mut O,
    err: &mut E,
) -> Status
    requires name { blank.name ≡ L.name }
    requires parts { blank.parts ≡ L.parts }
    requires some { 0 < blank.parts }
    ensures usage { (result ≡ Status.Usage) ↔ IsNoCommand (spelled words.now.items) }
    ensures answer { IfSome (I.left input.old) (λ bytes. IsAnswered (Answers (spelled words.now.items) bytes) (Fronts (spelled words.now.items) bytes) result
        (O.taken out.old) (O.taken out.new) (E.taken err.old) (E.taken err.new) (E.faults err.old) (E.faults err.new)) }
    ensures means { result ≡ Status.Done → IfSome (I.left input.old) (λ bytes. (c : Command) (v : Shown) → IsCommand (spelled words.now.items) c →
        way_of c.view ≡ Show v → (text : List ℕ) × Takes (O.taken out.old) (O.taken out.new) text × Means c bytes v text) }
    ensures maps { result ≡ Status.Done → IfSome (I.left input.old) (λ bytes. (c : Command) → IsCommand (spelled words.now.items) c →
        way_of c.view ≡ Rank → (text : List ℕ) × Takes (O.taken out.old) (O.taken out.new) text × MeansMap c bytes text) }
    ensures line { (reply : Reply) × (status_of reply ≡ result) × Says (E.taken err.old) (E.taken err.new) (E.faults err.old) (E.faults err.new) (line_of reply) }
    ensures read { result ≡ Status.ReadFault → Rose (I.faults input.old) (I.faults input.new) × (ReadsNothing (spelled words.now.items) → ⊥) }
    ensures write { result ≡ Status.WriteFault → Rose (O.faults out.old) (O.faults out.new) }
    ensures nothing { ((c : Command) → IsCommand (spelled words.now.items) c → MayPut c.view result → ⊥) → O.taken out.new ≡ O.taken out.old }
    ensures end { result ≡ Status.Done → ReadsNothing (spelled words.now.items) ⊎ IsAtEnd (I.left input.new) }
    ensures unread { ReadsNothing (spelled words.now.items) → input.new ≡ input.old }
{
    let mut steps = Steps::<L>::new(blank);
    run(alloc, words, input, out, err, &mut steps)
}

// The words without the program's name.
fn collect(alloc: Global, args: env::Args) -> Result<Vec<String>, AllocError> {
    let mut words = Vec::new(alloc);
    for word in args.skip(1) {
        words.push(word)?;
    }
    Ok(words)
}

// Answers as `run` does where memory runs out, for want of it before.
fn want_memory<E: Sink>(err: &mut E) -> Status
    ensures status { result ≡ Status.NoMemory }
    ensures line { Says (E.taken err.old) (E.taken err.new) (E.faults err.old) (E.faults err.new) (line_of no_memory) }
{
    let _ = put_line(err, &Outcome::NoMemory);
    Status::NoMemory
}

fn main(rt: HostRuntime) -> ExitCode {
    let mut err = StdSink::new(rt.stderr());
    let words = match env::args(&rt) {
        Ok(args) => match collect(rt.alloc(), args) {
            Ok(words) => words,
            Err(_) => return ExitCode::from(want_memory(&mut err).number()),
        },
        Err(error) => {
            if error.kind() == io::ErrorKind::OutOfMemory {
                return ExitCode::from(want_memory(&mut err).number());
            }
            // A word that isn't text leaves no words, which is no command.
            Vec::new(rt.alloc())
        }
    };
    let mut input = StdSource::new(rt.reader());
    let mut out = StdSink::new(rt.stdout());
    let status = run_uncounted::<Brand, _, _, _>(
        Blank::new(1),
        rt.alloc(),
        &words,
        &mut input,
        &mut out,
        &mut err,
    );
    ExitCode::from(status.number())
}
