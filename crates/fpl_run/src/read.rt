//! From the bytes of an input to what they come to.
ghost use Rattle.std.specs.Prelude.{◌≡◌, ◌≢◌, ◌≤◌, ◌<◌, ◌^◌, ◌⊎◌, ◌↔◌, ℕ, List, length, IfSome, IsTrue};
ghost use Rattle.std.specs.Io.KnownBytes.{IsAtEnd};
ghost use Rattle.fpl_bytes.specs.Codes.{IsBytes};
ghost use Rattle.fpl_model.specs.Sound.{IsSound};
ghost use Rattle.fpl_canonical.specs.Canonical.{canonical_of};
ghost use Rattle.fpl_outside.specs.Outside.{Rose};
ghost use Rattle.fpl_reply.specs.Reply.{read_fault, status_of};
ghost use Rattle.fpl_reply.specs.Outcome.{reply_of};
ghost use Rattle.fpl_reply.specs.Leaves.{Leaves};
ghost use Rattle.fpl_run.specs.Words.{IsInRange, most_limit};
ghost use Rattle.fpl_run.specs.Read.{IsUnread, IsMarked, IsCheckpoint, Presents, most_bytes};
ghost use Rattle.fpl_run.specs.declared.task.Way.{Way};
ghost use Rattle.fpl_run.specs.Answer.{AnswersCommand, FrontsCommand};
ghost use Rattle.fpl_run.specs.Begin.{start_in};
ghost use Rattle.fpl_run.specs.Task.{way_of};
ghost use Rattle.fpl_run.specs.Run.{IfTold, MayPut, Spends};

use crate::map::answer_map;
use crate::separator::text_of;
use crate::spelling::name_of;
use crate::start::{Begin, answer_start};
use crate::task::{is_unserved, takes_matrices, way_of};
use crate::words::{Command, View};
use fpl_checkpoint::{CHECKPOINT_MARK, ScanError, scan_head};
use fpl_outside::{ReadError, Sink, Source, read_whole};
use fpl_reader::{ReaderError, read};
use fpl_reply::{Outcome, Refusal, Status};
use fpl_sample::type_a;
use fpl_steps::Steps;
use std::alloc::Global;
use std::sync::ledger::Ledger;

// The most bytes of any input, and of a presentation.
const MOST_BYTES: usize = 1_073_741_824;

const MOST_TEXT: usize = 67_108_864;

fn is_unread(view: View) -> bool
    ensures { IsTrue result ↔ IsUnread view }
{
    matches!(view, View::Sample)
}

fn is_marked(bytes: &[u8]) -> bool
    ensures { IsTrue result ↔ IsMarked bytes.now }
{
    !bytes.is_empty() && bytes[0] == CHECKPOINT_MARK
}

fn is_checkpoint(c: Command, bytes: &[u8]) -> bool
    ensures { IsTrue result ↔ IsCheckpoint c bytes.now }
{
    matches!(c.view, View::Check) || is_marked(bytes) && !takes_matrices(way_of(c.view))
}

// What a command comes to for a presentation.
fn answer_presented<O: Sink, L: Ledger>(
    alloc: Global,
    c: Command,
    begin: Begin,
    bytes: &[u8],
    stored: &[u8],
    out: &mut O,
    steps: &mut Steps<L>,
) -> Outcome
    requires sound { IsSound begin.presentation }
    requires short { way_of c.view ≡ Way.Write → length (canonical_of begin.presentation) < 2 ^ 32 }
    requires version { (begin.version ≡ 1) ⊎ (begin.version ≡ 2) }
    requires range { IsInRange c.limit c.entries }
    requires read { IsUnread c.view → ⊥ }
    requires presents { Presents c bytes.now (start_in begin stored.now) }
    ensures reply { Leaves (AnswersCommand c bytes.now) (FrontsCommand c bytes.now) (O.taken out.old) (O.taken out.new) (reply_of result) }
    ensures fault { status_of (reply_of result) ≡ Status.WriteFault → Rose (O.faults out.old) (O.faults out.new) }
    ensures cost { Spends c bytes.now (O.taken out.old) (O.taken out.new) steps.old steps.new }
{
    if is_unserved(way_of(c.view), begin.presentation.field) {
        return Outcome::Unsupported(name_of(c.view));
    }
    if takes_matrices(way_of(c.view)) {
        return answer_map(alloc, c, begin, bytes, stored, out, steps);
    }
    answer_start(alloc, c, begin, stored, out, steps)
}

fn answer_text<O: Sink, L: Ledger>(
    alloc: Global,
    c: Command,
    bytes: &[u8],
    out: &mut O,
    steps: &mut Steps<L>,
) -> Outcome
    requires range { IsInRange c.limit c.entries }
    requires read { IsUnread c.view → ⊥ }
    requires short { length bytes.now ≤ most_bytes }
    requires plain { IsCheckpoint c bytes.now → ⊥ }
    ensures reply { Leaves (AnswersCommand c bytes.now) (FrontsCommand c bytes.now) (O.taken out.old) (O.taken out.new) (reply_of result) }
    ensures fault { status_of (reply_of result) ≡ Status.WriteFault → Rose (O.faults out.old) (O.faults out.new) }
    ensures cost { Spends c bytes.now (O.taken out.old) (O.taken out.new) steps.old steps.new }
{
    if bytes.len() > MOST_TEXT {
        return Outcome::Refused {
            place: MOST_TEXT as u64,
            why: Refusal::TooLong,
        };
    }
    match read(alloc, text_of(way_of(c.view), bytes)) {
        Ok(presentation) => {
            let begin = Begin {
                presentation,
                version: 2,
                place: 0,
                stored: false,
            };
            answer_presented(alloc, c, begin, bytes, b"", out, steps)
        }
        Err(ReaderError::Refused { place, reason }) => Outcome::Refused {
            place,
            why: Refusal::Unread(reason),
        },
        Err(ReaderError::NoMemory) => Outcome::NoMemory,
    }
}

fn answer_checkpoint<O: Sink, L: Ledger>(
    alloc: Global,
    c: Command,
    bytes: &[u8],
    out: &mut O,
    steps: &mut Steps<L>,
) -> Outcome
    requires range { IsInRange c.limit c.entries }
    requires read { IsUnread c.view → ⊥ }
    requires short { length bytes.now ≤ most_bytes }
    requires checkpoint { IsCheckpoint c bytes.now }
    ensures reply { Leaves (AnswersCommand c bytes.now) (FrontsCommand c bytes.now) (O.taken out.old) (O.taken out.new) (reply_of result) }
    ensures fault { status_of (reply_of result) ≡ Status.WriteFault → Rose (O.faults out.old) (O.faults out.new) }
    ensures cost { Spends c bytes.now (O.taken out.old) (O.taken out.new) steps.old steps.new }
{
    match scan_head(alloc, bytes) {
        Ok(head) => {
            let begin = Begin {
                presentation: head.presentation,
                version: head.version,
                place: head.end,
                stored: true,
            };
            answer_presented(alloc, c, begin, bytes, bytes, out, steps)
        }
        Err(ScanError::Bad(bad)) => Outcome::BadBytes(bad),
        Err(ScanError::NoMemory) => Outcome::NoMemory,
    }
}

fn answer_bytes<O: Sink, L: Ledger>(
    alloc: Global,
    c: Command,
    bytes: &[u8],
    out: &mut O,
    steps: &mut Steps<L>,
) -> Outcome
    requires range { IsInRange c.limit c.entries }
    requires read { IsUnread c.view → ⊥ }
    requires short { length bytes.now ≤ most_bytes }
    ensures bytes { IsBytes bytes.now }
    ensures reply { Leaves (AnswersCommand c bytes.now) (FrontsCommand c bytes.now) (O.taken out.old) (O.taken out.new) (reply_of result) }
    ensures fault { status_of (reply_of result) ≡ Status.WriteFault → Rose (O.faults out.old) (O.faults out.new) }
    ensures cost { Spends c bytes.now (O.taken out.old) (O.taken out.new) steps.old steps.new }
{
    if is_checkpoint(c, bytes) {
        return answer_checkpoint(alloc, c, bytes, out, steps);
    }
    answer_text(alloc, c, bytes, out, steps)
}

// What a view that reads no input comes to.
fn answer_built_in<O: Sink, L: Ledger>(
    alloc: Global,
    c: Command,
    out: &mut O,
    steps: &mut Steps<L>,
) -> Outcome
    requires range { IsInRange c.limit c.entries }
    requires rank { c.limit ≤ 64 }
    requires unread { IsUnread c.view }
    ensures reply { (bytes : List ℕ) → Leaves (AnswersCommand c bytes) (FrontsCommand c bytes) (O.taken out.old) (O.taken out.new) (reply_of result) }
    ensures fault { status_of (reply_of result) ≡ Status.WriteFault → Rose (O.faults out.old) (O.faults out.new) }
    ensures cost { (bytes : List ℕ) → Spends c bytes (O.taken out.old) (O.taken out.new) steps.old steps.new }
{
    match type_a(alloc, c.limit) {
        Ok(presentation) => {
            let begin = Begin {
                presentation,
                version: 2,
                place: 0,
                stored: false,
            };
            answer_start(alloc, c, begin, b"", out, steps)
        }
        Err(_) => Outcome::NoMemory,
    }
}

/// What a command comes to.
pub(crate) fn answer_command<I: Source, O: Sink, L: Ledger>(
    alloc: Global,
    c: Command,
    input: &mut I,
    out: &mut O,
    steps: &mut Steps<L>,
) -> Outcome
    requires range { IsInRange c.limit c.entries }
    requires most { c.limit ≤ most_limit c.view }
    ensures command { status_of (reply_of result) ≢ Status.Usage }
    ensures reply { IfTold (IsUnread c.view) (I.left input.old) (λ bytes. (reply_of result ≡ read_fault) ⊎ Leaves (AnswersCommand c bytes) (FrontsCommand c bytes)
        (O.taken out.old) (O.taken out.new) (reply_of result)) }
    ensures fault { status_of (reply_of result) ≡ Status.WriteFault → Rose (O.faults out.old) (O.faults out.new) }
    ensures cost { IfTold (IsUnread c.view) (I.left input.old) (λ bytes. Spends c bytes (O.taken out.old) (O.taken out.new) steps.old steps.new) }
    ensures nothing { (MayPut c.view (status_of (reply_of result)) → ⊥) → O.taken out.new ≡ O.taken out.old }
    ensures bytes { status_of (reply_of result) ≡ Status.Done → (IsUnread c.view → ⊥) → IfSome (I.left input.old) IsBytes }
    ensures unread { IsUnread c.view → input.new ≡ input.old }
    ensures read { status_of (reply_of result) ≡ Status.ReadFault → Rose (I.faults input.old) (I.faults input.new) × (IsUnread c.view → ⊥) }
    ensures end { status_of (reply_of result) ≡ Status.Done → IsUnread c.view ⊎ IsAtEnd (I.left input.new) }
{
    if is_unread(c.view) {
        return answer_built_in(alloc, c, out, steps);
    }
    match read_whole(alloc, input, MOST_BYTES) {
        Ok(bytes) => answer_bytes(alloc, c, &bytes, out, steps),
        Err(ReadError::TooLong) => Outcome::Refused {
            place: MOST_BYTES as u64,
            why: Refusal::TooLong,
        },
        Err(ReadError::Fault) => Outcome::ReadFault,
        Err(ReadError::NoMemory) => Outcome::NoMemory,
    }
}
