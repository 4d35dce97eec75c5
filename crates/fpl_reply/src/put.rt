//! Putting a text to the output.
ghost use Rattle.std.specs.Prelude.{◌≡◌, ◌≤◌, ℕ, List, IfOk, IfErr};
ghost use Rattle.fpl_outside.specs.Outside.{Rose};
ghost use Rattle.fpl_reply.specs.Reply.{done, status_of};
ghost use Rattle.fpl_reply.specs.Outcome.{reply_of};
ghost use Rattle.fpl_reply.specs.Leaves.{Leaves};
ghost use Rattle.fpl_reply.specs.Put.{Puts, cut_reply};

use crate::outcome::Outcome;
use crate::status::Status;
use fpl_outside::{Sink, write_whole};
use std::alloc::AllocError;

/// Why a text wasn't put whole.
#[derive(Clone, Copy, Debug, PartialEq, Eq)]
pub enum Cut {
    NoMemory,
    WriteFault,
}

impl Cut {
    pub fn outcome(self) -> Outcome
        ensures { reply_of result ≡ cut_reply self }
    {
        match self {
            Cut::NoMemory => Outcome::NoMemory,
            Cut::WriteFault => Outcome::WriteFault,
        }
    }
}

/// Puts a text, where there was memory to make it.
pub fn put_text<O: Sink>(out: &mut O, made: Result<Vec<u8>, AllocError>) -> Result<(), Cut>
    ensures puts { (text : List ℕ) → IfOk made (λ made. made.items ≡ text) → Puts text (O.taken out.old) (O.taken out.new) result }
    ensures untouched { IfErr result (λ cut. cut ≡ Cut.NoMemory → O.taken out.new ≡ O.taken out.old) }
    ensures fault { IfErr result (λ cut. cut ≡ Cut.WriteFault → Rose (O.faults out.old) (O.faults out.new)) }
    ensures later { O.faults out.old ≤ O.faults out.new }
{
    match made {
        Ok(text) => match write_whole(out, &text) {
            Ok(()) => Ok(()),
            Err(_) => Err(Cut::WriteFault),
        },
        Err(_) => Err(Cut::NoMemory),
    }
}

/// Puts the whole text of a view.
pub fn put_whole<O: Sink>(out: &mut O, text: &[u8]) -> Outcome
    ensures reply { Leaves (λ reply. reply ≡ done text.now) (λ front. ⊥) (O.taken out.old) (O.taken out.new) (reply_of result) }
    ensures fault { status_of (reply_of result) ≡ Status.WriteFault → Rose (O.faults out.old) (O.faults out.new) }
{
    match write_whole(out, text) {
        Ok(()) => Outcome::Done,
        Err(_) => Outcome::WriteFault,
    }
}
