//! Reading all there is, and writing all of it.
ghost use Rattle.std.specs.Prelude.{◌≡◌, ◌≤◌, List, ℕ, IfOk, OnOk, OnErr, IsErrOf, vec_len};
ghost use Rattle.std.specs.Io.KnownBytes.{IsAtEnd};
ghost use Rattle.fpl_outside.specs.Outside.{Rose, Gives, Takes};
ghost use Rattle.fpl_outside.specs.Whole.{LostWithin, PassedMax, WrotePrefix};

use crate::{Got, Put, Sink, Source};
use std::alloc::Global;

/// Why a whole reading ended before the end. The source has lost what was read.
#[derive(Clone, Copy, Debug, PartialEq, Eq)]
pub enum ReadError {
    /// More than the most bytes came before the end. No read follows the one that passed it.
    TooLong,
    /// A read failed.
    Fault,
    /// There was no memory for the bytes.
    NoMemory,
}

/// A put failed. The sink has taken a prefix of the bytes.
#[derive(Clone, Copy, Debug, PartialEq, Eq)]
pub struct WriteFault;

// How many bytes one read asks for.
const CHUNK: usize = 4096;

/// All bytes up to the end, of which there are at most `max`.
pub fn read_whole<S: Source>(
    alloc: Global,
    source: &mut S,
    max: usize,
) -> Result<Vec<u8>, ReadError>
    ensures bytes { IfOk result (λ all. Gives (S.left source.old) (S.left source.new) all.items) }
    ensures end { OnOk result (IsAtEnd (S.left source.new)) }
    ensures short { IfOk result (λ all. vec_len all ≤ max) }

    ensures too_long { IsErrOf result ReadError.TooLong → PassedMax (S.left source.old) (S.left source.new) max }
    ensures fault { IsErrOf result ReadError.Fault → Rose (S.faults source.old) (S.faults source.new) }
    ensures fault_lost { IsErrOf result ReadError.Fault → LostWithin (S.left source.old) (S.left source.new) max }
    ensures memory_lost { IsErrOf result ReadError.NoMemory → LostWithin (S.left source.old) (S.left source.new) max }
    ensures later { S.faults source.old ≤ S.faults source.new }
{
    let mut all = Vec::new(alloc);
    let mut buf = [0u8; CHUNK];
    'reading: loop {
        match source.read(&mut buf) {
            Got::End => return Ok(all),
            Got::Failed => return Err(ReadError::Fault),
            Got::Read(count) => {
                if count > max - all.len() {
                    return Err(ReadError::TooLong);
                }
                if all.extend_from_slice(&buf[..count]).is_err() {
                    return Err(ReadError::NoMemory);
                }
            }
        }
    }
}

/// Appends all bytes. It takes no memory.
pub fn write_whole<K: Sink>(sink: &mut K, bytes: &[u8]) -> Result<(), WriteFault>
    ensures whole { OnOk result (Takes (K.taken sink.old) (K.taken sink.new) bytes.now) }
    ensures part { OnErr result (WrotePrefix (K.taken sink.old) (K.taken sink.new) bytes.now) }
    ensures fault { OnErr result (Rose (K.faults sink.old) (K.faults sink.new)) }
    ensures later { K.faults sink.old ≤ K.faults sink.new }
{
    let mut at = 0;
    while at < bytes.len() {
        match sink.put(&bytes[at..]) {
            Put::Took(count) => at += count,
            Put::Failed => return Err(WriteFault),
        }
    }
    Ok(())
}
