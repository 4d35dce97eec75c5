ghost use Rattle.std.specs.Prelude.{◌≡◌, ◌+◌, ◌<◌, ◌≤◌, ◌^◌, ◌==◌, ◌&&◌, ◌||◌, length, IfOk, MatchResult, Ok, Err};
ghost use Rattle.std.specs.Prelude.{MatchOption, IfSome, ◌⊎◌};
ghost use Rattle.fpl_model.specs.Sound.{IsSound};
ghost use Rattle.fpl_model.specs.declared.presentation.Presentation.{Presentation};
ghost use Rattle.fpl_reader.specs.Reading.{HasPresentation};
ghost use Rattle.fpl_canonical.specs.Canonical.{canonical_of};
ghost use Rattle.fpl_checkpoint.specs.Heads.{checkpoint_mark, head_bytes_of, byte, sized, head_text};
ghost use Rattle.fpl_checkpoint.specs.Scans.{Scans};

use fpl_bytes::u32_at;
use fpl_canonical::write;
use fpl_model::Presentation;
use fpl_reader::{ReaderError, read};
use fpl_section_bytes::{BadBytes, ByteWhy, ScanError};
use std::alloc::{AllocError, Global};

/// The first byte of a checkpoint, which begins no text.
pub const CHECKPOINT_MARK: u8 = 0xf1;

// The version that is written.
const VERSION: u8 = 2;

// How many bytes stand before the text of a head.
const LEAD: usize = 9;

/// The head of a checkpoint: its presentation, its version, 1 or 2, and the place after it.
#[derive(Drop)]
pub struct Head {
    pub presentation: Presentation,
    pub version: u8,
    pub end: usize,
}

/// The head of version 2. The canonical text has to have fewer than 2^32 bytes.
pub fn head_bytes(alloc: Global, p: &Presentation) -> Result<Vec<u8>, AllocError>
    requires { length (canonical_of p.now) < 2 ^ 32 }
    ensures { IfOk result (λ v. v.items ≡ head_bytes_of 2 p.now) }
{
    let text = write(alloc, p)?;
    let mut out = Vec::new(alloc);
    out.extend_from_slice(&[CHECKPOINT_MARK, b'F', b'P', b'L', VERSION])?;
    out.extend_from_slice(&(text.len() as u32).to_be_bytes())?;
    out.extend_from_slice(&text)?;
    Ok(out)
}

/// The presentation whose canonical text this is, if it is one.
fn canonical_reading(alloc: Global, text: &[u8]) -> Result<Option<Presentation>, AllocError>
    requires { length text.now < 2 ^ 32 }
    ensures sound { IfOk result (λ found. IfSome found IsSound) }
    ensures text { IfOk result (λ found. MatchOption found ((p : Presentation) → HasPresentation text.now p → text.now ≡ canonical_of p → ⊥)
        (λ p. HasPresentation text.now p × (text.now ≡ canonical_of p))) }
{
    match read(alloc, text) {
        Ok(p) => {
            let canonical = write(alloc, &p)?;
            if canonical.as_slice() == text {
                Ok(Some(p))
            } else {
                Ok(None)
            }
        }
        Err(ReaderError::Refused { .. }) => Ok(None),
        Err(ReaderError::NoMemory) => Err(AllocError),
    }
}

fn bad(place: usize, why: ByteWhy) -> BadBytes
    ensures { result ≡ record { place = place; why = why } }
{
    BadBytes {
        place: place as u64,
        why,
    }
}

fn is_marked(bytes: &[u8]) -> bool
    ensures { result ≡ (byte bytes.now 0 == checkpoint_mark) }
{
    match bytes {
        [first, ..] => *first == CHECKPOINT_MARK,
        [] => false,
    }
}

fn is_named(bytes: &[u8]) -> bool
    requires { 9 ≤ length bytes.now }
    ensures { result ≡ (byte bytes.now 1 == 0x46 && byte bytes.now 2 == 0x50 && byte bytes.now 3 == 0x4c) }
{
    bytes[1] == b'F' && bytes[2] == b'P' && bytes[3] == b'L'
}

fn is_known(version: u8) -> bool
    ensures { result ≡ (version == 1 || version == 2) }
{
    version == 1 || version == 2
}

/// The version and the text of a head of a known version.
fn text_of(bytes: &[u8]) -> Result<(u8, &[u8]), BadBytes>
    requires { 9 ≤ length bytes.now }
    ensures version { IfOk result (λ x. x.0 ≡ byte bytes.now 4) }
    ensures text { MatchResult result (λ x. sized bytes.now ≡ Ok (x.0, x.1.now)) (λ e. sized bytes.now ≡ Err e) }
    ensures short { IfOk result (λ x. length x.1.now < 2 ^ 32) }
    ensures inside { IfOk result (λ x. 9 + length x.1.now ≤ length bytes.now) }
{
    let rest = &bytes[5..];
    match u32_at(rest) {
        Some((size, text)) if size as usize <= text.len() => {
            Ok((bytes[4], &text[..size as usize]))
        }
        _ => Err(bad(bytes.len(), ByteWhy::HeadCut)),
    }
}

/// The version and the text of a head, or the first test of its bytes that fails.
#[tactic(auto, unfolding(crate::specs::Heads::head_text))]
fn head_text(bytes: &[u8]) -> Result<(u8, &[u8]), BadBytes>
    ensures text { MatchResult result (λ x. head_text bytes.now ≡ Ok (x.0, x.1.now)) (λ e. head_text bytes.now ≡ Err e) }
    ensures version { IfOk result (λ x. (x.0 ≡ 1) ⊎ (x.0 ≡ 2)) }
    ensures short { IfOk result (λ x. length x.1.now < 2 ^ 32) }
    ensures inside { IfOk result (λ x. 9 + length x.1.now ≤ length bytes.now) }
{
    if !is_marked(bytes) {
        return Err(bad(0, ByteWhy::NotCheckpoint));
    }
    if bytes.len() < LEAD {
        return Err(bad(bytes.len(), ByteWhy::HeadCut));
    }
    if !is_named(bytes) {
        return Err(bad(1, ByteWhy::NotCheckpoint));
    }
    if !is_known(bytes[4]) {
        return Err(bad(4, ByteWhy::UnknownVersion));
    }
    text_of(bytes)
}

/// The head that the bytes begin with. `Bad` names the first test that fails; the last of them is
/// that the text is the canonical text of its reading. Sections may stand after the head.
pub fn scan_head(alloc: Global, bytes: &[u8]) -> Result<Head, ScanError>
    ensures head { Scans bytes.now result }
    ensures version { IfOk result (λ h. (h.version ≡ 1) ⊎ (h.version ≡ 2)) }
    ensures end { IfOk result (λ h. h.end ≤ length bytes.now) }
    ensures sound { IfOk result (λ h. IsSound h.presentation) }
    ensures short { IfOk result (λ h. length (canonical_of h.presentation) < 2 ^ 32) }
{
    let (version, text) = match head_text(bytes) {
        Ok(found) => found,
        Err(bad) => return Err(ScanError::Bad(bad)),
    };
    match canonical_reading(alloc, text)? {
        Some(presentation) => Ok(Head {
            presentation,
            version,
            end: LEAD + text.len(),
        }),
        None => Err(ScanError::Bad(bad(LEAD, ByteWhy::HeadText))),
    }
}
