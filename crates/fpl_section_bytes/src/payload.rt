ghost use Rattle.std.specs.Prelude.{◌≡◌, ◌⊎◌, ◌≤◌, length, slice_range, Ok, IfOk};
ghost use Rattle.fpl_log.specs.declared.section.Section.{Section};
ghost use Rattle.fpl_bytes.specs.Reading.{Gives};
ghost use Rattle.fpl_bytes.specs.Numbers.{version_of};
ghost use Rattle.fpl_section_bytes.specs.Spelling.{payload_bytes};
ghost use Rattle.fpl_section_bytes.specs.Stored.{IsStoredSection};
ghost use Rattle.fpl_section_bytes.specs.Reading.{origins_at, body_at, payload_at};

use crate::terms::Payload;
use fpl_bytes::{ByteWhy, ScanError, Version, bad_bytes, u32_field, u64_field};
use fpl_log::Section;
use fpl_scalar::Kind;
use std::alloc::Global;

fn origins_field(
    version: Version,
    end: usize,
    bytes: &[u8],
) -> Result<(Option<u64>, &[u8]), ScanError>
    ensures { Gives (λ x. (x.0, x.1.now)) result (origins_at version end bytes.now) }
{
    match version {
        Version::One => Ok((None, bytes)),
        Version::Two => {
            let (origins, rest) = u64_field(end, bytes)?;
            Ok((Some(origins), rest))
        }
    }
}

impl Payload {
    #[tactic(auto, unfolding(crate::specs::Reading::body_at))]
    fn body(self, alloc: Global, w: u32, bytes: &[u8]) -> Result<(Section, &[u8]), ScanError>
        ensures { Gives (λ x. (x.0, x.1.now)) result (body_at self.version self.kind w self.end bytes.now) }
    {
        let (origins, rest) = origins_field(self.version, self.end, bytes)?;
        let (count, rest) = u64_field(self.end, rest)?;
        let (steps, rest) = self.steps_of(alloc, count, rest)?;
        let (count, rest) = u32_field(self.end, rest)?;
        let (closed, rest) = self.rows_of(alloc, count, rest)?;
        let section = Section {
            weight: w,
            origins,
            steps,
            closed,
        };
        Ok((section, rest))
    }

    #[tactic(auto, unfolding(crate::specs::Reading::payload_at))]
    fn section(self, alloc: Global, w: u32, bytes: &[u8]) -> Result<Section, ScanError>
        ensures { Gives (λ s. s) result (payload_at self.version self.kind w self.end bytes.now) }
    {
        let (section, rest) = self.body(alloc, w, bytes)?;
        if !rest.is_empty() {
            return Err(bad_bytes(self.end, rest, ByteWhy::UnreadBytes));
        }
        Ok(section)
    }
}

/// The section of weight `w` whose payload is the bytes from place `from` up to, and without,
/// place `to`, in version 1 or 2. `Bad` names the first field, in the order of reading, that is
/// refused, and the first reason. A count reserves no more than the bytes that are left can hold.
pub fn read_section(
    alloc: Global,
    version: u8,
    kind: Kind,
    bytes: &[u8],
    from: usize,
    to: usize,
    w: u32,
) -> Result<Section, ScanError>
    requires version { (version ≡ 1) ⊎ (version ≡ 2) }
    requires order { from ≤ to }
    requires inside { to ≤ length bytes.now }

    // What is read has these bytes, and is what has bytes.
    ensures found { IfOk result (λ s. IsStoredSection (version_of version) kind s × (s.weight ≡ w)
        × (slice_range bytes.now from to ≡ payload_bytes (version_of version) kind s)) }
    // What has these bytes is read, unless memory runs out.
    ensures only { (s : Section) → IsStoredSection (version_of version) kind s → s.weight ≡ w →
        slice_range bytes.now from to ≡ payload_bytes (version_of version) kind s → Gives (λ t. t) result (Ok s) }
    // The first reason to refuse the bytes.
    ensures exact { Gives (λ s. s) result (payload_at (version_of version) kind w to (slice_range bytes.now from to)) }
{
    let payload = Payload {
        version: Version::of(version),
        kind,
        end: to,
    };
    payload.section(alloc, w, &bytes[from..to])
}
