//! Laws of sections as bytes. Each function does nothing: what it ensures is the law.

ghost use Rattle.std.specs.Prelude.{◌≡◌, ◌<◌, ◌≤◌, ◌+◌, ◌^◌, ◌++◌, ℕ, List, length, drop, slice_range, Ok};
ghost use Rattle.fpl_numbers.specs.declared.number.Kind.{Kind};
ghost use Rattle.fpl_log.specs.declared.section.Section.{Section};
ghost use Rattle.fpl_bytes.specs.declared.version.Version.{Version};
ghost use Rattle.fpl_bytes.specs.declared.version.Version.TheVariants.{Two};
ghost use Rattle.fpl_bytes.specs.Codes.{IsBytes};
ghost use Rattle.fpl_section_bytes.specs.declared.frame.Frame.TheVariants.{Whole};
ghost use Rattle.fpl_section_bytes.specs.Spelling.{payload_bytes, frame_bytes};
ghost use Rattle.fpl_section_bytes.specs.Reading.{payload_at};
ghost use Rattle.fpl_section_bytes.specs.Stored.{IsStoredSection, IsWritable};
ghost use Rattle.fpl_section_bytes.specs.Frames.{frame_of};

/// A payload that is read is that of the section that was read, which has bytes; the payload of a
/// section that has bytes is read as it. So a payload stands for one section at most. What has
/// bytes in the second version can be written.
pub fn sections_are_read_back()
    ensures taken { (version : Version) (kind : Kind) (w end : ℕ) (bytes : List ℕ) (s : Section) →
        IsBytes bytes → payload_at version kind w end bytes ≡ Ok s →
        (bytes ≡ payload_bytes version kind s) × IsStoredSection version kind s × (s.weight ≡ w) }
    ensures again { (version : Version) (kind : Kind) (end : ℕ) (s : Section) →
        IsStoredSection version kind s → payload_at version kind s.weight end (payload_bytes version kind s) ≡ Ok s }
    ensures writable { (kind : Kind) (s : Section) → IsStoredSection Two kind s → IsWritable kind s }
{}

/// Where a frame of weight w stands at a place, whatever stands before and after it, its payload
/// is found; and where one is found, the frame of its payload stands there.
pub fn frames_are_read_back()
    ensures found { (before payload after : List ℕ) (w : ℕ) → w < 2 ^ 32 → length payload < 2 ^ 64 →
        frame_of (before ++ (frame_bytes w payload ++ after)) (length before) w ≡ Ok (Whole (length before + 12) (length before + 12 + length payload)) }
    ensures stands { (bytes : List ℕ) (at w from to : ℕ) → IsBytes bytes → frame_of bytes at w ≡ Ok (Whole from to) →
        (from ≡ at + 12) × (from ≤ to) × (to ≤ length bytes) × (drop at bytes ≡ frame_bytes w (slice_range bytes from to) ++ drop to bytes) }
{}
