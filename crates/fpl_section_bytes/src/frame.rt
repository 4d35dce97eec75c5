ghost use Rattle.std.specs.Prelude.{◌≡◌, length, IfOk};
ghost use Rattle.fpl_section_bytes.specs.Frames.{frame_of, LiesIn};

use fpl_bytes::{BadBytes, ByteWhy, u32_at, u64_at};

/// Where a section stands: the places from which and up to which its payload goes; or it isn't
/// there whole, and is the dropped tail of the bytes.
#[derive(Clone, Copy, Debug, PartialEq, Eq)]
pub enum Frame {
    Whole { from: usize, to: usize },
    Tail,
}

/// The frame of the section that begins at place `at`. Only a whole section can have the wrong
/// weight, which its place names.
pub fn scan_frame(bytes: &[u8], at: usize, w: u32) -> Result<Frame, BadBytes>
    ensures value { result ≡ frame_of bytes.now at w }
    ensures inside { IfOk result (LiesIn at (length bytes.now)) }
{
    let Some(rest) = bytes.get(at..) else {
        return Ok(Frame::Tail);
    };
    let Some((weight, rest)) = u32_at(rest) else {
        return Ok(Frame::Tail);
    };
    let Some((size, rest)) = u64_at(rest) else {
        return Ok(Frame::Tail);
    };
    if (rest.len() as u64) < size {
        return Ok(Frame::Tail);
    }
    if weight != w {
        return Err(BadBytes {
            place: at as u64,
            why: ByteWhy::SectionWeight,
        });
    }
    let from = at + 12;
    Ok(Frame::Whole {
        from,
        to: from + size as usize,
    })
}
