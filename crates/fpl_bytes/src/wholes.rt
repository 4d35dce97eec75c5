ghost use Rattle.std.specs.Prelude.{◌≡◌, option_map};
ghost use Rattle.std.specs.Int.{w32, w64, w128};
ghost use Rattle.fpl_bytes.specs.Reading.{Gives, raw_at, whole_at};

use crate::fault::{ByteWhy, ScanError, bad_bytes};

/// A whole number in 4 bytes, and the bytes after it, where they are there.
pub fn u32_at(bytes: &[u8]) -> Option<(u32, &[u8])>
    ensures { option_map (λ x. (x.0, x.1.now)) result ≡ raw_at w32 bytes.now }
{
    match bytes.split_first_chunk::<4>() {
        Some((front, rest)) => Some((u32::from_be_bytes(*front), rest)),
        None => None,
    }
}

/// A whole number in 8 bytes, and the bytes after it, where they are there.
pub fn u64_at(bytes: &[u8]) -> Option<(u64, &[u8])>
    ensures { option_map (λ x. (x.0, x.1.now)) result ≡ raw_at w64 bytes.now }
{
    match bytes.split_first_chunk::<8>() {
        Some((front, rest)) => Some((u64::from_be_bytes(*front), rest)),
        None => None,
    }
}

pub fn u128_at(bytes: &[u8]) -> Option<(u128, &[u8])>
    ensures { option_map (λ x. (x.0, x.1.now)) result ≡ raw_at w128 bytes.now }
{
    match bytes.split_first_chunk::<16>() {
        Some((front, rest)) => Some((u128::from_be_bytes(*front), rest)),
        None => None,
    }
}

/// A whole number in 4 bytes, and the bytes after it.
pub fn u32_field(end: usize, bytes: &[u8]) -> Result<(u32, &[u8]), ScanError>
    ensures { Gives (λ x. (x.0, x.1.now)) result (whole_at w32 end bytes.now) }
{
    match u32_at(bytes) {
        Some(read) => Ok(read),
        None => Err(bad_bytes(end, bytes, ByteWhy::FieldCut)),
    }
}

/// A whole number in 8 bytes, and the bytes after it.
pub fn u64_field(end: usize, bytes: &[u8]) -> Result<(u64, &[u8]), ScanError>
    ensures { Gives (λ x. (x.0, x.1.now)) result (whole_at w64 end bytes.now) }
{
    match u64_at(bytes) {
        Some(read) => Ok(read),
        None => Err(bad_bytes(end, bytes, ByteWhy::FieldCut)),
    }
}
