ghost use Rattle.fpl_bytes.specs.Reading.{Gives};
ghost use Rattle.fpl_section_bytes.specs.Reading.{tag_at, relation_at, jacobi_at, cube_at, origin_at};

use crate::tags::{CUBE, JACOBI, RELATION};
use fpl_bytes::{ByteWhy, ScanError, Version, bad_bytes, u32_field};
use fpl_log::Origin;

/// One byte, and the bytes after it.
pub fn tag_field(end: usize, bytes: &[u8]) -> Result<(u8, &[u8]), ScanError>
    ensures { Gives (λ x. (x.0, x.1.now)) result (tag_at end bytes.now) }
{
    match bytes {
        [] => Err(bad_bytes(end, bytes, ByteWhy::FieldCut)),
        [tag, rest @ ..] => Ok((*tag, rest)),
    }
}

#[tactic(auto, unfolding(crate::specs::Reading::relation_at))]
fn relation_field(end: usize, bytes: &[u8]) -> Result<(Origin, &[u8]), ScanError>
    ensures { Gives (λ x. (x.0, x.1.now)) result (relation_at end bytes.now) }
{
    let (relation, rest) = u32_field(end, bytes)?;
    Ok((Origin::Relation(relation), rest))
}

#[tactic(auto, unfolding(crate::specs::Reading::jacobi_at))]
fn jacobi_field(end: usize, bytes: &[u8]) -> Result<(Origin, &[u8]), ScanError>
    ensures { Gives (λ x. (x.0, x.1.now)) result (jacobi_at end bytes.now) }
{
    let (i, rest) = u32_field(end, bytes)?;
    let (j, rest) = u32_field(end, rest)?;
    let (k, rest) = u32_field(end, rest)?;
    Ok((Origin::Jacobi(i, j, k), rest))
}

#[tactic(auto, unfolding(crate::specs::Reading::cube_at))]
fn cube_field(end: usize, bytes: &[u8]) -> Result<(Origin, &[u8]), ScanError>
    ensures { Gives (λ x. (x.0, x.1.now)) result (cube_at end bytes.now) }
{
    let (i, rest) = u32_field(end, bytes)?;
    Ok((Origin::Cube(i), rest))
}

/// An origin. The first version has no cubes.
#[tactic(auto, unfolding(crate::specs::Reading::origin_at))]
pub fn origin_field(
    version: Version,
    end: usize,
    bytes: &[u8],
) -> Result<(Origin, &[u8]), ScanError>
    ensures { Gives (λ x. (x.0, x.1.now)) result (origin_at version end bytes.now) }
{
    let (tag, rest) = tag_field(end, bytes)?;
    if tag == RELATION {
        relation_field(end, rest)
    } else if tag == JACOBI {
        jacobi_field(end, rest)
    } else if tag == CUBE && version == Version::Two {
        cube_field(end, rest)
    } else {
        Err(bad_bytes(end, bytes, ByteWhy::BadTag))
    }
}
