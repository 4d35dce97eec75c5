ghost use Rattle.std.specs.Prelude.{◌≡◌, ◌⊎◌};

use crate::streams::{CUBE, EMPTY, FRACTIONS, ODD};
use fpl_checkpoint::{
    ByteWhy, Frame, ScanError, head_bytes, read_section, scan_frame, scan_head, section_bytes,
};
use fpl_scalar::Kind;
use std::alloc::{AllocError, Global};
use std::test::Fail;

/// The place and the reason of a refusal; `Err` for want of memory.
fn told(answer: Result<u32, ScanError>) -> Result<Result<u32, (u64, ByteWhy)>, AllocError> {
    match answer {
        Ok(count) => Ok(Ok(count)),
        Err(ScanError::Bad(bad)) => Ok(Err((bad.place, bad.why))),
        Err(ScanError::NoMemory) => Err(AllocError),
    }
}

fn read_payload(
    alloc: Global,
    version: u8,
    kind: Kind,
    bytes: &[u8],
) -> Result<Result<u32, (u64, ByteWhy)>, AllocError>
    requires { (version ≡ 1) ⊎ (version ≡ 2) }
{
    match read_section(alloc, version, kind, bytes, 0, bytes.len(), 5) {
        Ok(section) => told(Ok(section.weight)),
        Err(e) => told(Err(e)),
    }
}

// Payloads over residues modulo 7.
#[test]
fn payloads(rt: HostRuntime) -> Result<(), AllocError> {
    let alloc = rt.alloc();
    let cases: [(u8, &[u8], Result<u32, (u64, ByteWhy)>); 12] = [
        (1, b"", Err((0, ByteWhy::FieldCut))),
        (1, &[0xff; 8], Err((8, ByteWhy::FieldCut))),
        (2, &[0xff; 16], Err((16, ByteWhy::FieldCut))),
        (
            1,
            b"\0\0\0\0\0\0\0\0\xff\xff\xff\xff",
            Err((12, ByteWhy::FieldCut)),
        ),
        (
            1,
            b"\0\0\0\0\0\0\0\0\0\0\0\x01\xff\xff\xff\xff\0\0",
            Err((16, ByteWhy::FieldCut)),
        ),
        (
            1,
            b"\0\0\0\0\0\0\0\x01\x02\0\0\0\0\0\0\0\x01\xff\xff\xff\xff",
            Err((21, ByteWhy::FieldCut)),
        ),
        (
            1,
            b"\0\0\0\0\0\0\0\x01\x01R\0\0\0\x01\0\0\0\0\0\0\0\0\0\0\0\0",
            Ok(5),
        ),
        (
            2,
            b"\0\0\0\0\0\0\0\x03\0\0\0\0\0\0\0\x01\x01R\0\0\0\x01\0\0\0\0\0\0\0\0\0\0\0\0",
            Err((22, ByteWhy::BadNumber)),
        ),
        (
            2,
            b"\0\0\0\0\0\0\0\x03\0\0\0\0\0\0\0\x01\x01R\0\0\0\x01\0\0\0\x06\0\0\0\0\0\0\0\0",
            Ok(5),
        ),
        (
            2,
            b"\0\0\0\0\0\0\0\x03\0\0\0\0\0\0\0\x01\x01C\0\0\0\x01\0\0\0\x06\0\0\0\0\0\0\0\0",
            Ok(5),
        ),
        (
            1,
            b"\0\0\0\0\0\0\0\x01\x01C\0\0\0\x01\0\0\0\x06\0\0\0\0\0\0\0\0",
            Err((9, ByteWhy::BadTag)),
        ),
        (
            1,
            b"\0\0\0\0\0\0\0\0\0\0\0\0\0",
            Err((12, ByteWhy::UnreadBytes)),
        ),
    ];
    for (version, bytes, want) in cases {
        assert!(rt; version == 1 || version == 2);
        let got = read_payload(alloc, version, Kind::Prime(7), bytes)?;
        assert!(rt; got == want, "version {version}, {} bytes", bytes.len());
    }
    Ok(())
}

// A payload of one closed row with one fraction.
fn with_fraction(
    alloc: Global,
    version: u8,
    above: &[u8],
    below: &[u8],
) -> Result<Result<u32, (u64, ByteWhy)>, AllocError>
    requires { (version ≡ 1) ⊎ (version ≡ 2) }
{
    let mut bytes = Vec::new(alloc);
    if version == 2 {
        bytes.extend_from_slice(&[0; 8])?;
    }
    bytes.extend_from_slice(b"\0\0\0\0\0\0\0\0\0\0\0\x01\0\0\0\x01\0\0\0\x01")?;
    bytes.extend_from_slice(above)?;
    bytes.extend_from_slice(below)?;
    read_payload(alloc, version, Kind::Rational, &bytes)
}

#[test]
fn fractions(rt: HostRuntime) -> Result<(), AllocError> {
    let cases = [
        (1, 2, true),
        (-1, 2, true),
        (0, 1, true),
        (2, 4, false),
        (0, 2, false),
        (1, 0, false),
    ];
    for (above, below, canonical) in cases {
        let short = with_fraction(
            rt.alloc(),
            1,
            &i64::to_be_bytes(above),
            &u64::to_be_bytes(below),
        )?;
        let long = with_fraction(
            rt.alloc(),
            2,
            &i128::from(above).to_be_bytes(),
            &u128::from(below).to_be_bytes(),
        )?;
        assert!(rt; short.is_ok() == canonical, "{above}/{below} in version 1");
        assert!(rt; long.is_ok() == canonical, "{above}/{below} in version 2");
    }
    Ok(())
}

#[test]
fn limits_of_fractions(rt: HostRuntime) -> Result<(), AllocError> {
    let short = [
        (i64::MAX, 1, Ok(5)),
        (-i64::MAX, 1, Ok(5)),
        (i64::MIN, 1, Err((20, ByteWhy::BadNumber))),
        (1, i64::MAX as u64, Ok(5)),
        (1, 1 << 63, Err((20, ByteWhy::BadNumber))),
    ];
    for (above, below, want) in short {
        let got = with_fraction(
            rt.alloc(),
            1,
            &i64::to_be_bytes(above),
            &u64::to_be_bytes(below),
        )?;
        assert!(rt; got == want, "{above}/{below} in version 1");
    }
    let long = [
        (i128::MAX, 1, Ok(5)),
        (-i128::MAX, 1, Ok(5)),
        (i128::MIN, 1, Err((28, ByteWhy::BadNumber))),
        (1, i128::MAX as u128, Ok(5)),
        (1, 1 << 127, Err((28, ByteWhy::BadNumber))),
    ];
    for (above, below, want) in long {
        let got = with_fraction(
            rt.alloc(),
            2,
            &i128::to_be_bytes(above),
            &u128::to_be_bytes(below),
        )?;
        assert!(rt; got == want, "{above}/{below} in version 2");
    }
    Ok(())
}

/// A stream of version 2 of whole sections through weight 3, read and written again.
fn rewritten(alloc: Global, bytes: &[u8]) -> Result<Vec<u8>, ScanError> {
    let head = scan_head(alloc, bytes)?;
    let field = head.presentation.field;
    let mut out = Vec::new(alloc);
    out.extend_from_slice(&head_bytes(alloc, &head.presentation)?)?;
    let mut at = head.end;
    for w in 1..4 {
        if let Ok(Frame::Whole { from, to }) = scan_frame(bytes, at, w) {
            let section = read_section(alloc, 2, field, bytes, from, to, w)?;
            out.extend_from_slice(&section_bytes(alloc, field, &section)?)?;
            at = to;
        }
    }
    Ok(out)
}

#[test]
fn streams_are_written_again(rt: HostRuntime) -> Result<(), Fail> {
    let streams: [&[u8]; 4] = [&EMPTY, &ODD, &CUBE, &FRACTIONS];
    for stream in streams {
        let again = rewritten(rt.alloc(), stream)
            .ok()
            .ok_or("a stream that is read")?;
        assert!(rt;
            again.as_slice() == stream,
            "a stream of {} bytes",
            stream.len()
        );
    }
    Ok(())
}
