use crate::{
    Got, MemorySink, MemorySource, NullSink, Put, ReadError, Sink, Source, StdSink, StdSource,
    SteadySource, WriteFault, read_whole, write_whole,
};
use std::io;
use std::io::{ErrorKind, Read, Write};
use std::test::Fail;

// A stream that fails at its second call, and at its third reads and writes nothing. It gives the byte 7, and takes pieces of it alone.
#[derive(Drop)]
struct Faulty {
    calls: u8,
}

impl Faulty {
    fn answer(&mut self, length: usize) -> io::Result<usize> {
        self.calls = self.calls.saturating_add(1);
        match self.calls {
            2 => Err(ErrorKind::Other.into()),
            3 => Ok(0),
            _ => Ok(length.min(1)),
        }
    }
}

impl Read for Faulty {
    fn read(&mut self, buf: &mut [u8]) -> io::Result<usize> {
        let count = self.answer(buf.len())?;
        buf.fill(7);
        Ok(count.min(buf.len()))
    }
}

impl Write for Faulty {
    fn write(&mut self, buf: &[u8]) -> io::Result<usize> {
        if buf != [7; 5].as_slice() {
            return Err(ErrorKind::Other.into());
        }
        let count = self.answer(buf.len())?;
        Ok(count.min(buf.len()))
    }

    fn flush(&mut self) -> io::Result<()> {
        Ok(())
    }
}

#[test]
fn reads_to_the_end_or_says_why_not(rt: HostRuntime) -> Result<(), Fail> {
    let alloc = rt.alloc();
    // The most of one read, the failing call, the most bytes in all.
    let cases = [
        (1, 0, 5, Ok(())),
        (9, 0, 5, Ok(())),
        (2, 0, 4, Err(ReadError::TooLong)),
        (1, 0, 0, Err(ReadError::TooLong)),
        (2, 3, 5, Err(ReadError::Fault)),
        (2, 4, 4, Err(ReadError::TooLong)),
        (9, 1, 0, Err(ReadError::Fault)),
    ];
    for (most, failing, max, want) in cases {
        let failing = [failing].to_vec(alloc)?;
        let mut source = MemorySource::new(b"field".to_vec(alloc)?, most, failing);
        match read_whole(alloc, &mut source, max) {
            Ok(all) => {
                assert_eq!(rt; want, Ok(()));
                assert_eq!(rt; all.as_slice(), b"field".as_slice());
            }
            Err(error) => assert_eq!(rt; want, Err(error)),
        }
    }
    let mut steady = SteadySource::new(b"field".to_vec(alloc)?);
    assert_eq!(rt; read_whole(alloc, &mut steady, 5)?.len(), 5);
    assert_eq!(rt; steady.read(&mut [0; 3]), Got::End);
    Ok(())
}

#[test]
fn reads_nothing_past_the_piece_that_is_too_much(rt: HostRuntime) -> Result<(), Fail> {
    let alloc = rt.alloc();
    let mut source = MemorySource::new(b"field".to_vec(alloc)?, 2, [0].to_vec(alloc)?);
    match read_whole(alloc, &mut source, 1) {
        Err(error) => assert_eq!(rt; error, ReadError::TooLong),
        Ok(_) => assert!(rt; false),
    }
    let mut buf = [0; 2];
    assert_eq!(rt; source.read(&mut buf), Got::Read(2));
    assert_eq!(rt; buf, *b"el");
    Ok(())
}

#[test]
fn writes_all_or_a_prefix(rt: HostRuntime) -> Result<(), Fail> {
    let alloc = rt.alloc();
    // The room, the most of one put, the failing call, the bytes taken.
    let cases = [
        (9, 1, 0, 5),
        (5, 9, 0, 5),
        (4, 9, 0, 4),
        (0, 9, 0, 0),
        (9, 2, 3, 4),
        (9, 2, 1, 0),
    ];
    for (room, most, failing, taken) in cases {
        let failing = [failing].to_vec(alloc)?;
        let mut sink = MemorySink::new(alloc, room, most, failing)?;
        let written = write_whole(&mut sink, b"table");
        assert_eq!(rt; written, if taken == 5 { Ok(()) } else { Err(WriteFault) });
        assert_eq!(rt; sink.bytes(), &b"table"[..taken]);
    }
    let mut none = NullSink::new();
    assert_eq!(rt; write_whole(&mut none, b"table"), Ok(()));
    Ok(())
}

#[test]
fn counts_the_faults_of_streams(rt: HostRuntime) {
    let mut source = StdSource::new(Faulty { calls: 0 });
    let mut buf = [0; 4];
    for want in [Got::Read(1), Got::Failed, Got::End, Got::Read(1)] {
        assert_eq!(rt; source.read(&mut buf), want);
    }
    assert_eq!(rt; buf, [7; 4]);
    let mut sink = StdSink::new(Faulty { calls: 0 });
    for want in [Put::Took(1), Put::Failed, Put::Failed, Put::Took(1)] {
        assert_eq!(rt; sink.put(&[7; 5]), want);
    }
}
