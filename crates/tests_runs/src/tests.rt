ghost use Rattle.std.specs.Prelude.{◌≡◌, ◌≤◌, ◌<◌};

use fpl_outside::{MemorySink, MemorySource};
use fpl_reply::Status;
use fpl_run::run;
use fpl_steps::Steps;
use std::alloc::{AllocError, Global};
use std::marker::Brand;
use std::sync::ledger::{Blank, Ledger};
use std::test::Fail;

const PLAIN: &[u8] = b"field 7; even x, y;";

const PLAIN_TABLE: &[u8] =
    b"table 7 through 1\nbasis 2\nb1 weight 1 even = x\nb2 weight 1 even = y\nimages 2\nx = b1\ny = b2\nbrackets 0\nend\n";

// Nothing is presented, through weight 1.
const EMPTY: &[u8] =
    b"\xf1FPL\x02\x00\x00\x00\x09field 7;\n\x00\x00\x00\x01\x00\x00\x00\x00\x00\x00\x00\x14\x00\x00\x00\x00\x00\x00\x00\x00\x00\x00\x00\x00\x00\x00\x00\x00\x00\x00\x00\x00";

const LARGE: &[u8] =
    b"field Q; even x, y, z; relation y = 170141183460469231731687303715884105727*x; relation z = 170141183460469231731687303715884105727*y;";

fn words_of(alloc: Global, line: &str) -> Result<Vec<String>, AllocError> {
    let mut words = Vec::new(alloc);
    for word in line.split(' ') {
        words.push(String::from_str(alloc, word)?)?;
    }
    Ok(words)
}

fn run_counted<L: Ledger>(
    blank: Blank,
    alloc: Global,
    words: &Vec<String>,
    input: &mut MemorySource,
    out: &mut MemorySink,
    err: &mut MemorySink,
) -> Status
    requires name { blank.name ≡ L.name }
    requires parts { blank.parts ≡ L.parts }
    requires some { 0 < blank.parts }
{
    let mut steps = Steps::<L>::new(blank);
    run(alloc, words, input, out, err, &mut steps)
}

// What a run left behind.
#[derive(Drop)]
struct Ended {
    status: Status,
    out: MemorySink,
    err: MemorySink,
}

// Runs on an input, with a source and an output that move `most` bytes at a time and fail at one call, from 1.
fn run_on(
    alloc: Global,
    line: &str,
    input: &[u8],
    most: usize,
    failing_read: u64,
    failing_put: u64,
) -> Result<Ended, AllocError>
    requires { 1 ≤ most }
{
    let words = words_of(alloc, line)?;
    let mut input = MemorySource::new(input.to_vec(alloc)?, most, [failing_read].to_vec(alloc)?);
    let mut out = MemorySink::new(alloc, 4096, most, [failing_put].to_vec(alloc)?)?;
    let mut err = MemorySink::new(alloc, 4096, most, Vec::new(alloc))?;
    let status = run_counted::<Brand>(Blank::new(1), alloc, &words, &mut input, &mut out, &mut err);
    Ok(Ended { status, out, err })
}

#[test]
fn ends_at_each_failing_read(rt: HostRuntime) -> Result<(), Fail> {
    let alloc = rt.alloc();
    for k in 1..21 {
        let ended = run_on(alloc, "table 1", PLAIN, 1, k, 0)?;
        assert_eq!(rt; ended.status, Status::ReadFault, "read {k}");
        assert_eq!(rt; ended.out.bytes().len(), 0, "read {k}");
        assert_eq!(rt; ended.err.bytes(), b"read fault\n".as_slice(), "read {k}");
    }
    let past = run_on(alloc, "table 1", PLAIN, 1, 21, 0)?;
    assert_eq!(rt; past.status, Status::Done);
    let checkpoint = run_on(alloc, "checkpoint 1", b"field 7;", 1, 8, 0)?;
    assert_eq!(rt; checkpoint.status, Status::ReadFault);
    assert_eq!(rt; checkpoint.out.bytes().len(), 0);
    let unread = run_on(alloc, "sample 3", PLAIN, 10, 1, 0)?;
    assert_eq!(rt; unread.status, Status::Done);
    Ok(())
}

#[test]
fn ends_at_each_failing_put(rt: HostRuntime) -> Result<(), Fail> {
    let alloc = rt.alloc();
    let cases = [
        ("table 1", PLAIN, PLAIN_TABLE, 106),
        ("checkpoint 1", b"field 7;".as_slice(), EMPTY, 50),
    ];
    for (line, input, text, puts) in cases {
        for k in 1..puts + 1 {
            let ended = run_on(alloc, line, input, 1, 0, k)?;
            assert_eq!(rt; ended.status, Status::WriteFault, "{line}, put {k}");
            let front = &text[..(k as usize - 1).min(text.len())];
            assert_eq!(rt; ended.out.bytes(), front, "{line}, put {k}");
            assert_eq!(rt;
                ended.err.bytes(),
                b"write fault\n".as_slice(),
                "{line}, put {k}"
            );
        }
        let past = run_on(alloc, line, input, 1, 0, puts + 1)?;
        assert_eq!(rt; past.status, Status::Done, "{line}");
        assert_eq!(rt; past.out.bytes(), text, "{line}");
    }
    Ok(())
}

// The head is written before the first weight.
#[test]
fn writes_a_head_before_it_computes(rt: HostRuntime) -> Result<(), Fail> {
    let alloc = rt.alloc();
    let head = run_on(alloc, "checkpoint 1", LARGE, 64, 0, 1)?;
    assert_eq!(rt; head.status, Status::WriteFault);
    let table = run_on(alloc, "table 1", LARGE, 64, 0, 1)?;
    assert_eq!(rt; table.status, Status::Overflow);
    assert_eq!(rt; table.out.bytes().len(), 0);
    Ok(())
}

#[test]
fn answers_usage_past_a_faulty_error_output(rt: HostRuntime) -> Result<(), Fail> {
    let alloc = rt.alloc();
    let words = words_of(alloc, "table 0")?;
    for (failing, said) in [(0, 34), (1, 0), (2, 10)] {
        let mut input = MemorySource::new(Vec::new(alloc), 4, [1].to_vec(alloc)?);
        let mut out = MemorySink::new(alloc, 0, 1, Vec::new(alloc))?;
        let mut err = MemorySink::new(alloc, 100, 10, [failing].to_vec(alloc)?)?;
        let status = run_counted::<Brand>(
            Blank::new(1),
            alloc,
            &words,
            &mut input,
            &mut out,
            &mut err,
        );
        assert_eq!(rt; status, Status::Usage);
        let line = b"usage: fplsa VIEW LIMIT [ENTRIES]\n";
        assert_eq!(rt; err.bytes(), &line[..said]);
    }
    Ok(())
}
