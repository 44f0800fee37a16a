//! Whole runs: texts that are answered, texts that have no answer, and streams that fail.
use crate::{Room, set_row};
use std::alloc::{AllocError, Global};
use std::io;
use std::io::{ErrorKind, Read};
use std::process::ExitCode;
use std::test::Fail;
use streams::Source;

// Two cells that want to overlap.
const TEXT: &[u8] = b"measure squared\nrow 0 0 10\ncell 1 3 0 4 1\ncell 2 4 0 2 1\n";

// A reader that fails.
#[derive(Drop)]
struct Broken;

impl Read for Broken {
    fn read(&mut self, _buffer: &mut [u8]) -> io::Result<usize> {
        Err(io::Error::other("broken"))
    }
}

// A reader whose every other read a signal cuts short.
#[derive(Drop)]
struct Interrupted<'a> {
    text: &'a [u8],
    rests: bool,
}

impl<'a> Read for Interrupted<'a> {
    fn read(&mut self, buffer: &mut [u8]) -> io::Result<usize> {
        self.rests = !self.rests;
        if self.rests {
            return Err(io::Error::new(ErrorKind::Interrupted, "a signal"));
        }
        self.text.read(buffer)
    }
}

// What a run wrote on the two streams, and its status.
#[derive(Drop)]
struct Ended {
    out: Vec<u8>,
    err: Vec<u8>,
    status: ExitCode,
}

// A whole run.
fn run<R: Source>(heap: Global, input: &mut R) -> Ended {
    let mut out = Vec::new(heap);
    let mut err = Vec::new(heap);
    let status = set_row(&mut Room::new(heap), input, &mut out, &mut err);
    Ended { out, err, status }
}

// A complaint and the end of its line.
fn line(heap: Global, message: &str) -> Result<String, AllocError> {
    format!(in heap; "{message}\n")
}

#[test]
fn answered(rt: HostRuntime) -> Result<(), Fail> {
    let cases: [(&[u8], &[u8]); 4] = [
        (TEXT, b"1 1\n2 5\ncost 5\n"),
        (b"measure plain\r\n  row 7 0 1 # a row", b""),
        (b"measure plain\nrow 7 0 1", b"cost 0\n"),
        (b"measure plain\nrow 7 0 1\ncell 1 0 7 2 1", b"refused 14\n"),
    ];
    for (text, said) in cases {
        let mut input = text;
        let ended = run(rt.alloc(), &mut input);
        assert_eq!(rt; ended.out.as_slice(), said);
        assert_eq!(rt; ended.err.is_empty(), !said.is_empty());
        assert!(rt; input.is_empty());
    }
    Ok(())
}

#[test]
fn unreadable(rt: HostRuntime) -> Result<(), Fail> {
    let cases: [(&[u8], &str); 9] = [
        (
            b"",
            "line 1: the input ends before `measure squared` or `measure plain`",
        ),
        (
            b"measure plain\n# no row\n",
            "line 3: the input ends before `row LINE LEFT RIGHT`",
        ),
        (
            b"\nmeasured plain",
            "line 2: expected `measure squared` or `measure plain`",
        ),
        (
            b"measure",
            "line 1: too few words for `measure squared` or `measure plain`",
        ),
        (
            b"measure cubed now",
            "line 1: a measure is `squared` or `plain`",
        ),
        (
            b"measure plain\nrow 0 1 2 3",
            "line 2: too many words for `row LINE LEFT RIGHT`",
        ),
        (
            b"measure plain\nrow 0 1 2\nrow",
            "line 3: expected `cell NUMBER SITE LINE WIDTH WEIGHT`",
        ),
        (
            b"measure plain\nrow 0 1 2\ncell 1 2x",
            "line 3: a number is written in decimal digits alone",
        ),
        (
            b"measure plain\nrow 0 1 4294967296",
            "line 2: a number is at most 4294967295",
        ),
    ];
    for (text, message) in cases {
        let mut input = text;
        let ended = run(rt.alloc(), &mut input);
        assert!(rt; ended.out.is_empty());
        assert_eq!(rt; ended.err.as_slice(), line(rt.alloc(), message)?.as_bytes());
        assert!(rt; ended.status == ExitCode::FAILURE);
    }
    Ok(())
}

#[test]
fn endless(rt: HostRuntime) -> Result<(), Fail> {
    let ended = run(rt.alloc(), &mut io::repeat(b'#'));
    assert!(rt; ended.out.is_empty());
    assert_eq!(rt;
        ended.err.as_slice(),
        "the input is longer than 1048576 bytes\n".as_bytes()
    );
    assert!(rt; ended.status == ExitCode::FAILURE);
    Ok(())
}

#[test]
fn cut_short(rt: HostRuntime) -> Result<(), Fail> {
    let mut input = Interrupted {
        text: TEXT,
        rests: false,
    };
    let ended = run(rt.alloc(), &mut input);
    assert_eq!(rt; ended.out.as_slice(), "1 1\n2 5\ncost 5\n".as_bytes());
    assert!(rt; ended.err.is_empty());
    assert!(rt; ended.status == ExitCode::SUCCESS);
    Ok(())
}

#[test]
fn broken_input(rt: HostRuntime) -> Result<(), Fail> {
    let ended = run(rt.alloc(), &mut TEXT.chain(Broken));
    assert!(rt; ended.out.is_empty());
    assert_eq!(rt;
        ended.err.as_slice(),
        "the input cannot be read\n".as_bytes()
    );
    assert!(rt; ended.status == ExitCode::FAILURE);
    Ok(())
}

#[test]
fn full_output(rt: HostRuntime) -> Result<(), Fail> {
    let mut space = [0; 6];
    let mut out: &mut [u8] = &mut space;
    let mut err = Vec::new(rt.alloc());
    let mut input = TEXT;
    let status = set_row(&mut Room::new(rt.alloc()), &mut input, &mut out, &mut err);
    assert_eq!(rt; err.as_slice(), "the answer cannot be written\n".as_bytes());
    assert!(rt; status == ExitCode::FAILURE);
    assert_eq!(rt; &space, b"1 1\n2 ");
    Ok(())
}
