// Whole jobs: what is printed, what is said on standard error, and the status; and what comes of
// streams that fail.
use crate::legalizing::legalize;
use std::io;
use std::io::{Read, Write};
use std::process::ExitCode;
use std::test::Fail;

// A row of ten sites, a cell, a cell with a name, and one for which no sites are left: 30 bytes.
const JOB: &[u8] =
    b"\x00\x01\x04\x0A\x00\x02\x0B\x01\x00\x03\x00\x04\x00\x02\x2B\x02\x00\x04\x00\x02\x00\x02\x66\x66\x02\x09\x03\x00\x05\x00";

// What it says.
const LINES: &[u8] = b"0 ok\n1 ok 0 3 0\n2 ok 0 5 5 ff\n3 no 7\n1 0 1\n2 0 5\ncost 5\n";

// Whether a code is that of success.
fn succeeds(code: ExitCode) -> bool {
    code == ExitCode::SUCCESS
}

#[test]
fn jobs(rt: HostRuntime) -> Result<(), Fail> {
    let cases: [(&[u8], &[u8], &[u8]); 9] = [
        (JOB, LINES, b""),
        // Without its last byte.
        (
            &JOB[..29],
            b"0 ok\n1 ok 0 3 0\n2 ok 0 5 5 ff\n3 bad 15 29\n1 0 1\n2 0 5\ncost 5\n",
            b"legalize: the job cannot be read on from record 3, byte 29: the job ends too early\n",
        ),
        // No job, and no measure.
        (
            b"",
            b"0 bad 15 0\n",
            b"legalize: standard input is empty. A job in the binary format is expected there, as in: legalize < tile.job\n",
        ),
        (
            b"\x09",
            b"0 bad 19 0\n",
            b"legalize: the job cannot be opened: the first byte names no measure\n",
        ),
        // Record 0 has an unknown kind.
        (
            b"\x01\x05",
            b"0 bad 16 1\ncost 0\n",
            b"legalize: the job cannot be read on from record 0, byte 1: the kind is unknown\n",
        ),
        // No records.
        (b"\x01", b"cost 0\n", b""),
        // A row, a cell that is tried, and the same cell placed: the try leaves its number free and
        // says what the placing says.
        (
            b"\x00\x01\x04\x0A\x00\x04\x0B\x01\x00\x03\x00\x04\x00\x02\x0B\x01\x00\x03\x00\x04\x00",
            b"0 ok\n1 ok 0 3 0\n2 ok 0 3 0\n1 0 3\ncost 0\n",
            b"",
        ),
        // A row, two cells that abut, and the second withdrawn: the first goes back to its wanted
        // site.
        (
            b"\x00\x01\x04\x0A\x00\x02\x0B\x01\x00\x03\x00\x04\x00\x02\x0B\x02\x00\x04\x00\x02\x00\x03\x01\x02\x00",
            b"0 ok\n1 ok 0 3 0\n2 ok 0 5 5\n3 ok\n1 0 3\ncost 0\n",
            b"",
        ),
        // A withdrawal of a number that does not stand.
        (b"\x00\x03\x01\x07\x00", b"0 no 8\ncost 0\n", b""),
    ];
    for (bytes, lines, sentence) in cases {
        let (mut said, mut out) = (Vec::new(rt.alloc()), Vec::new(rt.alloc()));
        let (mut err, mut input) = (Vec::new(rt.alloc()), bytes);
        let ending = legalize(&mut said, &mut input, &mut out, &mut err);
        assert_eq!(rt; out.as_slice(), lines);
        assert_eq!(rt; err.as_slice(), sentence);
        assert_eq!(rt; succeeds(ending.status), sentence.is_empty());
        assert!(rt; ending.failure.is_none());
    }
    Ok(())
}

// An input with no end is refused like one that is too long.
#[test]
fn endless(rt: HostRuntime) -> Result<(), Fail> {
    let (mut said, mut out) = (Vec::new(rt.alloc()), Vec::new(rt.alloc()));
    let mut err = Vec::new(rt.alloc());
    let (lines, sentence): (&[u8], &[u8]) = (
        b"0 bad 12 0\n",
        b"legalize: the job cannot be opened: the job is longer than 65535 bytes\n",
    );
    let ending = legalize(&mut said, &mut io::repeat(1), &mut out, &mut err);
    assert_eq!(rt; out.as_slice(), lines);
    assert_eq!(rt; err.as_slice(), sentence);
    assert!(rt; !succeeds(ending.status));
    Ok(())
}

// An input that gives a byte a call, and at its end fails or not.
#[derive(Drop)]
struct Trickle {
    left: &'static [u8],
    fails: bool,
}

impl Read for Trickle {
    fn read(&mut self, buf: &mut [u8]) -> io::Result<usize> {
        match (self.left.split_first(), buf.first_mut()) {
            (Some((byte, rest)), Some(slot)) => {
                *slot = *byte;
                self.left = rest;
                Ok(1)
            }
            (None, _) if self.fails => Err(io::Error::other("the line is cut")),
            _ => Ok(0),
        }
    }
}

// An output that takes at most three bytes a call, and fails once it is full.
#[derive(Drop)]
struct Narrow {
    taken: Vec<u8>,
    room: usize,
}

impl Write for Narrow {
    fn write(&mut self, buf: &[u8]) -> io::Result<usize> {
        if self.room == 0 {
            return Err(io::Error::other("no room is left"));
        }
        let count = buf.len().min(3).min(self.room);
        self.taken.extend_from_slice(&buf[..count])?;
        self.room -= count;
        Ok(count)
    }

    fn flush(&mut self) -> io::Result<()> {
        Ok(())
    }
}

#[test]
fn streams(rt: HostRuntime) -> Result<(), Fail> {
    // Whether the input fails at its end, how many bytes of output are taken, and what is printed
    // and said then.
    let cases: [(bool, usize, &[u8], &[u8]); 3] = [
        (false, 1_000, LINES, b""),
        (true, 1_000, b"", b"legalize: the input cannot be read\n"),
        (
            false,
            4,
            b"0 ok",
            b"legalize: the output cannot be written\n",
        ),
    ];
    for (fails, room, lines, sentence) in cases {
        let (mut said, mut err) = (Vec::new(rt.alloc()), Vec::new(rt.alloc()));
        let mut input = Trickle { left: JOB, fails };
        let mut out = Narrow {
            taken: Vec::new(rt.alloc()),
            room,
        };
        let ending = legalize(&mut said, &mut input, &mut out, &mut err);
        assert_eq!(rt; out.taken.as_slice(), lines);
        assert_eq!(rt; err.as_slice(), sentence);
        assert_eq!(rt; succeeds(ending.status), sentence.is_empty());
        assert_eq!(rt; ending.failure.is_none(), sentence.is_empty());
    }
    Ok(())
}
