//! Streams that give or take few bytes at once, that signals cut short, and that fail.
use crate::{NotRead, NotWritten, deliver, fetch};
use std::io;
use std::io::{ErrorKind, Read, Write};
use std::test::Fail;

// A stream that gives and takes one byte at a time. A signal cuts every other call short, and no
// more than so many bytes pass before it fails.
#[derive(Drop)]
struct Slow<'a> {
    bytes: &'a [u8],
    taken: Vec<u8>,
    left: usize,
    rests: bool,
}

impl<'a> Slow<'a> {
    // Why a call passes no byte, if it does not.
    fn trouble(&mut self) -> Option<io::Error> {
        self.rests = !self.rests;
        if self.rests {
            return Some(ErrorKind::Interrupted.into());
        }
        if self.left == 0 {
            return Some(ErrorKind::Other.into());
        }
        self.left -= 1;
        None
    }
}

impl<'a> Read for Slow<'a> {
    fn read(&mut self, buffer: &mut [u8]) -> io::Result<usize> {
        if let Some(why) = self.trouble() {
            return Err(why);
        }
        let most = buffer.len().min(1);
        self.bytes.read(&mut buffer[..most])
    }
}

impl<'a> Write for Slow<'a> {
    fn write(&mut self, bytes: &[u8]) -> io::Result<usize> {
        if let Some(why) = self.trouble() {
            return Err(why);
        }
        let most = bytes.len().min(1);
        self.taken.write(&bytes[..most])
    }

    fn flush(&mut self) -> io::Result<()> {
        Ok(())
    }
}

#[test]
fn fetched(rt: HostRuntime) -> Result<(), Fail> {
    let cases: [(usize, usize, Result<usize, NotRead>); 4] = [
        (5, 9, Ok(5)),
        (6, 9, Ok(6)),
        (8, 9, Ok(6)),
        (8, 4, Err(NotRead)),
    ];
    for (room, left, answer) in cases {
        let mut input = Slow {
            bytes: b"octave",
            taken: Vec::new(rt.alloc()),
            left,
            rests: false,
        };
        let mut buffer = [b'.'; 8];
        assert!(rt; fetch(&mut input, &mut buffer[..room]) == answer);
        let front = answer.unwrap_or(left);
        let whole: &[u8] = b"octave";
        let dots: &[u8] = b"........";
        assert_eq!(rt; &buffer[..front], &whole[..front]);
        assert_eq!(rt; &buffer[front..], &dots[front..]);
    }
    Ok(())
}

#[test]
fn delivered(rt: HostRuntime) -> Result<(), Fail> {
    for left in [6, 4] {
        let mut out = Slow {
            bytes: b"",
            taken: Vec::new(rt.alloc()),
            left,
            rests: false,
        };
        let answer = if left < 6 { Err(NotWritten) } else { Ok(()) };
        assert!(rt; deliver(&mut out, b"octave") == answer);
        assert_eq!(rt; out.taken.as_slice(), &b"octave"[..left]);
    }
    Ok(())
}

#[test]
fn full(rt: HostRuntime) -> Result<(), Fail> {
    let mut space = [0; 4];
    let mut out: &mut [u8] = &mut space;
    assert!(rt; deliver(&mut out, b"octave") == Err(NotWritten));
    assert_eq!(rt; &space, b"octa");
    Ok(())
}
