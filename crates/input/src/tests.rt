// `Rooms::list`, of which no contract can say what it prints: the listing of either line, by whole and by short reads and writes, and what is said where one fails.
use crate::Rooms;
use double::Section as DoubleLine;
use std::cell::RefCell;
use std::fmt::Display;
use std::io;
use std::io::{Eprint, Error, ErrorKind, Print, Read, Write};
use std::test::Fail;
use step::Line;
use working::Section as SingleLine;

// The logs and the listings that stand beside the two listers.
const SINGLE: &[u8] = b"\x01\x01\x3f\x02\x01\x00\x0a\x01\x01\x02\x87\x06\x02\x00\x46\x01\x00\x01\
    \x47\x04\x02\x00\x4b\x02\x87\x06\x01\x00\x5f\x02\x00\x01\x0f\x05\x01\x00\x60\x01\
    \x0f\x05\x01\x00\x7d\x01\x0f\x05\x01\x00\x7e\x01";

const SINGLE_LISTING: &str = "1 1 - ok 0 0 -\n2 2 A ok 1 7 15\n3 6 B ok 0 0 -\n4 4 B ok 1 180 B\n\
    5 6 A ok 0 0 -\n6 5 A ok 2 168 B\n7 5 A no 19\n8 5 A ok 3 104 25/10\nend 8 7 1 0 0 2 0 0 0 2\n";

const DOUBLE: &[u8] =
    b"\x01\x01\x07\x05\x01\x00\x0a\x07\x05\x01\x00\x27\x07\x05\x01\x00\x28\x07\x05\x02\x00\x05\
    \x87\x06\x02\x00\x32\x01\x00\x02\x87\x06\x02\x00\x32\x01\x00\x01\x01\x08\x87\x06\x02\x00\x3c\x01\x00\x02\
    \x07\x05\x01\x00\x45\x07\x05\x01\x00\x46\x87\x06\x01\x00\x50\x02\x00\x01\x87\x06\x02\x00\x64\x01\x00\x03\x01\x08";

const DOUBLE_LISTING: &str =
    "1 1 - ok 0 0 -\n2 5 A ok 1 256 25/10\n3 5 A no 19\n4 5 A ok 2 256 25/10\n\
    5 5 B ok 1 256 25/10\n6 6 B no 20\n7 6 B ok 0 0 -\n8 8 - no 8\n9 6 B ok 0 0 -\n10 5 A no 19\n\
    11 5 A ok 3 256 25/10\n12 6 A ok 0 0 -\n13 6 B ok 0 0 -\n14 8 - ok 0 0 -\nend 14 10 2 1 1 0 0 0 0 0\n";

// The numbers by which the system says that a read failed, and that no room is left to write.
const EIO: i32 = 5;

const ENOSPC: i32 = 28;

// An output that keeps what is printed and what is said. A write takes `most` bytes, and fails once `room` bytes are printed.
#[derive(Drop)]
struct Paper {
    printed: RefCell<Vec<u8>>,
    said: RefCell<Vec<u8>>,
    most: usize,
    room: usize,
}

fn blank_paper(rt: &HostRuntime, most: usize, room: usize) -> Paper {
    Paper {
        printed: RefCell::new(Vec::new(rt.alloc())),
        said: RefCell::new(Vec::new(rt.alloc())),
        most,
        room,
    }
}

fn keep<D: Display + Drop>(kept: &RefCell<Vec<u8>>, value: D, end: &str) -> io::Result<()> {
    match kept.try_borrow_mut() {
        Ok(mut kept) => write!(*kept, "{value}{end}"),
        Err(_) => Err(Error::from(ErrorKind::Other)),
    }
}

fn is_kept(kept: &RefCell<Vec<u8>>, text: &str) -> bool {
    match kept.try_borrow() {
        Ok(kept) => kept.as_slice() == text.as_bytes(),
        Err(_) => false,
    }
}

impl Print for Paper {
    fn print<D: Display + Drop>(&self, value: D) -> io::Result<()> {
        keep(&self.printed, value, "")
    }

    fn println<D: Display + Drop>(&self, value: D) -> io::Result<()> {
        keep(&self.printed, value, "\n")
    }

    fn write_all(&self, bytes: &[u8]) -> io::Result<()> {
        match self.printed.try_borrow_mut() {
            Ok(mut printed) => printed.write_all(bytes),
            Err(_) => Err(Error::from(ErrorKind::Other)),
        }
    }

    fn write_some(&self, bytes: &[u8]) -> io::Result<usize> {
        let printed = match self.printed.try_borrow() {
            Ok(printed) => printed.len(),
            Err(_) => return Err(Error::from(ErrorKind::Other)),
        };
        let left = self.room.saturating_sub(printed);
        if left == 0 {
            return Err(Error::from_raw_os_error(ENOSPC));
        }
        let count = bytes.len().min(self.most).min(left);
        self.write_all(&bytes[..count])?;
        Ok(count)
    }
}

impl Eprint for Paper {
    fn eprint<D: Display + Drop>(&self, value: D) -> io::Result<()> {
        keep(&self.said, value, "")
    }

    fn eprintln<D: Display + Drop>(&self, value: D) -> io::Result<()> {
        keep(&self.said, value, "\n")
    }
}

// A reader that a signal interrupts before each read, that brings few bytes at a time, and that ends behind them or fails there.
#[derive(Drop)]
struct Halting<'a> {
    rest: &'a [u8],
    interrupted: bool,
    fails: bool,
}

fn in_pieces(log: &[u8], fails: bool) -> Halting<'_> {
    Halting {
        rest: log,
        interrupted: false,
        fails,
    }
}

impl Read for Halting<'_> {
    fn read(&mut self, buf: &mut [u8]) -> io::Result<usize> {
        self.interrupted = !self.interrupted;
        if self.interrupted {
            return Err(Error::from(ErrorKind::Interrupted));
        }
        if self.fails && self.rest.is_empty() {
            return Err(Error::from_raw_os_error(EIO));
        }
        let count = self.rest.len().min(buf.len()).min(7);
        buf[..count].copy_from_slice(&self.rest[..count]);
        self.rest = &self.rest[count..];
        Ok(count)
    }
}

// Whether the source, listed as a log of that line, is printed so and no more, and no more than that is said. The blocks have room for few lines.
fn lists<S: Line>(
    paper: &Paper,
    source: &mut impl Read,
    printed: &str,
    said: &str,
) -> io::Result<bool> {
    let mut rooms = Rooms {
        log: [0u8; 65537],
        block: [0u8; 256],
    };
    rooms.list::<S>(paper, source, "desk")?;
    Ok(is_kept(&paper.printed, printed) && is_kept(&paper.said, said))
}

#[test]
fn lists_either_line(rt: HostRuntime) -> Result<(), Fail> {
    for most in [1, 7, 4096] {
        let single = blank_paper(&rt, most, 4096);
        assert!(rt; lists::<SingleLine>(&single, &mut &SINGLE[..], SINGLE_LISTING, "")?);
        let double = blank_paper(&rt, most, 4096);
        assert!(rt; lists::<DoubleLine>(&double, &mut &DOUBLE[..], DOUBLE_LISTING, "")?);
    }
    Ok(())
}

#[test]
fn lists_what_comes_in_pieces(rt: HostRuntime) -> Result<(), Fail> {
    let paper = blank_paper(&rt, 4096, 4096);
    assert!(rt; lists::<SingleLine>(&paper, &mut in_pieces(SINGLE, false), SINGLE_LISTING, "")?);
    Ok(())
}

// A byte more than the longest log, which the room takes.
#[test]
fn tells_a_longer_log(rt: HostRuntime) -> Result<(), Fail> {
    let paper = blank_paper(&rt, 4096, 4096);
    assert!(rt; lists::<SingleLine>(&paper, &mut &[0u8; 65537][..], "long\n", "")?);
    Ok(())
}

// After a failed read nothing is listed, and after a failed write nothing more.
#[test]
fn says_what_failed(rt: HostRuntime) -> Result<(), Fail> {
    let paper = blank_paper(&rt, 4096, 4096);
    let said = "desk: reading standard input: Input/output error\n";
    assert!(rt; lists::<SingleLine>(&paper, &mut in_pieces(SINGLE, true), "", said)?);
    let paper = blank_paper(&rt, 7, 17);
    let said = "desk: writing standard output: No space left on device\n";
    assert!(rt; lists::<SingleLine>(&paper, &mut &SINGLE[..], "1 1 - ok 0 0 -\n2 ", said)?);
    let paper = blank_paper(&rt, 0, 4096);
    let said = "desk: writing standard output: write zero\n";
    assert!(rt; lists::<SingleLine>(&paper, &mut &SINGLE[..], "", said)?);
    Ok(())
}
