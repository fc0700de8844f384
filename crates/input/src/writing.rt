// What `Rooms::list` writes: a listing in blocks on standard output, and what failed on standard error. The listers have theirs (decision 123).
ghost use Rattle.listing.specs.LineText.{longest_line};
ghost use Rattle.std.specs.Prelude.{length, ◌≤◌};

use std::io;
use std::io::{Eprint, Error, ErrorKind, Print, Write};
use std::str::from_utf8;
use step::{Line, start_of};
use words::fresh_words;

// Room for an error's text: std gives its words in 256 bytes at most, and a number behind them.
const ROOM: usize = 512;

// Writes all of a block. A write that fails, as where a signal comes first, or that takes nothing ends it: std's `write_all` tries an interrupted write again.
fn write_whole(out: &impl Print, block: &[u8]) -> io::Result<()> {
    let mut rest = block;
    while !rest.is_empty() {
        let count = out.write_some(rest)?;
        if count == 0 {
            return Err(Error::from(ErrorKind::WriteZero));
        }
        rest = &rest[count..];
    }
    Ok(())
}

// Writes the listing of a log, a block at a time; how many there are comes of what each takes.
pub(crate) fn write_listing<S: Line>(
    out: &impl Print,
    log: &[u8],
    block: &mut [u8],
) -> io::Result<()>
    requires { longest_line ≤ length block.old }
{
    let mut words = fresh_words();
    let mut listed = start_of(log.len());
    while !listed.ended {
        let put = step::fill::<S>(&mut words, listed, log, block);
        let count = put.behind;
        write_whole(out, &block[..count])?;
        listed = put.listed;
    }
    Ok(())
}

// An error's text in the C library's words alone: std puts its number behind them.
fn words_of(text: &str) -> &str {
    match text.split_once(" (os error ") {
        Some((words, _)) => words,
        None => text,
    }
}

// Says what failed in a program, and why.
pub(crate) fn say(out: &impl Eprint, program: &str, what: &str, why: Error) -> io::Result<()> {
    let mut room = [0u8; ROOM];
    let mut rest = room.as_mut_slice();
    write!(rest, "{why}")?;
    let count = ROOM.saturating_sub(rest.len());
    let words = words_of(from_utf8(&room[..count]).unwrap_or_default());
    eprintln!(out; "{program}: {what}: {words}")
}
