// A case of an entry handed to the writer, by a table: behind a fill point, and at the front of another copy of the buffer.
ghost use Rattle.std.specs.Prelude.{length, ◌≤◌};

use crate::case::LONGEST;
use crate::text::{Hex, Said};
use entry::writing::{append, write_entry};
use std::io;
use working::{Entry, Refusal, Table};

// A word and what the writer answered, and the buffer after it.
fn write_written(
    out: &impl Print,
    word: &str,
    written: Result<usize, Refusal>,
    buffer: &[u8],
) -> io::Result<()> {
    println!(out; "{word} {}", Said(written))?;
    println!(out; "buffer {}", Hex(buffer))
}

// The lines of both: the copy is taken before anything is written.
pub(crate) fn run_write(
    out: &impl Print,
    table: Table,
    buffer: &mut [u8],
    fill: usize,
    e: Entry,
) -> io::Result<()>
    requires { length buffer.old ≤ LONGEST }
{
    let length = buffer.len();
    let mut room = [0u8; LONGEST];
    let other = &mut room[..length];
    other.copy_from_slice(buffer);
    println!(out; "write {fill} {length}")?;
    let behind = append(table, buffer, fill, e);
    write_written(out, "append", behind, buffer)?;
    let front = write_entry(table, other, e);
    write_written(out, "front", front, other)
}
