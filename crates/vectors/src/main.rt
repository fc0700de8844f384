// Lists the logs on standard input, each packed behind a byte that says its table (2 a double line's, else a single line's) and its length in four bytes, high byte first.
// They are logs of the second program, and `stdout` is what it listed.
// This is a test, held to what it writes. A read or a write that fails ends it.
#![tactic(auto)]

ghost use Rattle.std.specs.Prelude.{length, min, ◌≡◌, ◌≤◌};
ghost use Rattle.working.specs.Entries.{value_of};

use input::fill;
use std::io;
use std::io::Read;
use working::Table;

// Room for the longest log and a byte more, which tells a longer one.
const ROOM: usize = 65537;

// A log, and the table that it goes by.
#[derive(Clone, Copy, Drop)]
struct Packed<'a> {
    table: Table,
    log: &'a [u8],
}

// The length that four bytes say, high byte first, and no more than there is room for.
fn packed_length(head: [u8; 4]) -> usize
    ensures { result ≡ min (value_of head) 65537 }
{
    (u32::from_be_bytes(head) as usize).min(ROOM)
}

// The next log, read into the room lent, no more of it than there is room for; none at the end of the input.
fn read_packed<'a>(
    input: &mut impl Read,
    room: &'a mut [u8; ROOM],
) -> io::Result<Option<Packed<'a>>> {
    let mut first = [0u8; 1];
    let mut head = [0u8; 4];
    fill(input, &mut first)?;
    if fill(input, &mut head)? < 4 {
        return Ok(None);
    }
    let table = match first[0] {
        2 => Table::DoubleLine,
        _ => Table::SingleLine,
    };
    let count = fill(input, &mut room[..packed_length(head)])?;
    Ok(Some(Packed {
        table,
        log: &room[..count],
    }))
}

// Puts the listing of a log into the block, and gives its length.
fn put_listing(packed: Packed<'_>, block: &mut [u8]) -> usize
    ensures { result ≤ length block.old }
{
    match packed.table {
        Table::SingleLine => step::list::<working::Section>(packed.log, block),
        Table::DoubleLine => step::list::<double::Section>(packed.log, block),
    }
}

// Writes the listing of a log in one block, which has room for the longest of the logs stored; the listers write in many.
fn list(out: &impl Print, packed: Packed<'_>, block: &mut [u8]) -> io::Result<()> {
    let count = put_listing(packed, block);
    out.write_all(&block[..count])
}

fn main(rt: HostRuntime) -> io::Result<()> {
    let mut input = rt.stdin();
    let mut room = [0u8; ROOM];
    let mut block = [0u8; 262144];
    for _ in 0..4096 {
        let Some(packed) = read_packed(&mut input, &mut room)? else {
            break;
        };
        list(&rt, packed, &mut block)?;
    }
    Ok(())
}
