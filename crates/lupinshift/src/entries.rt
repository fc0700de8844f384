// An entry of a single line as ten numbers: written into lent bytes, and read from them.
ghost use Rattle.lupinshift.specs.Fields.{ReadsEntry, WritesEntry, entry_from, fields_of};
ghost use Rattle.std.specs.Prelude.{min, ◌≡◌};
ghost use Rattle.working.specs.Entries.{length_of};
ghost use Rattle.working.specs.Refusals.{refusal_in};

use entry::reading::first_entry;
use entry::table::entry_len;
use entry::writing::write_entry;
use working::{Entry, Read, Refusal, Table, refusal_number};

// How many numbers an entry's map and fields are.
const FIELDS: usize = 10;

// A field of one byte; a number that is none is taken for 255, which no such field allows.
fn byte_of(field: u16) -> u8
    ensures { result ≡ min field 255 }
{
    field.min(255) as u8
}

// The entry that ten numbers say.
#[tactic(auto, unfolding(crate::specs::Fields::entry_from))]
fn entry_from(fields: &[u16; FIELDS]) -> Entry
    ensures { result ≡ entry_from fields.now }
{
    let [
        map,
        kind,
        station,
        time,
        view,
        class,
        asked,
        granted,
        sender,
        number,
    ] = *fields;
    Entry {
        map: byte_of(map),
        kind: byte_of(kind),
        station: byte_of(station),
        time,
        view: byte_of(view),
        class: byte_of(class),
        asked: byte_of(asked),
        granted: byte_of(granted),
        sender: byte_of(sender),
        number,
    }
}

// An entry's map and fields.
fn fields_of(e: Entry) -> [u16; FIELDS]
    ensures { result ≡ fields_of e }
{
    [
        u16::from(e.map),
        u16::from(e.kind),
        u16::from(e.station),
        e.time,
        u16::from(e.view),
        u16::from(e.class),
        u16::from(e.asked),
        u16::from(e.granted),
        u16::from(e.sender),
        e.number,
    ]
}

// The first entry of the bytes into the fields. No bytes are 1.
fn read_entry(entry: &[u8], fields: &mut [u16]) -> Result<(), Refusal>
    ensures { ReadsEntry entry.now fields.old (refusal_in result) fields.new }
{
    let Some(front) = fields.first_chunk_mut::<FIELDS>() else {
        return Err(Refusal::BufferTooShort);
    };
    match first_entry(Table::SingleLine, entry) {
        Read::End => Err(Refusal::EndsInside),
        Read::Whole(e, _) => {
            *front = fields_of(e);
            Ok(())
        }
        Read::Refused(why, _) => Err(why),
    }
}

// The first entry of the bytes into the fields: 0, or 23, fewer than ten numbers, or 1 to 4, which alter nothing. The numbers behind the tenth keep their values.
pub fn lupin_read_entry(entry: &[u8], fields: &mut [u16]) -> u32
    ensures { ReadsEntry entry.now fields.old result fields.new }
{
    u32::from(refusal_number(read_entry(entry, fields)))
}

// The entry that ten numbers say, at the front of the bytes.
fn write_fields(fields: &[u16], entry: &mut [u8]) -> Result<usize, Refusal>
    ensures { WritesEntry fields.now entry.old (refusal_in result) entry.new }
{
    let Some(fields) = fields.first_chunk::<FIELDS>() else {
        return Err(Refusal::BufferTooShort);
    };
    write_entry(Table::SingleLine, entry, entry_from(fields))
}

// The entry that ten numbers say, at the front of the bytes: 0, or 23, fewer than ten numbers, or 2, 3, 4 or 23, as the writer gives them; these alter nothing. The bytes
// behind it keep their values.
pub fn lupin_write_entry(fields: &[u16], entry: &mut [u8]) -> u32
    ensures { WritesEntry fields.now entry.old result entry.new }
{
    u32::from(refusal_number(write_fields(fields, entry)))
}

// How many bytes an entry has that begins with this map.
pub fn lupin_entry_length(map: u8) -> usize
    ensures { result ≡ length_of map }
{
    entry_len(map)
}
