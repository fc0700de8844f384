// The archive for hosts in C and Rust: each public function of `lupinshift` under its own name, with its own clauses. A slice crosses as a pointer and a length;
// host/lupinshift.h declares them.
#![tactic(auto)]

ghost use Rattle.lupinshift.specs.Answers.{Ends, Figures, Lists, last_answer_of};
ghost use Rattle.lupinshift.specs.Fields.{ReadsEntry, WritesEntry};
ghost use Rattle.lupinshift.specs.State.{Begins, FillsOn};
ghost use Rattle.std.specs.Prelude.{◌≡◌};
ghost use Rattle.working.specs.Entries.{length_of};
ghost use Rattle.working.specs.Positions.{StepsPosition};
ghost use Rattle.working.specs.Sections.{fresh};
ghost use Rattle.working.specs.Shelves.{Fetches, Stores};
ghost use Rattle.working.specs.Turns.{single, taken_in, turns_of};

// The listing of a log at the front of the buffer lent, and its length. The bytes behind it keep their values.
// A buffer with less room than the listing of any log of that length takes (`listing_room`) keeps its values, and the answer is 0.
#[unsafe(no_mangle)]
pub extern "C" fn lupin_list(log: &[u8], out: &mut [u8]) -> usize
    ensures { Lists log.now out.old result out.new }
{
    lupinshift::lupin_list(log, out)
}

// The start of a log's listing in the words lent, and how many it takes, `STATE_WORDS`. The words behind them keep their values.
// Where fewer are lent they keep their values, and the answer is 0.
#[unsafe(no_mangle)]
pub extern "C" fn lupin_begin(log: &[u8], words: &mut [u64]) -> usize
    ensures { Begins log.now words.old result words.new }
{
    lupinshift::lupin_begin(log, words)
}

// The next lines of a log's listing at the front of the buffer lent, as many as find room, and how many bytes they are. The bytes behind them keep their values. The words
// say where the listing stands, and are left where it goes on. A buffer of fewer than 214 bytes, the longest line, takes no line; with 214 or more the answer is 0
// only where the listing has ended. Fewer words than `STATE_WORDS`, and the buffer, keep their values, and the answer is 0.
#[unsafe(no_mangle)]
pub extern "C" fn lupin_fill(words: &mut [u64], log: &[u8], out: &mut [u8]) -> usize
    ensures { FillsOn words.old log.now out.old result words.new out.new }
{
    lupinshift::lupin_fill(words, log, out)
}

// The last line alone of a log's listing, at the front of the buffer lent, and its length. The bytes behind it keep their values.
// A buffer with no room for the longest line, 214 bytes, keeps its values, and the answer is 0.
#[unsafe(no_mangle)]
pub extern "C" fn lupin_end(log: &[u8], out: &mut [u8]) -> usize
    ensures { Ends log.now out.old result out.new }
{
    lupinshift::lupin_end(log, out)
}

// The figures of a log's last line, in its order, at the front of the numbers lent, and how many they are, 10: entries, accepted, refused for A, for B and of no station,
// vehicles present, A holds, A owes, B holds, B owes. Where fewer numbers are lent they keep their values, and the answer is 0. So it is of a log that is too long to be
// listed: its last line, `long`, has no figures.
#[unsafe(no_mangle)]
pub extern "C" fn lupin_figures(log: &[u8], figures: &mut [u64]) -> usize
    ensures { Figures log.now figures.old result figures.new }
{
    lupinshift::lupin_figures(log, figures)
}

// The number of the refusal that answers the last entry of a log, and 0 where that is accepted or the log has no entry. A log of any length is run.
#[unsafe(no_mangle)]
pub extern "C" fn lupin_answer(log: &[u8]) -> u32
    ensures { result ≡ last_answer_of log.now }
{
    lupinshift::lupin_answer(log)
}

// How many entries of a log are taken by its reader: whole, of a known kind, with the right map and the fields in range. A log of any length is read.
#[unsafe(no_mangle)]
pub extern "C" fn lupin_taken(log: &[u8]) -> usize
    ensures { result ≡ taken_in (turns_of single fresh log.now) }
{
    lupinshift::lupin_taken(log)
}

// The first entry of the bytes into the fields: 0, or 23, fewer than ten numbers, or 1 to 4, which alter nothing. The numbers behind the tenth keep their values.
#[unsafe(no_mangle)]
pub extern "C" fn lupin_read_entry(entry: &[u8], fields: &mut [u16]) -> u32
    ensures { ReadsEntry entry.now fields.old result fields.new }
{
    lupinshift::lupin_read_entry(entry, fields)
}

// The entry that ten numbers say, at the front of the bytes: 0, or 23, fewer than ten numbers, or 2, 3, 4 or 23, as the writer gives them; these alter nothing. The bytes
// behind it keep their values.
#[unsafe(no_mangle)]
pub extern "C" fn lupin_write_entry(fields: &[u16], entry: &mut [u8]) -> u32
    ensures { WritesEntry fields.now entry.old result entry.new }
{
    lupinshift::lupin_write_entry(fields, entry)
}

// How many bytes an entry has that begins with this map.
#[unsafe(no_mangle)]
pub extern "C" fn lupin_entry_length(map: u8) -> usize
    ensures { result ≡ length_of map }
{
    lupinshift::lupin_entry_length(map)
}

// The step on the position lent, which is left as that of the section after it. The answer is 0 and the form number, forms and speed stand at the front of the numbers lent;
// or it is the number of the refusal, and the numbers keep their values. 26 and 23 alter nothing; 1 to 4 and 6 to 22 are counted in the position.
#[unsafe(no_mangle)]
pub extern "C" fn lupin_step(position: &mut [u8], entry: &[u8], answer: &mut [u32]) -> u32
    ensures { StepsPosition position.old entry.now answer.old result position.new answer.new }
{
    lupinshift::lupin_step(position, entry, answer)
}

// The position, kept on the shelf under the name: 0, or 5, 24, 25 or 26, which alters nothing.
#[unsafe(no_mangle)]
pub extern "C" fn lupin_store(shelf: &mut [u8], name: &[u8], position: &[u8]) -> u32
    ensures { Stores shelf.old name.now position.now result shelf.new }
{
    lupinshift::lupin_store(shelf, name, position)
}

// The position under the name, at the front of the buffer: 0, or 5, 24 or 23, which alters nothing. The bytes behind it keep their values.
#[unsafe(no_mangle)]
pub extern "C" fn lupin_fetch(shelf: &[u8], name: &[u8], buffer: &mut [u8]) -> u32
    ensures { Fetches shelf.now name.now buffer.old result buffer.new }
{
    lupinshift::lupin_fetch(shelf, name, buffer)
}
