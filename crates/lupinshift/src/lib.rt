// What a host in C or Rust calls, by way of `lupinshift_c`. On a single line's log: its listing, whole or in blocks, its last line alone, as text and as figures, the answer to
// its last entry, and how many of its entries are taken; where such a call is refused the answer is 0. On a single line's section as a position: a step, a shelf of named
// positions, and entries as fields; there the answer is 0 or the number of the refusal. Slices of bytes and numbers only. No refused call alters a lent place.
// Answers and refusals are numbers, and no type of ours: the C interface, where `lupinshift_c` hands each function on.
#![tactic(auto)]

ghost use Rattle.lupinshift.specs.Answers.{Ends, Figures, Lists, last_answer_of, last_of};
ghost use Rattle.lupinshift.specs.State.{Begins, FillsOn};
ghost use Rattle.std.specs.Prelude.{◌≡◌};
ghost use Rattle.step.specs.Listings.{listing_room};
ghost use Rattle.working.specs.Sections.{fresh};
ghost use Rattle.working.specs.Turns.{single, taken_in, turns_of};

mod entries;
mod positions;
mod state;

use crate::state::{STATE_WORDS, keep, listed_at, section_words};
pub use entries::{lupin_entry_length, lupin_read_entry, lupin_write_entry};
use listing::{END_FIGURES, LONGEST_LINE, LONGEST_LOG, end_figures};
pub use positions::{lupin_fetch, lupin_step, lupin_store};
use words::fresh_words;
use working::{Answer, Section, refusal_number};

// The room that the listing of any log of so many bytes takes, and the longest line more: at most 25 bytes for each byte, and the last line.
fn listing_room(len: usize) -> usize
    ensures { result ≡ listing_room len }
{
    if LONGEST_LOG < len {
        return 2 * LONGEST_LINE;
    }
    25 * len + 2 * LONGEST_LINE
}

// The listing of a log at the front of the buffer lent, and its length. The bytes behind it keep their values.
// A buffer with less room than the listing of any log of that length takes (`listing_room`) keeps its values, and the answer is 0.
pub fn lupin_list(log: &[u8], out: &mut [u8]) -> usize
    ensures { Lists log.now out.old result out.new }
{
    if out.len() < listing_room(log.len()) {
        return 0;
    }
    step::list::<Section>(log, out)
}

// The start of a log's listing in the words lent, and how many it takes, `STATE_WORDS`. The words behind them keep their values.
// Where fewer are lent they keep their values, and the answer is 0.
pub fn lupin_begin(log: &[u8], words: &mut [u64]) -> usize
    ensures { Begins log.now words.old result words.new }
{
    let Some(state) = words.first_chunk_mut::<STATE_WORDS>() else {
        return 0;
    };
    keep(state, &fresh_words(), step::start_of(log.len()));
    STATE_WORDS
}

// The next lines of a log's listing at the front of the buffer lent, as many as find room, and how many bytes they are. The bytes behind them keep their values. The words
// say where the listing stands, and are left where it goes on. A buffer of fewer than 214 bytes, the longest line, takes no line; with 214 or more the answer is 0
// only where the listing has ended. Fewer words than `STATE_WORDS`, and the buffer, keep their values, and the answer is 0.
pub fn lupin_fill(words: &mut [u64], log: &[u8], out: &mut [u8]) -> usize
    ensures { FillsOn words.old log.now out.old result words.new out.new }
{
    let Some(state) = words.first_chunk_mut::<STATE_WORDS>() else {
        return 0;
    };
    let mut section = section_words(state);
    let put = step::fill::<Section>(&mut section, listed_at(state), log, out);
    keep(state, &section, put.listed);
    put.behind
}

// The last line alone of a log's listing, at the front of the buffer lent, and its length. The bytes behind it keep their values.
// A buffer with no room for the longest line, 214 bytes, keeps its values, and the answer is 0.
pub fn lupin_end(log: &[u8], out: &mut [u8]) -> usize
    ensures { Ends log.now out.old result out.new }
{
    let end = step::ended(log);
    let section = end.section;
    listing::put_last(out, 0, log.len(), end.entries, end.accepted, section)
}

// The figures of a log's last line, in its order, at the front of the numbers lent, and how many they are, 10: entries, accepted, refused for A, for B and of no station,
// vehicles present, A holds, A owes, B holds, B owes. Where fewer numbers are lent they keep their values, and the answer is 0. So it is of a log that is too long to be
// listed: its last line, `long`, has no figures.
pub fn lupin_figures(log: &[u8], figures: &mut [u64]) -> usize
    ensures { Figures log.now figures.old result figures.new }
{
    if LONGEST_LOG < log.len() {
        return 0;
    }
    if figures.len() < END_FIGURES {
        return 0;
    }
    let end = step::ended(log);
    let section = end.section;
    let last_line = end_figures(end.entries, end.accepted, section);
    figures[..END_FIGURES].copy_from_slice(&last_line);
    END_FIGURES
}

// The number of a run's last answer: of its refusal, or 0, as where the run had no entry.
fn last_of(last: Option<Answer>) -> u32
    ensures { result ≡ last_of last }
{
    match last {
        None => 0,
        Some(answer) => u32::from(refusal_number(answer)),
    }
}

// The number of the refusal that answers the last entry of a log, and 0 where that is accepted or the log has no entry. A log of any length is run.
pub fn lupin_answer(log: &[u8]) -> u32
    ensures { result ≡ last_answer_of log.now }
{
    let end = step::ended(log);
    let last = end.last;
    last_of(last)
}

// How many entries of a log are taken by its reader: whole, of a known kind, with the right map and the fields in range. A log of any length is read.
pub fn lupin_taken(log: &[u8]) -> usize
    ensures { result ≡ taken_in (turns_of single fresh log.now) }
{
    step::taken(log)
}
