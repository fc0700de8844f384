// What a section holds but for its vehicles, in lent words: how many they are, in force, entries refused, the ring's start, and a word for each figure of the two desks.
ghost use Rattle.std.specs.Prelude.{length, set, ◌<◌, ◌≡◌, ◌≤◌};
ghost use Rattle.words.specs.Stores.{DeskPut};
ghost use Rattle.words.specs.Words.{Becomes, DeskBecomes, RingKept, section_in, start_in, start_place, with_clock, with_departure, with_receipt, with_sent};
ghost use Rattle.words.specs.Words.{count_in, count_place, desk_from, desk_read, interval_in};
ghost use Rattle.working.specs.Sections.{count_refusal, desk_of, with_clears, with_entered, with_guest, with_out, with_waiting};
ghost use Rattle.working.specs.WellMade.{desk_length};
ghost use Rattle.working.specs.declared.Station.TheVariants.{B};

use working::{Clears, Counts, Desk, Station, interval_number};

pub(crate) const LEN: usize = 0;

pub(crate) const FORCE: usize = 1;

// Entries refused for A, for B, and of no station.
pub(crate) const REFUSED_A: usize = 2;

pub(crate) const REFUSED_B: usize = 3;

pub(crate) const REFUSED_NONE: usize = 4;

pub(crate) const START: usize = 5;

const FIRST_DESK: usize = 6;

// The figures of a desk, each at its place.
const CLOCK: usize = 0;

const LAST: usize = 1;

const SENT: usize = 2;

const INTERVAL: usize = 3;

const OUT: usize = 4;

const GUEST: usize = 5;

const ASKED: usize = 6;

const HOLDS: usize = 7;

const OWES: usize = 8;

const WAITING: usize = 9;

// The ring of vehicles lies behind the two desks.
pub const RING: usize = FIRST_DESK + 2 * Desk::FIGURES;

pub(crate) const SLOTS: usize = 32;

pub(crate) const SLOT_LENGTH: usize = 2;

pub const WORDS: usize = RING + SLOT_LENGTH * SLOTS;

// Numbers at fixed places, and no struct: a host lends them as plain numbers (`section_words` of lupinshift), and specs/Words.antt gives each its place.
pub type Words = [u64; WORDS];

// One more than the largest number of 8 and of 16 bits, and than the largest count.
const BYTE: u64 = 256;

const TWO_BYTES: u64 = BYTE * BYTE;

const COUNTS: u64 = Counts::LARGEST as u64 + 1;

// Where a station's words begin.
fn desk_from(at: Station) -> usize
    ensures { (result ≡ desk_from at) × (result ≤ desk_from B) }
{
    match at {
        Station::A => FIRST_DESK,
        Station::B => FIRST_DESK + Desk::FIGURES,
    }
}

// 0 where no interval is running, else one more than the minute of the last departure: the form that specs/Words.antt gives.
fn interval_in(word: u64) -> Option<u16>
    ensures { result ≡ interval_in word }
{
    word.checked_sub(1)
        .map(|minute| (minute % TWO_BYTES) as u16)
}

// The figures of a desk in words, the first of them.
fn desk_in(words: &[u64]) -> Desk
    requires { desk_length ≤ length words.now }
    ensures { result ≡ desk_read words.now }
{
    Desk {
        clock: (words[CLOCK] % TWO_BYTES) as u16,
        last: (words[LAST] % TWO_BYTES) as u16,
        sent: (words[SENT] % BYTE) as u8,
        interval: interval_in(words[INTERVAL]),
        out: words[OUT] == 1,
        guest: (words[GUEST] % BYTE) as u8,
        clears: Clears {
            asked: (words[ASKED] % BYTE) as u8,
            holds: (words[HOLDS] % BYTE) as u8,
            owes: (words[OWES] % BYTE) as u8,
        },
        waiting: (words[WAITING] % BYTE) as u8,
    }
}

// The desk of a station.
pub fn desk(words: &Words, at: Station) -> Desk
    ensures { result ≡ desk_of (section_in words.now) at }
{
    desk_in(&words[desk_from(at)..])
}

// A word of a desk is replaced. The words and the station stay two arguments: callers hold the words alone, so that each function below would build a struct of both for one line.
fn put(words: &mut Words, at: Station, figure: usize, word: u64)
    requires { figure < desk_length }
    ensures { DeskPut words.old words.new at (λ t. set t figure word) }
{
    words[desk_from(at) + figure] = word;
}

// The minute of the last entry, the last form number, the departures counted and the interval.
fn put_entered(
    words: &mut Words,
    at: Station,
    clock: u16,
    last: u16,
    sent: u8,
    interval: Option<u16>,
)
    ensures { DeskBecomes words.old words.new at (with_entered clock last sent interval) × RingKept words.old words.new }
{
    put(words, at, CLOCK, clock as u64);
    put(words, at, LAST, last as u64);
    put(words, at, SENT, sent as u64);
    put(words, at, INTERVAL, interval_number(interval));
}

// What every departure alters: the minute, the form number, the departures counted; and the interval runs from that minute.
pub fn put_departure(words: &mut Words, at: Station, time: u16, form: u16, sent: u8)
    ensures { DeskBecomes words.old words.new at (with_departure time form sent) × RingKept words.old words.new }
{
    put_entered(words, at, time, form, sent, Some(time));
}

// What every receipt alters: the minute, the departures counted; and no interval is running.
pub fn put_receipt(words: &mut Words, at: Station, time: u16, sent: u8)
    ensures { DeskBecomes words.old words.new at (with_receipt time sent) }
{
    put(words, at, CLOCK, time as u64);
    put(words, at, SENT, sent as u64);
    put(words, at, INTERVAL, 0);
}

// The minute of the last entry alone.
pub fn put_clock(words: &mut Words, at: Station, minute: u16)
    ensures { DeskBecomes words.old words.new at (with_clock minute) × RingKept words.old words.new }
{
    put(words, at, CLOCK, minute as u64);
}

// The departures counted alone; of a double line, how many trains are on the station's line.
pub fn put_sent(words: &mut Words, at: Station, count: u8)
    ensures { DeskBecomes words.old words.new at (with_sent count) × RingKept words.old words.new }
{
    put(words, at, SENT, count as u64);
}

// Whether the station's own opener is away.
pub fn put_out(words: &mut Words, at: Station, out: bool)
    ensures { DeskBecomes words.old words.new at (with_out out) }
{
    put(words, at, OUT, u64::from(out));
}

// The class of the other station's opener standing here; 0 is none.
pub fn put_guest(words: &mut Words, at: Station, guest: u8)
    ensures { DeskBecomes words.old words.new at (with_guest guest) }
{
    put(words, at, GUEST, guest as u64);
}

// Trains enquired for and unanswered, line clears held and owed.
pub fn put_clears(words: &mut Words, at: Station, c: Clears)
    ensures { DeskBecomes words.old words.new at (with_clears c) }
{
    put(words, at, ASKED, c.asked as u64);
    put(words, at, HOLDS, c.holds as u64);
    put(words, at, OWES, c.owes as u64);
}

// Line clears that wait.
pub fn put_waiting(words: &mut Words, at: Station, waiting: u8)
    ensures { DeskBecomes words.old words.new at (with_waiting waiting) }
{
    put(words, at, WAITING, waiting as u64);
}

// The whole desk, a word at a time: where the words are copied as a slice, the compiler keeps all of a section's words apart and copies those too (measured).
pub fn put_desk(words: &mut Words, at: Station, d: Desk)
    ensures { DeskBecomes words.old words.new at (λ _. d) × RingKept words.old words.new }
{
    let figures = d.figures();
    for i in 0..Desk::FIGURES {
        put(words, at, i, figures[i]);
    }
}

// The place of the count that a refusal belongs to.
fn count_place(whose: Option<Station>) -> usize
    ensures { (result ≡ count_place whose) × (result < start_place) }
{
    match whose {
        Some(Station::A) => REFUSED_A,
        Some(Station::B) => REFUSED_B,
        None => REFUSED_NONE,
    }
}

// What is counted there.
fn count(words: &Words, whose: Option<Station>) -> u32
    ensures { result ≡ count_in words.now whose }
{
    (words[count_place(whose)] % COUNTS) as u32
}

// Entries refused for A, for B, and of no station.
#[tactic(auto, unfolding(crate::specs::Words::section_in))]
pub fn refused(words: &Words) -> Counts
    ensures { result ≡ (section_in words.now).refused }
{
    Counts {
        a: count(words, Some(Station::A)),
        b: count(words, Some(Station::B)),
        none: count(words, None),
    }
}

// One more entry is refused: one more in the count that it belongs to, which stops at its own largest value.
pub fn count_refusal(words: &mut Words, whose: Option<Station>)
    ensures { Becomes words.old words.new (count_refusal whose (section_in words.old)) (start_in words.old)
        × RingKept words.old words.new }
{
    let more = count(words, whose).saturating_add(1);
    words[count_place(whose)] = more as u64;
}

// Whether the working is in force.
#[tactic(auto, unfolding(crate::specs::Words::section_in))]
pub fn in_force(words: &Words) -> bool
    ensures { result ≡ (section_in words.now).force }
{
    words[FORCE] == 1
}

// How many vehicles the section says it has.
#[tactic(auto, unfolding(crate::specs::Words::section_in))]
pub fn present(words: &Words) -> usize
    ensures { result ≡ (section_in words.now).len }
{
    words[LEN] as usize
}
