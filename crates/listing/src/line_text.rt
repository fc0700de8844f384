// The lines of a listing.
ghost use Rattle.listing.specs.LineText.{PutsLine, answer_text, both_text, end_figures, end_line, last_line, letter_at, line_text, longest_line, room_for_line, speed_text};
ghost use Rattle.listing.specs.Text.{Adds, AddsAtMost, HasRoom, longest_field};
ghost use Rattle.std.specs.Prelude.{length, ◌*◌, ◌+◌, ◌≡◌};

use crate::text::{LONGEST_FIELD, Line};
use working::{Accepted, Answer, Clears, Counts, Speed};

// The longest log that is listed, in bytes.
pub const LONGEST_LOG: usize = 65536;

// A station's letter, and - where there is none: what is printed is the entry's own byte, and 0 where it has none.
pub(crate) fn letter_at(station: u8) -> u8
    ensures { result ≡ letter_at station }
{
    match station {
        1 => b'A',
        2 => b'B',
        _ => b'-',
    }
}

impl Line<'_> {
    // Two figures of a speed, as 25/10.
    fn both(&mut self, straight: u8, elsewhere: u8)
        requires { HasRoom self.old (2 * longest_field) }
        ensures { AddsAtMost (2 * longest_field) self.old (both_text straight elsewhere) self.new }
    {
        self.field(u64::from(straight));
        self.push(b'/');
        self.number(u64::from(elsewhere));
    }

    // A speed: B booked, W walking pace, - none, else its number, or both. No `Display`, as of all that is put here: no clause of `write!` says that it succeeds.
    pub(crate) fn speed(&mut self, speed: Speed)
        requires { HasRoom self.old (2 * longest_field) }
        ensures { AddsAtMost (2 * longest_field) self.old (speed_text speed) self.new }
    {
        match speed {
            Speed::NoSpeed => self.text(b" -"),
            Speed::Walking => self.text(b" W"),
            Speed::Kmh(kmh) => self.field(u64::from(kmh)),
            Speed::Booked => self.text(b" B"),
            Speed::Both {
                straight,
                elsewhere,
            } => self.both(straight, elsewhere),
        }
    }

    // An answer: `no` and the refusal's number, or `ok`, form number, forms and speed.
    pub(crate) fn answer(&mut self, answer: Answer)
        requires { HasRoom self.old (3 + 4 * longest_field) }
        ensures { AddsAtMost (3 + 4 * longest_field) self.old (answer_text answer) self.new }
    {
        match answer {
            Err(why) => {
                self.text(b" no");
                self.field(u64::from(why.number()));
            }
            Ok(Accepted { form, forms, speed }) => {
                self.text(b" ok");
                self.field(u64::from(form));
                self.field(u64::from(forms));
                self.speed(speed);
            }
        }
    }

    // An entry's line where there is room for the longest: its number in the log, kind, station and answer.
    pub(crate) fn entry(&mut self, number: usize, kind: u8, station: u8, answer: Answer)
        requires { HasRoom self.old longest_line }
        ensures { Adds self.old (line_text number kind station answer) self.new }
    {
        self.number(number as u64);
        self.field(u64::from(kind));
        self.push(b' ');
        self.push(letter_at(station));
        self.answer(answer);
        self.push(b'\n');
    }

    // The last line: `end`, and its figures.
    #[tactic(auto, using(crate::proofs::Putting::none_added))]
    pub(crate) fn end(&mut self, figures: &[u64])
        requires { HasRoom self.old (3 + length figures.now * longest_field + 1) }
        ensures { Adds self.old (end_line figures.now) self.new }
    {
        self.text(b"end");
        for figure in figures {
            self.field(*figure);
        }
        self.push(b'\n');
    }
}

// How many figures the last line has.
pub const END_FIGURES: usize = 10;

pub type EndFigures = [u64; END_FIGURES];

// What the last line says of the section: entries refused for A, for B and of no station, vehicles present, and what each station holds and owes.
#[derive(Clone, Copy, Drop)]
pub struct SectionFigures {
    pub refused: Counts,
    pub present: usize,
    pub a: Clears,
    pub b: Clears,
}

// Arguments here and below, and no struct of a listing's figures: those are of `step`, above this crate.
// The figures of the last line, in its order: entries, accepted, refused for A, for B and of no station, vehicles present, A holds, A owes, B holds, B owes.
pub fn end_figures(entries: usize, accepted: usize, s: SectionFigures) -> EndFigures
    ensures { result ≡ end_figures entries accepted s }
{
    let SectionFigures {
        refused,
        present,
        a,
        b,
    } = s;
    [
        entries as u64,
        accepted as u64,
        u64::from(refused.a),
        u64::from(refused.b),
        u64::from(refused.none),
        present as u64,
        u64::from(a.holds),
        u64::from(a.owes),
        u64::from(b.holds),
        u64::from(b.owes),
    ]
}

// No line is longer than the last: `end`, its figures, each the longest number behind a blank, and a line feed.
pub const LONGEST_LINE: usize = 3 + END_FIGURES * LONGEST_FIELD + 1;

// Whether a block of so many bytes has room for the longest line at a place.
pub(crate) fn room_for_line(len: usize, at: usize) -> bool
    ensures { result ≡ room_for_line len at }
{
    LONGEST_LINE <= len.saturating_sub(at)
}

// An entry's line: its number in the log, kind, station and answer. It is put where the block has room for the longest line, and the place behind it is given; elsewhere
// nothing is altered, and the place is the same.
pub fn put_line(
    block: &mut [u8],
    at: usize,
    number: usize,
    kind: u8,
    station: u8,
    answer: Answer,
) -> usize
    ensures { PutsLine block.old at (line_text number kind station answer) result block.new }
{
    if room_for_line(block.len(), at) {
        let mut line = Line::new(block, at);
        line.entry(number, kind, station, answer);
        return line.behind();
    }
    at
}

// The last line of a log of `len` bytes: the figures, or that the log is too long. It is put where the block has room for the longest line, as an entry's line is.
pub fn put_last(
    block: &mut [u8],
    at: usize,
    len: usize,
    entries: usize,
    accepted: usize,
    s: SectionFigures,
) -> usize
    ensures { PutsLine block.old at (last_line len (end_figures entries accepted s)) result block.new }
{
    if !room_for_line(block.len(), at) {
        return at;
    }
    let mut line = Line::new(block, at);
    if LONGEST_LOG < len {
        line.text(b"long\n");
    } else {
        line.end(&end_figures(entries, accepted, s));
    }
    line.behind()
}
