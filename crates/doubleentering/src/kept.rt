// A double line section put into words, and read off them.
ghost use Rattle.double.specs.Sections.{side_of};
ghost use Rattle.doubleentering.specs.DoubleWords.{PlacesBecome, SideBecomes, double_in, trimmed, trimmed_side};
ghost use Rattle.std.specs.Prelude.{◌≡◌};

use crate::places::{TWO_BYTES, line_from};
use double::{Section, Side};
use words::{Words, desk, emptied_words, in_force, put_desk, refused};
use working::{Desk, Station};

// The numbers on a station's line, and zeros behind them.
fn numbers_in(words: &Words, at: Station) -> [u16; Side::PLACES]
    ensures { result ≡ (side_of (double_in words.now) at).numbers }
{
    let from = line_from(at);
    let present = usize::from(desk(words, at).sent).min(Side::PLACES);
    let mut numbers = [0u16; Side::PLACES];
    for i in 0..present {
        numbers[i] = (words[from + i] % TWO_BYTES) as u16;
    }
    numbers
}

#[tactic(auto, using(crate::proofs::Sides::side_is))]
fn side_in(words: &Words, at: Station) -> Side
    ensures { result ≡ side_of (double_in words.now) at }
{
    let d = desk(words, at);
    let interval = d.interval;
    Side {
        clock: d.clock,
        last: d.last,
        interval,
        numbers: numbers_in(words, at),
        len: d.sent,
    }
}

// The section that the words stand for.
#[tactic(auto, unfolding(crate::specs::DoubleWords::double_in, words::specs::Words::section_in))]
pub fn section_in(words: &Words) -> Section
    ensures { result ≡ double_in words.now }
{
    Section {
        force: in_force(words),
        refused: refused(words),
        a: side_in(words, Station::A),
        b: side_in(words, Station::B),
    }
}

// The twelve places of a line.
fn put_places(words: &mut Words, at: Station, numbers: [u16; Side::PLACES])
    ensures { PlacesBecome words.old words.new at (λ _. numbers) }
{
    let from = line_from(at);
    for i in 0..Side::PLACES {
        words[from + i] = numbers[i] as u64;
    }
}

// A station's figures, where its desk has them, and its places.
fn put_side(words: &mut Words, at: Station, d: Side)
    ensures { SideBecomes words.old words.new at (λ _. trimmed_side d) }
{
    let interval = d.interval;
    let numbers = d.numbers;
    let figures = Desk {
        clock: d.clock,
        last: d.last,
        sent: d.len,
        interval,
        ..Desk::fresh()
    };
    put_desk(words, at, figures);
    put_places(words, at, numbers);
}

// The words of a section, of whose lines nothing but the trains on them is kept.
pub fn words_of(s: Section) -> Words
    ensures { double_in result ≡ trimmed s }
{
    let counts = s.refused;
    let a = s.a;
    let b = s.b;
    let mut words = emptied_words(s.force, counts);
    put_side(&mut words, Station::A, a);
    put_side(&mut words, Station::B, b);
    words
}
