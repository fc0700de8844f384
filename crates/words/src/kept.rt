// A section put into words, and read off them.
ghost use Rattle.std.specs.Prelude.{◌≡◌};
ghost use Rattle.words.specs.Words.{OwnWords, section_in};
ghost use Rattle.working.specs.Sections.{fresh, vehicles_of, with_vehicles};

use crate::desks::{LEN, Words, desk, in_force, present, put_desk, refused};
use crate::ring::{at_place, emptied_words, present_in, put_vehicle};
use crate::slot::Slot;
use working::{Counts, Section, Station, Vehicle};

// The words of a fresh section.
pub fn fresh_words() -> Words
    ensures { OwnWords result fresh }
{
    emptied_words(false, Counts::zero())
}

// The words of a section, of which nothing but the vehicles present is kept. Each enters at B's end, so that the ring's start stays at its first slot.
pub fn words_of(s: Section) -> Words
    ensures { OwnWords result (with_vehicles s (vehicles_of s)) }
{
    let mut words = emptied_words(s.force, s.refused);
    for i in 0..s.len.min(Section::PLACES) {
        let slot = Slot::start_in(&words).on(i);
        words[LEN] = (i + 1) as u64;
        put_vehicle(&mut words, slot, s.vehicles[i]);
    }
    put_desk(&mut words, Station::A, s.a);
    put_desk(&mut words, Station::B, s.b);
    words
}

// The places that the words stand for: the vehicles present, and unused ones behind them. `array::from_fn` proves too, and took 290 instructions more a section (measured).
fn places_in(words: &Words) -> [Vehicle; Section::PLACES]
    ensures { result ≡ (section_in words.now).vehicles }
{
    let mut places = [Vehicle::unused(); Section::PLACES];
    for i in 0..present_in(words) {
        places[i] = at_place(words, i);
    }
    places
}

// The section that the words stand for.
pub fn section_in(words: &Words) -> Section
    ensures { result ≡ section_in words.now }
{
    Section {
        vehicles: places_in(words),
        len: present(words),
        force: in_force(words),
        refused: refused(words),
        a: desk(words, Station::A),
        b: desk(words, Station::B),
    }
}
