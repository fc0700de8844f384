// A section as 281 bytes, and the section that they say.
ghost use Rattle.position.specs.Reading.{Reads, vehicles_from};
ghost use Rattle.std.specs.Prelude.{length, min, replicate, ◌*◌, ◌++◌, ◌+◌, ◌/◌, ◌≡◌, ◌≤◌};
ghost use Rattle.words.specs.Words.{section_in};
ghost use Rattle.working.specs.Positions.{counts_in, desk_in, is_position, places_bytes, position_of, section_at, vehicle_in, vehicles_in};
ghost use Rattle.working.specs.Sections.{pad_to, vehicles_of};

use crate::desks::{COUNTS, DESK, counts_bytes, counts_in, desk_bytes, desk_in};
use crate::numbers::put_bytes;
use crate::vehicles::{PLACE, vehicle_bytes, vehicle_in};
use section::well_made;
use words::{WORDS, Words, desk, in_force, present_in, refused, vehicle, words_of};
use working::{Section, Station, Vehicle};

// Where the figures behind the places begin: in force, entries refused, and the two desks.
pub const FORCE: usize = PLACE * Section::PLACES;

pub const REFUSED: usize = FORCE + 1;

pub const DESK_A: usize = REFUSED + COUNTS;

pub const DESK_B: usize = DESK_A + DESK;

pub const POSITION: usize = DESK_B + DESK;

pub type Position = [u8; POSITION];

// How many vehicles are present: the places before the first that begins with a zero.
fn present_at(p: &Position) -> usize
    ensures { (result ≡ length (vehicles_in 24 p.now)) × (result ≤ 24) }
{
    (0..Section::PLACES)
        .find(|i| p[PLACE * *i] == 0)
        .unwrap_or(Section::PLACES)
}

// The vehicles that the first places say, so many of them as there are places and bytes for, and unused places behind them.
pub fn vehicles_at(bytes: &[u8], count: usize) -> [Vehicle; Section::PLACES]
    ensures { result ≡ pad_to 24 (vehicles_from (min (min count 24) (length bytes.now / 10)) bytes.now) }
{
    let count = count.min(Section::PLACES).min(bytes.len() / PLACE);
    let mut places = [Vehicle::unused(); Section::PLACES];
    for i in 0..count {
        places[i] = vehicle_in(bytes[PLACE * i..].first_chunk().unwrap());
    }
    places
}

// The section that 281 bytes say, a position or not.
fn section_at(p: &Position) -> Section
    ensures { result ≡ section_at p.now }
{
    let present = present_at(p);
    Section {
        vehicles: vehicles_at(p, present),
        len: present,
        force: p[FORCE] == 1,
        refused: counts_in(p[REFUSED..].first_chunk().unwrap()),
        a: desk_in(p[DESK_A..].first_chunk().unwrap()),
        b: desk_in(p[DESK_B..].first_chunk().unwrap()),
    }
}

// The places of the vehicles present, and zeros for all else.
fn places_in(words: &Words) -> Position
    ensures { result ≡ places_bytes 24 (vehicles_of (section_in words.now)) ++ replicate 41 0 }
{
    let present = present_in(words);
    let mut p = [0u8; POSITION];
    for i in 0..present {
        put_bytes(&mut p, PLACE * i, &vehicle_bytes(vehicle(words, i)));
    }
    p
}

// The position of the section that the words stand for.
pub fn position_in(words: &Words) -> Position
    ensures { result ≡ position_of (section_in words.now) }
{
    let mut p = places_in(words);
    p[FORCE] = u8::from(in_force(words));
    put_bytes(&mut p, REFUSED, &counts_bytes(refused(words)));
    put_bytes(&mut p, DESK_A, &desk_bytes(desk(words, Station::A)));
    put_bytes(&mut p, DESK_B, &desk_bytes(desk(words, Station::B)));
    p
}

// Whether bytes are a position: whether the section that they say is written as the same bytes, and is well made. The words lent are left standing for that section, and
// as they were where the bytes are not as many as a position has.
pub fn read(bytes: &[u8], words: &mut Words) -> bool
    ensures { Reads bytes.now result words.old words.new }
{
    let Ok(p) = <&Position>::try_from(bytes) else {
        return false;
    };
    let section = section_at(p);
    *words = words_of(section);
    let written = position_in(words);
    (*p == written) & well_made(section)
}

// The same, with no words lent.
pub fn is_position(bytes: &[u8]) -> bool
    ensures { result ≡ is_position bytes.now }
{
    let mut words = [0; WORDS];
    read(bytes, &mut words)
}
