// The vehicles present, in a ring of slots: one enters or leaves at a station's end, and two meet. No other vehicle is moved. What lies in another slot
// stands for nothing; a slot is made unused when its vehicle leaves, so that a section has words of its own.
ghost use Rattle.std.specs.Prelude.{MatchOption, get_or, length, ◌<◌, ◌≡◌, ◌≤◌};
ghost use Rattle.words.specs.Stores.{StartMoved, VehiclePut};
ghost use Rattle.words.specs.Words.{Met, OwnWords, VehiclesBecome, one_back, ring_in, section_in, start_on, vehicle_at};
ghost use Rattle.working.specs.Reasons.{find_of, may_meet};
ghost use Rattle.working.specs.Sections.{emptied, insert_at, nearest_at, remove_at, unused, vehicles_of};
ghost use Rattle.working.specs.Steps.{redirect_at, redirected};

use crate::desks::{
    FORCE, LEN, REFUSED_A, REFUSED_B, REFUSED_NONE, RING, SLOT_LENGTH, SLOTS, START, WORDS, Words,
    present, refused,
};
use crate::slot::Slot;
use crate::vehicles::{first_word, second_word, vehicle_in};
use section::{is_named, is_open_or_through, station_number};
use working::{Counts, Section, Station, Vehicle};

// So many slots on is one slot back.
const ONE_BACK: usize = SLOTS - 1;

// The words of a section with no vehicle and both desks as fresh.
pub fn emptied_words(force: bool, counts: Counts) -> Words
    ensures { OwnWords result (emptied force counts) }
{
    let mut words = [0; WORDS];
    words[FORCE] = u64::from(force);
    words[REFUSED_A] = counts.a as u64;
    words[REFUSED_B] = counts.b as u64;
    words[REFUSED_NONE] = counts.none as u64;
    words
}

// How many vehicles are present.
#[tactic(auto, using(crate::proofs::VehiclesIn::present_length), unfolding(crate::specs::Words::section_in))]
pub fn present_in(words: &Words) -> usize
    ensures { (result ≡ length (vehicles_of (section_in words.now))) × (result ≤ 24) }
{
    present(words).min(Section::PLACES)
}

// The vehicle in a slot.
fn vehicle_at(words: &Words, slot: Slot) -> Vehicle
    ensures { result ≡ vehicle_at (ring_in words.now) slot.number }
{
    let first = SLOT_LENGTH * slot.number;
    vehicle_in(words[RING + first], words[RING + (first + 1)])
}

// The vehicle at place `i`.
pub(crate) fn at_place(words: &Words, i: usize) -> Vehicle
    requires { i < length (vehicles_of (section_in words.now)) }
    ensures { result ≡ get_or (vehicles_of (section_in words.now)) i unused }
{
    vehicle_at(words, Slot::start_in(words).on(i))
}

// The vehicle at a place, counted from A, or the unused place where there is none. No Option: its public promise is `get_or .. unused`.
pub fn vehicle(words: &Words, i: usize) -> Vehicle
    ensures { result ≡ get_or (vehicles_of (section_in words.now)) i unused }
{
    if i < present_in(words) {
        return at_place(words, i);
    }
    Vehicle::unused()
}

// A vehicle is put into a slot.
pub(crate) fn put_vehicle(words: &mut Words, slot: Slot, v: Vehicle)
    ensures { VehiclePut words.old words.new slot.number v }
{
    let first = SLOT_LENGTH * slot.number;
    words[RING + first] = first_word(v);
    words[RING + (first + 1)] = second_word(v.movement);
}

// The ring's start moves so many slots on at A's end, and stays at B's; the start after it.
fn move_start(words: &mut Words, at: Station, on: usize) -> Slot
    ensures { StartMoved words.old words.new at on result.number }
{
    let start = Slot::start_in(words);
    match at {
        Station::A => {
            let next = start.on(on);
            words[START] = next.number as u64;
            next
        }
        Station::B => start,
    }
}

// One more vehicle, at a station's end.
pub fn insert(words: &mut Words, at: Station, v: Vehicle)
    ensures { VehiclesBecome words.old words.new (insert_at at v) (λ start. start_on at start one_back) }
{
    let present = present_in(words);
    words[LEN] = (present + 1) as u64;
    let start = move_start(words, at, ONE_BACK);
    put_vehicle(words, start.at_end(at, present), v);
}

// The vehicle at a station's end is gone, and its slot unused.
pub fn remove(words: &mut Words, at: Station)
    ensures { VehiclesBecome words.old words.new (remove_at at) (λ start. start_on at start 1) }
{
    let others = present_in(words).saturating_sub(1);
    words[LEN] = others as u64;
    let start = Slot::start_in(words);
    move_start(words, at, 1);
    put_vehicle(words, start.at_end(at, others), Vehicle::unused());
}

// The vehicle nearest a station, or the unused place where there is none: no Option, since `nearest_at`, which the theorems of `working` cite, gives that place.
pub fn nearest(words: &Words, at: Station) -> Vehicle
    ensures { result ≡ nearest_at at (vehicles_of (section_in words.now)) }
{
    match at {
        Station::A => vehicle(words, 0),
        Station::B => vehicle(words, present_in(words).saturating_sub(1)),
    }
}

// The place of the vehicle named, nearest A first, if it is present. Its sender and form number stay two arguments, as in `meet` and `is_named`.
fn find(words: &Words, sender: Station, form: u16) -> Option<usize>
    ensures { let vehicles = vehicles_of (section_in words.now) in
        MatchOption result (find_of sender form vehicles ≡ length vehicles) (λ i. (find_of sender form vehicles ≡ i) × (i < length vehicles)) }
{
    (0..present_in(words)).position(|i| is_named(sender, form, vehicle(words, i)))
}

// Whether the vehicle at place `i` and its neighbour towards B may meet: both present, OPEN or THROUGH, and heading towards one another.
fn may_meet(words: &Words, i: usize) -> bool
    requires { i < length (vehicles_of (section_in words.now)) }
    ensures { result ≡ may_meet (vehicles_of (section_in words.now)) i }
{
    if present_in(words) <= i + 1 {
        return false;
    }
    let v = at_place(words, i);
    let w = at_place(words, i + 1);
    (v.heading == station_number(Station::B))
        & (w.heading == station_number(Station::A))
        & is_open_or_through(v.movement)
        & is_open_or_through(w.movement)
}

// A vehicle that has met another, now heading to a station.
fn met(v: Vehicle, to: Station) -> Vehicle
    ensures { result ≡ redirected to v }
{
    Vehicle {
        heading: station_number(to),
        met: true,
        ..v
    }
}

// The vehicle at place `i` has met another, and heads to a station: that alters its first word.
fn put_met(words: &mut Words, i: usize, to: Station)
    requires { i < length (vehicles_of (section_in words.old)) }
    ensures { VehiclesBecome words.old words.new (redirect_at to i) (λ start. start) }
{
    let present = present_in(words);
    let slot = Slot::start_in(words).on(i);
    let v = met(vehicle_at(words, slot), to);
    words[LEN] = present as u64;
    words[RING + SLOT_LENGTH * slot.number] = first_word(v);
}

// The vehicle named and its neighbour towards B meet and then both head to a station, if they may; says whether they did.
pub fn meet(words: &mut Words, to: Station, sender: Station, form: u16) -> bool
    ensures { Met words.old words.new to sender form result }
{
    let Some(i) = find(words, sender, form) else {
        return false;
    };
    let may = may_meet(words, i);
    if may {
        put_met(words, i, to);
        put_met(words, i + 1, to);
    }
    may
}

// No vehicle is present, and both desks are as fresh; in force or not.
pub fn empty(words: &mut Words, force: bool)
    ensures { OwnWords words.new (emptied force (section_in words.old).refused) }
{
    *words = emptied_words(force, refused(words));
}
