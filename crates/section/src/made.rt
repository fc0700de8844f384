// The test that a section is well made: one pass over the vehicles present, one over the unused places, the form numbers, then the desks.
// The passes go from B's end to A's, as the definitions do, and pass no place by: a section is nearly always well made.
ghost use Rattle.section.specs.Made.{Keyed, Room, all_blank, counted, desk_made_with, lacks, seen, survey_of};
ghost use Rattle.std.specs.Prelude.{length, ◌<◌, ◌≡◌, ◌≤◌};
ghost use Rattle.working.specs.WellMade.{differ, is_fresh_desk, not_later, well_made};

use crate::vehicles::{is_blank, is_shaped};
use working::{Desk, Section, Vehicle};

// No vehicle's key: above those of all senders and form numbers.
const NO_KEY: u32 = 16777216;

// A station's vehicles among those passed: how many, and whether their form numbers are 1 to the desk's last.
#[derive(Clone, Copy, Drop)]
pub(crate) struct Tally {
    pub count: u8,
    pub numbered: bool,
}

// The vehicles passed: whether each is shaped, whether A's all stand nearer A than B's, whether all are B's, and each station's tally.
#[derive(Clone, Copy, Drop)]
pub(crate) struct Survey {
    pub shaped: bool,
    pub ordered: bool,
    pub alone: bool,
    pub a: Tally,
    pub b: Tally,
}

// The tally of station number `sender` with one more vehicle.
fn counted(sender: u8, last: u16, v: Vehicle, t: Tally) -> Tally
    requires { t.count < 24 }
    ensures { result ≡ counted sender last v t }
{
    let sent = v.sender == sender;
    Tally {
        count: u8::from(sent) + t.count,
        numbered: (!sent | ((1 <= v.form) & (v.form <= last))) & t.numbered,
    }
}

// The survey with one more vehicle, nearer A than all others.
fn seen(v: Vehicle, last_a: u16, last_b: u16, s: Survey) -> Survey
    requires { Room s }
    ensures { result ≡ seen last_a last_b v s }
{
    let a = s.a;
    let b = s.b;
    let alone = (v.sender == 2) & s.alone;
    let of_a = v.sender == 1;
    Survey {
        shaped: is_shaped(v) & s.shaped,
        ordered: (of_a & s.ordered) | (!of_a & alone),
        alone: alone,
        a: counted(1, last_a, v, a),
        b: counted(2, last_b, v, b),
    }
}

// The one pass over the vehicles present.
fn survey_of(vehicles: &[Vehicle], last_a: u16, last_b: u16) -> Survey
    requires { length vehicles.now ≤ 24 }
    ensures { result ≡ survey_of last_a last_b vehicles.now }
{
    let none = Tally {
        count: 0,
        numbered: true,
    };
    let mut survey = Survey {
        shaped: true,
        ordered: true,
        alone: true,
        a: none,
        b: none,
    };
    for v in vehicles.iter().rev() {
        survey = seen(*v, last_a, last_b, survey);
    }
    survey
}

// Whether places are unused. All are looked at: `all`, which leaves at the first that is not, takes more instructions (measured).
fn all_blank(places: &[Vehicle]) -> bool
    ensures { result ≡ all_blank places.now }
{
    places
        .iter()
        .rev()
        .fold(true, |blank, v| is_blank(*v) & blank)
}

// A vehicle's sender and form number in one number.
fn key_of(v: Vehicle) -> u32
    ensures { Keyed v result }
{
    u32::from(v.sender) * 65536 + u32::from(v.form)
}

// Whether no key is `key`. All are looked at, where `contains` leaves at the first: a bound that is a constant lets the compiler compare many at once.
fn lacks(keys: &[u32; Section::PLACES], key: u32) -> bool
    ensures { result ≡ lacks key keys.now }
{
    keys.iter().rev().fold(true, |none, k| !(*k == key) & none)
}

// Whether form numbers differ among one sender's vehicles: each is looked for among the keys of those passed, and its own is put there.
// Places are told by number, from the last down, since a key goes to its vehicle's.
fn forms_differ(vehicles: &[Vehicle]) -> bool
    requires { length vehicles.now ≤ 24 }
    ensures { result ≡ differ vehicles.now }
{
    let mut keys = [NO_KEY; Section::PLACES];
    let mut differ = true;
    for i in (0..vehicles.len()).rev() {
        let key = key_of(vehicles[i]);
        differ = lacks(&keys, key) & differ;
        keys[i] = key;
    }
    differ
}

// Whether a running interval is not later than the clock.
pub fn is_not_later(interval: Option<u16>, clock: u16) -> bool
    ensures { result ≡ not_later interval clock }
{
    interval.is_none_or(|minute| minute <= clock)
}

// Whether a desk is well made beside the tally of its station's vehicles.
fn desk_made(d: Desk, t: Tally) -> bool
    ensures { result ≡ desk_made_with d t }
{
    let interval = d.interval;
    let held = d.clears;
    let most = Desk::MOST_TRAINS;
    let counted = (d.last <= Desk::LAST_FORM) & (d.sent <= Desk::MOST_SENT);
    let clears = (held.asked <= most) & (held.holds <= most) & (held.owes <= most);
    let ranges = counted & (d.guest <= Vehicle::LAST_CLASS) & clears & (d.waiting <= most);
    ranges & (t.count <= d.sent) & is_not_later(interval, d.clock) & t.numbered
}

fn is_fresh(d: Desk) -> bool
    ensures { result ≡ is_fresh_desk d }
{
    d == Desk::fresh()
}

// Whether a section is well made: clause by clause, in document 01's order, of any value.
#[tactic(auto, unfolding(working::specs::WellMade::well_made))]
pub fn well_made(s: Section) -> bool
    ensures { result ≡ well_made s }
{
    let len = s.len;
    if Section::PLACES < len {
        return false;
    }
    let places = s.vehicles;
    let a = s.a;
    let b = s.b;
    let (present, unused) = places.split_at(len);
    let survey = survey_of(present, a.last, b.last);
    let of_a = survey.a;
    let of_b = survey.b;
    let vehicles = all_blank(unused) & survey.shaped & survey.ordered & forms_differ(present);
    let desks = desk_made(a, of_a) & desk_made(b, of_b);
    let idle = (len == 0) & is_fresh(a) & is_fresh(b);
    vehicles & desks & (s.force | idle)
}
