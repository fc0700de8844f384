// What each kind is refused for. Each function puts document 01's tests in rising order, and the first that holds is given. 7 and 9, which every act is put to
// first, and 17 to 19, which every departure is put to last, stand apart from the tests of the kind.
ghost use Rattle.std.specs.Prelude.{List, ◌++◌, ◌≡◌};
ghost use Rattle.working.specs.Reasons.{begin_tests, is_under, last_tests, may_enter, open_tests, receive_tests, resume_tests, return_tests, station_tests, train_tests};
ghost use Rattle.working.specs.Refusals.{Test, first_of};

use section::{is_named, is_open_or_through, station_number};
use working::{Clears, Desk, Refusal, Station, Vehicle, Verdict};

// Whether the interval is running, under 30 minutes. The sum is taken in 32 bits: an interval may begin in the last minutes of the clock.
fn is_under(interval: Option<u16>, time: u16) -> bool
    ensures { result ≡ is_under interval time }
{
    interval.is_some_and(|minute| u32::from(time) < u32::from(minute) + u32::from(Desk::INTERVAL))
}

// 7 and 9, which every act of a station is put to first.
pub fn station_verdict(force: bool, clock: u16, time: u16) -> Verdict
    ensures { result ≡ first_of (station_tests force clock time) }
{
    if !force {
        return Err(Refusal::NotInForce);
    }
    if time < clock {
        return Err(Refusal::BeforeClock);
    }
    Ok(())
}

// 17 to 19, which every departure is put to last, by how many count: of a single line the departures, of a double line the trains on its line.
fn last_verdict(counted: u8, last: u16, interval: Option<u16>, time: u16) -> Verdict
    ensures { result ≡ first_of (last_tests counted last interval time) }
{
    if Desk::MOST_SENT <= counted {
        return Err(Refusal::TwelveSent);
    }
    if Desk::LAST_FORM <= last {
        return Err(Refusal::FormsUsed);
    }
    if is_under(interval, time) {
        return Err(Refusal::IntervalRunning);
    }
    Ok(())
}

// What a departure's own tests come to, then 17 to 19.
pub fn departure_verdict(d: Desk, time: u16, own: Verdict) -> Verdict
    ensures { (tests : List Test) → own ≡ first_of tests → result ≡ first_of (tests ++ last_tests d.sent d.last d.interval time) }
{
    own?;
    last_verdict(d.sent, d.last, d.interval, time)
}

// OPEN and THROUGH.
pub fn open_verdict(d: Desk) -> Verdict
    ensures { result ≡ first_of (open_tests d) }
{
    let guest = d.guest;
    let Clears { holds, owes, .. } = d.clears;
    if d.out {
        return Err(Refusal::OpenerAway);
    }
    if 0 < holds {
        return Err(Refusal::HoldsLineClear);
    }
    if 0 < owes {
        return Err(Refusal::OwesLineClear);
    }
    if 0 < guest {
        return Err(Refusal::GuestHere);
    }
    Ok(())
}

// RETURN. Line clears that are held are no reason: no list of steps from fresh has them beside a guest.
pub fn return_verdict(d: Desk, granted: u8) -> Verdict
    ensures { result ≡ first_of (return_tests d granted) }
{
    let guest = d.guest;
    let asked = d.clears.asked;
    if guest == 0 {
        return Err(Refusal::NoGuest);
    }
    if asked < granted {
        return Err(Refusal::GrantNotAllowed);
    }
    Ok(())
}

pub fn train_verdict(d: Desk, granted: u8) -> Verdict
    ensures { result ≡ first_of (train_tests d granted) }
{
    let Clears { asked, holds, owes } = d.clears;
    if holds == 0 {
        return Err(Refusal::NoLineClear);
    }
    if (asked < granted) | ((0 < granted) & (0 < owes)) {
        return Err(Refusal::GrantNotAllowed);
    }
    Ok(())
}

// A station's own must be OPEN or THROUGH, unmet or heading to it; the other's must head to it. A vehicle's numbers may be no station's, so that numbers are compared.
fn may_enter(at: Station, v: Vehicle) -> bool
    ensures { result ≡ may_enter at v }
{
    let number = station_number(at);
    let here = v.heading == number;
    if v.sender == number {
        is_open_or_through(v.movement) & (!v.met | here)
    } else {
        here
    }
}

// RECEIVE, of the vehicle nearest the station.
pub fn receive_verdict(at: Station, sender: Station, form: u16, nearest: Vehicle) -> Verdict
    ensures { result ≡ first_of (receive_tests at sender form nearest) }
{
    if !is_named(sender, form, nearest) {
        return Err(Refusal::NotNearest);
    }
    if !may_enter(at, nearest) {
        return Err(Refusal::MayNotEnter);
    }
    Ok(())
}

pub fn begin_verdict(force: bool) -> Verdict
    ensures { result ≡ first_of (begin_tests force) }
{
    if force {
        return Err(Refusal::AlreadyInForce);
    }
    Ok(())
}

pub fn resume_verdict(force: bool, present: usize) -> Verdict
    ensures { result ≡ first_of (resume_tests force present) }
{
    if !force {
        return Err(Refusal::NotInForce);
    }
    if 0 < present {
        return Err(Refusal::VehiclePresent);
    }
    Ok(())
}
