// RECEIVE: a vehicle is received at the station's end, and the figures change by whose it is and what it left on; then by the reply that it brings, and by what waits.
ghost use Rattle.entering.specs.Entering.{Tries};
ghost use Rattle.std.specs.Prelude.{true, ◌≡◌};
ghost use Rattle.words.specs.Words.{DeskBecomes};
ghost use Rattle.working.specs.Acts as acts;
ghost use Rattle.working.specs.Effects.{arrive_desk, other_desk, own_desk, receipt_desk, replied};
ghost use Rattle.working.specs.Events.{At, station_of};
ghost use Rattle.working.specs.Reasons.{may_enter};
ghost use Rattle.working.specs.WellMade.{is_open_or_through};

use crate::answers::accepted;
use rules::{
    brought_clears, granted_in, opened_clears, receive_verdict, replied_desk, station_verdict,
};
use section::{station_number, station_of};
use words::{
    Words, desk, in_force, nearest, put_clears, put_guest, put_out, put_receipt, put_waiting,
    remove,
};
use working::{Answer, Entry, Movement, Station, Vehicle};

// Words, station and minute go from call to call as they came: a struct that holds `&mut Words` would be lent on in each.
// The desk of station `at` where its own vehicle is back: an OPEN or a THROUGH, since no other may enter.
fn arrive_own(words: &mut Words, at: Station, time: u16, movement: Movement)
    requires { is_open_or_through movement ≡ true }
    ensures { DeskBecomes words.old words.new at (λ desk. own_desk desk time movement) }
{
    let d = desk(words, at);
    put_receipt(words, at, time, d.sent.saturating_sub(1));
    if let Movement::Open { .. } = movement {
        put_out(words, at, false);
    }
}

// The same where a vehicle comes from the other station.
fn arrive_other(words: &mut Words, at: Station, time: u16, v: Vehicle)
    ensures { DeskBecomes words.old words.new at (λ desk. other_desk desk time v.class v.movement) }
{
    let d = desk(words, at);
    let clears = d.clears;
    put_receipt(words, at, time, 0);
    match v.movement {
        Movement::Open { asked } => {
            put_guest(words, at, v.class);
            put_clears(words, at, opened_clears(clears, asked));
        }
        Movement::Through => {}
        Movement::Return { asked, .. } => {
            put_out(words, at, false);
            put_clears(words, at, brought_clears(clears, asked, clears.owes));
        }
        Movement::Train { asked, .. } => {
            let owes = clears.owes.saturating_sub(1);
            put_clears(words, at, brought_clears(clears, asked, owes));
        }
        Movement::LastTrain { asked, .. } => {
            put_clears(words, at, brought_clears(clears, asked, 0));
        }
    }
}

// The desk of station `at` where a vehicle that may enter is received, but for the reply that it brings.
fn take_in(words: &mut Words, at: Station, time: u16, v: Vehicle)
    requires { may_enter at v ≡ true }
    ensures { DeskBecomes words.old words.new at (λ desk. receipt_desk at desk time v) }
{
    if v.sender == station_number(at) {
        arrive_own(words, at, time, v.movement);
    } else {
        arrive_other(words, at, time, v);
    }
}

// The reply that a vehicle brings, and what waits: the desk is left alone where it brings none and nothing waits.
fn put_reply(words: &mut Words, at: Station, granted: u8)
    ensures { DeskBecomes words.old words.new at (replied granted) }
{
    let d = desk(words, at);
    if (0 < granted) | (0 < d.waiting) {
        let after = replied_desk(d, granted);
        put_clears(words, at, after.clears);
        put_waiting(words, at, after.waiting);
    }
}

// The desk of station `at` where a vehicle that may enter is received.
fn arrive(words: &mut Words, at: Station, time: u16, v: Vehicle)
    requires { may_enter at v ≡ true }
    ensures { DeskBecomes words.old words.new at (λ desk. arrive_desk at desk time v) }
{
    take_in(words, at, time, v);
    put_reply(words, at, granted_in(v.movement));
}

pub(crate) fn enter_receive(words: &mut Words, e: Entry) -> Answer
    ensures { Tries words.old (At (station_of e.station) e.time (acts.Receive (station_of e.sender) e.number)) result words.new }
{
    let at = station_of(e.station);
    let sender = station_of(e.sender);
    let d = desk(words, at);
    station_verdict(in_force(words), d.clock, e.time)?;
    let v = nearest(words, at);
    receive_verdict(at, sender, e.number, v)?;
    remove(words, at);
    arrive(words, at, e.time, v);
    accepted()
}
