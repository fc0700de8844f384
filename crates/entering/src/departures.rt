// OPEN, THROUGH, RETURN and TRAIN, endorsed as the last or not: why each is refused, which leaves the words as they were, and else the figures that it puts and its
// driver's order. Refusals 7 and 9 are tested first, and a kind's own tests stand behind them.
ghost use Rattle.entering.specs.Entering.{Leaves, Tries};
ghost use Rattle.working.specs.Acts as acts;
ghost use Rattle.working.specs.Events.{At, station_of, view_of};

use crate::fields::view_of;
use rules::{
    OPEN_FORMS, THROUGH_FORMS, clear_forms, departure_verdict, open_verdict, return_clears,
    return_verdict, station_verdict, tb602_speed, train_clears, train_movement, train_speed,
    train_verdict, vehicle_for,
};
use section::station_of;
use words::{Words, desk, in_force, insert, put_clears, put_departure, put_guest, put_out};
use working::{Accepted, Answer, Entry, Movement, Speed, Station, Vehicle};

// A vehicle leaves station `at` under its form number, as the departure counted `sent`: what every departure puts. It is compiled into each kind: apart, a run of a log took
// some 30 instructions more an entry (measured).
#[inline(always)]
fn depart(words: &mut Words, at: Station, time: u16, sent: u8, v: Vehicle)
    ensures { Leaves words.old at time sent v words.new }
{
    insert(words, at, v);
    put_departure(words, at, time, v.form, sent);
}

// Each of the four puts its tests one under another, departs and puts what it alone alters; one function for them would take all of that as arguments.
pub(crate) fn enter_open(words: &mut Words, e: Entry) -> Answer
    ensures { Tries words.old (At (station_of e.station) e.time (acts.Open (view_of e.view) e.class e.asked)) result words.new }
{
    let at = station_of(e.station);
    let d = desk(words, at);
    station_verdict(in_force(words), d.clock, e.time)?;
    departure_verdict(d, e.time, open_verdict(d))?;
    let form = d.last + 1;
    let sent = d.sent + 1;
    let movement = Movement::Open { asked: e.asked };
    let v = vehicle_for(at, form, movement, e.class);
    depart(words, at, e.time, sent, v);
    put_out(words, at, true);
    Ok(Accepted {
        form,
        forms: OPEN_FORMS,
        speed: tb602_speed(view_of(e.view)),
    })
}

pub(crate) fn enter_through(words: &mut Words, e: Entry) -> Answer
    ensures { Tries words.old (At (station_of e.station) e.time (acts.Through (view_of e.view))) result words.new }
{
    let at = station_of(e.station);
    let d = desk(words, at);
    station_verdict(in_force(words), d.clock, e.time)?;
    departure_verdict(d, e.time, open_verdict(d))?;
    let form = d.last + 1;
    let sent = d.sent + 1;
    let v = vehicle_for(at, form, Movement::Through, Vehicle::LIGHT_ENGINE);
    depart(words, at, e.time, sent, v);
    Ok(Accepted {
        form,
        forms: THROUGH_FORMS,
        speed: tb602_speed(view_of(e.view)),
    })
}

pub(crate) fn enter_return(words: &mut Words, e: Entry) -> Answer
    ensures { Tries words.old (At (station_of e.station) e.time (acts.Return e.asked e.granted)) result words.new }
{
    let at = station_of(e.station);
    let Entry { asked, granted, .. } = e;
    let d = desk(words, at);
    station_verdict(in_force(words), d.clock, e.time)?;
    departure_verdict(d, e.time, return_verdict(d, granted))?;
    let form = d.last + 1;
    let sent = d.sent + 1;
    let movement = Movement::Return { asked, granted };
    let v = vehicle_for(at, form, movement, d.guest);
    depart(words, at, e.time, sent, v);
    put_guest(words, at, 0);
    put_clears(words, at, return_clears(d.clears, granted));
    Ok(Accepted {
        form,
        forms: clear_forms(at, true, asked, granted),
        speed: Speed::Booked,
    })
}

// `endorsed` is the definition's own mark (`Train endorsed ..`): of the two kinds all else is one.
pub(crate) fn enter_train(words: &mut Words, e: Entry, endorsed: bool) -> Answer
    ensures { Tries words.old (At (station_of e.station) e.time (acts.Train endorsed (view_of e.view) e.asked e.granted)) result words.new }
{
    let at = station_of(e.station);
    let Entry { asked, granted, .. } = e;
    let d = desk(words, at);
    station_verdict(in_force(words), d.clock, e.time)?;
    departure_verdict(d, e.time, train_verdict(d, granted))?;
    let form = d.last + 1;
    let sent = d.sent + 1;
    let clears = d.clears;
    let booked = d.sent == 0;
    let movement = train_movement(endorsed, clears.holds, asked, granted);
    let v = vehicle_for(at, form, movement, 0);
    depart(words, at, e.time, sent, v);
    put_clears(words, at, train_clears(endorsed, clears, granted));
    Ok(Accepted {
        form,
        forms: clear_forms(at, booked, asked, granted),
        speed: train_speed(booked, view_of(e.view)),
    })
}
