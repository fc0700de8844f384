// What a driver leaves with: the vehicle's record, its speed and its forms.
ghost use Rattle.std.specs.Prelude.{◌≡◌};
ghost use Rattle.working.specs.Effects.{clear_forms, follow_speed, open_speed, train_speed, vehicle_for, way_form};
ghost use Rattle.working.specs.declared.Speed.TheVariants.{Both};

use section::{other, station_number};
use working::{Movement, Speed, Station, Vehicle, View};

// The forms of an OPEN, and of a THROUGH. Forms are document 01's sum of numbers, as hosts and listings have it.
pub const OPEN_FORMS: u16 = 7;

pub const THROUGH_FORMS: u16 = 1;

// The vehicle that leaves station `at`: it heads to the other, unmet.
pub fn vehicle_for(at: Station, form: u16, movement: Movement, class: u8) -> Vehicle
    ensures { result ≡ vehicle_for at form movement class }
{
    Vehicle {
        movement,
        sender: station_number(at),
        form,
        heading: station_number(other(at)),
        met: false,
        class,
    }
}

// The speed on T/B 602, on which OPEN and THROUGH leave: para 8010 (A), down its limits.
pub fn tb602_speed(view: View) -> Speed
    ensures { result ≡ open_speed view }
{
    match view {
        // by day, with a clear view: at most 15
        View::Clear => Speed::Kmh(15),
        // by night, or with the view obstructed: at most 10
        View::Night => Speed::Kmh(10),
        // in dense fog, in stormy weather, in flying dust, or where anything else impairs the view: walking pace
        View::Impaired => Speed::Walking,
    }
}

// At most so many km/h where the track is straight and the view clear, and at most so many elsewhere. The case itself takes four lines where each view has one.
fn both(straight: u8, elsewhere: u8) -> Speed
    ensures { result ≡ Both straight elsewhere }
{
    Speed::Both {
        straight,
        elsewhere,
    }
}

// The speeds of a train that follows another: both limits of its caution order, in the sequence of para 8021. The first is for straight track with a clear view, the second
// for elsewhere: coming to or passing a curve, an obstruction, rain, fog or whatever else narrows the view.
pub fn follower_speed(view: View) -> Speed
    ensures { result ≡ follow_speed view }
{
    match view {
        // with a clear view: at most 25 on the straight, at most 10 elsewhere
        View::Clear => both(25, 10),
        // else the view is clear nowhere: at most 10 on the straight too (document 01 has 10 by night as well)
        View::Night | View::Impaired => both(10, 10),
    }
}

// A train: booked where none of the station's was counted before it.
pub fn train_speed(booked: bool, view: View) -> Speed
    ensures { result ≡ train_speed booked view }
{
    if booked {
        Speed::Booked
    } else {
        follower_speed(view)
    }
}

// T/G 602 (UP) from A, T/H 602 (DN) from B.
fn way_form(at: Station) -> u16
    ensures { result ≡ way_form at }
{
    match at {
        Station::A => 8,
        Station::B => 16,
    }
}

// The forms of a RETURN or a TRAIN: a sum of document 01's numbers, as the answer gives them.
pub fn clear_forms(at: Station, booked: bool, asked: u8, granted: u8) -> u16
    ensures { result ≡ clear_forms at booked asked granted }
{
    let way = way_form(at);
    let speed = if booked { 128 } else { 64 };
    let enquiry = if 0 < asked { 2 } else { 0 };
    let reply = if 0 < granted { 4 } else { 0 };
    way + 32 + speed + enquiry + reply
}
