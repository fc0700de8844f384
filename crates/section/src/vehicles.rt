// One vehicle: what it left on, whose it is, and whether its record is well made.
ghost use Rattle.section.specs.Made.{movement_made};
ghost use Rattle.std.specs.Prelude.{◌≡◌};
ghost use Rattle.working.specs.Reasons.{is_named};
ghost use Rattle.working.specs.WellMade.{is_blank, is_open_or_through, shaped};

use crate::stations::station_number;
use working::{Desk, Movement, Station, Vehicle};

// OPEN or THROUGH.
pub fn is_open_or_through(movement: Movement) -> bool
    ensures { result ≡ is_open_or_through movement }
{
    matches!(movement, Movement::Open { .. } | Movement::Through)
}

// Whether `v` is the vehicle that an entry names by its sender and form number: two arguments, as an entry has two fields.
pub fn is_named(sender: Station, form: u16, v: Vehicle) -> bool
    ensures { result ≡ is_named sender form v }
{
    (v.sender == station_number(sender)) & (v.form == form)
}

// Whether the class, asked, granted and given up of a vehicle are in the ranges of what it left on.
pub(crate) fn movement_made(movement: Movement, class: u8) -> bool
    ensures { result ≡ movement_made movement class }
{
    let classed = (1 <= class) & (class <= Vehicle::LAST_CLASS);
    let most = Desk::MOST_TRAINS;
    match movement {
        Movement::Open { asked } => classed & (1 <= asked) & (asked <= most),
        Movement::Through => class == Vehicle::LIGHT_ENGINE,
        Movement::Return { asked, granted } => classed & (asked <= most) & (granted <= most),
        Movement::Train { asked, granted } => (class == 0) & (asked <= most) & (granted <= most),
        Movement::LastTrain {
            asked,
            granted,
            given_up,
        } => {
            (class == 0) & (asked <= most) & (granted <= most) & (given_up <= Desk::MOST_GIVEN_UP)
        }
    }
}

// Whether a vehicle's record is one that a vehicle in the section may have.
pub(crate) fn is_shaped(v: Vehicle) -> bool
    ensures { result ≡ shaped v }
{
    let movement = v.movement;
    let sent = (v.sender == 1) | (v.sender == 2);
    let headed = (v.heading == 1) | (v.heading == 2);
    let away = v.met | !(v.heading == v.sender);
    let unmet = is_open_or_through(movement) | !v.met;
    sent & headed & away & unmet & movement_made(movement, v.class)
}

// Whether a place is unused: zero in every figure. Each is tested, since `v == Vehicle::unused()` leaves at the first that differs: of a section without
// vehicles `well_made` took 630 instructions so, and 400 so (measured).
pub(crate) fn is_blank(v: Vehicle) -> bool
    ensures { result ≡ is_blank v }
{
    matches!(v.movement, Movement::Open { asked: 0 })
        & (v.sender == 0)
        & (v.form == 0)
        & (v.heading == 0)
        & !v.met
        & (v.class == 0)
}
