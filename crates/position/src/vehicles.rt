// A vehicle as the ten bytes of its place.
ghost use Rattle.std.specs.Prelude.{◌≡◌};
ghost use Rattle.working.specs.Positions.{movement_bytes, movement_of, vehicle_bytes, vehicle_in};

use crate::numbers::bytes_at;
use working::{Entry, Movement, Vehicle};

// The bytes of a place.
pub const PLACE: usize = 10;

// What a vehicle left on, by its kind, which is a byte of a position (`movement_bytes`).
fn movement_of(kind: u8, asked: u8, granted: u8, given_up: u8) -> Movement
    ensures { result ≡ movement_of kind asked granted given_up }
{
    match kind {
        Entry::THROUGH => Movement::Through,
        Entry::RETURN => Movement::Return { asked, granted },
        Entry::TRAIN => Movement::Train { asked, granted },
        Entry::LAST_TRAIN => Movement::LastTrain {
            asked,
            granted,
            given_up,
        },
        _ => Movement::Open { asked },
    }
}

// The vehicle that ten bytes say.
#[tactic(auto, using(crate::proofs::HighFirst::two_there), unfolding(working::specs::Positions::vehicle_in))]
pub fn vehicle_in(place: &[u8; PLACE]) -> Vehicle
    ensures { result ≡ vehicle_in place.now }
{
    Vehicle {
        movement: movement_of(place[0], place[7], place[8], place[9]),
        sender: place[1],
        form: u16::from_be_bytes(bytes_at(place, 2)),
        heading: place[4],
        met: place[5] == 1,
        class: place[6],
    }
}

// Its kind, asked, granted and given up, as a position has them.
fn movement_bytes(movement: Movement) -> [u8; 4]
    ensures { result ≡ movement_bytes movement }
{
    match movement {
        Movement::Open { asked } => [Entry::OPEN, asked, 0, 0],
        Movement::Through => [Entry::THROUGH, 0, 0, 0],
        Movement::Return { asked, granted } => [Entry::RETURN, asked, granted, 0],
        Movement::Train { asked, granted } => [Entry::TRAIN, asked, granted, 0],
        Movement::LastTrain {
            asked,
            granted,
            given_up,
        } => [Entry::LAST_TRAIN, asked, granted, given_up],
    }
}

// The ten bytes of a vehicle.
#[tactic(auto, using(crate::proofs::HighFirst::two_bytes, crate::proofs::HighFirst::flag_byte), unfolding(working::specs::Positions::vehicle_bytes))]
pub fn vehicle_bytes(v: Vehicle) -> [u8; PLACE]
    ensures { result ≡ vehicle_bytes v }
{
    let movement = v.movement;
    let left_on = movement_bytes(movement);
    let form = v.form.to_be_bytes();
    [
        left_on[0],
        v.sender,
        form[0],
        form[1],
        v.heading,
        u8::from(v.met),
        v.class,
        left_on[1],
        left_on[2],
        left_on[3],
    ]
}
