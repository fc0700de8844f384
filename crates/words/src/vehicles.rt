// A vehicle as two words, so that vehicles can be lent and altered where they lie. Two zeros are an unused place. specs/Words.antt has the table.
ghost use Rattle.std.specs.Prelude.{◌≡◌, ◌≤◌};
ghost use Rattle.words.specs.Words.{first_word, left_on, movement_in, movement_word, packed, vehicle_in};

use working::{Movement, Vehicle};

// What a vehicle left on, by the numbers that specs/Words.antt gives.
const OPEN: u8 = 0;

const THROUGH: u8 = 1;

const RETURN: u8 = 2;

const TRAIN: u8 = 3;

const LAST_TRAIN: u8 = 4;

// Form number, sender, heading, met and class, from the low end.
pub(crate) fn first_word(v: Vehicle) -> u64
    ensures { result ≡ first_word v }
{
    let [low, high] = v.form.to_le_bytes();
    u64::from_le_bytes([
        low,
        high,
        v.sender,
        v.heading,
        u8::from(v.met),
        v.class,
        0,
        0,
    ])
}

// The number of what a vehicle left on, granted, asked and given up, from the low end.
fn packed(left: u8, asked: u8, granted: u8, given_up: u8) -> u64
    requires { left ≤ 4 }
    ensures { (result ≡ packed left asked granted given_up) × (movement_in result ≡ left_on left asked granted given_up) }
{
    u64::from_le_bytes([left, granted, asked, given_up, 0, 0, 0, 0])
}

// What a vehicle left on, with its figures.
pub(crate) fn second_word(movement: Movement) -> u64
    ensures { (result ≡ movement_word movement) × (movement_in result ≡ movement) }
{
    match movement {
        Movement::Open { asked } => packed(OPEN, asked, 0, 0),
        Movement::Through => packed(THROUGH, 0, 0, 0),
        Movement::Return { asked, granted } => packed(RETURN, asked, granted, 0),
        Movement::Train { asked, granted } => packed(TRAIN, asked, granted, 0),
        Movement::LastTrain {
            asked,
            granted,
            given_up,
        } => packed(LAST_TRAIN, asked, granted, given_up),
    }
}

fn movement_in(second: u64) -> Movement
    ensures { result ≡ movement_in second }
{
    let [left, granted, asked, given_up, ..] = second.to_le_bytes();
    match left {
        OPEN => Movement::Open { asked },
        THROUGH => Movement::Through,
        RETURN => Movement::Return { asked, granted },
        TRAIN => Movement::Train { asked, granted },
        _ => Movement::LastTrain {
            asked,
            granted,
            given_up,
        },
    }
}

// The vehicle that two words stand for.
pub(crate) fn vehicle_in(first: u64, second: u64) -> Vehicle
    ensures { result ≡ vehicle_in first second }
{
    let [low, high, sender, heading, met, class, ..] = first.to_le_bytes();
    Vehicle {
        movement: movement_in(second),
        sender,
        form: u16::from_le_bytes([low, high]),
        heading,
        met: met == 1,
        class,
    }
}
