// What came of a step, written: the answer and the section after it, in the bytes of docs/CASES.md.
ghost use Rattle.std.specs.Prelude.{◌+◌, ◌≤◌};

use double::{Section, Side};
use figures::{DOUBLE_LENGTH, DOUBLE_REFUSED, SIDE_A, SIDE_B, put_bytes};
use position::{counts_bytes, interval_bytes};
use std::io;
use step::Ran;
use working::{Accepted, Answer, Speed};

// The bytes of an answer, and with those of the section behind them.
const ANSWER_LENGTH: usize = 8;

const LENGTH: usize = ANSWER_LENGTH + DOUBLE_LENGTH;

// Which speed it is, and its two figures: the numbers are the stored cases' own (docs/CASES.md).
fn speed_figures(speed: Speed) -> [u8; 3] {
    match speed {
        Speed::NoSpeed => [0, 0, 0],
        Speed::Walking => [1, 0, 0],
        Speed::Kmh(kmh) => [2, kmh, 0],
        Speed::Booked => [3, 0, 0],
        Speed::Both {
            straight,
            elsewhere,
        } => [4, straight, elsewhere],
    }
}

// The answer, at the front; of a refusal its number alone.
fn put_answer(room: &mut [u8], answer: Answer) {
    match answer {
        Err(why) => put_bytes(room, 0, &[why.number()]),
        Ok(Accepted { form, forms, speed }) => {
            put_bytes(room, 1, &form.to_be_bytes());
            put_bytes(room, 3, &forms.to_be_bytes());
            put_bytes(room, 5, &speed_figures(speed));
        }
    }
}

// The twelve places of a line.
fn put_numbers(room: &mut [u8], at: usize, numbers: [u16; Side::PLACES])
    requires { at + 24 ≤ 85 }
{
    for i in 0..Side::PLACES {
        put_bytes(room, at + i * 2, &numbers[i].to_be_bytes());
    }
}

// A station's side.
fn put_side(room: &mut [u8], at: usize, side: Side)
    requires { at + 32 ≤ 85 }
{
    let interval = side.interval;
    let numbers = side.numbers;
    put_bytes(room, at, &side.clock.to_be_bytes());
    put_bytes(room, at + 2, &side.last.to_be_bytes());
    put_bytes(room, at + 4, &interval_bytes(interval));
    put_bytes(room, at + 7, &[side.len]);
    put_numbers(room, at + 8, numbers);
}

// The section, well made or not, behind the answer.
fn put_section(room: &mut [u8], s: Section) {
    let counts = s.refused;
    let a = s.a;
    let b = s.b;
    put_bytes(room, ANSWER_LENGTH, &[u8::from(s.force)]);
    put_bytes(room, ANSWER_LENGTH + DOUBLE_REFUSED, &counts_bytes(counts));
    put_side(room, ANSWER_LENGTH + SIDE_A, a);
    put_side(room, ANSWER_LENGTH + SIDE_B, b);
}

// Writes an answer and the section after it.
pub(crate) fn write_stepped(out: &impl Print, answer: Answer, after: Section) -> io::Result<()> {
    let mut room = [0u8; LENGTH];
    put_answer(&mut room, answer);
    put_section(&mut room, after);
    out.write_all(&room)
}

// Writes the last answer of a run, zeros where it had no entry, and the section after it.
pub(crate) fn write_ran(out: &impl Print, ran: Ran<Section>) -> io::Result<()> {
    let mut room = [0u8; LENGTH];
    if let Some(answer) = ran.last {
        put_answer(&mut room, answer);
    }
    put_section(&mut room, ran.section);
    out.write_all(&room)
}
