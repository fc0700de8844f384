// The step on a section that a host keeps as a position, in its own bytes (T-06).
ghost use Rattle.std.specs.Prelude.{length, true, ◌≡◌, ◌≤◌};
ghost use Rattle.words.specs.Words.{section_in};
ghost use Rattle.working.specs.Positions.{StepsPosition, answer_in, speed_number};
ghost use Rattle.working.specs.Refusals.{refusal_in};
ghost use Rattle.working.specs.Steps.{step_of};
ghost use Rattle.working.specs.WellMade.{well_made};

use crate::running::advance;
use entering::refuse;
use position::{position_in, read};
use words::{WORDS, Words};
use working::{Accepted, Answer, Refusal, Section, Speed};

// How many numbers an answer is: form number, forms and speed.
const ANSWER: usize = 3;

// A speed's number, as hosts have it (T-06): its case, 0 to 4, times 65,536, and its figures.
const WALKING: u32 = 65536;

const KMH: u32 = 131072;

const BOOKED: u32 = 196608;

const BOTH: u32 = 262144;

fn speed_number(speed: Speed) -> u32
    ensures { result ≡ speed_number speed }
{
    match speed {
        Speed::NoSpeed => 0,
        Speed::Walking => WALKING,
        Speed::Kmh(n) => KMH + u32::from(n),
        Speed::Booked => BOOKED,
        Speed::Both {
            straight,
            elsewhere,
        } => BOTH + 256 * u32::from(straight) + u32::from(elsewhere),
    }
}

// The answer as numbers, at the front of those lent, which a refusal leaves as they were.
fn put_answer(numbers: &mut [u32], answer: Answer) -> Result<(), Refusal>
    requires { 3 ≤ length numbers.old }
    ensures { (refusal_in result ≡ refusal_in answer) × (numbers.new ≡ answer_in answer numbers.old) }
{
    match answer {
        Err(why) => Err(why),
        Ok(Accepted { form, forms, speed }) => {
            numbers[0] = u32::from(form);
            numbers[1] = u32::from(forms);
            numbers[2] = speed_number(speed);
            Ok(())
        }
    }
}

// The step on the well-made section that the words stand for, which are left standing for the section after it. A run of one entry: all who step entries come to one place.
fn entered(words: &mut Words, entry: &[u8]) -> Answer
    requires { well_made (section_in words.old) ≡ true }
    ensures { (result ≡ (step_of (section_in words.old) entry.now).answer)
        × (section_in words.new ≡ (step_of (section_in words.old) entry.now).section) }
{
    let done = advance::<Section>(words, entry, 0, 1);
    match done.last {
        None => refuse(words, None, Refusal::EndsInside),
        Some(answer) => answer,
    }
}

// The step on the position lent, which is left as that of the section after it. The form number, forms and speed stand then at the front of the numbers lent; where the step
// is refused, these keep their values. 26 and 23 alter nothing; 1 to 4 and 6 to 22 are counted in the position.
pub fn step_position(position: &mut [u8], entry: &[u8], numbers: &mut [u32]) -> Result<(), Refusal>
    ensures { StepsPosition position.old entry.now numbers.old (refusal_in result) position.new numbers.new }
{
    let mut words = [0; WORDS];
    if !read(position, &mut words) {
        return Err(Refusal::NoPosition);
    }
    if numbers.len() < ANSWER {
        return Err(Refusal::BufferTooShort);
    }
    let given = entered(&mut words, entry);
    let written = position_in(&words);
    position.copy_from_slice(&written);
    put_answer(numbers, given)
}
