// A section that a host keeps as a position, in its own 281 bytes, and a shelf of named positions.
ghost use Rattle.working.specs.Positions.{StepsPosition};
ghost use Rattle.working.specs.Shelves.{Fetches, Stores};

use step::step_position;
use working::refusal_number;

// The step on the position lent, which is left as that of the section after it. The answer is 0 and the form number, forms and speed stand at the front of the numbers lent;
// or it is the number of the refusal, and the numbers keep their values. 26 and 23 alter nothing; 1 to 4 and 6 to 22 are counted in the position.
pub fn lupin_step(position: &mut [u8], entry: &[u8], answer: &mut [u32]) -> u32
    ensures { StepsPosition position.old entry.now answer.old result position.new answer.new }
{
    u32::from(refusal_number(step_position(position, entry, answer)))
}

// The position, kept on the shelf under the name: 0, or 5, 24, 25 or 26, which alters nothing.
pub fn lupin_store(shelf: &mut [u8], name: &[u8], position: &[u8]) -> u32
    ensures { Stores shelf.old name.now position.now result shelf.new }
{
    let verdict = shelf::store(shelf, name, position);
    u32::from(refusal_number(verdict))
}

// The position under the name, at the front of the buffer: 0, or 5, 24 or 23, which alters nothing. The bytes behind it keep their values.
pub fn lupin_fetch(shelf: &[u8], name: &[u8], buffer: &mut [u8]) -> u32
    ensures { Fetches shelf.now name.now buffer.old result buffer.new }
{
    let verdict = shelf::fetch(shelf, name, buffer);
    u32::from(refusal_number(verdict))
}
