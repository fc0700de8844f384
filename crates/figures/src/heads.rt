// The head of a case: the bytes before its log, its bytes or its buffer.
ghost use Rattle.std.specs.Prelude.{◌≡◌};
ghost use Rattle.working.specs.Positions.{two_at};

use position::two;

// The bytes of a section.
pub const SECTION_LENGTH: usize = 282;

// The longest head, of a step: a section's figures, and the length of the bytes behind them.
pub const LONGEST_HEAD: usize = SECTION_LENGTH + 2;

pub type Head = [u8; LONGEST_HEAD];

// The number at a place, high byte first; a byte past the head's end is 0.
pub fn number_at(head: &Head, at: usize) -> u16
    ensures { result ≡ two_at head.now at }
{
    match head.get(at..) {
        Some([high, low, ..]) => two(*high, *low),
        Some([high]) => two(*high, 0),
        _ => 0,
    }
}
