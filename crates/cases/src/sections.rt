// What is told of a section's figures, the bytes of docs/CASES.md: how many of them the places in use take, and their digest.
ghost use Rattle.std.specs.Prelude.{◌≤◌};

use figures::{PRESENT, SECTION_LENGTH};
use position::PLACE;

// How many bytes the places take up to the last that is not all zero.
pub(crate) fn places_used(figures: &[u8; SECTION_LENGTH]) -> usize
    ensures { result ≤ 240 }
{
    match figures[..PRESENT].iter().rposition(|byte| *byte != 0) {
        Some(at) => at / PLACE * PLACE + PLACE,
        None => 0,
    }
}

// The digest of a section's figures, modulo 2^32.
pub(crate) fn digest(figures: &[u8; SECTION_LENGTH]) -> u32 {
    figures.iter().fold(0u32, |sum, byte| {
        sum.wrapping_mul(31).wrapping_add(u32::from(*byte))
    })
}
