// A double line's section in figures: the bytes of docs/CASES.md, at the front of a case's head.
ghost use Rattle.figures.specs.Doubles.{double_in, numbers_at, side_at};
ghost use Rattle.figures.specs.Figures.{longest_head};
ghost use Rattle.std.specs.Prelude.{◌+◌, ◌≡◌, ◌≤◌};

use crate::heads::{Head, number_at};
use double::{Section, Side};
use position::{counts_in, interval_of};

// Where the figures behind the first byte, in force, begin: refused, and the sides of A and B.
pub const DOUBLE_REFUSED: usize = 1;

pub const SIDE_A: usize = DOUBLE_REFUSED + 12;

pub const SIDE_B: usize = SIDE_A + 32;

// The bytes of a double line's section.
pub const DOUBLE_LENGTH: usize = SIDE_B + 32;

// The twelve places of a line.
fn numbers_in(figures: &Head, at: usize) -> [u16; Side::PLACES]
    requires { at + 24 ≤ longest_head }
    ensures { result ≡ numbers_at figures.now at }
{
    let mut numbers = [0u16; Side::PLACES];
    for i in 0..Side::PLACES {
        numbers[i] = number_at(figures, at + i * 2);
    }
    numbers
}

// The 32 bytes of a side.
fn side_in(figures: &Head, at: usize) -> Side
    requires { at + 32 ≤ longest_head }
    ensures { result ≡ side_at figures.now at }
{
    Side {
        clock: number_at(figures, at),
        last: number_at(figures, at + 2),
        interval: interval_of(figures[at + 4], number_at(figures, at + 5)),
        numbers: numbers_in(figures, at + 8),
        len: figures[at + 7],
    }
}

// The double line's section that the figures say, well made or not.
pub fn double_in(figures: &Head) -> Section
    ensures { result ≡ double_in figures.now }
{
    Section {
        force: figures[0] == 1,
        refused: counts_in(figures[DOUBLE_REFUSED..].first_chunk().unwrap()),
        a: side_in(figures, SIDE_A),
        b: side_in(figures, SIDE_B),
    }
}
