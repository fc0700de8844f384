// The places of a shelf.
ghost use Rattle.std.specs.Prelude.{MatchOption, drop, ◌*◌, ◌-◌, ◌<◌, ◌≡◌, ◌≤◌};
ghost use Rattle.working.specs.Shelves.{is_among, place_for, places_made, used_well};

use crate::names::{NAME, Title, is_title, is_zero};
use position::{POSITION, is_position};

pub const PLACES: usize = 16;

// The bytes of a place.
pub const PLACE: usize = NAME + POSITION;

pub const SHELF: usize = PLACES * PLACE;

pub(crate) type Shelf = [u8; SHELF];

// Whether one of the places from a place on has the name.
fn is_among(shelf: &Shelf, title: &Title, from: usize) -> bool
    requires { from ≤ 16 }
    ensures { result ≡ is_among title.now (16 - from) (drop (293 * from) shelf.now) }
{
    shelf[PLACE * from..]
        .chunks_exact(PLACE)
        .any(|place| place.starts_with(title))
}

// Whether a used place holds a name that no later one has, and a position.
fn is_used_well(shelf: &Shelf, i: usize) -> bool
    requires { i < 16 }
    ensures { result ≡ used_well (15 - i) (drop (293 * i) shelf.now) }
{
    let title = shelf[PLACE * i..].first_chunk().unwrap();
    let position = &shelf[PLACE * i + NAME..PLACE * i + PLACE];
    is_title(title) & is_position(position) & !is_among(shelf, title, i + 1)
}

// Used places first, no name twice, the rest zero.
pub(crate) fn places_made(shelf: &Shelf) -> bool
    ensures { result ≡ places_made 16 shelf.now }
{
    for i in 0..PLACES {
        if is_zero(&shelf[PLACE * i..PLACE * i + PLACE]) {
            return is_zero(&shelf[PLACE * i..]);
        }
        if !is_used_well(shelf, i) {
            return false;
        }
    }
    true
}

// The place of a name: the one that has it, else the first that is unused, which alone begins with a zero.
pub(crate) fn place_for(shelf: &Shelf, title: &Title) -> Option<usize>
    ensures { MatchOption result (place_for title.now 16 shelf.now ≡ 16) (λ i. (i ≡ place_for title.now 16 shelf.now) × (i < 16)) }
{
    shelf
        .chunks_exact(PLACE)
        .position(|place| place.starts_with(title) | place.starts_with(&[0]))
}
