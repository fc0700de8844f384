// Storing and fetching. What is refused alters nothing.
ghost use Rattle.std.specs.Prelude.{MatchOption, false, length, true, ◌*◌, ◌++◌, ◌+◌, ◌≡◌, ◌≤◌};
ghost use Rattle.working.specs.Entries.{pasted};
ghost use Rattle.working.specs.Positions.{if_allowed};
ghost use Rattle.working.specs.Refusals.{first_of};
ghost use Rattle.working.specs.Shelves.{fetch_tests, fetched_from, is_shelf, store_tests, stored_in};

use crate::names::{NAME, Title, is_name, title_of};
use crate::places::{PLACE, Shelf, place_for, places_made};
use position::{POSITION, is_position};
use working::{Refusal, Verdict};

// The bytes as a shelf, where they are one.
fn shelf_in(bytes: &[u8]) -> Option<&Shelf>
    ensures { MatchOption result (is_shelf bytes.now ≡ false) (λ shelf. (is_shelf bytes.now ≡ true) × (shelf.now ≡ bytes.now)) }
{
    let Ok(shelf) = <&Shelf>::try_from(bytes) else {
        return None;
    };
    if !places_made(shelf) {
        return None;
    }
    Some(shelf)
}

pub fn is_shelf(shelf: &[u8]) -> bool
    ensures { result ≡ is_shelf shelf.now }
{
    shelf_in(shelf).is_some()
}

// A name and a position, put into a place.
fn put_place(shelf: &mut [u8], place: usize, title: &Title, position: &[u8])
    requires { (293 * place + 293 ≤ length shelf.old) × (length position.now ≡ 281) }
    ensures { shelf.new ≡ pasted shelf.old (293 * place) (title.now ++ position.now) }
{
    shelf[PLACE * place..PLACE * place + NAME].copy_from_slice(title);
    shelf[PLACE * place + NAME..PLACE * place + PLACE].copy_from_slice(position);
}

// The position, kept under the name: in the place that has the name, else in the first unused one. Refusal 5, 24, 25 or 26 alters nothing.
pub fn store(shelf: &mut [u8], name: &[u8], position: &[u8]) -> Verdict
    ensures { (result ≡ first_of (store_tests shelf.old name.now position.now))
        × (shelf.new ≡ if_allowed result shelf.old (stored_in shelf.old name.now position.now)) }
{
    let Some(places) = shelf_in(shelf) else {
        return Err(Refusal::IllMade);
    };
    if !is_name(name) {
        return Err(Refusal::UnknownName);
    }
    let title = title_of(name);
    let Some(place) = place_for(places, &title) else {
        return Err(Refusal::ShelfFull);
    };
    if !is_position(position) {
        return Err(Refusal::NoPosition);
    }
    put_place(shelf, place, &title, position);
    Ok(())
}

// The position under the name, at the front of the buffer lent; the bytes behind it keep their values. Refusal 5, 24 or 23 alters nothing.
pub fn fetch(shelf: &[u8], name: &[u8], buffer: &mut [u8]) -> Verdict
    ensures { (result ≡ first_of (fetch_tests shelf.now name.now buffer.old))
        × (buffer.new ≡ if_allowed result buffer.old (fetched_from shelf.now name.now buffer.old)) }
{
    let Some(places) = shelf_in(shelf) else {
        return Err(Refusal::IllMade);
    };
    if !is_name(name) {
        return Err(Refusal::UnknownName);
    }
    let Some(place) = place_for(places, &title_of(name)) else {
        return Err(Refusal::UnknownName);
    };
    if places[PLACE * place] == 0 {
        return Err(Refusal::UnknownName);
    }
    if buffer.len() < POSITION {
        return Err(Refusal::BufferTooShort);
    }
    buffer[..POSITION].copy_from_slice(&places[PLACE * place + NAME..PLACE * place + PLACE]);
    Ok(())
}
