// A section and an entry in figures: the bytes of docs/CASES.md, at the front of a case's head.
ghost use Rattle.figures.specs.Figures.{entry_in, section_in};
ghost use Rattle.std.specs.Prelude.{◌≡◌};

use crate::heads::{Head, number_at};
use position::{counts_in, desk_in, vehicles_at};
use working::{Entry, Section};

// Where the number of vehicles present stands, behind the places; what follows it stands a byte behind where a position has it.
pub const PRESENT: usize = position::FORCE;

pub const FORCE: usize = position::FORCE + 1;

pub const REFUSED: usize = position::REFUSED + 1;

pub const DESK_A: usize = position::DESK_A + 1;

pub const DESK_B: usize = position::DESK_B + 1;

// The section that the figures say, well made or not.
pub fn section_in(figures: &Head) -> Section
    ensures { result ≡ section_in figures.now }
{
    Section {
        vehicles: vehicles_at(figures, Section::PLACES),
        len: usize::from(figures[PRESENT]),
        force: figures[FORCE] == 1,
        refused: counts_in(figures[REFUSED..].first_chunk().unwrap()),
        a: desk_in(figures[DESK_A..].first_chunk().unwrap()),
        b: desk_in(figures[DESK_B..].first_chunk().unwrap()),
    }
}

// An entry's map and fields, absent ones too.
pub fn entry_in(head: &Head) -> Entry
    ensures { result ≡ entry_in head.now }
{
    Entry {
        map: head[0],
        kind: head[1],
        station: head[2],
        time: number_at(head, 3),
        view: head[5],
        class: head[6],
        asked: head[7],
        granted: head[8],
        sender: head[9],
        number: number_at(head, 10),
    }
}
