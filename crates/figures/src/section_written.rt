// A single line's section as the bytes of docs/CASES.md, well made or not.
ghost use Rattle.figures.specs.Written.{case_bytes, put_places, vehicle_figures};
ghost use Rattle.std.specs.Prelude.{◌≡◌};

use crate::heads::SECTION_LENGTH;
use crate::sections::{DESK_A, DESK_B, PRESENT, REFUSED};
use crate::written::put_bytes;
use position::{PLACE, counts_bytes, desk_bytes, vehicle_bytes};
use working::{Section, Vehicle};

// A vehicle's place: zeros where it is unused.
fn vehicle_figures(v: Vehicle) -> [u8; PLACE]
    ensures { result ≡ vehicle_figures v }
{
    if v == Vehicle::unused() {
        return [0u8; PLACE];
    }
    vehicle_bytes(v)
}

// The 24 places, at the front.
fn put_vehicles(room: &mut [u8], places: [Vehicle; Section::PLACES])
    ensures { room.new ≡ put_places 24 places room.old }
{
    for i in 0..Section::PLACES {
        put_bytes(room, i * PLACE, &vehicle_figures(places[i]));
    }
}

// The section's figures, each where `section_in` reads it.
#[tactic(auto, unfolding(crate::specs::Written::case_bytes))]
pub fn case_bytes(s: Section) -> [u8; SECTION_LENGTH]
    ensures { result ≡ case_bytes s }
{
    let mut figures = [0u8; SECTION_LENGTH];
    let places = s.vehicles;
    let counts = s.refused;
    let a = s.a;
    let b = s.b;
    put_vehicles(&mut figures, places);
    put_bytes(
        &mut figures,
        PRESENT,
        &[(s.len % 256) as u8, u8::from(s.force)],
    );
    put_bytes(&mut figures, REFUSED, &counts_bytes(counts));
    put_bytes(&mut figures, DESK_A, &desk_bytes(a));
    put_bytes(&mut figures, DESK_B, &desk_bytes(b));
    figures
}
