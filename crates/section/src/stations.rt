// The two stations.
ghost use Rattle.std.specs.Prelude.{◌≡◌};
ghost use Rattle.working.specs.Events.{station_of};
ghost use Rattle.working.specs.Sections.{number_at, other_at};

use working::Station;

// Station 1 is A, 2 is B.
pub fn station_number(at: Station) -> u8
    ensures { result ≡ number_at at }
{
    at as u8
}

pub fn other(at: Station) -> Station
    ensures { result ≡ other_at at }
{
    match at {
        Station::A => Station::B,
        Station::B => Station::A,
    }
}

// The station of an entry, by its number: any number but 1 is B's, by document 01, and so there is no `TryFrom`.
pub fn station_of(number: u8) -> Station
    ensures { result ≡ station_of number }
{
    if number == 1 { Station::A } else { Station::B }
}
