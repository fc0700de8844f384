// What is told of a section and of its parts: the stations, a vehicle, and the test that a section is well made.
// Each function is total, and equal to a definition of `working`, or of specs/ where `working` has none.
#![tactic(auto)]

mod made;
mod stations;
mod vehicles;

pub use made::{is_not_later, well_made};
pub use stations::{other, station_number, station_of};
pub use vehicles::{is_named, is_open_or_through};
