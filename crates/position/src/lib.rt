// A section as a position, 281 bytes, and read off them: T-06, specs/Positions.antt of `working`. It is written from lent words, and read into such.
#![tactic(auto)]

mod desks;
mod numbers;
mod sections;
mod vehicles;

pub use desks::{
    COUNTS, DESK, counts_bytes, counts_in, desk_bytes, desk_in, interval_bytes, interval_of,
};
pub use numbers::two;
pub use sections::{
    DESK_A, DESK_B, FORCE, POSITION, Position, REFUSED, is_position, position_in, read, vehicles_at,
};
pub use vehicles::{PLACE, vehicle_bytes, vehicle_in};
