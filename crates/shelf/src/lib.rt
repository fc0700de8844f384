// Named positions on a lent shelf, 16 places of 293 bytes: T-06, specs/Shelves.antt of `working`.
#![tactic(auto)]

mod names;
mod places;
mod shelves;

pub use names::NAME;
pub use places::{PLACE, PLACES, SHELF};
pub use shelves::{fetch, is_shelf, store};
