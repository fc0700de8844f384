// What the programs that read standard input share: a room filled from a reader, what follows each read, and a lister's memory with the reading of a log into it; and a whole
// lister of either line, for a program of one's own.
#![tactic(auto)]

mod lister;
mod reading;
mod writing;

pub use lister::Rooms;
pub use reading::{Onward, PATIENCE, behind, fill};

#[cfg(test)]
mod tests;
