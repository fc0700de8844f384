// The step on a section and lent bytes, in both forms, of a single line and of a double line, and on a single line's position; the running of a log, and its
// listing by either table, in blocks or whole. specs/Listings.antt says what the listing of a log is, and specs/Blocks.antt that the blocks one after another are
// that listing (proofs/Whole.antt).
#![tactic(auto)]

mod blocks;
mod double_line;
mod instances;
mod lines;
mod memory;
mod next_line;
mod positions;
mod running;
mod single_line;
mod stepping;

pub use blocks::{fill, list};
pub use lines::Line;
pub use memory::step_in_place;
pub use next_line::{Listed, Put, start_of};
pub use positions::step_position;
pub use running::{LogEnd, Ran, ended, run, taken};
pub use stepping::step;
