// Sections and entries of the stored cases, read from their figures (docs/CASES.md), well made or not; and figures as the programs that run the cases write them.
#![tactic(auto)]

mod doubles;
mod heads;
mod section_written;
mod sections;
mod written;

pub use doubles::{DOUBLE_LENGTH, DOUBLE_REFUSED, SIDE_A, SIDE_B, double_in};
pub use heads::{Head, LONGEST_HEAD, SECTION_LENGTH, number_at};
pub use section_written::case_bytes;
pub use sections::{PRESENT, entry_in, section_in};
pub use written::put_bytes;
