// An entry that was read, entered into a section in lent words: a function for each kind, and one for both kinds of a TRAIN, which puts only the figures that
// change. Each is total: whatever the words, the answer and what it leaves are those that the definitions of `working` give for the section that they stand for.
// Whether that is well made, 5, is the business of whoever steps (crate `step`).
#![tactic(auto)]

mod answers;
mod declaring;
mod departures;
mod fields;
mod kinds;
mod receipts;

pub use answers::{accepted, declare, refuse};
pub use kinds::answer_to;
