// A section in lent words, where it can be altered without being copied. specs/Words.antt has the table, and says what section they stand for.
// Each function is total: whatever the words, what it leaves stands for the section that a definition of `working` gives.
#![tactic(auto)]

mod desks;
mod kept;
mod ring;
mod slot;
mod vehicles;

pub use desks::{
    RING, WORDS, Words, count_refusal, desk, in_force, present, put_clears, put_clock,
    put_departure, put_desk, put_guest, put_out, put_receipt, put_sent, put_waiting, refused,
};
pub use kept::{fresh_words, section_in, words_of};
pub use ring::{emptied_words, empty, insert, meet, nearest, present_in, remove, vehicle};
