// The lines that several cases write.
use crate::sections::{digest, places_used};
use crate::text::{Hex, Said, front};
use figures::{PRESENT, case_bytes};
use std::io;
use working::{Answer, Read, Section};

// What a reader reads at an offset, and where it then stands.
pub(crate) fn write_seen(
    out: &impl Print,
    offset: usize,
    read: Read,
    next: usize,
) -> io::Result<()> {
    println!(out; "at {offset} {} next {next}", Said(read))
}

// A word, an answer, and the digest of the section after it.
pub(crate) fn write_stepped(
    out: &impl Print,
    word: &str,
    answer: Answer,
    after: Section,
) -> io::Result<()> {
    println!(out; "{word} {} {}", Said(answer), digest(&case_bytes(after)))
}

// A word and a section's figures: those behind the places, and then the bytes of the places up to the last in use.
pub(crate) fn write_section(out: &impl Print, word: &str, s: Section) -> io::Result<()> {
    let figures = case_bytes(s);
    let used = places_used(&figures);
    println!(out;
        "{word} {}{}",
        Hex(&figures[PRESENT..]),
        Hex(front(&figures, used))
    )
}
