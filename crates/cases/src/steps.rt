// A case of bytes handed to the step in both forms, and run as a log, on a section given in figures.
use crate::lines::write_section;
use crate::memory::step_via;
use crate::sections::digest;
use crate::text::Said;
use figures::case_bytes;
use std::io;
use step::{Ran, run, step};
use working::{Answer, Section};

// An answer, and the section after it.
fn write_step(out: &impl Print, word: &str, answer: Answer, after: Section) -> io::Result<()> {
    println!(out; "{word} {}", Said(answer))?;
    write_section(out, word, after)
}

// What a log comes to: its entries, those accepted, the last answer, and the digest of the section after it.
fn write_ran(out: &impl Print, ran: Ran<Section>) -> io::Result<()> {
    let sum = digest(&case_bytes(ran.section));
    println!(out;
        "run {} {} {} {sum}",
        ran.entries,
        ran.accepted,
        Said(ran.last)
    )
}

// The lines of both forms of the step on the same section and bytes, and of their run.
pub(crate) fn run_step(out: &impl Print, s: Section, bytes: &[u8]) -> io::Result<()> {
    println!(out; "step {}", bytes.len())?;
    let after = step(s, bytes);
    write_step(out, "value", after.answer, after.section)?;
    let left = step_via(s, bytes);
    write_step(out, "memory", left.answer, left.section)?;
    write_ran(out, run(s, bytes, bytes.len()))
}
