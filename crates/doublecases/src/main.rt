// Runs the stored cases of a double line on standard input and writes what came of each: both forms of the step on any section, and a run of one entry.
// docs/CASES.md has the two formats. The second program wrote the cases, and `stdout` is what it says must come of them.
#![tactic(auto)]

use double::Section;
use figures::{DOUBLE_LENGTH, LONGEST_HEAD, double_in, number_at};
use input::fill;
use memory::double_step_via;
use std::io;
use std::io::Read;
use step::{run, step};
use stepped::{write_ran, write_stepped};

mod memory;
mod stepped;

// A case's head: a section's figures, and the length of the bytes behind them. It lies at the front of the longer head that `figures` reads.
const HEAD: usize = DOUBLE_LENGTH + 2;

// The most bytes handed to a step.
const LONGEST: usize = 64;

// A case: a section, well made or not, and the bytes handed to its step.
#[derive(Clone, Copy, Drop)]
struct Case<'a> {
    section: Section,
    bytes: &'a [u8],
}

// The next case, its bytes read into the room lent; none at the end of the input, and where what stands there is no whole case.
fn read_case<'a>(
    input: &mut impl Read,
    room: &'a mut [u8; LONGEST],
) -> io::Result<Option<Case<'a>>> {
    let mut head = [0u8; LONGEST_HEAD];
    if fill(input, &mut head[..HEAD])? < HEAD {
        return Ok(None);
    }
    let length = number_at(&head, DOUBLE_LENGTH) as usize;
    if LONGEST < length || fill(input, &mut room[..length])? < length {
        return Ok(None);
    }
    Ok(Some(Case {
        section: double_in(&head),
        bytes: &room[..length],
    }))
}

// Both forms of the step on the same section and bytes, and a run of their first entry.
fn run_case(out: &impl Print, case: Case<'_>) -> io::Result<()> {
    let after = step(case.section, case.bytes);
    write_stepped(out, after.answer, after.section)?;
    let left = double_step_via(case.section, case.bytes);
    write_stepped(out, left.answer, left.section)?;
    write_ran(out, run(case.section, case.bytes, 1))
}

// Runs at most 65,536 cases.
fn main(rt: HostRuntime) -> io::Result<()> {
    let mut input = rt.stdin();
    let mut room = [0u8; LONGEST];
    for _ in 0..65536 {
        let Some(case) = read_case(&mut input, &mut room)? else {
            break;
        };
        run_case(&rt, case)?;
    }
    Ok(())
}
