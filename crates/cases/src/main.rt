// Runs the stored cases on standard input and writes what came of each: both forms of the step on any section, the reader at any offset, and the writer.
// docs/CASES.md has the two formats. The second program wrote the cases, and `stdout` is what it says must come of them.
#![tactic(auto)]

ghost use Rattle.std.specs.Prelude.{length, ◌≤◌};

use case::{Case, Kind, LONGEST, read_case};
use figures::{entry_in, number_at, section_in};
use logs::{run_log, run_offset};
use std::io;
use steps::run_step;
use written::run_write;

mod case;
mod lines;
mod logs;
mod memory;
mod reading;
mod sections;
mod steps;
mod text;
mod written;

// Runs a case.
fn run_case(out: &impl Print, case: Case<'_>) -> io::Result<()>
    requires { length case.bytes.now ≤ LONGEST }
{
    let head = case.head;
    match case.kind {
        Kind::Log => run_log(out, case.bytes),
        Kind::Step => run_step(out, section_in(&head), case.bytes),
        Kind::Write(table) => {
            let fill = number_at(&head, 12) as usize;
            run_write(out, table, case.bytes, fill, entry_in(&head))
        }
        Kind::Offset(table) => run_offset(out, table, number_at(&head, 0) as usize, case.bytes),
    }
}

// Runs at most 65,536 cases.
fn main(rt: HostRuntime) -> io::Result<()> {
    let mut input = rt.stdin();
    let mut room = [0u8; LONGEST];
    for _ in 0..65536 {
        let Some(case) = read_case(&mut input, &mut room)? else {
            break;
        };
        run_case(&rt, case)?;
    }
    Ok(())
}
