// Lists a single line's log from standard input on standard output. What the machine fails at is said on standard error: after a failed read nothing is listed,
// and after a failed write nothing more. A contract cannot say what is read or written, so what is here is thin; scripts/try-lister runs it.
#![tactic(auto)]

mod writing;

use input::Rooms;
use std::env::{Env, FillError};
use std::io;
use writing::{say, write_listing};

fn main(rt: HostRuntime) -> io::Result<()> {
    let Err(FillError::NotPresent) = rt.arg(1, &mut []) else {
        return eprintln!(rt; "usage: lister <LOG");
    };
    let rooms = &mut Rooms {
        log: [0u8; 65537],
        block: [0u8; 16384],
    };
    let len = match rooms.read_log(&mut rt.stdin()) {
        Ok(len) => len,
        Err(why) => return say(&rt, "reading standard input", why),
    };
    if let Err(why) = write_listing(&rt, &rooms.log[..len], &mut rooms.block) {
        return say(&rt, "writing standard output", why);
    }
    Ok(())
}
