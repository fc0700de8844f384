// The memory of a lister, of either line, the reading of a log into it, and the listing of that log.
ghost use Rattle.input.specs.Reading.{Fills, FitsRoom, most_read};
ghost use Rattle.listing.specs.LineText.{longest_line};
ghost use Rattle.std.specs.Prelude.{length, ◌≡◌, ◌≤◌};

use crate::reading::{PATIENCE, fill_patiently};
use crate::writing::{say, write_listing};
use std::io;
use std::io::{Eprint, Print, Read};
use step::Line;

// Room for the longest log and a byte more, which tells a longer one, and a block of its listing.
#[derive(Drop)]
pub struct Rooms<const LOG: usize, const BLOCK: usize> {
    pub log: [u8; LOG],
    pub block: [u8; BLOCK],
    pub ghost whole_log: { length log ≡ most_read },
    pub ghost whole_line: { longest_line ≤ length block },
}

impl<const LOG: usize, const BLOCK: usize> Rooms<LOG, BLOCK> {
    // Reads a log to the end of the input, or until the room is full, which takes the longest log and a byte more; how many bytes came.
    pub fn read_log<R: Read>(&mut self, source: &mut R) -> io::Result<usize>
        ensures fits { FitsRoom result most_read }
        ensures fills { Fills (R.remaining source.old) (R.remaining source.new) result self.new.log }
        ensures block { self.new.block ≡ self.old.block }
    {
        fill_patiently(source, &mut self.log, PATIENCE)
    }

    // Lists a log on standard output. After a failed read nothing is listed, and after a failed write nothing more; either is said on standard error. No contract can say what
    // std's `Print` takes, so here stands none: it is safe and ends.
    pub fn list<S: Line>(
        &mut self,
        out: &(impl Print + Eprint),
        source: &mut impl Read,
        program: &str,
    ) -> io::Result<()> {
        let len = match self.read_log(source) {
            Ok(len) => len,
            Err(why) => return say(out, program, "reading standard input", why),
        };
        if let Err(why) = write_listing::<S>(out, &self.log[..len], &mut self.block) {
            return say(out, program, "writing standard output", why);
        }
        Ok(())
    }
}
