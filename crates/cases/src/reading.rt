// The reader over a lent log, for callers that hold the table, the log and an offset.
ghost use Rattle.cases.specs.Seen.{seen_in};
ghost use Rattle.std.specs.Prelude.{◌≡◌};

use entry::reader::Reader;
use working::{Read, Table};

// What readers say of a log: what one made over it reads first, what one at an offset reads there, and where that one stands once it is moved on.
#[derive(Clone, Copy, Drop)]
pub(crate) struct Seen {
    pub first: Read,
    pub here: Read,
    pub next: usize,
}

pub(crate) fn seen_at(table: Table, log: &[u8], at: usize) -> Seen
    ensures { result ≡ seen_in table log.now at }
{
    Seen {
        first: Reader::new(table, log).next(),
        here: Reader::at(table, log, at).next(),
        next: Reader::at(table, log, at).advance().at,
    }
}
