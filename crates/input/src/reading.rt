// A room filled from a reader. What follows each read is decided by `behind`.
ghost use Rattle.input.specs.Reading.{Came, Fills, GoesOn, behind_read};
ghost use Rattle.std.specs.Io.{ReadsAtMost};
ghost use Rattle.std.specs.Prelude.{length, ◌<◌, ◌≡◌};

use std::io;
use std::io::{ErrorKind, Read};

// How many interrupted reads are tried again. A proved loop has to end, and no run uses this up.
pub const PATIENCE: usize = 65536;

// Where reading goes on: so many bytes further, and with so many interrupted reads still allowed.
#[derive(Clone, Copy, Drop)]
pub struct Onward {
    pub count: usize,
    pub patience: usize,
}

// What follows a read: no bytes are the end of the input, and an interrupted read is tried again while that is allowed.
#[tactic(auto, unfolding(crate::specs::Reading::behind_read))]
pub fn behind(patience: usize, one: io::Result<usize>) -> io::Result<Option<Onward>>
    ensures { result ≡ behind_read patience one }
{
    match one {
        Ok(0) => Ok(None),
        Ok(count) => Ok(Some(Onward { count, patience })),
        Err(why) if why.kind() == ErrorKind::Interrupted && 0 < patience => Ok(Some(Onward {
            count: 0,
            patience: patience - 1,
        })),
        Err(why) => Err(why),
    }
}

// One read into the room left, and what follows it.
#[tactic(auto, using(crate::proofs::Following::follows, crate::proofs::Following::came))]
fn read_some<R: Read>(
    source: &mut R,
    rest: &mut [u8],
    patience: usize,
) -> io::Result<Option<Onward>>
    requires { 0 < length rest.old }
    ensures on { GoesOn (length rest.old) patience result }
    ensures came { Came (R.remaining source.old) (R.remaining source.new) result rest.new }
{
    behind(patience, source.read(rest))
}

// Reads to the end of the input, or until the room is full; how many bytes came. So many interrupted reads are tried again: std's `read_exact` tries each again, and
// does not say how many bytes came before the end.
pub(crate) fn fill_patiently<R: Read>(
    source: &mut R,
    room: &mut [u8],
    patience: usize,
) -> io::Result<usize>
    ensures bound { ReadsAtMost result room.new }
    ensures fills { Fills (R.remaining source.old) (R.remaining source.new) result room.new }
{
    let mut done = 0usize;
    let mut left = patience;
    while done < room.len() {
        let Some(on) = read_some(source, &mut room[done..], left)? else {
            break;
        };
        done += on.count;
        left = on.patience;
    }
    Ok(done)
}

// Fills the room from the input, as far as that reaches; how many bytes came. A read that fails ends it, and so does one that is interrupted: std does not say which reads do.
pub fn fill<R: Read>(source: &mut R, room: &mut [u8]) -> io::Result<usize>
    ensures bound { ReadsAtMost result room.new }
    ensures fills { Fills (R.remaining source.old) (R.remaining source.new) result room.new }
{
    fill_patiently(source, room, 0)
}
