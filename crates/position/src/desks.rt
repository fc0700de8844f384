// The counts and a desk as bytes.
ghost use Rattle.std.specs.Prelude.{◌≡◌};
ghost use Rattle.working.specs.Positions.{counts_bytes, counts_in, desk_bytes, desk_in, interval_bytes, interval_of};

use crate::numbers::bytes_at;
use working::{Clears, Counts, Desk};

// The bytes of the counts, and of a desk.
pub const COUNTS: usize = 12;

pub const DESK: usize = 14;

// Entries refused for A, for B, and of no station.
#[tactic(auto, using(crate::proofs::HighFirst::four_there), unfolding(working::specs::Positions::counts_in))]
pub fn counts_in(bytes: &[u8; COUNTS]) -> Counts
    ensures { result ≡ counts_in bytes.now }
{
    Counts {
        a: u32::from_be_bytes(bytes_at(bytes, 0)),
        b: u32::from_be_bytes(bytes_at(bytes, 4)),
        none: u32::from_be_bytes(bytes_at(bytes, 8)),
    }
}

#[tactic(auto, using(crate::proofs::HighFirst::four_bytes), unfolding(working::specs::Positions::counts_bytes))]
pub fn counts_bytes(counts: Counts) -> [u8; COUNTS]
    ensures { result ≡ counts_bytes counts }
{
    let a = counts.a.to_be_bytes();
    let b = counts.b.to_be_bytes();
    let none = counts.none.to_be_bytes();
    [
        a[0], a[1], a[2], a[3], b[0], b[1], b[2], b[3], none[0], none[1], none[2], none[3],
    ]
}

// The interval: not running where its flag is not 1. Flag and minute are bytes of a position (T-06).
pub fn interval_of(running: u8, minute: u16) -> Option<u16>
    ensures { result ≡ interval_of running minute }
{
    (running == 1).then_some(minute)
}

// Whether the interval is running, and its minute.
pub fn interval_bytes(interval: Option<u16>) -> [u8; 3]
    ensures { result ≡ interval_bytes interval }
{
    match interval {
        None => [0, 0, 0],
        Some(minute) => {
            let since = minute.to_be_bytes();
            [1, since[0], since[1]]
        }
    }
}

// The desk that fourteen bytes say.
#[tactic(auto, using(crate::proofs::HighFirst::two_there), unfolding(working::specs::Positions::desk_in))]
pub fn desk_in(bytes: &[u8; DESK]) -> Desk
    ensures { result ≡ desk_in bytes.now }
{
    let minute = u16::from_be_bytes(bytes_at(bytes, 6));
    Desk {
        clock: u16::from_be_bytes(bytes_at(bytes, 0)),
        last: u16::from_be_bytes(bytes_at(bytes, 2)),
        sent: bytes[4],
        interval: interval_of(bytes[5], minute),
        out: bytes[8] == 1,
        guest: bytes[9],
        clears: Clears {
            asked: bytes[10],
            holds: bytes[11],
            owes: bytes[12],
        },
        waiting: bytes[13],
    }
}

// The fourteen bytes of a desk.
#[tactic(auto, using(crate::proofs::HighFirst::two_bytes, crate::proofs::HighFirst::flag_byte), unfolding(working::specs::Positions::desk_bytes))]
pub fn desk_bytes(desk: Desk) -> [u8; DESK]
    ensures { result ≡ desk_bytes desk }
{
    let interval = desk.interval;
    let running = interval_bytes(interval);
    let clears = desk.clears;
    let clock = desk.clock.to_be_bytes();
    let last = desk.last.to_be_bytes();
    [
        clock[0],
        clock[1],
        last[0],
        last[1],
        desk.sent,
        running[0],
        running[1],
        running[2],
        u8::from(desk.out),
        desk.guest,
        clears.asked,
        clears.holds,
        clears.owes,
        desk.waiting,
    ]
}
