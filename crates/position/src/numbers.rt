// Numbers as bytes, high byte first, and bytes read and put at a place.
ghost use Rattle.std.specs.Prelude.{drop, length, take, ◌*◌, ◌+◌, ◌≡◌, ◌≤◌};
ghost use Rattle.working.specs.Entries.{pasted};

// The number that two bytes stand for.
pub fn two(high: u8, low: u8) -> u16
    ensures { result ≡ high * 256 + low }
{
    u16::from_be_bytes([high, low])
}

// So many bytes, the first of them at a place.
pub(crate) fn bytes_at<const N: usize>(bytes: &[u8], at: usize) -> [u8; N]
    requires { at + N ≤ length bytes.now }
    ensures { result ≡ take N (drop at bytes.now) }
{
    *bytes[at..].first_chunk().unwrap()
}

// Bytes put one behind the other, the first of them at a place: `copy_from_slice` with the end reckoned, and what it leaves said as `pasted`, for four callers.
pub(crate) fn put_bytes(room: &mut [u8], at: usize, bytes: &[u8])
    requires { at + length bytes.now ≤ length room.old }
    ensures { room.new ≡ pasted room.old at bytes.now }
{
    room[at..at + bytes.len()].copy_from_slice(bytes);
}
