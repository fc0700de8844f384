// Bytes put at a place.
ghost use Rattle.figures.specs.Written.{put_at};
ghost use Rattle.std.specs.Prelude.{◌≡◌};

// Bytes put one behind the other, the first of them at a place; none where there is no room for all, which position's `put_bytes` asks for and this one tests.
#[tactic(auto, unfolding(crate::specs::Written::put_at))]
pub fn put_bytes(room: &mut [u8], at: usize, bytes: &[u8])
    ensures { room.new ≡ put_at room.old at bytes.now }
{
    if room.len() < at {
        return;
    }
    if room.len() - at < bytes.len() {
        return;
    }
    room[at..at + bytes.len()].copy_from_slice(bytes);
}
