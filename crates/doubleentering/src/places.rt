// The two lines in words: who is on them, a train that leaves, and one that arrives.
ghost use Rattle.double.specs.Sections.{line_of, side, side_of};
ghost use Rattle.double.specs.Steps.{cleared, is_first};
ghost use Rattle.doubleentering.specs.DoubleWords.{PlacesBecome, SideBecomes, double_in, moved_up, places_from};
ghost use Rattle.std.specs.Prelude.{Some, [], ◌++◌, ◌+◌, ◌<◌, ◌∷◌, ◌≡◌, ◌≤◌};
ghost use Rattle.words.specs.Words.{ring_from, section_in, word_count};
ghost use Rattle.working.specs.Sections.{desk_of};

use double::Side;
use words::{RING, Words, desk, put_departure, put_sent};
use working::Station;

// One more than the largest form number that two bytes hold.
pub(crate) const TWO_BYTES: u64 = 65536;

// Trains on a line.
const MOST: u8 = Side::PLACES as u8;

// Where a station's places begin. The words and the station stay two arguments below: callers hold the words alone, and would build a struct of both for one call.
pub(crate) fn line_from(at: Station) -> usize
    ensures { (result ≡ ring_from + places_from at) × (result + 12 ≤ word_count) }
{
    match at {
        Station::A => RING,
        Station::B => RING + Side::PLACES,
    }
}

// Whether a form number is the first on a station's line.
pub(crate) fn is_first(words: &Words, at: Station, form: u16) -> bool
    ensures { result ≡ is_first form (line_of (side_of (double_in words.now) at)) }
{
    let d = desk(words, at);
    let first = (words[line_from(at)] % TWO_BYTES) as u16;
    (0 < d.sent) & (first == form)
}

// A train leaves under a form number, the last on its line, behind the `sent` that are there, which its caller has read: its station's clock, last form number and interval
// follow it.
pub(crate) fn put_train(words: &mut Words, at: Station, time: u16, form: u16, sent: u8)
    requires { (sent ≡ (desk_of (section_in words.old) at).sent) × (sent < 12) }
    ensures { SideBecomes words.old words.new at (λ d. side time form (Some time) (line_of d ++ form ∷ [])) }
{
    put_departure(words, at, time, form, sent + 1);
    words[line_from(at) + sent as usize] = form as u64;
}

// Every number of a line moves to the place before it; the last place keeps its own.
fn move_up(words: &mut Words, at: Station)
    ensures { PlacesBecome words.old words.new at moved_up }
{
    let from = line_from(at);
    words.copy_within(from + 1..from + Side::PLACES, from);
}

// The first train on a line is there no longer.
pub(crate) fn take_first(words: &mut Words, at: Station)
    ensures { SideBecomes words.old words.new at cleared }
{
    let d = desk(words, at);
    put_sent(words, at, d.sent.min(MOST).saturating_sub(1));
    move_up(words, at);
}

// How many trains are on both lines: a sum of two counts, where a single line has one word.
#[tactic(auto, unfolding(crate::specs::DoubleWords::double_in, words::specs::Words::section_in))]
pub fn present(words: &Words) -> usize
    ensures { let s = double_in words.now in result ≡ s.a.len + s.b.len }
{
    let a = desk(words, Station::A);
    let b = desk(words, Station::B);
    a.sent as usize + b.sent as usize
}
