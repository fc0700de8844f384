// The test that a double line section is well made: each line's numbers and unused places in a pass of their own, then the figures.
ghost use Rattle.double.specs.WellMade.{is_fresh_side, rising, side_made, well_made};
ghost use Rattle.std.specs.Prelude.{◌≡◌};
ghost use Rattle.working.specs.Entries.{every};
ghost use Rattle.working.specs.WellMade.{zero_tests};

use double::{Section, Side};
use section::is_not_later;
use working::Desk;

// Whether numbers rise, all of them above 0 and none above `last`. `is_sorted_by` would leave the two ends to be tested beside it.
fn rises(line: &[u16], last: u16) -> bool
    ensures { result ≡ rising 0 last line.now }
{
    let mut below: u16 = 0;
    let mut rises = true;
    for number in line {
        rises = rises & ((below < *number) & (*number <= last));
        below = *number;
    }
    rises
}

// Whether places are unused, the last first, as a single line's; one for both would take the test of a place as an argument.
fn all_unused(places: &[u16]) -> bool
    ensures { result ≡ every (zero_tests places.now) }
{
    places
        .iter()
        .rev()
        .fold(true, |unused, number| (*number == 0) & unused)
}

fn side_made(d: Side) -> bool
    ensures { result ≡ side_made d }
{
    let interval = d.interval;
    let numbers = d.numbers;
    let len = usize::from(d.len);
    if Side::PLACES < len {
        return false;
    }
    let (line, unused) = numbers.split_at(len);
    let numbered = rises(line, d.last) & all_unused(unused);
    (d.last <= Desk::LAST_FORM) & numbered & is_not_later(interval, d.clock)
}

// Whether nothing has been entered at a side. The numbers are left out, which `side_made` has looked at, and so this is no equality with `Side::fresh()`.
fn is_fresh(d: Side) -> bool
    ensures { result ≡ is_fresh_side d }
{
    let interval = d.interval;
    (d.clock == 0) & (d.last == 0) & interval.is_none() & (d.len == 0)
}

// Whether a section is well made.
#[tactic(auto, unfolding(double::specs::WellMade::well_made))]
pub fn well_made(s: Section) -> bool
    ensures { result ≡ well_made s }
{
    let a = s.a;
    let b = s.b;
    let idle = is_fresh(a) & is_fresh(b);
    side_made(a) & (side_made(b) & (s.force | idle))
}
