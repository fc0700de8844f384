// Text put into a block: bytes and decimal numbers, one behind the other.
ghost use Rattle.listing.specs.Text.{Adds, AddsAtMost, HasRoom, decimal, digit_at, field, longest_field, longest_number};
ghost use Rattle.std.specs.Prelude.{[], length, ◌%◌, ◌*◌, ◌+◌, ◌<◌, ◌^◌, ◌∷◌, ◌≡◌};

// A blank and a number, the longest of which has 20 digits.
pub(crate) const LONGEST_FIELD: usize = 21;

// A lent block, and the place in it where the next text goes. How much room is asked for goes by what is put, so that it stays a clause of each.
#[derive(Drop)]
pub(crate) struct Line<'a> {
    block: &'a mut [u8],
    at: usize,
}

impl<'a> Line<'a> {
    pub(crate) fn new(block: &'a mut [u8], at: usize) -> Line<'a>
        ensures same_block { result.block.ghost_name ≡ block.entry.ghost_name }
        ensures unaltered { result.block.now ≡ block.old }
        ensures place { result.at ≡ at }
    {
        Line { block, at }
    }

    // The place behind what was put.
    pub(crate) fn behind(&self) -> usize
        ensures { result ≡ self.now.at }
    {
        self.at
    }

    pub(crate) fn push(&mut self, byte: u8)
        requires { HasRoom self.old 1 }
        ensures { Adds self.old (byte ∷ []) self.new }
    {
        self.block[self.at] = byte;
        self.at += 1;
    }

    // Byte by byte: `copy_from_slice` tests each time whether the two overlap, which is 11 instructions more a line of a listing, of some 200 (measured).
    #[tactic(auto, using(crate::proofs::Putting::none_added))]
    pub(crate) fn text(&mut self, bytes: &[u8])
        requires { HasRoom self.old (length bytes.now) }
        ensures { Adds self.old bytes.now self.new }
    {
        for byte in bytes {
            self.push(*byte);
        }
    }

    // The digit of a number at a unit, as 10 or 100, which a smaller number has not.
    fn digit(&mut self, n: u64, unit: u64)
        requires { (0 < unit) × HasRoom self.old 1 }
        ensures { AddsAtMost 1 self.old (digit_at unit n) self.new }
    {
        if unit <= n {
            self.push(last_digit(n / unit));
        }
    }

    // A number below ten times `first`, a unit with `count` zeros: its digits from that unit down, then the last.
    fn digits(&mut self, n: u64, first: u64, count: usize)
        requires { (first ≡ 10 ^ count) × (n < first * 10) × HasRoom self.old (count + 1) }
        ensures { AddsAtMost (count + 1) self.old (decimal n) self.new }
    {
        let mut unit = first;
        for _done in 0..count {
            self.digit(n, unit);
            unit /= 10;
        }
        self.push(last_digit(n));
    }

    // A number in decimal digits, the first of them not 0 unless it is the only one. The units stand here as constants, so that up to five digits are put with no loop and no
    // division when the program is run. `itoa` proves too, and takes 160 instructions more a line, of some 200 (measured).
    pub(crate) fn number(&mut self, n: u64)
        requires { HasRoom self.old longest_number }
        ensures { AddsAtMost longest_number self.old (decimal n) self.new }
    {
        if n < 10 {
            self.digits(n, 1, 0);
        } else if n < 100_000 {
            self.digits(n, 10_000, 4);
        } else {
            self.digits(n, 10_000_000_000_000_000_000, 19);
        }
    }

    // A blank and a number.
    pub(crate) fn field(&mut self, n: u64)
        requires { HasRoom self.old longest_field }
        ensures { AddsAtMost longest_field self.old (field n) self.new }
    {
        self.push(b' ');
        self.number(n);
    }
}

// The ASCII code of the last digit of a number.
fn last_digit(n: u64) -> u8
    ensures { result ≡ 48 + n % 10 }
{
    b'0' + (n % 10) as u8
}
