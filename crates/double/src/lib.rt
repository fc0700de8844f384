// The crate to believe for a double line section: its types, the rules of document 02, T-05, as definitions (specs/), and the theorems about them (proofs/).
// Each direction has a line of its own, every train leaves on T/C 602, and nothing is asked for or granted. Entries, answers, counts and intervals are `working`'s.
#![tactic(auto)]

ghost use Rattle.double.specs.Sections.{fresh, fresh_side};
ghost use Rattle.std.specs.Prelude.{◌≡◌};

use working::Counts;

// A station's figures and the line that leaves it: the minute of its last accepted entry, its last form number, the minute of its last departure since BEGIN, and the
// form numbers of its trains still on the line, as sent, in the first `len` of twelve places. The places behind them are looked at where a section is tested (`side_made`).
#[derive(Clone, Copy, Drop)]
pub struct Side {
    pub clock: u16,
    pub last: u16,
    pub interval: Option<u16>,
    pub numbers: [u16; Side::PLACES],
    pub len: u8,
}

impl Side {
    // "17 when twelve are present on that line"
    pub const PLACES: usize = 12;

    // A side at which nothing has been entered.
    pub fn fresh() -> Side
        ensures { result ≡ fresh_side }
    {
        Side {
            clock: 0,
            last: 0,
            interval: None,
            numbers: [0; Side::PLACES],
            len: 0,
        }
    }
}

// The section: in force or not, entries refused, and the two stations' sides.
#[derive(Clone, Copy, Drop)]
pub struct Section {
    pub force: bool,
    pub refused: Counts,
    pub a: Side,
    pub b: Side,
}

impl Section {
    // The fresh section: not in force, and all else zero or none.
    pub fn fresh() -> Section
        ensures { result ≡ fresh }
    {
        Section {
            force: false,
            refused: Counts::zero(),
            a: Side::fresh(),
            b: Side::fresh(),
        }
    }
}
