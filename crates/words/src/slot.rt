// A slot of the ring of vehicles. Its type says that it is one of the ring's, so that none of its readers asks for that.
ghost use Rattle.std.specs.Prelude.{◌%◌, ◌+◌, ◌<◌, ◌≡◌};
ghost use Rattle.words.specs.Stores.{end_slot};
ghost use Rattle.words.specs.Words.{slots, start_in};

use crate::desks::{SLOTS, START, Words};
use working::Station;

#[derive(Clone, Copy, Drop)]
pub(crate) struct Slot {
    pub number: usize,
    ghost in_ring: { number < slots },
}

impl Slot {
    // The slot of the vehicle nearest A.
    pub(crate) fn start_in(words: &Words) -> Slot
        ensures { result.number ≡ start_in words.now }
    {
        Slot {
            number: (words[START] % SLOTS as u64) as usize,
        }
    }

    // So many slots on, round the ring.
    pub(crate) fn on(self, i: usize) -> Slot
        ensures { result.number ≡ (self.number + i) % slots }
    {
        Slot {
            number: (self.number + i % SLOTS) % SLOTS,
        }
    }

    // The slot at a station's end, from this start on, with so many others in the ring.
    pub(crate) fn at_end(self, at: Station, others: usize) -> Slot
        ensures { result.number ≡ end_slot at self.number others }
    {
        match at {
            Station::A => self,
            Station::B => self.on(others),
        }
    }
}
