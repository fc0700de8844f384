// Where a listing stands, kept in words that a host lends: specs/State.antt says what listing they stand for.
ghost use Rattle.lupinshift.specs.State.{figure_words, listed_at};
ghost use Rattle.std.specs.Prelude.{take, ◌++◌, ◌≡◌};
ghost use Rattle.words.specs.Words.{word_count};

use step::Listed;
use words::{WORDS, Words};

// Behind the section's words the offset, how many entries may come, entries, accepted, and whether the listing has ended. A host lends these words and hands them on from
// call to call, so they stay numbers at fixed places: the C interface, `lupin_begin` and `lupin_fill`.
const AT: usize = WORDS;

const LEFT: usize = AT + 1;

const ENTRIES: usize = AT + 2;

const ACCEPTED: usize = AT + 3;

const ENDED: usize = AT + 4;

pub(crate) const STATE_WORDS: usize = AT + 5;

pub(crate) type State = [u64; STATE_WORDS];

// The section's words.
pub(crate) fn section_words(state: &State) -> Words
    ensures { result ≡ take word_count state.now }
{
    let mut section = [0; WORDS];
    section.copy_from_slice(&state[..WORDS]);
    section
}

// Where the listing stands but for the section.
pub(crate) fn listed_at(state: &State) -> Listed
    ensures { result ≡ listed_at state.now }
{
    Listed {
        at: state[AT] as usize,
        left: state[LEFT] as usize,
        entries: state[ENTRIES] as usize,
        accepted: state[ACCEPTED] as usize,
        ended: state[ENDED] == 1,
    }
}

// Puts a section's words, and where its listing stands.
pub(crate) fn keep(state: &mut State, section: &Words, listed: Listed)
    ensures { state.new ≡ section.now ++ figure_words listed }
{
    state[..WORDS].copy_from_slice(section);
    state[AT] = listed.at as u64;
    state[LEFT] = listed.left as u64;
    state[ENTRIES] = listed.entries as u64;
    state[ACCEPTED] = listed.accepted as u64;
    state[ENDED] = u64::from(listed.ended);
}
