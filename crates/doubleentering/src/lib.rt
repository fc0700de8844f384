// A double line section in lent words, where it is altered without being copied, and its entries entered into it. specs/DoubleWords.antt says what section the words stand for.
// Each function is total: whatever the words, the answer and what it leaves are those that the definitions of `double` give for the section that they stand for. Whether
// that is well made, 5, is tested by `well_made`, the business of whoever steps. What is here under a name of `words`, `section` or `entering` is a double line's own, by other
// rules; `step` joins the two lines (its trait `Line`).
#![tactic(auto)]

mod kept;
mod kinds;
mod made;
mod places;

pub use kept::{section_in, words_of};
pub use kinds::answer_to;
pub use made::well_made;
pub use places::present;
