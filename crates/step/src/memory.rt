// The step that alters the section in the owner's own memory, of either line.
ghost use Rattle.step.specs.Tables.{StepGives};

use crate::lines::Line;
use crate::stepping::step;
use working::Answer;

// The step on the section lent: its answer is returned, and the section after it is left where it was.
pub fn step_in_place<S: Line>(s: &mut S, bytes: &[u8]) -> Answer
    ensures { StepGives S.TABLE (S.section s.old) bytes.now result (S.section s.new) }
{
    let after = step(*s, bytes);
    *s = after.section;
    after.answer
}
