// The double line's step that alters the section in the owner's own memory, for callers that hold the section by value.
ghost use Rattle.double.specs.Runs.{StepReturns};

use double::Section;
use step::step_in_place;
use working::Stepped;

pub(crate) fn double_step_via(s: Section, bytes: &[u8]) -> Stepped<Section>
    ensures { StepReturns s bytes.now result }
{
    let mut left = s;
    let answer = step_in_place(&mut left, bytes);
    Stepped {
        answer,
        section: left,
    }
}
