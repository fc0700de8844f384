// The step that alters the section in the owner's own memory, for callers that hold the section by value.
ghost use Rattle.working.specs.Runs.{StepReturns};

use step::step_in_place;
use working::{Section, Stepped};

pub(crate) fn step_via(s: Section, bytes: &[u8]) -> Stepped<Section>
    ensures { StepReturns s bytes.now result }
{
    let mut left = s;
    let answer = step_in_place(&mut left, bytes);
    Stepped {
        answer,
        section: left,
    }
}
