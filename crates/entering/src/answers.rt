// What every kind may end in, of a single line and of a double line: a refusal, or an answer with no form; and what BEGIN and RESUME come to.
ghost use Rattle.entering.specs.Entering.{Declares, Refuses};
ghost use Rattle.std.specs.Prelude.{◌≡◌};
ghost use Rattle.working.specs.Answers.{accept};
ghost use Rattle.working.specs.declared.Speed.TheVariants.{NoSpeed};

use words::{Words, count_refusal, empty};
use working::{Accepted, Answer, Refusal, Speed, Station, Verdict};

// A refusal: one more in the count that it belongs to, and nothing else altered.
pub fn refuse(words: &mut Words, whose: Option<Station>, why: Refusal) -> Answer
    ensures { Refuses words.old whose why result words.new }
{
    count_refusal(words, whose);
    Err(why)
}

// Accepted with no form, no forms and no speed.
pub fn accepted() -> Answer
    ensures { result ≡ accept 0 0 NoSpeed }
{
    Ok(Accepted {
        form: 0,
        forms: 0,
        speed: Speed::NoSpeed,
    })
}

// BEGIN or RESUME, by what its tests come to: a refusal is of no station; else all but the counts is made anew, in force or not.
pub fn declare(words: &mut Words, verdict: Verdict, force: bool) -> Answer
    ensures { Declares words.old verdict force result words.new }
{
    if let Err(why) = verdict {
        return refuse(words, None, why);
    }
    empty(words, force);
    accepted()
}
