// BEGIN, MEET and RESUME, which stand apart from the desks; their refusals are of no station.
ghost use Rattle.entering.specs.Entering.{Enters, Tries};
ghost use Rattle.working.specs.Events.{Begin, Meet, Resume, station_of};

use crate::answers::{accepted, declare};
use rules::{begin_verdict, resume_verdict};
use section::station_of;
use words::{Words, in_force, meet, present};
use working::{Answer, Entry, Refusal};

pub(crate) fn enter_begin(words: &mut Words) -> Answer
    ensures { Enters words.old Begin result words.new }
{
    declare(words, begin_verdict(in_force(words)), true)
}

pub(crate) fn enter_resume(words: &mut Words) -> Answer
    ensures { Enters words.old Resume result words.new }
{
    declare(
        words,
        resume_verdict(in_force(words), present(words)),
        false,
    )
}

pub(crate) fn enter_meet(words: &mut Words, e: Entry) -> Answer
    ensures { Tries words.old (Meet (station_of e.station) (station_of e.sender) e.number) result words.new }
{
    let to = station_of(e.station);
    let sender = station_of(e.sender);
    if !in_force(words) {
        return Err(Refusal::NotInForce);
    }
    if !meet(words, to, sender, e.number) {
        return Err(Refusal::MayNotMeet);
    }
    accepted()
}
