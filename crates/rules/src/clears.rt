// What a station has asked for, holds, owes and keeps waiting after an act.
ghost use Rattle.std.specs.Prelude.{◌-◌, ◌≡◌};
ghost use Rattle.working.specs.Effects.{brought_clears, clears_left, granted_in, if_any, opened_clears, replied, return_clears, train_clears, train_movement};

use working::{Clears, Desk, Movement};

// `n` where it is above 0, else what stood there. No method of std says it; `max` would keep the larger.
fn if_any(n: u8, before: u8) -> u8
    ensures { result ≡ if_any n before }
{
    if 0 < n { n } else { before }
}

// A RETURN leaves: the enquiry is answered, and line clears granted are owed.
pub fn return_clears(c: Clears, granted: u8) -> Clears
    ensures { result ≡ return_clears c granted }
{
    Clears {
        asked: 0,
        owes: if_any(granted, c.owes),
        ..c
    }
}

// The line clears that a TRAIN leaves held: one less, and none where it is endorsed as the last. `endorsed` is the definition's own mark here and below.
fn clears_left(endorsed: bool, holds: u8) -> u8
    ensures { result ≡ clears_left endorsed holds }
{
    if endorsed { 0 } else { holds.saturating_sub(1) }
}

// A TRAIN leaves on one of the line clears held, and none is left where it is endorsed as the last; where it takes a reply along, that does what a RETURN's does.
pub fn train_clears(endorsed: bool, c: Clears, granted: u8) -> Clears
    ensures { result ≡ train_clears endorsed c granted }
{
    let after = Clears {
        holds: clears_left(endorsed, c.holds),
        ..c
    };
    if 0 < granted {
        return return_clears(after, granted);
    }
    after
}

// What a TRAIN is in the section: endorsed as the last it carries the line clears that it gives up, all that its station holds but its own.
pub fn train_movement(endorsed: bool, holds: u8, asked: u8, granted: u8) -> Movement
    ensures { result ≡ train_movement endorsed holds asked granted }
{
    if endorsed {
        return Movement::LastTrain {
            asked,
            granted,
            given_up: holds.saturating_sub(1),
        };
    }
    Movement::Train { asked, granted }
}

// The other station's OPEN brings an enquiry.
pub fn opened_clears(c: Clears, asked: u8) -> Clears
    ensures { result ≡ opened_clears c asked }
{
    Clears { asked, ..c }
}

// The other station's RETURN or TRAIN brings an enquiry where it asks, and `owes` is what the station then owes.
pub fn brought_clears(c: Clears, asked: u8, owes: u8) -> Clears
    ensures { result ≡ brought_clears c asked owes }
{
    Clears {
        asked: if_any(asked, c.asked),
        owes,
        ..c
    }
}

// The line clears that a vehicle grants.
pub fn granted_in(movement: Movement) -> u8
    ensures { result ≡ granted_in movement }
{
    match movement {
        Movement::Open { .. } | Movement::Through => 0,
        Movement::Return { granted, .. }
        | Movement::Train { granted, .. }
        | Movement::LastTrain { granted, .. } => granted,
    }
}

// The desk after any receipt's reply: what the vehicle grants takes the place of what waits, and what waits is held where the station owes nothing.
pub fn replied_desk(d: Desk, granted: u8) -> Desk
    ensures { result ≡ replied granted d }
{
    let clears = d.clears;
    let waiting = if_any(granted, d.waiting);
    if clears.owes == 0 {
        let holds = if_any(waiting, clears.holds);
        return Desk {
            clears: Clears { holds, ..clears },
            waiting: 0,
            ..d
        };
    }
    Desk { waiting, ..d }
}
