// A case on standard input: what is done with it, its head, whose last two bytes are a length, and so many bytes behind them.
ghost use Rattle.figures.specs.Figures.{longest_head};
ghost use Rattle.std.specs.Prelude.{IfOk, IfSome, length, ◌≤◌};

use figures::{Head, LONGEST_HEAD, number_at};
use input::fill;
use std::io;
use std::io::Read;
use working::Table;

// The most bytes behind a head.
pub(crate) const LONGEST: usize = 4096;

// What is done with a case, and by which table where it says one.
#[derive(Clone, Copy, Drop)]
pub(crate) enum Kind {
    Log,
    Step,
    Write(Table),
    Offset(Table),
}

impl Kind {
    // What the first byte of a case says.
    fn said_by(byte: u8) -> Option<Kind> {
        match byte {
            1 => Some(Kind::Log),
            2 => Some(Kind::Step),
            3 => Some(Kind::Write(Table::SingleLine)),
            4 => Some(Kind::Offset(Table::SingleLine)),
            5 => Some(Kind::Write(Table::DoubleLine)),
            6 => Some(Kind::Offset(Table::DoubleLine)),
            _ => None,
        }
    }

    // The bytes of the head.
    fn head_length(self) -> usize
        ensures least { 2 ≤ result }
        ensures most { result ≤ longest_head }
    {
        match self {
            Kind::Log => 2,
            Kind::Step => LONGEST_HEAD,
            Kind::Write(_) => 16,
            Kind::Offset(_) => 4,
        }
    }
}

// A case that was read: its bytes lie in the room lent.
#[derive(Drop)]
pub(crate) struct Case<'a> {
    pub kind: Kind,
    pub head: Head,
    pub bytes: &'a mut [u8],
}

// The next case; none at the end of the input, and where what stands there is no whole case.
pub(crate) fn read_case<'a>(
    input: &mut impl Read,
    room: &'a mut [u8; LONGEST],
) -> io::Result<Option<Case<'a>>>
    ensures { IfOk result (λ found. IfSome found (λ case. length case.bytes.now ≤ LONGEST)) }
{
    let mut first = [0u8; 1];
    let mut head = [0u8; LONGEST_HEAD];
    fill(input, &mut first)?;
    let Some(kind) = Kind::said_by(first[0]) else {
        return Ok(None);
    };
    let size = kind.head_length();
    if fill(input, &mut head[..size])? < size {
        return Ok(None);
    }
    let length = number_at(&head, size - 2) as usize;
    if LONGEST < length || fill(input, &mut room[..length])? < length {
        return Ok(None);
    }
    Ok(Some(Case {
        kind,
        head,
        bytes: &mut room[..length],
    }))
}
