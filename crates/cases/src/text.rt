// How the lines say an answer, what was read, what the writer answered, and bytes (docs/CASES.md).
ghost use Rattle.std.specs.Prelude.{take, ◌≡◌};

use std::fmt;
use std::fmt::{Display, Formatter};
use working::{Accepted, Answer, Read, Refusal, Speed};

// A value as a line says it.
#[derive(Clone, Copy, Drop)]
pub(crate) struct Said<T>(pub T);

impl Display for Said<Speed> {
    fn fmt<W: fmt::Write>(&self, f: &mut Formatter<W>) -> fmt::Result {
        match self.0 {
            Speed::NoSpeed => write!(f, "-"),
            Speed::Walking => write!(f, "W"),
            Speed::Kmh(kmh) => write!(f, "{kmh}"),
            Speed::Booked => write!(f, "B"),
            Speed::Both {
                straight,
                elsewhere,
            } => write!(f, "{straight}/{elsewhere}"),
        }
    }
}

impl Display for Said<Answer> {
    fn fmt<W: fmt::Write>(&self, f: &mut Formatter<W>) -> fmt::Result {
        match self.0 {
            Err(why) => write!(f, "no {}", why.number()),
            Ok(Accepted { form, forms, speed }) => {
                write!(f, "ok {form} {forms} {}", Said(speed))
            }
        }
    }
}

// The last answer of a run, where it had an entry.
impl Display for Said<Option<Answer>> {
    fn fmt<W: fmt::Write>(&self, f: &mut Formatter<W>) -> fmt::Result {
        match self.0 {
            Some(answer) => write!(f, "{}", Said(answer)),
            None => write!(f, "none"),
        }
    }
}

impl Display for Said<Read> {
    fn fmt<W: fmt::Write>(&self, f: &mut Formatter<W>) -> fmt::Result {
        match self.0 {
            Read::End => write!(f, "end"),
            Read::Whole(e, _) => {
                write!(
                    f,
                    "entry {} {} {} {} {}",
                    e.map, e.kind, e.station, e.time, e.view
                )?;
                write!(
                    f,
                    " {} {} {} {} {}",
                    e.class, e.asked, e.granted, e.sender, e.number
                )
            }
            Read::Refused(why, _) => write!(f, "no {}", why.number()),
        }
    }
}

impl Display for Said<Result<usize, Refusal>> {
    fn fmt<W: fmt::Write>(&self, f: &mut Formatter<W>) -> fmt::Result {
        match self.0 {
            Ok(next) => write!(f, "filled {next}"),
            Err(why) => write!(f, "no {}", why.number()),
        }
    }
}

// The first so many bytes, or all where there are fewer.
pub(crate) fn front(bytes: &[u8], count: usize) -> &[u8]
    ensures { result.now ≡ take count bytes.now }
{
    &bytes[..count.min(bytes.len())]
}

// Bytes in hex, two digits each.
#[derive(Clone, Copy, Drop)]
pub(crate) struct Hex<'a>(pub &'a [u8]);

impl Display for Hex<'_> {
    fn fmt<W: fmt::Write>(&self, f: &mut Formatter<W>) -> fmt::Result {
        for byte in self.0 {
            write!(f, "{byte:02x}")?;
        }
        Ok(())
    }
}
