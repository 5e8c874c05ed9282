//! Event lines: a letter, a space, and what the event brings.
ghost use Rattle.std.specs.Prelude.{◌≡◌};
ghost use Rattle.script.specs.Events.{kind_of, fields_of, text_of, InRange, Of, Only};
ghost use Rattle.script.specs.Reading.{Reads};
ghost use Rattle.script.specs.declared.outcome.Kind.TheVariants.{Frame as OfFrame, Ticks as OfTicks, Sample as OfSample, Second as OfSecond};

use super::decimals::{bytes, number, short};
use super::hexadecimal::{MOST, Octets, read_octets};
use super::outcome::Kind;
use head::{Mark, Sample};
use std::str::from_utf8;

// A value and no closure: contracts speak of it.

/// What an event line brings to a head.
#[derive(Clone, Copy)]
pub enum EventLine {
    /// A frame: octets on the primary link, none for an empty one.
    Frame(Octets),
    /// So many ticks, one after the other, at least one.
    Ticks(u16),
    /// A high-voltage sample.
    Sample(Sample),
    /// A second mark.
    Second(Mark),
}

impl EventLine {
    /// The kind of the event.
    pub fn kind(&self) -> Kind
        ensures { result ≡ kind_of self.now }
    {
        match self {
            EventLine::Frame(_) => Kind::Frame,
            EventLine::Ticks(_) => Kind::Ticks,
            EventLine::Sample(_) => Kind::Sample,
            EventLine::Second(_) => Kind::Second,
        }
    }
}

// A frame from its one field: octets in hexadecimal, or `-` for none.
fn frame(fields: &str) -> Option<EventLine>
    ensures { Reads (Of OfFrame) fields_of fields.now result }
{
    let octets = if fields == "-" {
        Octets {
            bytes: [0; MOST],
            count: 0,
        }
    } else {
        read_octets(fields.as_bytes())?
    };
    Some(EventLine::Frame(octets))
}

// Ticks from their number, 1 to 65,535.
fn ticks(fields: &str) -> Option<EventLine>
    ensures { Reads (Of OfTicks) fields_of fields.now result }
{
    let ticks = short(fields)?;
    (ticks != 0).then_some(EventLine::Ticks(ticks))
}

// A sample from its six bytes.
fn sample(fields: &str) -> Option<EventLine>
    ensures { Reads (Of OfSample) fields_of fields.now result }
{
    let [plate0, plate1, strip0, strip1, anode0, anode1] = bytes::<6>(fields)?;
    Some(EventLine::Sample(Sample {
        plate: [plate0, plate1],
        strip: [strip0, strip1],
        anode: [anode0, anode1],
    }))
}

// A second mark from its raw count and eight temperatures.
fn second(fields: &str) -> Option<EventLine>
    ensures { Reads (Of OfSecond) fields_of fields.now result }
{
    let (first, others) = fields.split_once(' ')?;
    let raw = number(first, u32::MAX)?;
    let temperatures = bytes(others)?;
    Some(EventLine::Second(Mark { raw, temperatures }))
}

/// What an event line brings, or none where the line is malformed.
pub fn event_line(line: &[u8]) -> Option<EventLine>
    ensures reads { Reads InRange text_of line.now result }
    ensures only { Only line.now result }
{
    let (letter, fields) = from_utf8(line).ok()?.split_once(' ')?;
    match letter {
        "F" => frame(fields),
        "T" => ticks(fields),
        "H" => sample(fields),
        "S" => second(fields),
        _ => None,
    }
}
