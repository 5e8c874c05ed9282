//! The eleven commands, and the reader that finds one on two links.
ghost use Rattle.std.specs.Prelude.{◌≡◌, ◌≤◌, length};
ghost use Rattle.telecommand.specs.Commands.{Legal, command_of};
ghost use Rattle.telecommand.specs.Links.{reads};
ghost use Rattle.telecommand.specs.Shown.{said, said_by};

use super::ReadFault;
use super::kinds::kind_of;
use super::link::choose;
use std::fmt;

/// A command. One that has words shows them where they lie in the frame, two octets to a word, high first.
#[derive(Clone, Copy)]
pub enum Command<'a> {
    /// Does nothing.
    NoOperation,
    /// To mode SAFE.
    Safe,
    /// To mode CHECKOUT.
    Checkout,
    /// An op-code, then its bitwise complement.
    Confirm(&'a [u8]),
    /// Index, then value.
    SetParameter(&'a [u8]),
    CloseDoor,
    /// Both supplies to zero.
    SuppliesOff,
    OpenDoor,
    /// Supply, then set point.
    SetSupply(&'a [u8]),
    /// Heater, then 0 for off or 1 for on.
    SetHeater(&'a [u8]),
    /// Line of a release, then the period in ticks.
    FireRelease(&'a [u8]),
}

// Op-codes are numbers and no enum: links bring any of them, and reports bear any. The cases have words, so their
// numbers cannot be the compiler's.

impl Command<'_> {
    pub fn opcode(&self) -> u16
        ensures { result ≡ (said self.now).opcode }
    {
        match self {
            Command::NoOperation => 0x6601,
            Command::Safe => 0x6602,
            Command::Checkout => 0x6603,
            Command::Confirm(_) => 0x6604,
            Command::SetParameter(_) => 0x6607,
            Command::CloseDoor => 0x660d,
            Command::SuppliesOff => 0x660e,
            Command::OpenDoor => 0x660f,
            Command::SetSupply(_) => 0x6610,
            Command::SetHeater(_) => 0x6611,
            Command::FireRelease(_) => 0x6612,
        }
    }
}

// The command of an op-code, with its words: no `TryFrom`, since an op-code alone has none.
fn named(opcode: u16, words: &[u8]) -> Command<'_>
    requires { Legal opcode words.now }
    ensures { said result ≡ record { opcode = opcode; words = words.now } }
{
    match opcode {
        0x6601 => Command::NoOperation,
        0x6602 => Command::Safe,
        0x6603 => Command::Checkout,
        0x6604 => Command::Confirm(words),
        0x6607 => Command::SetParameter(words),
        0x660d => Command::CloseDoor,
        0x660e => Command::SuppliesOff,
        0x660f => Command::OpenDoor,
        0x6610 => Command::SetSupply(words),
        0x6611 => Command::SetHeater(words),
        0x6612 => Command::FireRelease(words),
        _ => unreachable(),
    }
}

// The command that a data field brings.
fn command_in(field: &[u8]) -> Result<Command<'_>, ReadFault>
    requires { 2 ≤ length field.now }
    ensures { said_by result ≡ command_of field.now }
{
    let [high, low, words @ ..] = field else {
        unreachable()
    };
    let opcode = u16::from_be_bytes([*high, *low]);
    let kind = kind_of(opcode).ok_or(ReadFault::UnknownCommand(opcode))?;
    if words.len() != 2 * usize::from(kind.words) {
        return Err(ReadFault::WordCount(opcode));
    }
    Ok(named(opcode, words))
}

/// The command that the two links bring, or the first fault.
pub fn read<'a>(primary: &'a [u8], redundant: &'a [u8]) -> Result<Command<'a>, ReadFault>
    ensures { said_by result ≡ reads primary.now redundant.now }
{
    command_in(choose(primary, redundant)?)
}

impl fmt::Display for Command<'_> {
    fn fmt<W: fmt::Write>(&self, f: &mut fmt::Formatter<W>) -> fmt::Result {
        f.write_str(match self {
            Command::NoOperation => "no operation",
            Command::Safe => "go to SAFE",
            Command::Checkout => "go to CHECKOUT",
            Command::Confirm(_) => "confirm",
            Command::SetParameter(_) => "set parameter",
            Command::CloseDoor => "close door",
            Command::SuppliesOff => "both supplies to zero",
            Command::OpenDoor => "open door",
            Command::SetSupply(_) => "set supply",
            Command::SetHeater(_) => "set heater",
            Command::FireRelease(_) => "fire release",
        })
    }
}
