//! What a command asks of the head, as plain values.
ghost use Rattle.std.specs.Prelude.{◌≡◌, ◌<◌, slice_index};
ghost use Rattle.telecommand.specs.Shown.{said};
ghost use Rattle.telecommand.specs.Packet.{word};
ghost use Rattle.head.specs.Requests.{Asks, op_of, order_op, barred as barred_by};

use super::Order;
use telecommand::{Command, kind_of};

/// What a command asks: the critical ones as the orders that would wait.
#[derive(Clone, Copy)]
pub enum Request {
    Nothing,
    Safe,
    Checkout,
    /// An op-code, and what should be its complement.
    Confirm(u16, u16),
    CloseDoor,
    SuppliesOff,
    /// Heater, 0 or 1.
    Heater(u8, u8),
    Critical(Order),
}

// The octet at `i`, or 0 past the end.
fn octet(words: &[u8], i: usize) -> u8
    ensures { result ≡ slice_index words.now i }
{
    words.get(i).copied().unwrap_or(0)
}

// The word in the octets `i` and `i + 1`, high first.
fn word_at(words: &[u8], i: usize) -> u16
    requires { i < 9 }
    ensures { result ≡ word words.now i }
{
    u16::from_be_bytes([octet(words, i), octet(words, i + 1)])
}

// The cases have fields, so their op-codes cannot be the compiler's numbers.

impl Order {
    pub(super) fn opcode(self) -> u16
        ensures { result ≡ order_op self }
    {
        match self {
            Order::SetParameter(_, _) => 0x6607,
            Order::OpenDoor => 0x660f,
            Order::SetSupply(_, _) => 0x6610,
            Order::FireRelease(_, _) => 0x6612,
        }
    }
}

impl<'a> From<Command<'a>> for Request {
    ghost from_gives = { Asks };

    fn from(command: Command<'a>) -> Request {
        match command {
            Command::NoOperation => Request::Nothing,
            Command::Safe => Request::Safe,
            Command::Checkout => Request::Checkout,
            Command::Confirm(words) => Request::Confirm(word_at(words, 0), word_at(words, 2)),
            Command::SetParameter(words) => Request::Critical(Order::SetParameter(
                octet(words, 0),
                octet(words, 1),
            )),
            Command::CloseDoor => Request::CloseDoor,
            Command::SuppliesOff => Request::SuppliesOff,
            Command::OpenDoor => Request::Critical(Order::OpenDoor),
            Command::SetSupply(words) => Request::Critical(Order::SetSupply(
                octet(words, 0),
                octet(words, 1),
            )),
            Command::SetHeater(words) => Request::Heater(octet(words, 0), octet(words, 1)),
            Command::FireRelease(words) => Request::Critical(Order::FireRelease(
                octet(words, 0),
                octet(words, 1),
            )),
        }
    }
}

impl Request {
    pub(super) fn opcode(self) -> u16
        ensures { result ≡ op_of self }
    {
        match self {
            Request::Nothing => 0x6601,
            Request::Safe => 0x6602,
            Request::Checkout => 0x6603,
            Request::Confirm(_, _) => 0x6604,
            Request::CloseDoor => 0x660d,
            Request::SuppliesOff => 0x660e,
            Request::Heater(_, _) => 0x6611,
            Request::Critical(order) => order.opcode(),
        }
    }

    // Whether SAFE refuses it.
    pub(super) fn barred(self) -> bool
        ensures { result ≡ barred_by self }
    {
        kind_of(self.opcode()).is_some_and(|kind| kind.not_in_safe)
    }
}
