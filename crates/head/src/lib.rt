//! The head of a detector: modes, critical commands with their confirms, timed drives, checks and the safe state,
//! over any board.
#![tactic(auto)]

ghost use Rattle.std.specs.Prelude.{Some};
ghost use Rattle.std.specs.Fmt.{padded};
ghost use Rattle.head.specs.Modes.{mode_name};

mod accept;
mod checks;
mod fault;
mod frame;
mod parameters;
mod power;
mod records;
mod request;
mod safe;
mod sample;
mod second;
mod tick;

pub use checks::{Check, Mark, Sample};
pub use fault::{Fault, Note};
pub use parameters::{CLOSE_ON_SAFE, defaults};
pub use records::Records;
use std::fmt;
pub use tick::Due;

#[derive(Clone, Copy, PartialEq, Eq, Debug)]
pub enum Mode {
    Safe,
    Checkout,
}

impl fmt::Display for Mode {
    ghost output = { λ mode. Some (mode_name mode) };

    ghost styled_output = { λ mode spec. Some (padded spec (mode_name mode)) };

    fn fmt<W: fmt::Write>(&self, f: &mut fmt::Formatter<W>) -> fmt::Result {
        f.pad(match self {
            Mode::Safe => "SAFE",
            Mode::Checkout => "CHECKOUT",
        })
    }
}

/// A critical command: it waits for its confirm before it acts.
#[derive(Clone, Copy)]
pub enum Order {
    /// Index, value.
    SetParameter(u8, u8),
    OpenDoor,
    /// Supply, set point.
    SetSupply(u8, u8),
    /// Line, period in ticks.
    FireRelease(u8, u8),
}

/// What lasts for some ticks more.
#[derive(Clone, Copy)]
pub struct Timed<T> {
    what: T,
    left: u16,
}

/// A critical command that waits, and the ticks until it is lost.
pub type Waiting = Timed<Order>;

/// A line that is driven, and the ticks until it goes off.
pub type Drive = Timed<u8>;

/// What the head counts: seconds, ticks of the second, seconds of safety, failures of each check; and the raw count
/// of the latest second mark.
#[derive(Clone, Copy, Default)]
pub struct Meters {
    time: u32,
    tick: u8,
    timer: u8,
    counts: [u8; 3],
    last: Option<u32>,
}

#[derive(Clone, Copy)]
pub struct Core {
    mode: Mode,
    waiting: Option<Waiting>,
    drive: Option<Drive>,
    parameters: [u8; 25],
    meters: Meters,
}

// No `impl Model` shows a head as its state: a clause could then not name the board, and `board` and `into_board`
// promise the board itself.

/// A head and the board that it drives, which nobody else can touch.
#[derive(Drop)]
pub struct Head<B> {
    board: B,
    core: Core,
}
