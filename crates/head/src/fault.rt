//! What the head answers when it refuses, and what it notes in the log.
ghost use Rattle.std.specs.Prelude.{◌≡◌};
ghost use Rattle.head.specs.Faults.{report_of, note_of};

use super::Check;
use codes::Report;
use std::fmt;
use telecommand::ReadFault;

/// Why an event is refused. An op-code is the frame's own.
#[derive(Clone, Copy, PartialEq, Debug)]
pub enum Fault {
    /// Neither link holds anything.
    BothEmpty,
    /// What the links hold is no command.
    Unread(ReadFault),
    /// The command is not for SAFE.
    NotInSafe(u16),
    /// A critical command came while another waits.
    CriticalWaits(u16),
    /// The confirm is not the waiting op-code and its complement.
    WrongConfirm,
    /// Nothing waits for a confirm.
    NothingWaits,
    /// A value is outside its range: the first wrong octet, and the op-code.
    OutOfRange(u16, u16),
    /// CHECKOUT while the safety timer runs.
    TimerRuns,
    /// A drive is asked for while one runs.
    DriveRuns(u16),
    /// The waiting command would be refused now.
    ConfirmFailed,
    /// The raw count has more than 24 bits.
    RawCount,
}

/// What is logged and is no answer.
#[derive(Clone, Copy)]
pub enum Note {
    /// A frame made the waiting command of this op-code lose its place.
    Lost(u16),
    /// The waiting command of this op-code was not confirmed in time.
    Late(u16),
    /// This check made the head enter SAFE.
    Tripped(Check),
    /// The stored parameter of this index was outside its range.
    Replaced(u8),
}

impl From<Fault> for Report {
    ghost from_gives = { λ fault report. report ≡ report_of fault };

    fn from(fault: Fault) -> Report {
        match fault {
            Fault::BothEmpty => Report::new(1, 0x11, 0, 0),
            Fault::Unread(fault) => fault.into(),
            Fault::NotInSafe(opcode) => Report::new(2, 0x23, 6, opcode),
            Fault::CriticalWaits(opcode) => Report::new(2, 0x24, 6, opcode),
            Fault::WrongConfirm => Report::new(2, 0x25, 8, 0x6604),
            Fault::NothingWaits => Report::new(2, 0x27, 6, 0x6604),
            Fault::OutOfRange(place, opcode) => Report::new(2, 0x40, place, opcode),
            Fault::TimerRuns => Report::new(3, 0x30, 6, 0x6603),
            Fault::DriveRuns(opcode) => Report::new(3, 0x41, 6, opcode),
            Fault::ConfirmFailed => Report::new(3, 0x45, 6, 0x6604),
            Fault::RawCount => Report::new(4, 0x50, 0, 0),
        }
    }
}

impl From<Note> for Report {
    ghost from_gives = { λ note report. report ≡ note_of note };

    fn from(note: Note) -> Report {
        match note {
            Note::Lost(opcode) => Report::new(2, 0x26, 6, opcode),
            Note::Late(opcode) => Report::new(2, 0x28, 6, opcode),
            Note::Tripped(check) => Report::new(
                4,
                0x60 + check.number(),
                u16::from(check.number()),
                0,
            ),
            Note::Replaced(index) => Report::new(5, 0x52, u16::from(index), 0),
        }
    }
}

impl fmt::Display for Fault {
    fn fmt<W: fmt::Write>(&self, f: &mut fmt::Formatter<W>) -> fmt::Result {
        match *self {
            Fault::BothEmpty => write!(f, "neither link holds anything"),
            Fault::Unread(fault) => write!(f, "{fault}"),
            Fault::NotInSafe(opcode) => write!(f, "command {opcode:04x} is not for SAFE"),
            Fault::CriticalWaits(opcode) => write!(
                f,
                "command {opcode:04x} came while another waited for its confirm"
            ),
            Fault::WrongConfirm => write!(f, "the confirm does not match what waited"),
            Fault::NothingWaits => write!(f, "nothing waits for a confirm"),
            Fault::OutOfRange(place, opcode) => write!(
                f,
                "octet {place} of command {opcode:04x} is outside its range"
            ),
            Fault::TimerRuns => write!(f, "CHECKOUT has to wait for the safety timer"),
            Fault::DriveRuns(opcode) => write!(
                f,
                "command {opcode:04x} asks for a drive while one runs"
            ),
            Fault::ConfirmFailed => write!(f, "what waited would be refused now"),
            Fault::RawCount => write!(f, "the raw count is too large"),
        }
    }
}

impl fmt::Display for Note {
    fn fmt<W: fmt::Write>(&self, f: &mut fmt::Formatter<W>) -> fmt::Result {
        match *self {
            Note::Lost(opcode) => write!(f, "command {opcode:04x} was lost to another frame"),
            Note::Late(opcode) => write!(f, "command {opcode:04x} was not confirmed in time"),
            Note::Tripped(check) => {
                let number = check.number();
                write!(f, "check {number} tripped: SAFE")
            }
            Note::Replaced(index) => write!(f, "stored parameter {index} was outside its range"),
        }
    }
}
