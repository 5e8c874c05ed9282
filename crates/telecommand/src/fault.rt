//! What the reader and the writer of telecommands refuse.
ghost use Rattle.std.specs.Prelude.{◌≡◌};
ghost use Rattle.telecommand.specs.Faults.{read_report, write_report};

use codes::Report;
use std::fmt;

/// Why what stands on the links is no command.
#[derive(Clone, Copy, PartialEq, Eq, Debug)]
pub enum ReadFault {
    /// The link has fewer than 8 octets, or not as many as its header says.
    Length,
    /// This octet of the header is not a telecommand's.
    Header(u16),
    /// No command has this op-code.
    UnknownCommand(u16),
    /// Another number of octets follows this op-code than its command has.
    WordCount(u16),
}

/// Why a frame is not written.
#[derive(Clone, Copy, PartialEq, Eq, Debug)]
pub enum WriteFault {
    /// The frame would pass the end of the buffer.
    PastEnd,
    /// No frame has more than two words, or a sequence count above 16,383.
    NoFrame,
}

impl From<ReadFault> for Report {
    ghost from_gives = { λ fault report. report ≡ read_report fault };

    fn from(fault: ReadFault) -> Report {
        match fault {
            ReadFault::Length => Report::new(1, 0x20, 4, 0),
            ReadFault::Header(place) => Report::new(1, 0x10, place, 0),
            ReadFault::UnknownCommand(opcode) => Report::new(2, 0x21, 6, opcode),
            ReadFault::WordCount(opcode) => Report::new(2, 0x22, 8, opcode),
        }
    }
}

impl From<WriteFault> for Report {
    ghost from_gives = { λ fault report. report ≡ write_report fault };

    fn from(fault: WriteFault) -> Report {
        match fault {
            WriteFault::PastEnd => Report::new(6, 0x71, 0, 0),
            WriteFault::NoFrame => Report::new(6, 0x72, 0, 0),
        }
    }
}

impl fmt::Display for ReadFault {
    fn fmt<W: fmt::Write>(&self, f: &mut fmt::Formatter<W>) -> fmt::Result {
        match *self {
            ReadFault::Length => write!(
                f,
                "the frame is too short, or not as long as its header says"
            ),
            ReadFault::Header(place) => write!(f, "octet {place} is not that of a telecommand"),
            ReadFault::UnknownCommand(opcode) => write!(
                f,
                "no command has the op-code {opcode:04x}"
            ),
            ReadFault::WordCount(opcode) => write!(
                f,
                "command {opcode:04x} has another number of words"
            ),
        }
    }
}

impl fmt::Display for WriteFault {
    fn fmt<W: fmt::Write>(&self, f: &mut fmt::Formatter<W>) -> fmt::Result {
        f.write_str(match self {
            WriteFault::PastEnd => "the frame passes the end of the buffer",
            WriteFault::NoFrame => "no frame has that many words, or that sequence count",
        })
    }
}
