//! What every layer says when it refuses or notes something: a report, and the entry of a report in the log.
#![tactic(auto)]

ghost use Rattle.std.specs.Prelude.{◌≡◌};
ghost use Rattle.codes.specs.Reports.{report};

use std::fmt;

// Numbers and no enums: they are the format of a log entry, and each crate has its enum of what it refuses.

/// Where a thing went wrong (layer), what it was (code), at which octet, index or check (place), and for which
/// command (op-code, 0 for none).
#[derive(Clone, Copy, PartialEq, Eq, Debug, Default)]
pub struct Report {
    pub layer: u8,
    pub code: u8,
    pub place: u16,
    pub opcode: u16,
}

/// A report as it stands in the log, with the head's time at logging.
#[derive(Clone, Copy, PartialEq, Eq, Debug, Default)]
pub struct Entry {
    pub time: u32,
    pub report: Report,
}

impl Report {
    /// A report by its four numbers: layer, code, place, op-code.
    pub const fn new(layer: u8, code: u8, place: u16, opcode: u16) -> Report
        ensures { result ≡ report layer code place opcode }
    {
        Report {
            layer,
            code,
            place,
            opcode,
        }
    }
}

impl fmt::Display for Report {
    fn fmt<W: fmt::Write>(&self, f: &mut fmt::Formatter<W>) -> fmt::Result {
        write!(
            f,
            "layer {}, code {:#04x}, place {}, op-code {:#06x}",
            self.layer, self.code, self.place, self.opcode
        )
    }
}
