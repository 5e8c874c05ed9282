//! Reports in plain words. A report bears numbers only; the fault or note that gave it is found by its code, and says
//! its own words.
ghost use Rattle.std.specs.Prelude.{◌≡◌, IfSome};
ghost use Rattle.telecommand.specs.Faults.{read_report};
ghost use Rattle.head.specs.Faults.{report_of, note_of};

use codes::Report;
use head::{Check, Fault, Note};
use std::fmt;
use telecommand::ReadFault;

/// A report, to be shown in words.
#[derive(Clone, Copy)]
pub struct Plain(pub Report);

// Functions and no `TryFrom`: report and faults are of other crates, which never read a fault back, so that an impl can
// stand neither here nor there.

// The reader's fault that gives a report.
fn read_fault(report: Report) -> Option<ReadFault>
    ensures { IfSome result (λ fault. (read_report fault).code ≡ report.code) }
{
    Some(match report.code {
        0x10 => ReadFault::Header(report.place),
        0x20 => ReadFault::Length,
        0x21 => ReadFault::UnknownCommand(report.opcode),
        0x22 => ReadFault::WordCount(report.opcode),
        _ => return None,
    })
}

// The head's fault that gives a report.
fn fault(report: Report) -> Option<Fault>
    ensures { IfSome result (λ fault. (report_of fault).code ≡ report.code) }
{
    Some(match report.code {
        0x11 => Fault::BothEmpty,
        0x23 => Fault::NotInSafe(report.opcode),
        0x24 => Fault::CriticalWaits(report.opcode),
        0x25 => Fault::WrongConfirm,
        0x27 => Fault::NothingWaits,
        0x30 => Fault::TimerRuns,
        0x40 => Fault::OutOfRange(report.place, report.opcode),
        0x41 => Fault::DriveRuns(report.opcode),
        0x45 => Fault::ConfirmFailed,
        0x50 => Fault::RawCount,
        _ => Fault::Unread(read_fault(report)?),
    })
}

// The note that gives a report.
fn note(report: Report) -> Option<Note>
    ensures { IfSome result (λ note. (note_of note).code ≡ report.code) }
{
    Some(match report.code {
        0x26 => Note::Lost(report.opcode),
        0x28 => Note::Late(report.opcode),
        0x52 => Note::Replaced((report.place % 256) as u8),
        0x60 => Note::Tripped(Check::Plate),
        0x61 => Note::Tripped(Check::Strip),
        0x62 => Note::Tripped(Check::Anode),
        0x63 => Note::Tripped(Check::Rate),
        0x64 => Note::Tripped(Check::Temperature),
        _ => return None,
    })
}

impl fmt::Display for Plain {
    fn fmt<W: fmt::Write>(&self, f: &mut fmt::Formatter<W>) -> fmt::Result {
        let Plain(report) = *self;
        match (fault(report), note(report)) {
            (Some(fault), _) => fault.fmt(f),
            (None, Some(note)) => note.fmt(f),
            (None, None) => f.write_str("no fault or note of the head has this code"),
        }
    }
}
