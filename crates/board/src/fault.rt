//! What a board refuses.
ghost use Rattle.std.specs.Prelude.{◌≡◌};
ghost use Rattle.board.specs.Faults.{reply, report_of};

use codes::Report;
use std::fmt;

#[derive(Clone, Copy, PartialEq, Eq, Debug)]
pub enum Fault {
    /// The number names no supply, heater or line.
    NamesNothing,
}

impl From<Fault> for Report {
    ghost from_gives = { λ fault report. report ≡ report_of fault };

    fn from(fault: Fault) -> Report {
        match fault {
            Fault::NamesNothing => Report::new(6, 0x70, 0, 0),
        }
    }
}

impl fmt::Display for Fault {
    fn fmt<W: fmt::Write>(&self, f: &mut fmt::Formatter<W>) -> fmt::Result {
        f.write_str(match self {
            Fault::NamesNothing => "the number names nothing on the board",
        })
    }
}

// Whether a number names one of so many outputs.
pub(super) fn within(which: u8, many: u8) -> Result<(), Fault>
    ensures { result ≡ reply which many tt }
{
    if which < many {
        Ok(())
    } else {
        Err(Fault::NamesNothing)
    }
}
