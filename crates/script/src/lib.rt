//! The text of a script of events: the lines that are read, and the lines that are written.
#![tactic(auto)]

mod decimals;
mod event;
mod hexadecimal;
mod line;
mod outcome;

pub use decimals::count;
pub use event::{EventLine, event_line};
pub use hexadecimal::Octets;
pub use line::LineBuffer;
pub use outcome::{BadLine, Kind, Outcome};
