//! Telecommands: the way from the octets on two links to one command, and from a command back to its octets.
#![tactic(auto)]

mod command;
mod fault;
mod kinds;
mod link;
mod packet;
mod writer;

pub use command::{Command, read};
pub use fault::{ReadFault, WriteFault};
pub use kinds::{Kind, kind_of};
pub use link::{choose, set_aside};
pub use writer::write;
