//! Runs of a head, event by event, and what holds over every run: the interlocks.
#![tactic(auto)]

mod run;
mod step;
mod tried;

pub use run::{bring, operate};
pub use step::{Event, Shown, Step, readings};
pub use tried::tried_values_hold;
