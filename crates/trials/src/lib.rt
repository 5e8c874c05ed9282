//! Trials of the layers below: what they do on examples, each proved and then run. `counting` is also the example of
//! how a board is added.
#![tactic(auto)]

#[cfg(test)]
mod boards;
#[cfg(test)]
mod counting;
#[cfg(test)]
mod heads;
#[cfg(test)]
mod reader;
#[cfg(test)]
mod rings;
#[cfg(test)]
mod shared;
#[cfg(test)]
mod writer;
