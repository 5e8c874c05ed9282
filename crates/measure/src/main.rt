//! Powers a head on, brings it events of one kind a number of times, and prints a line of what it reads then.
//! `bench/measure` counts the instructions of it.
#![tactic(auto)]

mod again;
mod frames;
mod kinds;
mod once;

use board::{Crossed, PortBoard};
use codes::Entry;
use head::{Head, Records, defaults};
use kinds::bring;
use std::{env, io};

/// The board that is measured: the crossing adapter on a port board.
type Measured = Crossed<PortBoard>;

// Prints what head, log and rates read, after how often the head told something.
fn print_line(
    rt: &impl Print,
    told: u32,
    head: &Head<Measured>,
    records: &Records,
) -> io::Result<()> {
    let mode = head.mode();
    let ports = head.board().board().bytes();
    let code = records.log.get(0).map_or(0, |entry| entry.report.code);
    let rate = records.rates.get(0).unwrap_or(0);
    println!(rt;
        "told {told}, mode {mode:?}, ports {ports:?}, newest code {code}, newest rate {rate}"
    )
}

// Prints how many octets each part has.
fn print_sizes(rt: &impl Print) -> io::Result<()> {
    let head = size_of::<Head<Measured>>();
    let records = size_of::<Records>();
    let entry = size_of::<Entry>();
    println!(rt; "head {head}, records {records}, log entry {entry}")
}

// Brings so many events of a kind to a head that is powered on, and prints the line of it.
fn measure(rt: &impl Print, kind: &str, times: u32) -> io::Result<()> {
    let mut entries = [Entry::default(); 8];
    let mut slots = [0; 16];
    let mut records = Records::new(&mut entries, &mut slots);
    let board = Crossed::new(PortBoard::new([0; 4]));
    let mut head = Head::power_on(board, defaults(), &mut records);
    let Some(told) = bring(kind, times, &mut head, &mut records) else {
        return println!(rt; "there is no kind {kind}");
    };
    print_line(rt, told, &head, &records)
}

// A second argument that is no number counts as 0.
fn main(rt: HostRuntime) -> io::Result<()> {
    let words: Vec<String> = env::args(&rt)?.collect(rt.alloc())?;
    match words.as_slice() {
        [_, kind] if kind.as_str() == "sizes" => print_sizes(&rt),
        [_, kind, times] => measure(&rt, kind.as_str(), times.as_str().parse().unwrap_or(0)),
        _ => println!(rt; "measure KIND N, or measure sizes"),
    }
}
