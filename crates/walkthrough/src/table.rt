//! What came of each step, as a table, and the log.
use super::plain::Plain;
use super::stop::Stop;
use codes::{Entry, Report};
use interlock::Shown;
use ring::Ring;
use std::alloc::{AllocError, Global};
use std::{fmt, io};

// The six lines: the number of each that is on, a dash for one that is off.
#[derive(Clone, Copy)]
struct Lines([bool; 6]);

impl fmt::Display for Lines {
    fn fmt<W: fmt::Write>(&self, f: &mut fmt::Formatter<W>) -> fmt::Result {
        let Lines(lines) = *self;
        for (line, on) in lines.iter().enumerate() {
            if *on {
                write!(f, "{line}")?;
            } else {
                f.write_char('-')?;
            }
        }
        Ok(())
    }
}

// A wrapper with a `Display` would be longer.
fn switch(on: bool) -> &'static str {
    if on { "on" } else { "off" }
}

fn answer(heap: Global, fault: Option<Report>) -> Result<String, AllocError> {
    match fault {
        None => "accepted".to_string(heap),
        Some(report) => Plain(report).to_string(heap),
    }
}

pub fn headline(rt: &HostRuntime) -> io::Result<()> {
    println!(rt;
        "        {:<41}  {:<41}  {:<8}  supplies  heaters  lines",
        "brought", "answer", "mode"
    )
}

/// One step: what was brought, the answer, and how the head reads then.
pub fn row(rt: &HostRuntime, number: usize, brought: &str, shown: Shown) -> Result<(), Stop> {
    let answer = answer(rt.alloc(), shown.fault)?;
    let mode = shown.mode;
    let [supply0, supply1] = shown.supplies;
    let [heater0, heater1] = shown.heaters.map(switch);
    let lines = Lines(shown.lines);
    println!(rt;
        "   {number:>3}  {brought:<41}  {answer:<41}  {mode:<8}  {supply0:>3}  {supply1:>3}  {heater0:<3} {heater1:<3}  {lines}"
    )?;
    Ok(())
}

fn entry_row(rt: &HostRuntime, entry: Entry) -> io::Result<()> {
    let Entry { time, report } = entry;
    let Report {
        layer,
        code,
        place,
        opcode,
    } = report;
    let words = Plain(report);
    println!(rt; "   {time:>7}  {layer:>5}  {code:#04x}  {place:>5}  {opcode:04x}     {words}")
}

/// The log, from the oldest entry to the newest. A ring has no iterator, so its ages are counted.
pub fn show_log(rt: &HostRuntime, log: &Ring<'_, Entry>) -> io::Result<()> {
    println!(rt; "      time  layer  code  place  op-code  in words")?;
    for entry in (0..log.len()).rev().filter_map(|age| log.get(age)) {
        entry_row(rt, entry)?;
    }
    Ok(())
}
