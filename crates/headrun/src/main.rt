//! Drives a head by a script: reads a count and as many event lines from standard input, powers a head on, brings it
//! the events, and prints a line for each.
#![tactic(auto)]

mod drive;
mod input;

ghost use Rattle.std.specs.Prelude.{IfSome};
ghost use Rattle.script.specs.Events.{InRange};

use codes::Entry;
use drive::{bring_line, outcome, power_on, power_on_outcome};
use head::Records;
use input::next_line;
use script::{BadLine, EventLine, count, event_line};
use std::io;
use std::io::{BufRead, BufReader, BufWriter, Write};

// Two functions of one line: one over a closure would need the parser's contract as a clause.

// The count of events, from the first line.
fn read_count<R: BufRead>(input: &mut R) -> Option<u16> {
    next_line(input).text().and_then(|text| count(text))
}

// The event of the next line.
fn read_event<R: BufRead>(input: &mut R) -> Option<EventLine>
    ensures { IfSome result InRange }
{
    next_line(input).text().and_then(|text| event_line(text))
}

// Runs a script to its end, or to its first bad line.
fn run<R: BufRead, W: Write>(input: &mut R, output: &mut W) -> io::Result<()> {
    let Some(events) = read_count(input) else {
        return writeln!(output, "{}", BadLine { number: 1 });
    };
    let mut entries = [Entry::default(); 8];
    let mut slots = [0; 16];
    let mut records = Records::new(&mut entries, &mut slots);
    let mut head = power_on(&mut records);
    writeln!(output, "{}", power_on_outcome(&head))?;
    for number in 2..u32::from(events) + 2 {
        let Some(line) = read_event(input) else {
            return writeln!(output, "{}", BadLine { number });
        };
        let shown = bring_line(&mut head, &line, &mut records);
        writeln!(output, "{}", outcome(line.kind(), shown))?;
    }
    Ok(())
}

fn main(rt: HostRuntime) -> io::Result<()> {
    let mut input = BufReader::new(rt.alloc(), rt.stdin())?;
    let mut output = BufWriter::new(rt.alloc(), rt.stdout())?;
    run(&mut input, &mut output)?;
    output.flush()
}
