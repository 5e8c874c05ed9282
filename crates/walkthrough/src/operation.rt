//! The head at work: a release is fired, the high voltage fails, and the door closes.
use super::narration::{heading, paragraph, remark};
use super::octets::Ports;
use super::steps::{FIRED, Planned, STEPS, SWITCHED_ON, plan};
use super::stop::Stop;
use super::table::{headline, row, show_log};
use super::uplink::Frames;
use board::{Crossed, PortBoard};
use codes::Entry;
use head::{CLOSE_ON_SAFE, Head, Records, defaults};
use interlock::{Event, Shown, Step, bring, operate};
use std::io;

// Each program names its board in one place (docs/DECISIONS.md).
type Driven = Crossed<PortBoard>;

// As the board is found: some outputs are on, and so is bit 7 of the lines' port, which drives nothing.
const FOUND: [u8; 4] = [0x28, 0x05, 0b0000_0010, 0b1010_0001];

// How many events are brought at a time. The closing door takes nine times as many ticks.
const SLICE: usize = 40;

fn harnessed() -> Driven {
    Crossed::new(PortBoard::new(FOUND))
}

// The stored parameters: the defaults, but for one that is outside its range.
fn stored() -> [u8; 25] {
    let mut stored = defaults();
    stored[CLOSE_ON_SAFE] = 7;
    stored
}

fn show_steps(rt: &HostRuntime, planned: &[Planned], steps: &[Step]) -> Result<(), Stop> {
    paragraph(
        rt,
        &[
            "A head is powered on over a port board. The harness between them is crossed:",
            "supplies 0 and 1, heaters 0 and 1, lines 0 and 1, and lines 2 and 3 are exchanged",
            "on the way. Some outputs are found on, and one stored parameter is out of range.",
            "What the head is brought, what it answers, and how it reads then:",
        ],
    )?;
    headline(rt)?;
    for (number, (plan, step)) in (1..).zip(planned.iter().zip(steps)) {
        row(rt, number, plan.brought, step.shown)?;
    }
    println!(rt)?;
    remark(
        rt,
        &[
            "A critical command that is accepted does nothing yet: it waits for its confirm.",
            "The blank confirm, step 3, is refused, and what waited is lost to it, so that the",
            "right confirm, step 4, finds nothing. Step 6 fires: line 2 is on until the fourth",
            "tick. Four bad samples do nothing. The fifth one leads to SAFE: the supplies go off",
            "and line 5 closes the door, as the default in place of the bad parameter has it.",
            "The safety timer runs, so CHECKOUT has to wait.",
        ],
    )?;
    Ok(())
}

// Brings an event `SLICE` times, one after the other, and returns what the last two show.
fn bring_slice(head: &mut Head<Driven>, event: Event, records: &mut Records) -> [Shown; 2] {
    let mut steps = [Step::new(event); SLICE];
    bring(head, &mut steps, records);
    let [.., before, last] = steps;
    [before.shown, last.shown]
}

// The ticks of the closing door.
fn close_door(
    rt: &HostRuntime,
    head: &mut Head<Driven>,
    records: &mut Records,
) -> Result<(), Stop> {
    paragraph(
        rt,
        &["The line of the closing door is driven for 360 ticks. The last two of them:"],
    )?;
    for _ in 0..8 {
        let _ = bring_slice(head, Event::Tick, records);
    }
    let [before, last] = bring_slice(head, Event::Tick, records);
    headline(rt)?;
    row(rt, 359, "a tick", before)?;
    row(rt, 360, "a tick", last)
}

// The port after the steps, brought to a head of its own that keeps no log.
fn port_after(steps: &mut [Step]) -> [u8; 4] {
    let mut records = Records::new(&mut [], &mut []);
    let head = operate(harnessed(), stored(), steps, &mut records);
    head.board().board().bytes()
}

fn port_row(rt: &HostRuntime, moment: &str, bytes: [u8; 4]) -> io::Result<()> {
    let ports = Ports(bytes);
    println!(rt; "   {moment:<26}  {ports}")
}

fn show_port(
    rt: &HostRuntime,
    steps: &mut [Step; STEPS],
    safe: [u8; 4],
    closed: [u8; 4],
) -> Result<(), Stop> {
    paragraph(
        rt,
        &[
            "The port's four bytes, under the harness: supplies in hexadecimal, heaters and",
            "lines bit by bit, bit 0 last. Line 2 of the head is bit 3 of the port, supply 0 is",
            "the port's second byte, and bit 7 of the lines, which drives nothing, stays. For",
            "the second row and the third, another head is brought the steps so far.",
        ],
    )?;
    println!(rt; "   {:<26}  supplies  heaters   lines", "moment")?;
    port_row(rt, "as found", FOUND)?;
    port_row(rt, "the release is fired", port_after(&mut steps[..FIRED]))?;
    port_row(
        rt,
        "the high voltage is on",
        port_after(&mut steps[..SWITCHED_ON]),
    )?;
    port_row(rt, "in SAFE, the door closes", safe)?;
    port_row(rt, "the door has closed", closed)?;
    Ok(())
}

/// Powers a head on, brings it the steps and the ticks of the door, and shows its log.
pub fn operate_head(rt: &HostRuntime) -> Result<(), Stop> {
    let frames = Frames::written()?;
    let planned = plan(&frames);
    let mut steps = planned.map(|plan| Step::new(plan.event));
    let mut entries = [Entry::default(); 8];
    let mut slots = [0; 4];
    let mut records = Records::new(&mut entries, &mut slots);
    let mut head = operate(harnessed(), stored(), &mut steps, &mut records);
    let safe = head.board().board().bytes();
    heading(
        rt,
        4,
        "The head fires the release, and a check leads to SAFE",
    )?;
    show_steps(rt, &planned, &steps)?;
    heading(rt, 5, "The door closes")?;
    close_door(rt, &mut head, &mut records)?;
    heading(rt, 6, "What the port held")?;
    let closed = head.board().board().bytes();
    show_port(rt, &mut steps, safe, closed)?;
    heading(rt, 7, "The log, from the oldest entry to the newest")?;
    show_log(rt, &records.log)?;
    Ok(())
}
