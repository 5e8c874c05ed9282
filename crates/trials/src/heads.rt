//! The head: where a count rate trips, what the log of a small run holds, and memory of length zero.
use super::shared::holds;
use board::PortBoard;
use codes::{Entry, Report};
use head::{Head, Mark, Mode, Records, defaults};
use interlock::{Event, Step, operate};
use std::process::Abort;
use std::test::Fail;

const CHECKOUT: [u8; 8] = [0x11, 0x01, 0xC0, 0x00, 0x00, 0x01, 0x66, 0x03];

// Fire release: line 2, 4 ticks.
const FIRE: [u8; 10] = [0x11, 0x01, 0xC0, 0x01, 0x00, 0x03, 0x66, 0x12, 0x02, 0x04];

const BLANK_CONFIRM: [u8; 8] = [0x11, 0x01, 0xC0, 0x02, 0x00, 0x01, 0x66, 0x04];

// The same with noise in octet 1.
const NOISY: [u8; 8] = [0x11, 0x41, 0xC0, 0x02, 0x00, 0x01, 0x66, 0x04];

// An entry of the log: time, layer, code, place, op-code.
const fn entry(time: u32, layer: u8, code: u8, place: u16, opcode: u16) -> Entry {
    Entry {
        time,
        report: Report::new(layer, code, place, opcode),
    }
}

fn mark(raw: u32) -> Mark {
    Mark {
        raw,
        temperatures: [20; 8],
    }
}

// The mode and the newest log entry of a head in CHECKOUT, after two second marks with the raw counts 0 and `raw`.
fn after_marks(rt: &impl Abort, raw: u32) -> Result<(Mode, Option<Entry>), Fail> {
    let mut entries = [Entry::default(); 2];
    let mut slots = [0; 2];
    let mut records = Records::new(&mut entries, &mut slots);
    let mut head = Head::power_on(PortBoard::new([0; 4]), defaults(), &mut records);
    head.frame(&CHECKOUT, &[], &mut records.log)?;
    head.second(mark(0), &mut records)?;
    assert_eq!(rt; head.mode(), Mode::Checkout);
    head.second(mark(raw), &mut records)?;
    assert_eq!(rt; records.rates.get(1), Some(0));
    Ok((head.mode(), records.log.get(0)))
}

#[test]
fn a_rate_above_the_limit_trips(rt: HostRuntime) -> Result<(), Fail> {
    assert_eq!(rt; after_marks(&rt, 25_600)?, (Mode::Checkout, None));
    let note = entry(1_000_002, 4, 0x63, 3, 0);
    assert_eq!(rt; after_marks(&rt, 25_601)?, (Mode::Safe, Some(note)));
    Ok(())
}

#[test]
fn the_log_has_each_entry_in_order(rt: HostRuntime) {
    let mut entries = [Entry::default(); 8];
    let mut slots = [0; 2];
    let mut records = Records::new(&mut entries, &mut slots);
    let mut steps = [
        Step::new(Event::Frame(&CHECKOUT, &[])),
        Step::new(Event::Frame(&FIRE, &[])),
        Step::new(Event::Frame(&NOISY, &BLANK_CONFIRM)),
    ];
    let head = operate(PortBoard::new([0; 4]), defaults(), &mut steps, &mut records);
    let set_aside = entry(1_000_000, 1, 0x10, 1, 0);
    let lost = entry(1_000_000, 2, 0x26, 6, 0x6612);
    let refused = entry(1_000_000, 2, 0x22, 8, 0x6604);
    holds(&rt, &records.log, &[refused, lost, set_aside]);
    assert_eq!(rt; steps[1].shown.fault, None);
    assert_eq!(rt; steps[2].shown.fault, Some(refused.report));
    assert_eq!(rt; head.board().bytes(), [0; 4]);
}

#[test]
fn no_memory_does_no_harm(rt: HostRuntime) {
    let mut records = Records::new(&mut [], &mut []);
    let mut steps = [
        Step::new(Event::Frame(&CHECKOUT, &[])),
        Step::new(Event::Frame(&FIRE, &[])),
        Step::new(Event::Frame(&NOISY, &BLANK_CONFIRM)),
        Step::new(Event::Second(mark(0))),
        Step::new(Event::Second(mark(70_000))),
    ];
    // check mask, override and closing on SAFE are outside their ranges; the rate's limit is 65,280
    let head = operate(PortBoard::new([0; 4]), [255; 25], &mut steps, &mut records);
    assert_eq!(rt; records.log.len(), 0);
    assert_eq!(rt; records.rates.len(), 0);
    let refused = entry(1_000_000, 2, 0x22, 8, 0x6604);
    assert_eq!(rt; steps[2].shown.fault, Some(refused.report));
    assert_eq!(rt; steps[3].shown.mode, Mode::Checkout);
    assert_eq!(rt; head.mode(), Mode::Safe);
    // the door closes
    assert_eq!(rt; head.board().bytes(), [0, 0, 0, 0b10_0000]);
}
