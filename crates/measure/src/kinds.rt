//! The kinds of event that are measured, by their names.
use super::again::{frames, samples, seconds, ticks, trips};
use super::frames::{
    CHECKOUT, CLOSE_DOOR, CONFIRM_PARAMETER, CONFIRM_SUPPLY, DAMAGED, HEATER_OFF, HEATER_ON,
    HEATER_WRONG, NO_OPERATION, NO_SECONDS, SUPPLY,
};
use super::once::frame;
use board::Board;
use head::{Head, Records};

// To CHECKOUT, with supply 0 at 100. Trips set no timer, so that CHECKOUT is accepted after each.
fn prepare<B: Board>(head: &mut Head<B>, records: &mut Records) {
    let first: [&[u8]; 5] = [
        &NO_SECONDS,
        &CONFIRM_PARAMETER,
        &CHECKOUT,
        &SUPPLY,
        &CONFIRM_SUPPLY,
    ];
    for octets in first {
        let _ = frame(head, octets, &[], records);
    }
}

// The frames of a kind that come in turn on the primary link, and what the redundant link holds.
fn links(kind: &str) -> Option<([&'static [u8]; 2], &'static [u8])> {
    match kind {
        "frame-nothing" => Some(([&NO_OPERATION, &NO_OPERATION], &[])),
        "frame-header" => Some(([&DAMAGED, &DAMAGED], &[])),
        "frame-redundant" => Some(([&DAMAGED, &DAMAGED], &NO_OPERATION)),
        "frame-range" => Some(([&HEATER_WRONG, &HEATER_WRONG], &[])),
        "frame-heater" => Some(([&HEATER_ON, &HEATER_OFF], &[])),
        "frame-parameter" => Some(([&NO_SECONDS, &CONFIRM_PARAMETER], &[])),
        "frame-critical" => Some(([&SUPPLY, &CONFIRM_SUPPLY], &[])),
        _ => None,
    }
}

// Brings events of a kind, and gives how often the head told something; or none where no kind has that name.
pub(super) fn bring<B: Board>(
    kind: &str,
    times: u32,
    head: &mut Head<B>,
    records: &mut Records,
) -> Option<u32> {
    match kind {
        "tick" => Some(ticks(head, &NO_OPERATION, u32::MAX, times, records)),
        "tick-waiting" => Some(ticks(head, &NO_SECONDS, 2000, times, records)),
        "tick-driving" => Some(ticks(head, &CLOSE_DOOR, 360, times, records)),
        "frame-in-safe" => Some(frames(head, [&HEATER_ON, &HEATER_OFF], &[], times, records)),
        "second" => Some(seconds(head, times, records)),
        _ => bring_prepared(kind, times, head, records),
    }
}

// The same, of the kinds for which CHECKOUT is prepared.
fn bring_prepared<B: Board>(
    kind: &str,
    times: u32,
    head: &mut Head<B>,
    records: &mut Records,
) -> Option<u32> {
    prepare(head, records);
    match kind {
        "sample-good" => Some(samples(head, 40, times, records)),
        "sample-bad" => Some(samples(head, 200, times, records)),
        "sample-trip" => Some(trips(head, &CHECKOUT, times, records)),
        _ => {
            let (primaries, redundant) = links(kind)?;
            Some(frames(head, primaries, redundant, times, records))
        }
    }
}
