//! Events of one kind, again and again. Each function gives how often the head told something: a tick that something
//! is due, a frame or a second mark that it is refused.
ghost use Rattle.std.specs.Prelude.{◌<◌};

use super::once::{frame, sample, second, tick};
use board::Board;
use head::{Head, Mark, Records, Sample};

// Ticks. A frame comes before the first of each `every`.
pub(super) fn ticks<B: Board>(
    head: &mut Head<B>,
    brought: &[u8],
    every: u32,
    times: u32,
    records: &mut Records,
) -> u32
    requires { 0 < every }
{
    let mut told = 0u32;
    let mut left = 0;
    for _ in 0..times {
        if left == 0 {
            let _ = frame(head, brought, &[], records);
            left = every;
        }
        left -= 1;
        told = told.wrapping_add(tick(head, records));
    }
    told
}

// Frames on both links: two primaries in turn.
pub(super) fn frames<B: Board>(
    head: &mut Head<B>,
    primaries: [&[u8]; 2],
    redundant: &[u8],
    times: u32,
    records: &mut Records,
) -> u32 {
    let [even, odd] = primaries;
    let mut told = 0u32;
    for i in 0..times {
        let primary = if i % 2 == 0 { even } else { odd };
        told = told.wrapping_add(frame(head, primary, redundant, records));
    }
    told
}

// A sample with about this current in each strip, and what a set point of 100 expects of the rest.
fn sample_at(i: u32, strip: u8) -> Sample {
    let level = (i & 7) as u8;
    Sample {
        plate: [100 ^ level, 103 ^ level],
        strip: [strip ^ level, strip],
        anode: [90 ^ level, 95 ^ level],
    }
}

// Samples.
pub(super) fn samples<B: Board>(
    head: &mut Head<B>,
    strip: u8,
    times: u32,
    records: &mut Records,
) -> u32 {
    for i in 0..times {
        sample(head, sample_at(i, strip), records);
    }
    0
}

// Samples that are out, and frames, in turn.
pub(super) fn trips<B: Board>(
    head: &mut Head<B>,
    brought: &[u8],
    times: u32,
    records: &mut Records,
) -> u32 {
    let mut told = 0u32;
    for i in 0..times {
        if i % 2 == 0 {
            sample(head, sample_at(i, 200), records);
        } else {
            told = told.wrapping_add(frame(head, brought, &[], records));
        }
    }
    told
}

// Second marks, with a raw count that goes up by one; past 16,777,215 they are refused.
pub(super) fn seconds<B: Board>(head: &mut Head<B>, times: u32, records: &mut Records) -> u32 {
    let mut told = 0u32;
    for i in 0..times {
        let level = (i & 7) as u8;
        let mark = Mark {
            raw: i,
            temperatures: [20 + level; 8],
        };
        told = told.wrapping_add(second(head, mark, records));
    }
    told
}
