//! What the head is brought, step by step.
use super::uplink::Frames;
use head::Sample;
use interlock::Event;

/// How many steps there are.
pub const STEPS: usize = 18;

/// How many steps it takes until the release is fired.
pub const FIRED: usize = 6;

/// How many steps it takes until the high voltage is on.
pub const SWITCHED_ON: usize = 12;

/// A step to come: what it brings, in words and as an event.
#[derive(Clone, Copy)]
pub struct Planned<'a> {
    pub brought: &'static str,
    pub event: Event<'a>,
}

// The plates are far from the 100 that a set point of 100 lets expect; the other values are good.
const BAD_SAMPLE: Sample = Sample {
    plate: [50; 2],
    strip: [40; 2],
    anode: [90; 2],
};

fn step<'a>(brought: &'static str, event: Event<'a>) -> Planned<'a> {
    Planned { brought, event }
}

// A frame that comes whole on both links.
fn whole<'a>(frame: &'a [u8]) -> Event<'a> {
    Event::Frame(frame, frame)
}

/// The steps, in their order.
pub fn plan<'a>(frames: &'a Frames) -> [Planned<'a>; STEPS] {
    let noisy = Event::Frame(&frames.noisy, &frames.rearm);
    let sample = Event::Sample(BAD_SAMPLE);
    [
        step("go to CHECKOUT", whole(&frames.checkout)),
        step("fire release 2 for 4 ticks", whole(&frames.arm)),
        step("a blank confirm", whole(&frames.blank)),
        step("the confirm of the release", whole(&frames.unarmed)),
        step("fire release 2, with noise on the primary", noisy),
        step("the confirm of the release", whole(&frames.confirm)),
        step("a tick", Event::Tick),
        step("a second tick", Event::Tick),
        step("a third tick", Event::Tick),
        step("a fourth tick", Event::Tick),
        step("high voltage: supply 0 to 100", whole(&frames.supply)),
        step("the confirm of the high voltage", whole(&frames.switch_on)),
        step("a sample: the plates read 50, not 100", sample),
        step("a second one", sample),
        step("a third one", sample),
        step("a fourth one", sample),
        step("a fifth one", sample),
        step("go to CHECKOUT", whole(&frames.too_soon)),
    ]
}
