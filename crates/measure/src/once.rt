//! One event. None of these is inlined: so the compiler knows of no event what it brings, and leaves none of it out.
ghost use Rattle.std.specs.Prelude.{◌≡◌};
ghost use Rattle.head.specs.Events.{framed, sampled, seconded, ticked};
ghost use Rattle.head.specs.State.{state_of};

use board::Board;
use head::{Head, Mark, Records, Sample};

// A tick, and how much it says is due.
#[inline(never)]
pub(super) fn tick<B: Board>(head: &mut Head<B>, records: &mut Records) -> u32
    ensures { state_of B.means head.new ≡ ticked (state_of B.means head.old) }
{
    let due = head.tick(&mut records.log);
    u32::from(due.sample) + u32::from(due.second)
}

// A frame, and 1 where it is refused.
#[inline(never)]
pub(super) fn frame<B: Board>(
    head: &mut Head<B>,
    primary: &[u8],
    redundant: &[u8],
    records: &mut Records,
) -> u32
    ensures { state_of B.means head.new ≡ framed primary.now redundant.now (state_of B.means head.old) }
{
    u32::from(head.frame(primary, redundant, &mut records.log).is_err())
}

// A high-voltage sample; it is never refused.
#[inline(never)]
pub(super) fn sample<B: Board>(head: &mut Head<B>, sample: Sample, records: &mut Records)
    ensures { state_of B.means head.new ≡ sampled sample (state_of B.means head.old) }
{
    head.sample(sample, &mut records.log);
}

// A second mark, and 1 where it is refused.
#[inline(never)]
pub(super) fn second<B: Board>(head: &mut Head<B>, mark: Mark, records: &mut Records) -> u32
    ensures { state_of B.means head.new ≡ seconded mark (state_of B.means head.old) }
{
    u32::from(head.second(mark, records).is_err())
}
