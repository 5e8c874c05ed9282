//! The head that is driven, how it is brought what a line says, and what is printed of it.
ghost use Rattle.std.specs.Prelude.{◌≡◌, ◌<◌};
ghost use Rattle.head.specs.State.{state_of};
ghost use Rattle.interlock.specs.Events.{event_of};
ghost use Rattle.headrun.specs.Lines.{Brought, event_in, times_in, printed, printed_first};
ghost use Rattle.script.specs.Events.{InRange};

use board::{Board, Crossed, PortBoard};
use head::{Head, Records, defaults};
use interlock::{Event, Shown, Step, bring, readings};
use script::{EventLine, Kind, Outcome};

// Each program names its board in one place (docs/DECISIONS.md).

/// The board that is driven: the crossing adapter on a port board.
pub(super) type Driven = Crossed<PortBoard>;

// A head that is powered on from the default parameters.
pub(super) fn power_on(records: &mut Records) -> Head<Driven> {
    Head::power_on(Crossed::new(PortBoard::new([0; 4])), defaults(), records)
}

// What is printed of an event.
pub(super) fn outcome(kind: Kind, shown: Shown) -> Outcome
    ensures { result ≡ printed kind shown }
{
    // Field by field, since script knows no interlock.
    let Shown {
        fault,
        mode,
        supplies,
        heaters,
        lines,
        ..
    } = shown;
    Outcome {
        kind,
        fault,
        mode,
        supplies,
        heaters,
        lines,
    }
}

// What is printed of power-on.
pub(super) fn power_on_outcome<B: Board>(head: &Head<B>) -> Outcome
    ensures { result ≡ printed_first (state_of B.means head.now) }
{
    outcome(Kind::PowerOn, readings(head))
}

// Brings one event, and gives what came of it.
fn bring_one<B: Board>(head: &mut Head<B>, event: Event, records: &mut Records) -> Shown
    ensures { Brought 1 (event_of event.entry) (state_of B.means head.old) (state_of B.means head.new) records.old records.new result }
{
    let mut steps = [Step::new(event)];
    bring(head, &mut steps, records);
    steps[0].shown
}

// Brings an event so many times, one after the other, and gives what came of the last.
fn bring_times<B: Board>(
    head: &mut Head<B>,
    event: Event,
    times: u16,
    records: &mut Records,
) -> Shown
    requires { 0 < times }
    ensures { Brought times (event_of event.entry) (state_of B.means head.old) (state_of B.means head.new) records.old records.new result }
{
    for _n in 1..times {
        let _ = bring_one(head, event, records);
    }
    bring_one(head, event, records)
}

// Brings what a line says, and gives what came of it.
pub(super) fn bring_line<B: Board>(
    head: &mut Head<B>,
    line: &EventLine,
    records: &mut Records,
) -> Shown
    requires { InRange line.now }
    ensures { Brought (times_in line.now) (event_in line.now) (state_of B.means head.old) (state_of B.means head.new) records.old records.new result }
{
    match line {
        EventLine::Frame(octets) => bring_one(head, Event::Frame(octets.as_slice(), &[]), records),
        EventLine::Ticks(ticks) => bring_times(head, Event::Tick, *ticks, records),
        EventLine::Sample(sample) => bring_one(head, Event::Sample(*sample), records),
        EventLine::Second(mark) => bring_one(head, Event::Second(*mark), records),
    }
}
