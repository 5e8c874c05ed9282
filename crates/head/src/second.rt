//! The second mark: the clock, the count rate and the temperatures.
ghost use Rattle.std.specs.Prelude.{◌≡◌};
ghost use Rattle.head.specs.Checks.{rate_at};
ghost use Rattle.head.specs.Events.{second_answer, clocked, mark_trip, marked, seconded};
ghost use Rattle.head.specs.Logs.{trip_log, second_log, second_rates};
ghost use Rattle.head.specs.State.{state_of};

use super::checks::{lowest, rate, rate_trips, sensors_trip};
use super::records::{Records, note};
use super::{Check, Core, Fault, Head, Mark};
use board::Board;

/// The largest raw count: 24 bits.
const LARGEST_RAW: u32 = 16_777_215;

impl Core {
    // The lowest check that a second mark trips.
    fn mark_trip(&self, mark: Mark) -> Option<Check>
        ensures { result ≡ mark_trip mark self.now }
    {
        let by_rate = rate_trips(&self.parameters, rate(self.meters.last, mark.raw));
        let by_sensor = sensors_trip(&self.parameters, mark.temperatures);
        lowest([false, false, false, by_rate, by_sensor])
    }
}

impl<B: Board> Head<B> {
    // The clock goes on by a second.
    fn clock(&mut self, mark: Mark)
        ensures { state_of B.means self.new ≡ clocked mark (state_of B.means self.old) }
    {
        self.core.meters.time = self.core.meters.time.wrapping_add(1);
        self.core.meters.tick = 0;
        self.core.meters.timer = self.core.meters.timer.saturating_sub(1);
        self.core.meters.last = Some(mark.raw);
    }

    /// A second has passed: the raw count gives a rate, and rate and temperatures are checked. A raw count of more
    /// than 24 bits is refused.
    pub fn second(&mut self, mark: Mark, records: &mut Records) -> Result<(), Fault>
        ensures answer { result ≡ second_answer mark }
        ensures became { state_of B.means self.new ≡ seconded mark (state_of B.means self.old) }
        ensures noted { records.new.log ≡ second_log mark (state_of B.means self.old) records.old.log }
        ensures rated { records.new.rates ≡ second_rates mark self.old.core records.old.rates }
    {
        if mark.raw > LARGEST_RAW {
            note(
                &mut records.log,
                self.core.meters.time,
                Fault::RawCount.into(),
            );
            return Err(Fault::RawCount);
        }
        records.rates.push(rate(self.core.meters.last, mark.raw));
        let lowest = self.core.mark_trip(mark);
        self.clock(mark);
        self.trip(lowest, &mut records.log);
        Ok(())
    }
}
