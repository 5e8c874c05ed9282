//! The high-voltage sample, and what a check that trips does.
ghost use Rattle.std.specs.Prelude.{◌≡◌, [], ◌∷◌};
ghost use Rattle.head.specs.Checks.{lowest as lowest_of};
ghost use Rattle.head.specs.Events.{set_point, counts_after, count_trips, counts_are, tripped, sampled};
ghost use Rattle.head.specs.Logs.{trip_log, sample_log};
ghost use Rattle.head.specs.State.{state_of};

use super::checks::{anode_out, counted, lowest, plate_out, strip_out, trips};
use super::parameters::{OVERRIDE, SAFETY_SECONDS};
use super::records::note;
use super::safe::Turn;
use super::{Check, Core, Head, Note, Sample};
use board::Board;
use codes::Entry;
use ring::Ring;

impl Core {
    // The lowest check that trips at the counts as they stand.
    fn count_trip(&self) -> Option<Check>
        ensures { result ≡ lowest_of (count_trips self.now.parameters self.now.meters.counts) }
    {
        let plate = trips(&self.parameters, Check::Plate, self.meters.counts[0]);
        let strip = trips(&self.parameters, Check::Strip, self.meters.counts[1]);
        let anode = trips(&self.parameters, Check::Anode, self.meters.counts[2]);
        lowest([plate, strip, anode, false, false])
    }
}

impl<B: Board> Head<B> {
    // The larger set point, as the board reads it.
    fn set_point(&self) -> u8
        ensures { result ≡ set_point (B.means self.now.board) }
    {
        let first = self.board.supply(0).unwrap_or(0);
        let other = self.board.supply(1).unwrap_or(0);
        first.max(other)
    }

    // Counts the failures of each check.
    #[tactic(auto, unfolding(crate::specs::Checks::out))]
    fn count(&mut self, sample: Sample)
        ensures { state_of B.means self.new ≡ counts_are (counts_after sample (state_of B.means self.old)) (state_of B.means self.old) }
    {
        let set_point = self.set_point();
        let parameters = &self.core.parameters;
        let counts = self.core.meters.counts;
        let plate = plate_out(parameters, set_point, sample.plate[0].max(sample.plate[1]));
        let strip = strip_out(
            parameters,
            u16::from(sample.strip[0]) + u16::from(sample.strip[1]),
        );
        let anode = anode_out(parameters, set_point, sample.anode[0].max(sample.anode[1]));
        self.core.meters.counts = [
            counted(plate, counts[0]),
            counted(strip, counts[1]),
            counted(anode, counts[2]),
        ];
    }

    // What a check that trips does: the safety timer is set, and with override 0 the mode turns.
    pub(super) fn trip(&mut self, lowest: Option<Check>, log: &mut Ring<Entry>)
        ensures became { state_of B.means self.new ≡ tripped lowest (state_of B.means self.old) }
        ensures noted { log.new ≡ trip_log lowest self.old.core log.old }
    {
        let Some(check) = lowest else {
            return;
        };
        self.core.meters.timer = self.core.parameters[SAFETY_SECONDS];
        if self.core.parameters[OVERRIDE] == 0 {
            let time = self.core.meters.time;
            if self.turn(Turn::Trip) {
                note(log, time, Note::Tripped(check).into());
            }
        }
    }

    /// A sample of voltages and currents: each check that finds it out counts a failure, and trips when its count has
    /// reached its limit.
    pub fn sample(&mut self, sample: Sample, log: &mut Ring<Entry>)
        ensures became { state_of B.means self.new ≡ sampled sample (state_of B.means self.old) }
        ensures noted { log.new ≡ sample_log sample (state_of B.means self.old) log.old }
    {
        self.count(sample);
        let lowest = self.core.count_trip();
        self.trip(lowest, log);
    }
}
