//! What the head writes down. The log and the rates are rings on the caller's memory; an event that may add to the log
//! alone is lent the log alone.
ghost use Rattle.std.specs.Prelude.{◌≡◌, length};
ghost use Rattle.head.specs.Rolls.{entry};
ghost use Rattle.ring.specs.Rolls.{added, empty_roll};

use codes::{Entry, Report};
use ring::Ring;

/// The log, and the rates of the second marks.
#[derive(Drop)]
pub struct Records<'a> {
    pub log: Ring<'a, Entry>,
    pub rates: Ring<'a, u16>,
}

impl<'a> Records<'a> {
    /// Records of nothing yet, on memory that is lent for the log and for the rates.
    pub fn new(log: &'a mut [Entry], rates: &'a mut [u16]) -> Self
        ensures log { result.log ≡ empty_roll (length log.old) }
        ensures rates { result.rates ≡ empty_roll (length rates.old) }
    {
        Records {
            log: Ring::new(log),
            rates: Ring::new(rates),
        }
    }
}

// Puts a report into the log, with the time.
pub(super) fn note(log: &mut Ring<Entry>, time: u32, report: Report)
    ensures { log.new ≡ added (entry time report) log.old }
{
    log.push(Entry { time, report });
}
