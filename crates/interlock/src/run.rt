//! Runs: a head that is powered on, or runs already, and a list of events.
ghost use Rattle.std.specs.Prelude.{[], ◌∷◌, length};
ghost use Rattle.head.specs.Events.{powered_on};
ghost use Rattle.head.specs.State.{state_of};
ghost use Rattle.interlock.specs.Logged.{LogHeld, LogPromise};
ghost use Rattle.interlock.specs.Promises.{Promise, RatesPromise, RatesHeld, Stands, begins, continued};
ghost use Rattle.interlock.specs.Runs.{Ran, records_on};

use super::step::{Step, bring_one};
use board::Board;
use head::{Head, Records};

/// Brings a head that runs already each event in turn, and writes down what came of it.
pub fn bring<B: Board>(head: &mut Head<B>, steps: &mut [Step], records: &mut Records)
    ensures ran { Ran (length steps.old) steps.old steps.new (state_of B.means head.old) (state_of B.means head.new) records.old records.new }
    ensures promised { Promise steps.new (state_of B.means head.old) (state_of B.means head.new) }
    ensures logged { LogPromise steps.new (state_of B.means head.old) records.old.log records.new.log }
    ensures rates { RatesPromise steps.new (state_of B.means head.old) records.old.rates records.new.rates }
{
    for step in steps.iter_mut() {
        step.shown = bring_one(head, step.event, records);
    }
}

/// Powers a head on over a board, from 25 stored parameters, and brings it each event in turn.
pub fn operate<B: Board>(
    board: B,
    stored: [u8; 25],
    steps: &mut [Step],
    records: &mut Records,
) -> Head<B>
    ensures ran { Ran (length steps.old) steps.old steps.new (powered_on stored) (state_of B.means result) (records_on stored records.old) records.new }
    ensures promised { Stands (continued (begins stored ∷ []) (length steps.new) steps.new) (state_of B.means result) }
    ensures logged { LogHeld (continued (begins stored ∷ []) (length steps.new) steps.new) records.new.log }
    ensures rates { RatesHeld (continued (begins stored ∷ []) (length steps.new) steps.new) records.new.rates }
{
    let mut head = Head::power_on(board, stored, records);
    bring(&mut head, steps, records);
    head
}
