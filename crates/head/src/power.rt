//! Power-on, and what a head shows of itself.
ghost use Rattle.std.specs.Prelude.{◌≡◌, ◌<◌};
ghost use Rattle.head.specs.Events.{powered_on};
ghost use Rattle.head.specs.Logs.{kept_log, restored_log};
ghost use Rattle.head.specs.Parameters.{restored as restored_at, restored_all};
ghost use Rattle.ring.specs.Rolls.{emptied};
ghost use Rattle.head.specs.State.{state_of};

use super::parameters::range_of;
use super::records::{Records, note};
use super::{Core, Head, Meters, Mode, Note};
use board::{Board, all_off};
use codes::Entry;
use ring::Ring;

/// The head's time at power-on.
const START: u32 = 1_000_000;

// A stored parameter, or its default, with a note, where it is outside its range.
fn restore(index: usize, value: u8, log: &mut Ring<Entry>) -> u8
    requires { index < 25 }
    ensures value { result ≡ restored_at index value }
    ensures noted { log.new ≡ kept_log index value log.old }
{
    let range = range_of(index);
    if range.allows(value) {
        return value;
    }
    note(log, START, Note::Replaced(index as u8).into());
    range.default
}

// Every stored parameter, in order of index.
fn restore_all(stored: [u8; 25], log: &mut Ring<Entry>) -> [u8; 25]
    ensures values { result ≡ restored_all stored }
    ensures noted { log.new ≡ restored_log 25 stored log.old }
{
    let mut values = stored;
    for (i, value) in values.iter_mut().enumerate() {
        *value = restore(i, *value, log);
    }
    values
}

impl<B: Board> Head<B> {
    /// A head on a board, from 25 stored parameters: everything off, in SAFE. The log and the rates are emptied; a
    /// stored parameter outside its range becomes its default, with a note.
    pub fn power_on(mut board: B, stored: [u8; 25], records: &mut Records) -> Head<B>
        ensures became { state_of B.means result ≡ powered_on stored }
        ensures noted { records.new.log ≡ restored_log 25 stored (emptied records.old.log) }
        ensures rates { records.new.rates ≡ emptied records.old.rates }
    {
        all_off(&mut board);
        records.log.clear();
        records.rates.clear();
        let parameters = restore_all(stored, &mut records.log);
        let meters = Meters {
            time: START,
            ..Meters::default()
        };
        let core = Core {
            mode: Mode::Safe,
            waiting: None,
            drive: None,
            parameters,
            meters,
        };
        Head { board, core }
    }
}

impl<B> Head<B> {
    pub fn mode(&self) -> Mode
        ensures { result ≡ self.now.core.mode }
    {
        self.core.mode
    }

    /// The 25 parameters in force.
    pub fn parameters(&self) -> [u8; 25]
        ensures { result ≡ self.now.core.parameters }
    {
        self.core.parameters
    }

    /// The board, to look at.
    pub fn board(&self) -> &B
        ensures { result.now ≡ self.now.board }
    {
        &self.board
    }

    /// The board, taken off the head.
    pub fn into_board(self) -> B
        ensures { result ≡ self.board }
    {
        let Head { board, core: _ } = self;
        board
    }
}
