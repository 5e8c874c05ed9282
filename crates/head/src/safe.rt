//! Drives and the safe state: what the head does to its board.
ghost use Rattle.std.specs.Prelude.{◌≡◌, ◌*◌, slice_index};
ghost use Rattle.head.specs.State.{state_of, outputs_are};
ghost use Rattle.head.specs.Effects.{starts, without_supplies, darkened, ended, shut, secured, mode_after, is_entry, turned};

use super::parameters::{CLOSE_ON_SAFE, DOOR_PERIOD};
use super::{Core, Drive, Head, Mode};
use board::{Board, LineState};

/// The line that closes the aperture door.
pub(super) const CLOSING: u8 = 5;

// A value and no closure: the rules speak of it.

/// What an event comes to, as far as the mode goes.
#[derive(Clone, Copy)]
pub enum Turn {
    GoSafe,
    GoCheckout,
    Trip,
}

impl Mode {
    // Steps the mode, and says whether that is an entry into SAFE.
    fn step(&mut self, turn: Turn) -> bool
        ensures entry { result ≡ is_entry self.old turn }
        ensures became { self.new ≡ mode_after self.old turn }
    {
        match (*self, turn) {
            (Mode::Checkout, Turn::GoSafe) | (Mode::Checkout, Turn::Trip) => {
                *self = Mode::Safe;
                true
            }
            (Mode::Safe, Turn::GoCheckout) => {
                *self = Mode::Checkout;
                false
            }
            _ => false,
        }
    }
}

impl Core {
    // The ticks of a drive of the door.
    pub(super) fn door_ticks(&self) -> u16
        ensures { result ≡ 4 * slice_index self.now.parameters 23 }
    {
        4 * u16::from(self.parameters[DOOR_PERIOD])
    }
}

impl<B: Board> Head<B> {
    // Puts a line on and latches its ticks.
    pub(super) fn start(&mut self, line: u8, ticks: u16)
        ensures { state_of B.means self.new ≡ starts line ticks (state_of B.means self.old) }
    {
        let _ = self.board.set_line(line, LineState::On);
        self.core.drive = Some(Drive {
            what: line,
            left: ticks,
        });
    }

    // Both supplies to zero.
    pub(super) fn zero_supplies(&mut self)
        ensures { state_of B.means self.new ≡ outputs_are (without_supplies (B.means self.old.board)) (state_of B.means self.old) }
    {
        let _ = self.board.set_supply(0, 0);
        let _ = self.board.set_supply(1, 0);
    }

    // Supplies and heaters off, and what waits is dropped.
    fn darken(&mut self)
        ensures { state_of B.means self.new ≡ darkened (state_of B.means self.old) }
    {
        self.zero_supplies();
        let _ = self.board.set_heater(0, false);
        let _ = self.board.set_heater(1, false);
        self.core.waiting = None;
    }

    // Ends a drive that does not close the door.
    fn end_drive(&mut self)
        ensures { state_of B.means self.new ≡ ended (state_of B.means self.old) }
    {
        if let Some(drive) = self.core.drive {
            if drive.what != CLOSING {
                let _ = self.board.set_line(drive.what, LineState::Off);
                self.core.drive = None;
            }
        }
    }

    // Closes the door where the parameters ask for it and no closing runs.
    fn shut_door(&mut self)
        ensures { state_of B.means self.new ≡ shut (state_of B.means self.old) }
    {
        if self.core.drive.is_none() && self.core.parameters[CLOSE_ON_SAFE] == 1 {
            let ticks = self.core.door_ticks();
            self.start(CLOSING, ticks);
        }
    }

    // The effects of an entry into SAFE.
    fn enter_safe(&mut self)
        ensures { state_of B.means self.new ≡ secured (state_of B.means self.old) }
    {
        self.darken();
        self.end_drive();
        self.shut_door();
    }

    // Steps the mode; an entry into SAFE has its effects. Says whether it was one.
    pub(super) fn turn(&mut self, turn: Turn) -> bool
        ensures entry { result ≡ is_entry self.old.core.mode turn }
        ensures became { state_of B.means self.new ≡ turned turn (state_of B.means self.old) }
    {
        let entry = self.core.mode.step(turn);
        if entry {
            self.enter_safe();
        }
        entry
    }
}
