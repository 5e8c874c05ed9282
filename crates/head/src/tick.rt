//! The tick: five milliseconds pass.
ghost use Rattle.std.specs.Prelude.{◌≡◌, ◌+◌, ◌%◌};
ghost use Rattle.head.specs.Countdown.{lessened, lost};
ghost use Rattle.head.specs.Events.{ticked, sample_due, due_at};
ghost use Rattle.head.specs.Logs.{tick_log};
ghost use Rattle.head.specs.State.{state_of};

use super::records::note;
use super::{Head, Note, Timed};
use board::{Board, LineState};
use codes::Entry;
use ring::Ring;

/// What is due after a tick: a high-voltage sample every 20 ticks, a second mark every 200.
#[derive(Clone, Copy, PartialEq, Eq, Debug, Default)]
pub struct Due {
    pub sample: bool,
    pub second: bool,
}

// The tick number after this one.
fn following(tick: u8) -> u8
    ensures { result ≡ (tick + 1) % 200 }
{
    ((u16::from(tick) + 1) % 200) as u8
}

// Whether a sample is due at a tick number.
#[tactic(auto, unfolding(crate::specs::Events::sample_due))]
fn sample_due(tick: u8) -> bool
    ensures { result ≡ sample_due tick }
{
    tick % 20 == 0
}

// One tick less of what may be there. With its last tick it is gone, and given back.
fn lessen<T: Copy>(timed: &mut Option<Timed<T>>) -> Option<T>
    ensures left { timed.new ≡ lessened timed.old }
    ensures gone { result ≡ lost timed.old }
{
    let counting = timed.as_mut()?;
    if counting.left > 1 {
        counting.left -= 1;
        return None;
    }
    timed.take().map(|last| last.what)
}

impl<B: Board> Head<B> {
    /// One tick more: what waits and what is driven come nearer to their end, and what is due is answered.
    pub fn tick(&mut self, log: &mut Ring<Entry>) -> Due
        ensures answer { result ≡ due_at ((self.old.core.meters.tick + 1) % 200) }
        ensures became { state_of B.means self.new ≡ ticked (state_of B.means self.old) }
        ensures noted { log.new ≡ tick_log self.old.core log.old }
    {
        self.core.meters.tick = following(self.core.meters.tick);
        if let Some(order) = lessen(&mut self.core.waiting) {
            note(
                log,
                self.core.meters.time,
                Note::Late(order.opcode()).into(),
            );
        }
        if let Some(line) = lessen(&mut self.core.drive) {
            let _ = self.board.set_line(line, LineState::Off);
        }
        Due {
            sample: sample_due(self.core.meters.tick),
            second: self.core.meters.tick == 0,
        }
    }
}
