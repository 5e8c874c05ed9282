//! The frame: what the two links hold is read, judged and carried out.
ghost use Rattle.std.specs.Prelude.{◌≡◌, false};
ghost use Rattle.head.specs.Effects.{acts, done};
ghost use Rattle.head.specs.Events.{taken as taken_out, frame_answer, answered, framed};
ghost use Rattle.head.specs.Logs.{unsaid as is_unsaid, refused, loss_log, own_log, frame_log};
ghost use Rattle.head.specs.State.{state_of};
ghost use Rattle.head.specs.Verdicts.{judged};

use super::records::note;
use super::request::Request;
use super::safe::{CLOSING, Turn};
use super::{Core, Fault, Head, Note, Order, Waiting};
use board::Board;
use codes::Entry;
use ring::Ring;
use telecommand::{read, set_aside};

/// The line that opens the aperture door.
const OPENING: u8 = 4;

/// How many ticks a critical command waits for its confirm.
const PATIENCE: u16 = 2000;

// Whether the loss of what waited goes unsaid: a right confirm takes it, and some answers tell of it themselves.
fn goes_unsaid(answer: Result<(), Fault>, request: Request) -> bool
    ensures { result ≡ is_unsaid answer request }
{
    match answer {
        Ok(()) => matches!(request, Request::Confirm(_, _)),
        Err(fault) => matches!(
            fault,
            Fault::CriticalWaits(_) | Fault::WrongConfirm | Fault::ConfirmFailed
        ),
    }
}

impl Core {
    // Notes the loss of what waits, unless that goes unsaid.
    fn note_loss(&self, unsaid: bool, log: &mut Ring<Entry>)
        ensures { log.new ≡ loss_log self.now.meters.time self.now.waiting unsaid log.old }
    {
        if let Some(waiting) = self.waiting {
            if !unsaid {
                note(
                    log,
                    self.meters.time,
                    Note::Lost(waiting.what.opcode()).into(),
                );
            }
        }
    }

    // Notes a frame's own fault.
    fn note_answer(&self, answer: Result<(), Fault>, log: &mut Ring<Entry>)
        ensures { log.new ≡ own_log self.now.meters.time answer log.old }
    {
        if let Err(fault) = answer {
            note(log, self.meters.time, fault.into());
        }
    }
}

impl<B: Board> Head<B> {
    // A confirmed order acts.
    fn act(&mut self, order: Order)
        ensures { state_of B.means self.new ≡ acts order (state_of B.means self.old) }
    {
        match order {
            Order::SetParameter(index, value) => {
                // no `get_mut`: no contract says what an array holds after it
                if index < 25 {
                    self.core.parameters[usize::from(index)] = value;
                }
            }
            Order::OpenDoor => {
                let ticks = self.core.door_ticks();
                self.start(OPENING, ticks);
            }
            Order::SetSupply(supply, set_point) => {
                let _ = self.board.set_supply(supply, set_point);
            }
            Order::FireRelease(line, period) => self.start(line, u16::from(period)),
        }
    }

    // An accepted request is carried out, where this was taken out of waiting.
    fn carry_out(&mut self, taken: Option<Waiting>, request: Request)
        ensures { state_of B.means self.new ≡ done taken request (state_of B.means self.old) }
    {
        match request {
            Request::Nothing => {}
            Request::Safe => {
                let _ = self.turn(Turn::GoSafe);
            }
            Request::Checkout => {
                let _ = self.turn(Turn::GoCheckout);
            }
            Request::Confirm(_, _) => {
                if let Some(waiting) = taken {
                    self.act(waiting.what);
                }
            }
            Request::CloseDoor => {
                let ticks = self.core.door_ticks();
                self.start(CLOSING, ticks);
            }
            Request::SuppliesOff => self.zero_supplies(),
            Request::Heater(heater, value) => {
                let _ = self.board.set_heater(heater, value == 1);
            }
            Request::Critical(order) => self.core.waiting = Some(Waiting {
                what: order,
                left: PATIENCE,
            }),
        }
    }

    // A request is judged, what there is to note is noted, and it is carried out where it is accepted.
    fn request(&mut self, request: Request, log: &mut Ring<Entry>) -> Result<(), Fault>
        ensures answer { result ≡ judged self.old.core request }
        ensures became { state_of B.means self.new ≡ answered result request (state_of B.means self.old) }
        ensures noted { log.new ≡ own_log self.old.core.meters.time result (loss_log self.old.core.meters.time self.old.core.waiting (is_unsaid result request) log.old) }
    {
        let answer = self.core.judge(request);
        self.core.note_loss(goes_unsaid(answer, request), log);
        self.core.note_answer(answer, log);
        let taken = self.core.waiting.take();
        if answer.is_ok() {
            self.carry_out(taken, request);
        }
        answer
    }

    // What the links hold is no command: what waits is lost.
    fn unread(&mut self, fault: Fault, log: &mut Ring<Entry>)
        ensures became { state_of B.means self.new ≡ taken_out (state_of B.means self.old) }
        ensures noted { log.new ≡ refused self.old.core.meters.time fault (loss_log self.old.core.meters.time self.old.core.waiting false log.old) }
    {
        self.core.note_loss(false, log);
        note(log, self.core.meters.time, fault.into());
        self.core.waiting = None;
    }

    // Two buffers and no struct of links, as `choose` of telecommand has them.

    /// A frame on the primary and the redundant link: accepted, or the first fault.
    pub fn frame<'a>(
        &mut self,
        primary: &'a [u8],
        redundant: &'a [u8],
        log: &mut Ring<Entry>,
    ) -> Result<(), Fault>
        ensures answer { result ≡ frame_answer primary.now redundant.now self.old.core }
        ensures became { state_of B.means self.new ≡ framed primary.now redundant.now (state_of B.means self.old) }
        ensures noted { log.new ≡ frame_log primary.now redundant.now self.old.core log.old }
    {
        if primary.is_empty() && redundant.is_empty() {
            return Err(Fault::BothEmpty);
        }
        if let Some(fault) = set_aside(primary, redundant) {
            note(log, self.core.meters.time, fault.into());
        }
        match read(primary, redundant) {
            Ok(command) => self.request(command.into(), log),
            Err(fault) => {
                self.unread(Fault::Unread(fault), log);
                Err(Fault::Unread(fault))
            }
        }
    }
}
