//! Whether the head takes what is asked of it. Each refusal is the first of an ordered list of tests.
ghost use Rattle.std.specs.Prelude.{◌≡◌, Some};
ghost use Rattle.head.specs.Verdicts.{in_safe, busy as busy_by, first_fits, second_fits, timer_bars as timer_barred_by, is_checkout, is_drive, allowed_at, allowed, confirmed, judged};

use super::parameters::{LARGEST_SET_POINT, OVERRIDE, range_of};
use super::request::Request;
use super::{Core, Fault, Mode, Order, Waiting};

impl Request {
    // Whether it asks for CHECKOUT.
    fn is_checkout(self) -> bool
        ensures { result ≡ is_checkout self }
    {
        matches!(self, Request::Checkout)
    }

    // Whether it asks for a drive.
    fn drives(self) -> bool
        ensures { result ≡ is_drive self }
    {
        matches!(
            self,
            Request::CloseDoor | Request::Critical(Order::OpenDoor | Order::FireRelease(_, _))
        )
    }

    // Whether octet 8 of its frame is in its range.
    fn first_fits(self) -> bool
        ensures { result ≡ first_fits self }
    {
        match self {
            Request::Critical(Order::SetParameter(index, _)) => index < 25,
            Request::Critical(Order::SetSupply(supply, _)) => supply < 2,
            Request::Critical(Order::FireRelease(line, _)) => line < 4,
            Request::Heater(heater, _) => heater < 2,
            _ => true,
        }
    }
}

// Whether a value may stand at an index below 25.
fn in_range(index: u8, value: u8) -> bool
    ensures { result ≡ allowed_at index value }
{
    index < 25 && range_of(usize::from(index)).allows(value)
}

impl Core {
    // Whether octet 9 of the request's frame is in its range.
    fn second_fits(&self, request: Request) -> bool
        ensures { result ≡ second_fits self.now.parameters request }
    {
        match request {
            Request::Critical(Order::SetParameter(index, value)) => in_range(index, value),
            Request::Critical(Order::SetSupply(_, set_point)) =>
                (1..=self.parameters[LARGEST_SET_POINT]).contains(&set_point),
            Request::Critical(Order::FireRelease(_, period)) => 1 <= period,
            Request::Heater(_, value) => value <= 1,
            _ => true,
        }
    }

    // Whether a drive on a line would have to wait for one that runs.
    pub(super) fn busy(&self) -> bool
        ensures { result ≡ busy_by self.now.drive }
    {
        self.drive.is_some()
    }

    // Whether the safety timer bars CHECKOUT.
    fn timer_bars(&self) -> bool
        ensures { result ≡ timer_barred_by self.now }
    {
        self.meters.timer > 0 && self.parameters[OVERRIDE] == 0
    }

    // The tests from the mode on. In line, since request and answer would go through memory at each call.
    #[inline(always)]
    fn allows(&self, request: Request) -> Result<(), Fault>
        ensures { result ≡ allowed self.now request }
    {
        let opcode = request.opcode();
        if self.mode == Mode::Safe && request.barred() {
            return Err(Fault::NotInSafe(opcode));
        }
        if !request.first_fits() {
            return Err(Fault::OutOfRange(8, opcode));
        }
        if !self.second_fits(request) {
            return Err(Fault::OutOfRange(9, opcode));
        }
        if request.is_checkout() && self.timer_bars() {
            return Err(Fault::TimerRuns);
        }
        if request.drives() && self.busy() {
            return Err(Fault::DriveRuns(opcode));
        }
        Ok(())
    }

    // A confirm of what waits: both words are compared whole, and the tests are made again.
    fn confirms(&self, waiting: Waiting, opcode: u16, complement: u16) -> Result<(), Fault>
        ensures { result ≡ confirmed (Some waiting) self.now opcode complement }
    {
        if opcode != waiting.what.opcode() || complement != !opcode {
            return Err(Fault::WrongConfirm);
        }
        self.allows(Request::Critical(waiting.what))
            .map_err(|_| Fault::ConfirmFailed)
    }

    // What a request is answered.
    pub(super) fn judge(&self, request: Request) -> Result<(), Fault>
        ensures { result ≡ judged self.now request }
    {
        match (request, self.waiting) {
            (Request::Confirm(_, _), None) => Err(Fault::NothingWaits),
            (Request::Confirm(opcode, complement), Some(waiting)) => self.confirms(
                waiting, opcode, complement,
            ),
            (Request::Critical(order), Some(_)) => Err(Fault::CriticalWaits(order.opcode())),
            _ => self.allows(request),
        }
    }
}
