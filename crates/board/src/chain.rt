//! The chain board: one word of 32 bits, shifted in and then latched.
ghost use Rattle.std.specs.Prelude.{◌≡◌, ◌+◌, ◌*◌, ◌/◌, ◌%◌, ◌^◌, ◌<◌, ◌≤◌};
ghost use Rattle.board.specs.Bits.{put, field_at};
ghost use Rattle.board.specs.Chain.{word_outputs};
ghost use Rattle.board.specs.Shift.{sent};
ghost use Rattle.board.specs.Words.{word_whole};

use super::fault::within;
use super::{Board, Fault, LineState, ShiftRegister};

/// Bits 0 to 5 of the latched word are the lines, 6 and 7 the heaters, 8 to 15 supply 0, 16 to 23 supply 1; the rest
/// is zero.
#[derive(Drop)]
pub struct ChainBoard {
    register: ShiftRegister,
    ghost rest: { register.latched < 2 ^ 24 },
}

// `word` with `value` in place of the `width` bits from bit `at` on.
#[tactic(auto, using(crate::specs::Words::put_code32, crate::specs::Words::put_rest))]
fn put_field(word: u32, width: u8, at: u8, value: u8) -> u32
    requires word { word < 2 ^ 24 }
    requires place { width + at ≤ 24 }
    requires value { value < 2 ^ width }
    ensures word { result ≡ put word width at value }
    ensures rest { result < 2 ^ 24 }
{
    let mask = ((1u32 << width) - 1) << at;
    (word & !mask) | (u32::from(value) << at)
}

// The `width` bits of `word` from bit `at` on.
#[tactic(auto, using(crate::specs::Words::field_code))]
fn get_field(word: u32, width: u8, at: u8) -> u8
    requires { (width ≤ 8) × (at < 32) }
    ensures { result ≡ field_at word width at }
{
    ((word >> at) & ((1u32 << width) - 1)) as u8
}

// Brings a word across: 32 clocks, highest bit first, and one latch. The loop counts bits of a number, which no
// iterator gives.
#[tactic(auto, using(crate::specs::Words::shift_down, crate::specs::Words::shift_below, crate::specs::Words::test_byte))]
fn send(register: &mut ShiftRegister, word: u32)
    ensures { register.new ≡ sent register.old word }
{
    for i in (0..32u32).rev() {
        register.clock((word >> i) & 1 == 1);
    }
    register.latch();
}

impl ChainBoard {
    /// A board after its reset: everything off.
    pub fn new() -> ChainBoard
        ensures { result.register ≡ record { cells = 0; latched = 0; latches = 0 } }
    {
        ChainBoard {
            register: ShiftRegister::new(),
        }
    }

    /// The latched word.
    pub fn word(&self) -> u32
        ensures latched { result ≡ self.now.register.latched }
        ensures rest { result < 2 ^ 24 }
    {
        self.register.latched()
    }
}

#[tactic(auto, using(crate::proofs::KeptAsBits::kept_in_a_word))]
impl Board for ChainBoard {
    ghost means = { λ b. word_outputs b.register.latched };

    ghost whole = { λ b. word_whole b.register.latched };

    fn set_supply(&mut self, which: u8, set_point: u8) -> Result<(), Fault> {
        within(which, 2)?;
        let word = put_field(self.register.latched(), 8, 8 + 8 * which, set_point);
        send(&mut self.register, word);
        Ok(())
    }

    fn set_heater(&mut self, which: u8, on: bool) -> Result<(), Fault> {
        within(which, 2)?;
        let word = put_field(self.register.latched(), 1, 6 + which, u8::from(on));
        send(&mut self.register, word);
        Ok(())
    }

    fn set_line(&mut self, which: u8, state: LineState) -> Result<(), Fault> {
        within(which, 6)?;
        let word = put_field(self.register.latched(), 1, which, u8::from(state.is_on()));
        send(&mut self.register, word);
        Ok(())
    }

    fn supply(&self, which: u8) -> Result<u8, Fault> {
        within(which, 2)?;
        Ok(get_field(self.register.latched(), 8, 8 + 8 * which))
    }

    fn heater(&self, which: u8) -> Result<bool, Fault> {
        within(which, 2)?;
        Ok(get_field(self.register.latched(), 1, 6 + which) == 1)
    }

    fn line(&self, which: u8) -> Result<LineState, Fault> {
        within(which, 6)?;
        Ok(LineState::from(get_field(self.register.latched(), 1, which) == 1))
    }
}
