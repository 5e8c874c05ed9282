//! The port board: four bytes, one for each supply, one for the heaters and one for the lines.
ghost use Rattle.std.specs.Prelude.{◌≡◌, ◌<◌, ◌≤◌};
ghost use mir.Val.{bool_byte};
ghost use Rattle.board.specs.Bits.{put, bit as bit_of};
ghost use Rattle.board.specs.Faults.{reply};
ghost use Rattle.board.specs.Meaning.{Leaves, with_supply, with_heater, with_line};
ghost use Rattle.board.specs.Ports.{ports_of, bytes_of, outputs, supply_port, heater_port, line_port};
ghost use Rattle.board.specs.PortsLemmas.{port_whole};

use super::fault::within;
use super::{Board, Fault, LineState};

/// Supplies 0 and 1 have a byte each; bits 0 and 1 of `heaters` are the heaters, bits 0 to 5 of `lines` the lines.
/// The other bits of those two bytes stay as they were found.
#[derive(Drop)]
pub struct PortBoard {
    supplies: [u8; 2],
    heaters: u8,
    lines: u8,
}

// These two are not the chain board's fields of a word: a byte would have to be widened and, with a proof, cut back.

// `byte` with bit `which` as given.
#[tactic(auto, using(crate::specs::Put::put_code8, crate::specs::Put::byte_small))]
fn with_bit(byte: u8, which: u8, on: bool) -> u8
    requires { which < 8 }
    ensures { result ≡ put byte 1 which (bool_byte on) }
{
    (byte & !(1 << which)) | (u8::from(on) << which)
}

// Bit `which` of `byte`.
#[tactic(auto, using(std::proofs::lemmas::Nat::and_mask))]
fn bit(byte: u8, which: u8) -> bool
    requires { which < 8 }
    ensures { result ≡ bit_of byte which }
{
    (byte >> which) & 1 == 1
}

impl PortBoard {
    /// The board whose ports hold these bytes: supply 0, supply 1, heaters, lines.
    pub fn new(bytes: [u8; 4]) -> PortBoard
        ensures { result ≡ ports_of bytes }
    {
        let [supply0, supply1, heaters, lines] = bytes;
        PortBoard {
            supplies: [supply0, supply1],
            heaters,
            lines,
        }
    }

    /// What the ports hold: supply 0, supply 1, heaters, lines.
    pub fn bytes(&self) -> [u8; 4]
        ensures { result ≡ bytes_of self.now }
    {
        let [supply0, supply1] = self.supplies;
        [supply0, supply1, self.heaters, self.lines]
    }
}

#[tactic(auto, using(crate::proofs::KeptAsBits::kept_as_bits))]
impl Board for PortBoard {
    ghost means = { outputs };

    ghost whole = { port_whole };

    fn set_supply(&mut self, which: u8, set_point: u8) -> Result<(), Fault>
        ensures answer { result ≡ reply which 2 tt }
        ensures effect { Leaves outputs self.old self.new (with_supply (outputs self.old) which set_point) }
        ensures refused { 2 ≤ which → outputs self.new ≡ outputs self.old }
        ensures ports { self.new ≡ supply_port self.old which set_point }
    {
        // no `get_mut`: no contract says what an array holds after it
        within(which, 2)?;
        self.supplies[usize::from(which)] = set_point;
        Ok(())
    }

    fn set_heater(&mut self, which: u8, on: bool) -> Result<(), Fault>
        ensures answer { result ≡ reply which 2 tt }
        ensures effect { Leaves outputs self.old self.new (with_heater (outputs self.old) which on) }
        ensures refused { 2 ≤ which → outputs self.new ≡ outputs self.old }
        ensures ports { self.new ≡ heater_port self.old which on }
    {
        within(which, 2)?;
        self.heaters = with_bit(self.heaters, which, on);
        Ok(())
    }

    fn set_line(&mut self, which: u8, state: LineState) -> Result<(), Fault>
        ensures answer { result ≡ reply which 6 tt }
        ensures effect { Leaves outputs self.old self.new (with_line (outputs self.old) which state) }
        ensures refused { 6 ≤ which → outputs self.new ≡ outputs self.old }
        ensures ports { self.new ≡ line_port self.old which state }
    {
        within(which, 6)?;
        self.lines = with_bit(self.lines, which, state.is_on());
        Ok(())
    }

    fn supply(&self, which: u8) -> Result<u8, Fault> {
        let supply = self.supplies.get(usize::from(which));
        supply.copied().ok_or(Fault::NamesNothing)
    }

    fn heater(&self, which: u8) -> Result<bool, Fault> {
        within(which, 2)?;
        Ok(bit(self.heaters, which))
    }

    fn line(&self, which: u8) -> Result<LineState, Fault> {
        within(which, 6)?;
        Ok(LineState::from(bit(self.lines, which)))
    }
}
