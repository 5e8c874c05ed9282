//! The ten outputs of a detector head: two supplies, two heaters, six timed lines. `Board` is what every make of
//! board means; `PortBoard` and `ChainBoard` are two makes, and `Crossed` stands on any board and is one again.
#![tactic(auto)]

ghost use Rattle.std.specs.Prelude.{◌≡◌, ◌≤◌, false, slice_index, slice_index_or};
ghost use Rattle.board.specs.Meaning.{Outputs, Whole, Leaves, with_supply, with_heater, with_line};
ghost use Rattle.board.specs.Faults.{reply};
ghost use Rattle.board.specs.declared.line_state.LineState.TheVariants.{Off};

mod chain;
mod crossed;
mod fault;
mod line_state;
mod off;
mod port;
mod shift_register;

pub use chain::ChainBoard;
pub use crossed::Crossed;
pub use fault::Fault;
pub use line_state::LineState;
pub use off::all_off;
pub use port::PortBoard;
pub use shift_register::ShiftRegister;

// An output is named by a number and no enum: a caller may ask for any, and what names none is refused.

/// A board means ten outputs. Each setter changes one of them and leaves the other nine; a question changes nothing;
/// a number that names nothing is refused, and nothing changes.
pub trait Board {
    ghost means: { Self → Outputs };

    fn set_supply(&mut self, which: u8, set_point: u8) -> Result<(), Fault>
        ensures answer { result ≡ reply which 2 tt }
        ensures effect { Leaves means self.old self.new (with_supply (means self.old) which set_point) }
        ensures refused { 2 ≤ which → means self.new ≡ means self.old };

    fn set_heater(&mut self, which: u8, on: bool) -> Result<(), Fault>
        ensures answer { result ≡ reply which 2 tt }
        ensures effect { Leaves means self.old self.new (with_heater (means self.old) which on) }
        ensures refused { 2 ≤ which → means self.new ≡ means self.old };

    fn set_line(&mut self, which: u8, state: LineState) -> Result<(), Fault>
        ensures answer { result ≡ reply which 6 tt }
        ensures effect { Leaves means self.old self.new (with_line (means self.old) which state) }
        ensures refused { 6 ≤ which → means self.new ≡ means self.old };

    fn supply(&self, which: u8) -> Result<u8, Fault>
        ensures { result ≡ reply which 2 (slice_index (means self.now).supplies which) };

    fn heater(&self, which: u8) -> Result<bool, Fault>
        ensures { result ≡ reply which 2 (slice_index_or (means self.now).heaters which false) };

    fn line(&self, which: u8) -> Result<LineState, Fault>
        ensures { result ≡ reply which 6 (slice_index_or (means self.now).lines which Off) };

    ghost whole: { (b : Self) → Whole (means b) };
}
