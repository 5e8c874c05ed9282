//! The crossing adapter: stands on any board and exchanges its outputs in pairs, as a crossed harness does.
ghost use Rattle.std.specs.Prelude.{◌≡◌};
ghost use Rattle.board.specs.Crossing.{crossed as exchanged, other, other_line};
ghost use Rattle.std.proofs.Common.{rules};

use super::{Board, Fault, LineState};

/// Exchanges supplies 0 and 1, heaters 0 and 1, lines 0 and 1, and lines 2 and 3, and nothing else.
#[derive(Drop)]
pub struct Crossed<B> {
    inner: B,
}

// The other of a pair 0 and 1; any other number is its own.
fn partner(which: u8) -> u8
    ensures { result ≡ other which }
{
    match which {
        0 => 1,
        1 => 0,
        _ => which,
    }
}

// The other of a pair 0 and 1, or 2 and 3; any other number is its own.
fn partner_line(which: u8) -> u8
    ensures { result ≡ other_line which }
{
    match which {
        2 => 3,
        3 => 2,
        _ => partner(which),
    }
}

impl<B> Crossed<B> {
    /// The adapter on a board.
    pub fn new(inner: B) -> Crossed<B>
        ensures { result.inner ≡ inner }
    {
        Crossed { inner }
    }

    /// The board under the adapter, to look at.
    pub fn board(&self) -> &B
        ensures { result.now ≡ self.now.inner }
    {
        &self.inner
    }

    /// The board under the adapter, taken off it.
    pub fn into_board(self) -> B
        ensures { result ≡ self.inner }
    {
        let Crossed { inner } = self;
        inner
    }
}

impl<B: Board> Board for Crossed<B> {
    ghost means = { λ c. exchanged (B.Board.means c.inner) };

    ghost whole = { Prim.search rules };

    fn set_supply(&mut self, which: u8, set_point: u8) -> Result<(), Fault> {
        self.inner.set_supply(partner(which), set_point)
    }

    fn set_heater(&mut self, which: u8, on: bool) -> Result<(), Fault> {
        self.inner.set_heater(partner(which), on)
    }

    fn set_line(&mut self, which: u8, state: LineState) -> Result<(), Fault> {
        self.inner.set_line(partner_line(which), state)
    }

    fn supply(&self, which: u8) -> Result<u8, Fault> {
        self.inner.supply(partner(which))
    }

    fn heater(&self, which: u8) -> Result<bool, Fault> {
        self.inner.heater(partner(which))
    }

    fn line(&self, which: u8) -> Result<LineState, Fault> {
        self.inner.line(partner_line(which))
    }
}
