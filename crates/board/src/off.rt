//! Everything off, over any board.
ghost use Rattle.std.specs.Prelude.{◌≡◌};
ghost use Rattle.board.specs.Meaning.{Leaves, dark};

use super::{Board, LineState};

// The loops count outputs, which have numbers for names.

/// Sets each of the ten outputs off, once.
#[tactic(auto, using(crate::proofs::Above::lines_more, crate::proofs::Above::all_dark))]
pub fn all_off<B: Board>(board: &mut B)
    ensures { Leaves B.means board.old board.new dark }
{
    for i in 0..2 {
        let _ = board.set_supply(i, 0);
        let _ = board.set_heater(i, false);
    }
    for k in 0..6 {
        let _ = board.set_line(k, LineState::Off);
    }
}
