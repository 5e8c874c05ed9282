//! A board that counts how often each output is set. It is also how a board is added: a struct, `ghost means` saying
//! which ten outputs its fields stand for, `ghost whole` that they are all there, and the six methods, which the check
//! holds to that meaning.
ghost use Rattle.std.specs.Prelude.{◌≡◌};
ghost use Rattle.std.proofs.Common.{rules};

use board::{Board, ChainBoard, Crossed, Fault, LineState, PortBoard, all_off};
use std::process::Abort;
use std::test::Fail;

/// Hands every call on to the board under it, and counts the settings of each output.
#[derive(Drop)]
pub struct Counting<B> {
    inner: B,
    supplies: [u8; 2],
    heaters: [u8; 2],
    lines: [u8; 6],
}

// One setting more of an output; a number that names none is not counted.
fn count(counts: &mut [u8], which: u8) {
    if let Some(n) = counts.get_mut(usize::from(which)) {
        *n = n.saturating_add(1);
    }
}

impl<B> Counting<B> {
    /// The board, with nothing counted yet.
    pub fn new(inner: B) -> Counting<B>
        ensures { result.inner ≡ inner }
    {
        Counting {
            inner,
            supplies: [0; 2],
            heaters: [0; 2],
            lines: [0; 6],
        }
    }
}

impl<B: Board> Board for Counting<B> {
    ghost means = { λ c. B.Board.means c.inner };

    ghost whole = { Prim.search rules };

    fn set_supply(&mut self, which: u8, set_point: u8) -> Result<(), Fault> {
        count(&mut self.supplies, which);
        self.inner.set_supply(which, set_point)
    }

    fn set_heater(&mut self, which: u8, on: bool) -> Result<(), Fault> {
        count(&mut self.heaters, which);
        self.inner.set_heater(which, on)
    }

    fn set_line(&mut self, which: u8, state: LineState) -> Result<(), Fault> {
        count(&mut self.lines, which);
        self.inner.set_line(which, state)
    }

    fn supply(&self, which: u8) -> Result<u8, Fault> {
        self.inner.supply(which)
    }

    fn heater(&self, which: u8) -> Result<bool, Fault> {
        self.inner.heater(which)
    }

    fn line(&self, which: u8) -> Result<LineState, Fault> {
        self.inner.line(which)
    }
}

// Puts everything off over a board, and sees each output set once.
fn set_once<B: Board + Drop>(rt: &impl Abort, inner: B) -> B {
    let mut board = Counting::new(inner);
    all_off(&mut board);
    let Counting {
        inner,
        supplies,
        heaters,
        lines,
    } = board;
    assert_eq!(rt; supplies, [1; 2]);
    assert_eq!(rt; heaters, [1; 2]);
    assert_eq!(rt; lines, [1; 6]);
    inner
}

#[test]
fn all_off_sets_each_output_once(rt: HostRuntime) -> Result<(), Fail> {
    let port = set_once(&rt, PortBoard::new([0x28, 0x05, 0x03, 0xBF]));
    assert_eq!(rt; port.bytes(), [0, 0, 0, 0x80]);
    let crossed = set_once(&rt, Crossed::new(port));
    assert_eq!(rt; crossed.board().bytes(), [0, 0, 0, 0x80]);
    let mut chain = ChainBoard::new();
    chain.set_supply(1, 200)?;
    let chain = set_once(&rt, chain);
    assert_eq!(rt; chain.word(), 0);
    Ok(())
}
