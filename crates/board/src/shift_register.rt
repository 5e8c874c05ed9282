//! The 32 cells of a chain board behind one data line, the word that was latched of them last, and how often one was
//! latched. Only `clock` and `latch` change anything, so whatever is to be latched has to be clocked in; the count of
//! latches lets a sender promise that nothing was latched on the way.
ghost use Rattle.std.specs.Prelude.{◌≡◌, ◌+◌, ◌*◌, ◌%◌, ◌^◌};
ghost use mir.Val.{bool_byte};
ghost use Rattle.board.specs.Shift.{clocked, latch as taken};

#[derive(Default, Drop)]
pub struct ShiftRegister {
    cells: u32,
    latched: u32,
    latches: u32,
}

impl ShiftRegister {
    /// A register after its reset: all cells zero, zero latched, no latch counted.
    pub fn new() -> ShiftRegister
        ensures { result ≡ record { cells = 0; latched = 0; latches = 0 } }
    {
        ShiftRegister::default()
    }

    /// One clock: every cell takes its lower neighbour's bit, and cell 0 the data line's.
    #[tactic(auto, using(crate::specs::Words::shift_in))]
    pub fn clock(&mut self, bit: bool)
        ensures { self.new ≡ clocked self.old bit }
    {
        self.cells = (self.cells << 1) | u32::from(bit);
    }

    /// Takes what the cells hold as the latched word, and counts the latch.
    pub fn latch(&mut self)
        ensures { self.new ≡ taken self.old }
    {
        self.latched = self.cells;
        self.latches = self.latches.wrapping_add(1);
    }

    /// The word latched last.
    pub fn latched(&self) -> u32
        ensures { result ≡ self.now.latched }
    {
        self.latched
    }
}
