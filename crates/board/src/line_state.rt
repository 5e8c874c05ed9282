//! What a line can be: off, or on.
ghost use Rattle.std.specs.Prelude.{◌≡◌};
ghost use Rattle.board.specs.Lines.{is_on, line_of};

#[derive(Clone, Copy, PartialEq, Eq, Debug)]
pub enum LineState {
    Off,
    On,
}

impl LineState {
    /// Whether the line feeds what hangs on it.
    pub fn is_on(self) -> bool
        ensures { result ≡ is_on self }
    {
        matches!(self, LineState::On)
    }
}

/// On where `on` is true, else off.
impl From<bool> for LineState {
    ghost from_gives = { λ on state. state ≡ line_of on };

    fn from(on: bool) -> LineState {
        if on { LineState::On } else { LineState::Off }
    }
}
