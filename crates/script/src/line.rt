//! A line as it is read, chunk by chunk.
ghost use Rattle.std.specs.Prelude.{◌≡◌, [], Some};
ghost use Rattle.std.specs.Option.{option_map};
ghost use Rattle.script.specs.Lines.{onto, Took};

use std::marker::Model;

/// The longest legal line: `F`, a space and 64 octets.
const LONGEST: usize = 130;

// An array and a count, and no `ArrayVec`: a value of that type cannot be copied.

/// A line as far as it has come: so many of the bytes, or none where it is longer than the longest legal line. The
/// other bytes are zero.
#[derive(Clone, Copy)]
pub struct LineBuffer {
    bytes: [u8; LONGEST],
    count: Option<usize>,
}

impl Model for LineBuffer {
    ghost use Rattle.std.specs.Prelude.{ℕ, List, [], length, take, Option};
    ghost use Rattle.std.specs.Option.{option_map, unwrap_or};
    ghost use Rattle.script.specs.Padded.{Padded, padded, gives_back};

    ghost Value = { Option (List ℕ) };

    ghost view = { λ l. option_map (λ n. take n l.bytes) l.count };

    ghost invariant = { λ l. Padded l.bytes (unwrap_or l.count 0) };

    ghost inverse = { λ line. record { bytes = padded (unwrap_or line []); count = option_map length line } };

    ghost inverse_ok = { λ l h. gives_back (λ bytes count. record { bytes = bytes; count = count }) l.bytes l.count h };
}

impl LineBuffer {
    /// A line of which nothing has come.
    pub fn new() -> LineBuffer
        ensures { result ≡ Some [] }
    {
        LineBuffer {
            bytes: [0; LONGEST],
            count: Some(0),
        }
    }

    // More bytes, or no line where they do not fit.
    fn extend(&mut self, more: &[u8])
        ensures { self.new ≡ onto self.old more.now }
    {
        let Some(count) = self.count else {
            return;
        };
        if more.len() > LONGEST - count {
            self.bytes = [0; LONGEST];
            self.count = None;
            return;
        }
        self.bytes[count..count + more.len()].copy_from_slice(more);
        self.count = Some(count + more.len());
    }

    /// Takes what a chunk has of the line, up to a line feed. Where one ends the line, this is how many bytes of the
    /// chunk are used then, the line feed too.
    pub fn take(&mut self, chunk: &[u8]) -> Option<usize>
        ensures { Took chunk.now self.old self.new result }
    {
        let end = chunk.iter().position(|byte| *byte == b'\n');
        self.extend(&chunk[..end.unwrap_or(chunk.len())]);
        end.map(|i| i + 1)
    }

    /// The line, or none where it is longer than any legal line.
    pub fn text(&self) -> Option<&[u8]>
        ensures { option_map (λ x. x.now) result ≡ self.now }
    {
        let count = self.count?;
        Some(&self.bytes[..count])
    }
}
