//! Octets in capital hexadecimal, two digits to each, without gaps.
ghost use Rattle.std.specs.Prelude.{◌≡◌, ◌<◌, ◌≤◌, [], ◌∷◌};
ghost use Rattle.script.specs.Hex.{hex_digit, octet_text, hex, octets_in, Filling};
ghost use Rattle.script.specs.Reading.{Reads};

/// The most octets that a line holds.
pub(super) const MOST: usize = 64;

// An array and a count, and no `ArrayVec`: a value of that type cannot be copied.

/// Up to 64 octets: the first `count` of `bytes`. The places after them are zero.
#[derive(Clone, Copy)]
pub struct Octets {
    pub bytes: [u8; MOST],
    pub count: usize,
}

impl Octets {
    /// The octets, to look at.
    pub fn as_slice(&self) -> &[u8]
        ensures { result.now ≡ octets_in self.now }
    {
        let count = self.count.min(MOST);
        &self.bytes[..count]
    }
}

// The number that a capital digit writes.
fn digit(byte: u8) -> Option<u8>
    ensures { Reads (λ d. d < 16) hex_digit byte result }
{
    match byte {
        b'0'..=b'9' => Some(byte - b'0'),
        b'A'..=b'F' => Some(byte - b'A' + 10),
        _ => None,
    }
}

// The octet that two digits write.
fn octet(high: u8, low: u8) -> Option<u8>
    ensures { Reads (λ b. b ≤ 255) octet_text (high ∷ low ∷ []) result }
{
    Some(16 * digit(high)? + digit(low)?)
}

// The octets that a text writes, at least one.
pub(super) fn read_octets(text: &[u8]) -> Option<Octets>
    ensures { Reads Filling (λ o. hex (octets_in o)) text.now result }
{
    let (pairs, []) = text.as_chunks::<2>() else {
        return None;
    };
    if pairs.is_empty() || pairs.len() > MOST {
        return None;
    }
    let mut bytes = [0; MOST];
    // Places are counted: octets that are pushed one by one take longer (docs/DESIGN-PASS.md).
    for (place, [high, low]) in pairs.iter().enumerate() {
        bytes[place] = octet(*high, *low)?;
    }
    Some(Octets {
        bytes,
        count: pairs.len(),
    })
}
