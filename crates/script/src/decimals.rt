//! Decimal numbers: no sign, no leading zero, one space between two.
ghost use Rattle.std.specs.Prelude.{◌≡◌, ◌<◌, ◌≤◌, decimal};
ghost use Rattle.script.specs.Reading.{Reads};
ghost use Rattle.script.specs.Numbers.{plain, spaced, SoManyBytes};

use arrayvec::ArrayVec;
use std::str::from_utf8;

// Whether a text is not empty, and has no sign and no leading zero.
fn is_plain(text: &[u8]) -> bool
    ensures { result ≡ plain text.now }
{
    !matches!(text, [] | [b'+', ..] | [b'0', _, ..])
}

// The number that a text writes, up to `most`; a number type in its place would have no contract for its `parse`.
pub(super) fn number(text: &str, most: u32) -> Option<u32>
    ensures { Reads (λ n. n ≤ most) decimal text.now result }
{
    if !is_plain(text.as_bytes()) {
        return None;
    }
    let n = text.parse().ok()?;
    (n <= most).then_some(n)
}

// The number that a text writes, up to 65,535.
pub(super) fn short(text: &str) -> Option<u16>
    ensures { Reads (λ n. n ≤ 65535) decimal text.now result }
{
    number(text, 65_535).map(|n| n as u16)
}

// The bytes that a text writes, so many of them, with one space between two.
pub(super) fn bytes<const N: usize>(text: &str) -> Option<[u8; N]>
    requires some { 0 < N }
    requires few { N ≤ 8 }
    ensures { Reads (SoManyBytes N) spaced text.now result }
{
    // no byte has more than three digits, and a space parts two
    if text.len() > 4 * N {
        return None;
    }
    let mut values = ArrayVec::<u8, N>::new();
    for field in text.split(' ') {
        values.try_push(number(field, 255)? as u8).ok()?;
    }
    values.into_inner().ok()
}

/// How many event lines follow: what the first line of a script says, 0 to 65,535.
pub fn count(line: &[u8]) -> Option<u16>
    ensures { Reads (λ n. n ≤ 65535) decimal line.now result }
{
    let text = from_utf8(line).ok()?;
    short(text)
}
