//! The writer: a command's frame into a part of a buffer.
ghost use Rattle.std.specs.Prelude.{◌≡◌, ◌+◌, ◌*◌, ◌≤◌, ◌∷◌, ◌++◌, length, drop};
ghost use Rattle.telecommand.specs.Frames.{octets, frame_of, writes, after, ReadsBack};

use super::WriteFault;
use super::packet::{TELECOMMAND, header};

// Puts the words at the start of the part, each high octet first.
fn put_words(part: &mut [u8], words: &[u16])
    requires { 2 * length words.now ≤ length part.old }
    ensures { part.new ≡ octets words.now ++ drop (2 * length words.now) part.old }
{
    if let [word, others @ ..] = words {
        let (first, rest) = part.split_at_mut(2);
        first.copy_from_slice(&word.to_be_bytes());
        put_words(rest, others);
    }
}

// Puts a frame at the start of the part.
fn put_frame(part: &mut [u8], opcode: u16, words: &[u16], count: u16)
    requires few { length words.now ≤ 2 }
    requires count { count ≤ 16383 }
    requires room { 8 + 2 * length words.now ≤ length part.old }
    ensures { part.new ≡ frame_of opcode words.now count ++ drop (8 + 2 * length words.now) part.old }
{
    let number = 1 + 2 * words.len() as u16;
    part[..6].copy_from_slice(&header(TELECOMMAND, count, number));
    part[6..8].copy_from_slice(&opcode.to_be_bytes());
    put_words(&mut part[8..], words);
}

/// Puts the frame of an op-code, words and sequence count into the buffer from an octet on, and returns its length.
pub fn write(
    buffer: &mut [u8],
    from: usize,
    opcode: u16,
    words: &[u16],
    count: u16,
) -> Result<usize, WriteFault>
    ensures answer { result ≡ writes (length buffer.old) from words.now count }
    ensures stays { buffer.new ≡ after buffer.old from (frame_of opcode words.now count) result }
    ensures back { ReadsBack buffer.new from opcode words.now result }
{
    if words.len() > 2 || count > 16383 {
        return Err(WriteFault::NoFrame);
    }
    let size = 8 + 2 * words.len();
    if from > buffer.len() || buffer.len() - from < size {
        return Err(WriteFault::PastEnd);
    }
    put_frame(&mut buffer[from..], opcode, words, count);
    Ok(size)
}
