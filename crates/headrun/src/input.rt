//! Lines, assembled from what the input gives chunk by chunk.
use script::LineBuffer;
use std::io::BufRead;

// The next line, or an empty one where the input has ended or fails. Reading stops where the line is longer than any
// legal one.
pub(super) fn next_line<R: BufRead>(input: &mut R) -> LineBuffer {
    let mut line = LineBuffer::new();
    // Counted, since a loop has to end; no input is that long.
    for _ in 0..u64::MAX {
        let Ok(chunk @ [_, ..]) = input.fill_buf() else {
            break;
        };
        let end = line.take(chunk);
        let used = end.unwrap_or(chunk.len());
        input.consume(used);
        if end.is_some() || line.text().is_none() {
            break;
        }
    }
    line
}
