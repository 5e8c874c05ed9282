//! What the writer puts into a buffer, and what it refuses.
use codes::Report;
use std::test::Fail;
use telecommand::{Command, read, write};

// The code of a refusal, or none for a frame that was written.
fn code(buffer: &mut [u8], from: usize, words: &[u16], count: u16) -> Option<u8> {
    write(buffer, from, 0x6612, words, count)
        .err()
        .map(|fault| Report::from(fault).code)
}

#[test]
fn a_refusal_leaves_the_buffer(rt: HostRuntime) {
    let mut buffer = [0xEE; 12];
    // more than two words, or a count above 16,383, comes before the end of the buffer
    assert_eq!(rt; code(&mut buffer, 0, &[1, 2, 3], 0), Some(0x72));
    assert_eq!(rt; code(&mut buffer, 20, &[1, 2, 3], 0), Some(0x72));
    assert_eq!(rt; code(&mut buffer, usize::MAX, &[1], 16384), Some(0x72));
    assert_eq!(rt; code(&mut buffer, 3, &[1], 0), Some(0x71));
    assert_eq!(rt; code(&mut buffer, 13, &[], 0), Some(0x71));
    assert_eq!(rt; code(&mut buffer, usize::MAX, &[1], 0), Some(0x71));
    assert_eq!(rt; buffer, [0xEE; 12]);
}

#[test]
fn a_frame_stands_between_what_was_there(rt: HostRuntime) -> Result<(), Fail> {
    let mut buffer = [0xEE; 12];
    assert_eq!(rt; write(&mut buffer, 1, 0x6612, &[0x0228], 16383)?, 10);
    assert_eq!(rt;
        buffer,
        [
            0xEE, 0x11, 0x01, 0xFF, 0xFF, 0x00, 0x03, 0x66, 0x12, 0x02, 0x28, 0xEE,
        ]
    );
    // to the last octet
    assert_eq!(rt; write(&mut buffer, 4, 0x6601, &[], 0)?, 8);
    Ok(())
}

#[test]
fn what_is_written_is_read(rt: HostRuntime) -> Result<(), Fail> {
    let mut buffer = [0; 16];
    let size = write(&mut buffer, 3, 0x6604, &[0x6612, 0x99ED], 5)?;
    assert_eq!(rt; size, 12);
    let Command::Confirm(words) = read(&buffer[3..15], &[])? else {
        return Err(Fail::new("another command was read"));
    };
    assert_eq!(rt; words, [0x66, 0x12, 0x99, 0xED].as_slice());
    Ok(())
}
