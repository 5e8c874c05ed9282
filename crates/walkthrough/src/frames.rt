//! The frames of a release firing, written into one buffer one after the other.
use super::narration::{paragraph, show_octets};
use super::stop::Stop;
use telecommand::write;

pub const FIRE_RELEASE: u16 = 0x6612;

pub const CONFIRM: u16 = 0x6604;

/// The word of the release: line 2, for 4 ticks.
pub const RELEASE: u16 = 0x0204;

/// Writes the frame that fires the release, and then its confirm. Returns the first one, as it lies in the buffer.
pub fn write_frames<'a>(rt: &HostRuntime, buffer: &'a mut [u8]) -> Result<&'a [u8], Stop> {
    paragraph(
        rt,
        &[
            "The release on line 2 is to be fired for 4 ticks. That is critical, so a confirm",
            "follows: the op-code once more, and its complement. Both frames go into one",
            "buffer, one after the other.",
        ],
    )?;
    let first = write(buffer, 0, FIRE_RELEASE, &[RELEASE], 0)?;
    let second = write(buffer, first, CONFIRM, &[FIRE_RELEASE, !FIRE_RELEASE], 1)?;
    let (firing, others) = buffer.split_at_checked(first).ok_or(Stop::Changed)?;
    let (confirm, untouched) = others.split_at_checked(second).ok_or(Stop::Changed)?;
    show_octets(rt, "fire release", firing)?;
    show_octets(rt, "confirm", confirm)?;
    show_octets(rt, "untouched", untouched)?;
    Ok(firing)
}
