//! The frames that go up to the head, each as the writer puts it.
use super::frames::{CONFIRM, FIRE_RELEASE, RELEASE};
use super::links::damage;
use arrayvec::ArrayVec;
use telecommand::{WriteFault, write};

const CHECKOUT: u16 = 0x6603;

const SET_SUPPLY: u16 = 0x6610;

/// The word of the high voltage: supply 0, to set point 100.
const SUPPLY: u16 = 0x0064;

/// The most octets that a frame has.
const LONGEST: usize = 12;

/// A frame, and no octet beyond. It lies in the value, so that no memory is asked for.
type Frame = ArrayVec<u8, LONGEST>;

fn frame(opcode: u16, words: &[u16], count: u16) -> Result<Frame, WriteFault> {
    let mut octets = ArrayVec::from([0; LONGEST]);
    let length = write(&mut octets, 0, opcode, words, count)?;
    octets.truncate(length);
    Ok(octets)
}

// The confirm of a critical command.
fn confirm(opcode: u16, count: u16) -> Result<Frame, WriteFault> {
    frame(CONFIRM, &[opcode, !opcode], count)
}

/// Every frame of the run, in the order of their sequence counts; `noisy` is `rearm` as the primary link brings it.
#[derive(Drop)]
pub struct Frames {
    pub checkout: Frame,
    pub arm: Frame,
    pub blank: Frame,
    pub unarmed: Frame,
    pub rearm: Frame,
    pub noisy: Frame,
    pub confirm: Frame,
    pub supply: Frame,
    pub switch_on: Frame,
    pub too_soon: Frame,
}

impl Frames {
    pub fn written() -> Result<Frames, WriteFault> {
        let mut noisy = frame(FIRE_RELEASE, &[RELEASE], 4)?;
        damage(&mut noisy);
        Ok(Frames {
            checkout: frame(CHECKOUT, &[], 0)?,
            arm: frame(FIRE_RELEASE, &[RELEASE], 1)?,
            blank: frame(CONFIRM, &[], 2)?,
            unarmed: confirm(FIRE_RELEASE, 3)?,
            rearm: frame(FIRE_RELEASE, &[RELEASE], 4)?,
            noisy,
            confirm: confirm(FIRE_RELEASE, 5)?,
            supply: frame(SET_SUPPLY, &[SUPPLY], 6)?,
            switch_on: confirm(SET_SUPPLY, 7)?,
            too_soon: frame(CHECKOUT, &[], 8)?,
        })
    }
}
