//! One task from beginning to end: a release is commanded, the link is checked, the command is taken off the good
//! link, and a head fires it, once its confirm has come. Then the high voltage fails, and the head goes to SAFE.
#![tactic(auto)]

mod frames;
mod links;
mod narration;
mod octets;
mod operation;
mod plain;
mod steps;
mod stop;
mod table;
mod uplink;

use frames::write_frames;
use links::{check_link, take_release};
use narration::heading;
use operation::operate_head;
use stop::Stop;

// Two octets more than the frames need.
const ROOM: usize = 24;

fn walk(rt: &HostRuntime) -> Result<(), Stop> {
    println!(rt; "A release is fired, from the command frames to its line")?;
    println!(rt; "=======================================================")?;
    let mut buffer = [0; ROOM];
    heading(rt, 1, "The frames are written")?;
    let firing = write_frames(rt, &mut buffer)?;
    heading(rt, 2, "The link is checked with what it must refuse")?;
    check_link(rt)?;
    heading(rt, 3, "The primary link is damaged, the redundant is taken")?;
    take_release(rt, firing)?;
    operate_head(rt)
}

fn main(rt: HostRuntime) -> Result<(), Stop> {
    walk(&rt)
}
