//! What comes in on the links: frames that are refused, and the command that is taken.
use super::narration::{paragraph, show_octets};
use super::stop::Stop;
use codes::Report;
use std::io;
use telecommand::{Command, ReadFault, choose, read, set_aside};

// What is put on the primary link to see it refused; the redundant link is empty.
#[derive(Clone, Copy)]
struct Trial {
    name: &'static str,
    link: &'static [u8],
}

const TRIALS: [Trial; 5] = [
    Trial {
        name: "A short frame",
        link: &[0x11, 0x01, 0xC0, 0x02, 0x00, 0x03, 0x66, 0x12, 0x02],
    },
    Trial {
        name: "A blank link",
        link: &[],
    },
    Trial {
        name: "A wrong first octet",
        link: &[0x01, 0x01, 0xC0, 0x02, 0x00, 0x01, 0x66, 0x01],
    },
    Trial {
        name: "An unknown op-code",
        link: &[0x11, 0x01, 0xC0, 0x02, 0x00, 0x01, 0x66, 0x05],
    },
    Trial {
        name: "A blank confirm",
        link: &[0x11, 0x01, 0xC0, 0x02, 0x00, 0x01, 0x66, 0x04],
    },
];

fn show_fault(rt: &HostRuntime, label: &str, fault: ReadFault) -> io::Result<()> {
    println!(rt; "   {label:<13} {fault}")?;
    println!(rt; "   report        {}", Report::from(fault))
}

fn show_trial(rt: &HostRuntime, trial: Trial) -> Result<(), Stop> {
    println!(rt; "\n   {}", trial.name)?;
    show_octets(rt, "primary", trial.link)?;
    match read(trial.link, &[]) {
        Ok(command) => println!(rt; "   taken         {command}")?,
        Err(fault) => show_fault(rt, "refused", fault)?,
    }
    Ok(())
}

/// Reads what must be refused, and says how it was.
pub fn check_link(rt: &HostRuntime) -> Result<(), Stop> {
    println!(rt; "   The redundant link is left empty. On the primary stands, in turn:")?;
    for trial in TRIALS {
        show_trial(rt, trial)?;
    }
    Ok(())
}

// What stands on the links, the fault of a primary that is set aside, and the data field that is taken.
fn show_links(rt: &HostRuntime, primary: &[u8], redundant: &[u8]) -> Result<(), Stop> {
    show_octets(rt, "primary", primary)?;
    show_octets(rt, "redundant", redundant)?;
    if let Some(fault) = set_aside(primary, redundant) {
        show_fault(rt, "set aside", fault)?;
    }
    show_octets(rt, "data field", choose(primary, redundant)?)?;
    Ok(())
}

/// What noise on a line does to a frame: octet 1 is another.
pub fn damage(frame: &mut [u8]) {
    if let Some(octet) = frame.get_mut(1) {
        *octet = 0x41;
    }
}

// The release that stands on the links.
fn show_release(rt: &HostRuntime, primary: &[u8], redundant: &[u8]) -> Result<(), Stop> {
    let command = read(primary, redundant)?;
    let Command::FireRelease([line, ticks]) = command else {
        return Err(Stop::Changed);
    };
    println!(rt; "   command       {command}, line {line}, {ticks} ticks")?;
    Ok(())
}

/// Sends a firing on both links, with noise on the primary, and shows what is taken.
pub fn take_release(rt: &HostRuntime, firing: &[u8]) -> Result<(), Stop> {
    paragraph(
        rt,
        &["The first frame is sent on both links. Noise meets it on the primary."],
    )?;
    let mut link = firing.to_vec(rt.alloc())?;
    damage(&mut link);
    show_links(rt, &link, firing)?;
    show_release(rt, &link, firing)
}
