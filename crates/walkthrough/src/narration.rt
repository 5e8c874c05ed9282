//! How the walkthrough is told.
use super::octets::Octets;
use std::io;

pub fn heading(rt: &HostRuntime, number: u8, text: &str) -> io::Result<()> {
    println!(rt; "\n{number}. {text}\n")
}

/// Lines of text.
pub fn remark(rt: &HostRuntime, lines: &[&str]) -> io::Result<()> {
    for line in lines {
        println!(rt; "   {line}")?;
    }
    Ok(())
}

/// Lines of text, and an empty line.
pub fn paragraph(rt: &HostRuntime, lines: &[&str]) -> io::Result<()> {
    remark(rt, lines)?;
    println!(rt)
}

/// Octets behind what they are.
pub fn show_octets(rt: &HostRuntime, label: &str, octets: &[u8]) -> io::Result<()> {
    println!(rt; "   {label:<13} {}", Octets(octets))
}
