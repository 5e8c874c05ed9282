//! Octets and ports as the workshop writes them down.
use std::fmt;

/// Octets in hexadecimal, a space between them; `none` where there is no octet.
#[derive(Clone, Copy)]
pub struct Octets<'a>(pub &'a [u8]);

impl<'a> fmt::Display for Octets<'a> {
    fn fmt<W: fmt::Write>(&self, f: &mut fmt::Formatter<W>) -> fmt::Result {
        let Octets(octets) = *self;
        let [first, rest @ ..] = octets else {
            return f.write_str("none");
        };
        write!(f, "{first:02X}")?;
        for octet in rest {
            write!(f, " {octet:02X}")?;
        }
        Ok(())
    }
}

/// The four bytes of a port board: the supplies in hexadecimal, the heaters and the lines bit by bit, bit 0 last.
#[derive(Clone, Copy)]
pub struct Ports(pub [u8; 4]);

impl fmt::Display for Ports {
    fn fmt<W: fmt::Write>(&self, f: &mut fmt::Formatter<W>) -> fmt::Result {
        let Ports([supply0, supply1, heaters, lines]) = *self;
        write!(
            f,
            "{supply0:02X}    {supply1:02X}  {heaters:08b}  {lines:08b}"
        )
    }
}
