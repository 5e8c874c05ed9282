//! The CCSDS space packet of a telecommand: a header of six octets, then the data field.
ghost use Rattle.std.specs.Prelude.{◌≡◌, ◌≤◌};
ghost use Rattle.telecommand.specs.Packet.{field_of, header as header_of};
ghost use Rattle.telecommand.specs.Shown.{shown};

use super::ReadFault;

/// Octets 0 and 1 of a packet: version, type, secondary header flag and application process.
#[derive(Clone, Copy)]
pub(super) struct PacketId {
    pub high: u8,
    pub low: u8,
}

/// A telecommand without a secondary header, of the application process 0x101.
pub(super) const TELECOMMAND: PacketId = PacketId {
    high: 0x11,
    low: 0x01,
};

/// The data field of a well formed packet: everything from octet 6.
pub(super) fn data_field(link: &[u8], id: PacketId) -> Result<&[u8], ReadFault>
    ensures { shown result ≡ field_of id.high id.low link.now }
{
    let [first, second, flags, _, high, low, field @ ..] = link else {
        return Err(ReadFault::Length);
    };
    let number = usize::from(u16::from_be_bytes([*high, *low]));
    if link.len() < 8 || link.len() != 7 + number {
        return Err(ReadFault::Length);
    }
    if *first != id.high {
        return Err(ReadFault::Header(0));
    }
    if *second != id.low {
        return Err(ReadFault::Header(1));
    }
    if *flags / 64 != 3 {
        return Err(ReadFault::Header(2));
    }
    Ok(field)
}

/// The header of a packet that stands alone (sequence flags 11), with one octet more in its data field than `number`.
pub(super) fn header(id: PacketId, count: u16, number: u16) -> [u8; 6]
    requires { count ≤ 16383 }
    ensures { result ≡ header_of id.high id.low count number }
{
    let [flags, count] = (0xC000 + count).to_be_bytes();
    let [high, low] = number.to_be_bytes();
    [id.high, id.low, flags, count, high, low]
}
