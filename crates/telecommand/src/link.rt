//! The choice between the primary and the redundant link.
ghost use Rattle.std.specs.Prelude.{◌≡◌};
ghost use Rattle.telecommand.specs.Links.{chosen, set_aside};
ghost use Rattle.telecommand.specs.Shown.{shown};

use super::ReadFault;
use super::packet::{TELECOMMAND, data_field};

// Two links are two buffers and no struct: a chooser over two buffers is a form of the project (docs/DECISIONS.md).

/// The data field of the primary link if that is well formed, else of the redundant. Where neither is, the fault is
/// the primary's, or the redundant's where the primary is empty.
pub fn choose<'a>(primary: &'a [u8], redundant: &'a [u8]) -> Result<&'a [u8], ReadFault>
    ensures { shown result ≡ chosen primary.now redundant.now }
{
    data_field(primary, TELECOMMAND).or_else(|fault| {
        let field = data_field(redundant, TELECOMMAND);
        if primary.is_empty() {
            field
        } else {
            field.map_err(|_| fault)
        }
    })
}

/// The fault of a primary that is not empty and was set aside for the redundant, or none.
pub fn set_aside(primary: &[u8], redundant: &[u8]) -> Option<ReadFault>
    ensures { result ≡ set_aside primary.now redundant.now }
{
    if primary.is_empty() {
        return None;
    }
    let fault = data_field(primary, TELECOMMAND).err()?;
    data_field(redundant, TELECOMMAND).is_ok().then_some(fault)
}
