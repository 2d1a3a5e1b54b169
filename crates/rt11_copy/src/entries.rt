//! Which entries stand for a file that can be copied.
ghost use Rattle.std.specs.Prelude.{◌≡◌};
ghost use Rattle.rt11_copy.specs.Entries.{lies_within, name_by_kind, name_if_there, name_to_copy};

use crate::outcome::RtUncopied;
use rt11_volume::{RtEntry, RtKind, RtName};

/// Whether all blocks of an entry's area are on a device of so many, and a directory may give them away.
fn lies_within(size: u32, entry: &RtEntry) -> bool
    ensures { result ≡ lies_within size entry.now }
{
    let end = u64::from(entry.first) + u64::from(entry.blocks);
    entry.fits() && (entry.blocks == 0 || end <= u64::from(size))
}

/// The name of a file whose blocks are there, or aren't.
fn name_if_there(there: bool, name: Option<RtName>) -> Result<RtName, RtUncopied>
    ensures { result ≡ name_if_there there name }
{
    match name {
        Some(name) => {
            if there {
                Ok(name)
            } else {
                Err(RtUncopied::PastEnd)
            }
        }
        None => Err(RtUncopied::NoName),
    }
}

/// The same of an area of a kind.
fn name_by_kind(
    kind: Option<RtKind>,
    there: bool,
    name: Option<RtName>,
) -> Result<RtName, RtUncopied>
    ensures { result ≡ name_by_kind kind there name }
{
    match kind {
        Some(RtKind::Permanent) => name_if_there(there, name),
        Some(RtKind::Tentative) => Err(RtUncopied::NoFile),
        Some(RtKind::Empty) => Err(RtUncopied::NoFile),
        None => Err(RtUncopied::StatusWrong),
    }
}

/// The name of the file of an entry on a device of so many blocks, or why it isn't copied, whatever can be read.
pub(crate) fn name_to_copy(size: u32, entry: &RtEntry) -> Result<RtName, RtUncopied>
    ensures { result ≡ name_to_copy size entry.now }
{
    name_by_kind(entry.kind, lies_within(size, entry), entry.name)
}
