//! The names that a directory of a volume has, told before anything is changed.
ghost use Rattle.std.specs.Prelude.{◌≡◌, Err, IfErr, IfOk, Ok, length};
ghost use Rattle.f11_catalog.specs.Names.{FailsToName};
ghost use Rattle.f11_index.specs.Kept.{index_kept, IndexLiesWithin};
ghost use Rattle.f11_commands.specs.DirectoryNames.{FailsToFindNames, FindsNames, HasNoNames, LooksForNames};
ghost use Rattle.f11_commands.specs.Looking.{failure_by};

use crate::finding::MASTER_DIRECTORY;
use crate::looking::read_indexes;
use crate::outcome::Failure;
use f11_catalog::{WalkFault, find, names};
use f11_dev::Device;
use f11_index::IndexFile;
use f11_rad50::Name;
use f11_store::Refusal;
use std::alloc::Global;

/// Why a directory's names, or its records, aren't told.
#[derive(Clone, Copy, Debug, PartialEq, Eq)]
pub enum NoNames {
    /// The home block or the index file can't be read.
    Unreadable,
    /// The directory can't be: `NoSuchEntry`, `NoSuchFile` or `NotDirectory`.
    Refused(Refusal),
}

impl From<WalkFault> for Failure {
    ghost from_gives = { λ fault failure. failure ≡ failure_by fault };

    fn from(fault: WalkFault) -> Self {
        match fault {
            WalkFault::DeviceFault => Failure::DeviceFault,
            WalkFault::NoMemory => Failure::NoMemory,
        }
    }
}

/// The names of the directory that the master file directory has under a name: those of each record that isn't empty and whose five words
/// are a name, in the order of the records, as `ls` lists them. It serves any volume whose home block and index file can be read, faulty
/// or not, and writes nothing to it.
///
/// # Errors
///
/// [`Failure::DeviceFault`] where a transfer failed, and [`Failure::NoMemory`] where there was no memory. Within:
/// [`NoNames::Unreadable`] where there is no home block, or the index file isn't as it should be; [`NoNames::Refused`] with `NoSuchEntry`
/// where the master file directory has no such name, `NoSuchFile` where there is no file that it names, or no master file directory, and
/// `NotDirectory` where that is no directory.
pub fn directory_names<D: Device>(
    alloc: Global,
    device: &mut D,
    directory: &Name,
) -> Result<Result<Vec<Name>, NoNames>, Failure>
    ensures told { IfOk result (λ answer. IfOk answer (λ names.
        FindsNames directory.now (Ok names.items) (D.disk device.old) (D.disk device.new))) }
    ensures none { IfOk result (λ answer. IfErr answer (λ why.
        HasNoNames why directory.now (D.disk device.old) (D.disk device.new))) }
    ensures failed { IfErr result (λ failure. FailsToFindNames failure
        (D.disk device.old) (D.disk device.new)) }
{
    let (index, wide) = match read_indexes(alloc, device)? {
        Ok(both) => both,
        Err(_) => return Ok(Err(NoNames::Unreadable)),
    };
    match names_under(alloc, device, &index, &wide, directory)? {
        Ok(names) => Ok(Ok(names)),
        Err(refusal) => Ok(Err(NoNames::Refused(refusal))),
    }
}

/// The names of the directory that the master file directory has under a name, of the files that an index file has.
fn names_under<D: Device>(
    alloc: Global,
    device: &mut D,
    index: &IndexFile,
    wide: &IndexFile,
    directory: &Name,
) -> Result<Result<Vec<Name>, Refusal>, WalkFault>
    requires within { IndexLiesWithin (index_kept index.now) (length (D.disk device.old).image) }
    requires wide { IndexLiesWithin (index_kept wide.now) (length (D.disk device.old).image) }
    ensures told { IfOk result (λ answer. IfOk answer (λ names.
        LooksForNames (index_kept index.now) (index_kept wide.now) directory.now (Ok names.items)
        (D.disk device.old) (D.disk device.new))) }
    ensures refused { IfOk result (λ answer. IfErr answer (λ refusal.
        LooksForNames (index_kept index.now) (index_kept wide.now) directory.now (Err refusal)
        (D.disk device.old) (D.disk device.new))) }
    ensures failed { IfErr result (λ fault. FailsToName fault
        (D.disk device.old) (D.disk device.new)) }
{
    let id = match find(device, index, wide, MASTER_DIRECTORY, directory)? {
        Ok(id) => id,
        Err(refusal) => return Ok(Err(refusal)),
    };
    match names(alloc, device, index, wide, id) {
        Ok(Ok(names)) => Ok(Ok(names)),
        Ok(Err(refusal)) => Ok(Err(refusal)),
        Err(fault) => Err(fault),
    }
}
