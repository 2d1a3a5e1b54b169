//! The file that a word names in a directory, and the names that new files get.
ghost use Rattle.std.specs.Prelude.{IfErr, IfOk, map};
ghost use Rattle.f11_actions.specs.Named.{TellsFound, TellsNew, TellsNext, ThereAre};
ghost use Rattle.f11_commands.specs.DirectoryNames.{FailsToFindNames};

use f11_commands::{Failure, NoNames, directory_names};
use f11_dev::Device;
use f11_patterns::{HostNames, OneName, names_of};
use f11_rad50::Name;
use std::alloc::Global;

/// The names that a directory has ([`directory_names`]), or none, and why, where it can't be read.
fn names_there<D: Device>(
    alloc: Global,
    device: &mut D,
    directory: &Name,
) -> Result<(Vec<Name>, Option<NoNames>), Failure>
    ensures there { IfOk result (λ answer. ThereAre answer.1 directory.now answer.0.items
        (D.disk device.old) (D.disk device.new)) }
    ensures failed { IfErr result (λ failure.
        FailsToFindNames failure (D.disk device.old) (D.disk device.new)) }
{
    match directory_names(alloc, device, directory)? {
        Ok(names) => Ok((names, None)),
        Err(why) => Ok((Vec::new(alloc), Some(why))),
    }
}

/// The name of the file that a word names in the directory that the master file directory has under a name: its own, or that of the highest
/// version that the directory has ([`OneName::found_in`]), and version 1 where it has none, or can't be read. It serves any volume, faulty or
/// not, and writes nothing to it.
///
/// # Errors
///
/// [`Failure::DeviceFault`] where a transfer failed, and [`Failure::NoMemory`] where there was no memory.
pub fn found_name<D: Device>(
    alloc: Global,
    device: &mut D,
    directory: &Name,
    named: &OneName,
) -> Result<Name, Failure>
    ensures found { IfOk result (λ name. TellsFound directory.now named.now name
        (D.disk device.old) (D.disk device.new)) }
    ensures failed { IfErr result (λ failure.
        FailsToFindNames failure (D.disk device.old) (D.disk device.new)) }
{
    match *named {
        OneName::Whole(name) => Ok(name),
        OneName::Highest(_) => {
            let (names, _) = names_there(alloc, device, directory)?;
            Ok(named.found_in(&names))
        }
    }
}

/// The name that a new file gets by a word in such a directory: its own, or that of the next version of those that the directory has
/// ([`OneName::next_in`]), and version 1 where it has none, or can't be read. Where it has the last version, it is that, which the file is
/// refused for. Nothing is written to the volume.
///
/// # Errors
///
/// As of [`found_name`].
pub fn next_name<D: Device>(
    alloc: Global,
    device: &mut D,
    directory: &Name,
    named: &OneName,
) -> Result<Name, Failure>
    ensures next { IfOk result (λ name. TellsNext directory.now named.now name
        (D.disk device.old) (D.disk device.new)) }
    ensures failed { IfErr result (λ failure.
        FailsToFindNames failure (D.disk device.old) (D.disk device.new)) }
{
    match *named {
        OneName::Whole(name) => Ok(name),
        OneName::Highest(_) => {
            let (names, _) = names_there(alloc, device, directory)?;
            Ok(named.next_in(&names))
        }
    }
}

/// The names that files of the host with these paths get in such a directory by the last parts of their paths ([`names_of`]), beside those that
/// the directory has, and why it has none where it can't be read. One whose last part names no file gets `None`, or, where names are fitted, a
/// fitted one, and `None` where there is none. Nothing is written to the volume.
///
/// # Errors
///
/// As of [`found_name`].
pub fn new_names<D: Device>(
    alloc: Global,
    device: &mut D,
    directory: &Name,
    paths: &[&str],
    fitting: HostNames,
) -> Result<(Vec<Option<Name>>, Option<NoNames>), Failure>
    ensures names { IfOk result (λ answer.
        TellsNew fitting directory.now (map (λ path. path.now) paths.now)
        answer.0.items answer.1 (D.disk device.old) (D.disk device.new)) }
    ensures failed { IfErr result (λ failure.
        FailsToFindNames failure (D.disk device.old) (D.disk device.new)) }
{
    let (there, why) = names_there(alloc, device, directory)?;
    match names_of(alloc, there, paths, fitting) {
        Ok(names) => Ok((names, why)),
        Err(_) => Err(Failure::NoMemory),
    }
}
