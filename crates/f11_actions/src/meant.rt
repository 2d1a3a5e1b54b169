//! The names of a directory that a pattern chooses.
ghost use Rattle.std.specs.Prelude.{IfErr, IfOk};
ghost use Rattle.f11_actions.specs.Meant.{ChoosesNames, MeansNames};
ghost use Rattle.f11_commands.specs.DirectoryNames.{FailsToFindNames, HasNoNames};
ghost use Rattle.f11_patterns.specs.Lent.{parts_of};

use f11_bytes::NoMemory;
use f11_commands::{Failure, NoNames, directory_names};
use f11_dev::Device;
use f11_patterns::{Choice, Pattern};
use f11_rad50::Name;
use std::alloc::Global;

/// The names that a directory has ([`directory_names`]), and those of them that are chosen ([`Pattern::choose`]): in their order, each once, and
/// none where none is. The directory is the one that the master file directory has under its name.
///
/// # Errors
///
/// [`Failure::DeviceFault`] where a transfer failed, and [`Failure::NoMemory`] where there was no memory. Within: why the directory has no
/// names, as [`directory_names`] tells it.
pub(crate) fn choose_names<D: Device>(
    alloc: Global,
    device: &mut D,
    directory: &Name,
    pattern: &Pattern,
    choice: Choice,
) -> Result<Result<(Vec<Name>, Vec<Name>), NoNames>, Failure>
    ensures chosen { IfOk result (λ answer. IfOk answer (λ both.
        ChoosesNames choice (parts_of pattern.now) directory.now both.0.items both.1.items
        (D.disk device.old) (D.disk device.new))) }
    ensures none { IfOk result (λ answer. IfErr answer (λ why.
        HasNoNames why directory.now (D.disk device.old) (D.disk device.new))) }
    ensures failed { IfErr result (λ failure.
        FailsToFindNames failure (D.disk device.old) (D.disk device.new)) }
{
    let names = match directory_names(alloc, device, directory)? {
        Ok(names) => names,
        Err(none) => return Ok(Err(none)),
    };
    match pattern.choose(alloc, choice, &names) {
        Ok(those) => Ok(Ok((names, those))),
        Err(NoMemory) => Err(Failure::NoMemory),
    }
}

/// The names that a pattern means among those that a directory has: in their order, each once, and none where it means none. It serves any volume
/// whose home block and index file can be read, faulty or not, and writes nothing to it.
///
/// # Errors
///
/// [`Failure::DeviceFault`] where a transfer failed, and [`Failure::NoMemory`] where there was no memory. Within: why the directory has no
/// names, as [`directory_names`] tells it.
pub fn meant_names<D: Device>(
    alloc: Global,
    device: &mut D,
    directory: &Name,
    pattern: &Pattern,
) -> Result<Result<Vec<Name>, NoNames>, Failure>
    ensures meant { IfOk result (λ answer. IfOk answer (λ those.
        MeansNames (parts_of pattern.now) directory.now those.items
        (D.disk device.old) (D.disk device.new))) }
    ensures none { IfOk result (λ answer. IfErr answer (λ why.
        HasNoNames why directory.now (D.disk device.old) (D.disk device.new))) }
    ensures failed { IfErr result (λ failure.
        FailsToFindNames failure (D.disk device.old) (D.disk device.new)) }
{
    match choose_names(alloc, device, directory, pattern, Choice::Meant)? {
        Ok((_, those)) => Ok(Ok(those)),
        Err(none) => Ok(Err(none)),
    }
}
