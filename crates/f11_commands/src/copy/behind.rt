//! The second volume of a copy, where the first one has faults.
ghost use Rattle.std.specs.Prelude.{◌≡◌};
ghost use Rattle.f11_commands.specs.CopyCommand.{EndsFilesBehind, EndsRtBehind, told_of_both};

use crate::outcome::{Failure, FileAnswer};
use crate::verifying::{Ended, accept_files, accept_rt};
use f11_dev::Device;
use std::alloc::Global;
use std::io::Write;

/// What is told of two volumes of which the one has faults, by how it ended with the other.
fn of_both(end: Result<FileAnswer, Failure>) -> Result<FileAnswer, Failure>
    ensures { result ≡ told_of_both end }
{
    end?;
    Ok(FileAnswer::BothFaulty)
}

/// Verifies the Files-11 volume behind another one, with which it ended so, where that has faults; and writes its report where it has some,
/// too.
pub fn files_behind<D: Device, W: Write>(
    alloc: Global,
    device: D,
    first: Result<FileAnswer, Failure>,
    writer: &mut W,
) -> Ended<D>
    ensures ends { EndsFilesBehind first result.1 (D.disk device) (D.disk result.0)
        W.contents writer.old writer.new }
{
    if first.is_err() {
        return (device, first);
    }
    match accept_files(alloc, device, writer) {
        Ok(accepted) => (accepted.device(), first),
        Err((device, end)) => (device, of_both(end)),
    }
}

/// Verifies the RT-11 volume so.
pub fn rt_behind<E: Device, W: Write>(
    alloc: Global,
    device: E,
    first: Result<FileAnswer, Failure>,
    writer: &mut W,
) -> Ended<E>
    ensures ends { EndsRtBehind first result.1 (E.disk device) (E.disk result.0)
        W.contents writer.old writer.new }
{
    if first.is_err() {
        return (device, first);
    }
    match accept_rt(alloc, device, writer) {
        Ok(volume) => (volume.device(), first),
        Err((device, end)) => (device, of_both(end)),
    }
}
