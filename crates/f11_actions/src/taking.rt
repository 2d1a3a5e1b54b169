//! The beginning of `get` with a pattern: which files are taken out, or why none is.
ghost use Rattle.std.specs.Prelude.{◌≡◌, ◌<◌, IfErr, IfOk, length};
ghost use Rattle.f11_actions.specs.Meant.{MeansNames};
ghost use Rattle.f11_actions.specs.Taking.{BeginsTaking, HasNoneMeant, RefusesFiles, TakesNoneMeant};
ghost use Rattle.f11_actions.specs.Would.{EndsTaking, TellsNames};
ghost use Rattle.f11_patterns.specs.Lent.{parts_of};

use crate::line::{write_all_copy_line, write_copy_line};
use crate::meant::meant_names;
use f11_catalog::LineForm;
use f11_commands::{Answer, Failure, NoNames, Served, print_ls, refuse_files};
use f11_dev::Device;
use f11_patterns::Pattern;
use f11_rad50::Name;
use f11_store::Refusal;
use f11_vfy::{VfyError, is_faulty};
use std::alloc::Global;
use std::io::Write;

/// Verifies a volume, and decides which files of a directory are taken out: those whose names a pattern means ([`meant_names`]), one at
/// least. With their names the device comes back, and whether the volume has faults: it serves any whose home block and index file can be
/// read. Nothing is written then.
///
/// Where the pattern means no name it writes `no NoSuchEntry`, and where the directory can't be read `no NoSuchEntry`, `no NoSuchFile` or
/// `no NotDirectory`; where the volume can't be read it ends as [`print_ls`] of the directory. Then the device comes back, and what the command
/// answers.
///
/// # Errors
///
/// [`Failure::DeviceFault`] where a transfer failed and [`Failure::NoMemory`] where there was no memory; and [`Failure::CannotWrite`] where
/// there is a line and the writer takes no more. Each comes with the device.
pub fn begin_taking<D: Device, W: Write>(
    alloc: Global,
    device: D,
    directory: &Name,
    pattern: &Pattern,
    writer: &mut W,
) -> Result<(D, bool, Vec<Name>), (D, Result<Served, Failure>)>
    ensures begins { IfOk result (λ begun. BeginsTaking (parts_of pattern.now) directory.now
        begun.1 begun.2.items (D.disk device) (D.disk begun.0) writer.old writer.new) }
    ensures ends { IfErr result (λ told. TakesNoneMeant (parts_of pattern.now) directory.now
        told.1 (D.disk device) (D.disk told.0) W.contents writer.old writer.new) }
{
    match is_faulty(alloc, device) {
        Ok((device, faulty)) => match begin(alloc, device, faulty, directory, pattern, writer) {
            Ok((device, names)) => Ok((device, faulty, names)),
            Err((device, told)) => Err((device, told)),
        },
        Err(VfyError::DeviceFault(device)) => Err((device, Err(Failure::DeviceFault))),
        Err(VfyError::NoMemory(device)) => Err((device, Err(Failure::NoMemory))),
    }
}

/// Decides it of a volume that has faults or hasn't.
fn begin<D: Device, W: Write>(
    alloc: Global,
    device: D,
    faulty: bool,
    directory: &Name,
    pattern: &Pattern,
    writer: &mut W,
) -> Result<(D, Vec<Name>), (D, Result<Served, Failure>)>
    ensures begins { IfOk result (λ begun. MeansNames (parts_of pattern.now) directory.now
        begun.1.items (D.disk device) (D.disk begun.0)
        × (0 < length begun.1.items)
        × (writer.new ≡ writer.old)) }
    ensures none { IfErr result (λ told. HasNoneMeant (parts_of pattern.now) directory.now faulty
        told.1 (D.disk device) (D.disk told.0) W.contents writer.old writer.new) }
{
    let mut device = device;
    match meant_names(alloc, &mut device, directory, pattern) {
        Ok(Ok(names)) => {
            if names.is_empty() {
                Err((device, refuse(Refusal::NoSuchEntry, faulty, writer)))
            } else {
                Ok((device, names))
            }
        }
        Ok(Err(NoNames::Refused(refusal))) => Err((device, refuse(refusal, faulty, writer))),
        Ok(Err(NoNames::Unreadable)) => Err(print_ls(
            alloc,
            device,
            writer,
            LineForm::Short,
            Some(*directory),
        )),
        Err(failure) => Err((device, Err(failure))),
    }
}

/// Tells why none is taken out of a volume that has faults or hasn't.
fn refuse<W: Write>(refusal: Refusal, faulty: bool, writer: &mut W) -> Result<Served, Failure>
    ensures { RefusesFiles refusal faulty result W.contents writer.old writer.new }
{
    match refuse_files(refusal, writer) {
        Ok(answer) => Ok(Served { answer, faulty }),
        Err(failure) => Err(failure),
    }
}

/// Tells which files [`begin_taking`] would have taken out, of each `NAME.TYP;V would be copied`, and the last line, `all N would be copied`;
/// or why none is, as that does. Nothing is written to the volume.
///
/// # Errors
///
/// As of [`begin_taking`].
pub fn print_taking<D: Device, W: Write>(
    alloc: Global,
    device: D,
    directory: &Name,
    pattern: &Pattern,
    writer: &mut W,
) -> (D, Result<Served, Failure>)
    ensures ends { EndsTaking (parts_of pattern.now) directory.now result.1
        (D.disk device) (D.disk result.0) W.contents writer.old writer.new }
{
    match begin_taking(alloc, device, directory, pattern, writer) {
        Ok((device, faulty, names)) => (device, tell_taking(faulty, &names, writer)),
        Err((device, told)) => (device, told),
    }
}

/// Writes the line of each, and the last one.
fn tell_taking<W: Write>(faulty: bool, names: &[Name], writer: &mut W) -> Result<Served, Failure>
    ensures tells { TellsNames faulty names.now result W.contents writer.old writer.new }
{
    for name in names {
        write_copy_line(writer, name)?;
    }
    write_all_copy_line(writer, names.len())?;
    Ok(Served {
        answer: Answer::Done,
        faulty,
    })
}
