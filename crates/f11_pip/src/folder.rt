//! The command `get --all`: the files of the host that it makes, in a folder.
ghost use Rattle.std.specs.Prelude.{◌≡◌, OnOk};
ghost use Rattle.f11_commands.specs.AllCommand.{CanBeRead, device_of, files_of, index_of, wide_of};

use crate::host_file::HostFile;
use crate::image::{ReadImage, opened_to_read, tell_read_fault};
use crate::outcome::Failure;
use crate::remarks::{self, Remark, Why, opened};
use crate::volumes::judged;
use f11_commands::f11_catalog::{Content, DirectoryName, FileAt, Place};
use f11_commands::f11_flx::CopyMode;
use f11_commands::{Answer, LeftOut, TakingAll, begin_all};
use f11_dev::Device;
use f11_store::FileId;
use f11_store::f11_rad50::Name;
use f11_words::TakingMode;
use std::fs;
use std::io::{self, ErrorKind, Write};

/// Takes all files out of a volume, into a folder that is made: those of a directory into the folder in it that is called as the directory
/// is, `[ggg,mmm]` of a user in three octal digits each, `[NAME]` else, under their names, and those of no directory into the folder
/// `lost`, under their number and sequence number and the name that their own header has. So are those whose name in the directory is none.
/// Where a file is there already, since a directory has a name twice, the next one stands beside it, with its number and sequence number
/// behind the name.
///
/// # Errors
///
/// Beside those of the command [`Failure::CannotOpen`] where not all files of the host could be made, behind what was done: which ones
/// is told on standard error. A transfer that failed is told before what the host refused.
pub fn get_all<'a, W: Write>(
    rt: &HostRuntime,
    mode: TakingMode,
    image: &'a str,
    folder: &'a str,
    writer: &mut W,
    remark: &mut Option<Remark<'a>>,
) -> Result<Answer, Failure> {
    let device = opened_to_read(rt, image, remark)?;
    let mut all = match begin_all(rt.alloc(), device, writer) {
        Ok(all) => all,
        Err((device, served)) => {
            tell_read_fault(rt, image, device);
            return Ok(judged(rt, image, served?, remark));
        }
    };
    opened(
        fs::create_dir(rt, folder).map_err(remarks::unmade),
        folder,
        remark,
    )?;
    let taken = take_all(rt, &mut all, mode, folder, writer);
    // where it stopped the last line would count what was never tried as done
    let (device, served) = if taken.is_ok() {
        all.end(writer)
    } else {
        all.end(&mut io::sink())
    };
    tell_read_fault(rt, image, device);
    let answer = judged(rt, image, served?, remark);
    if taken? {
        Ok(answer)
    } else {
        Err(Failure::CannotOpen)
    }
}

/// Takes out the files that are still to come: whether a file of the host could be made for each. Where one takes no more it ends there, and
/// that one has a line, too.
fn take_all<W: Write>(
    rt: &HostRuntime,
    all: &mut TakingAll<ReadImage>,
    mode: TakingMode,
    folder: &str,
    writer: &mut W,
) -> Result<bool, Failure> {
    let mut complete = true;
    while let Some(found) = all.next() {
        match found.content {
            Content::Missing(_) => all.write(&found, None, &mut io::sink(), writer)?,
            _ => match host_of(rt, folder, &found.place)? {
                Host::File(mut made) => {
                    let written = take_one(all, mode, &found, &mut made, writer);
                    let ended = made.file.end();
                    if written.is_err() || ended.is_err() {
                        tell_unwritten(rt, &found.place, &made, writer);
                        return Err(Failure::CannotWrite);
                    }
                }
                Host::Again => all.leave_out(&found.place, &LeftOut::Again, writer)?,
                Host::None => {
                    all.leave_out(&found.place, &LeftOut::Host, writer)?;
                    complete = false;
                }
            },
        }
    }
    Ok(complete)
}

/// Takes out one file: as text where that is asked for, or its header says that its records are lines and that is to decide, and all its records
/// can be read; else as it is.
fn take_one<D: Device, W: Write>(
    all: &mut TakingAll<D>,
    mode: TakingMode,
    found: &FileAt,
    made: &mut Made,
    writer: &mut W,
) -> Result<(), f11_commands::Failure>
    requires reading { CanBeRead (index_of all.old) (wide_of all.old) found.now.content
        (D.disk (device_of all.old)) }
    ensures files { OnOk result (files_of all.new ≡ files_of all.old) }
{
    let is_text = match mode {
        TakingMode::Copy(CopyMode::Image) => false,
        TakingMode::Copy(CopyMode::Text) => all.has_text(found, false),
        TakingMode::Auto => all.has_text(found, true),
    };
    if is_text {
        all.write_text(found, made.beside, &mut made.file, writer)
    } else {
        all.write(found, made.beside, &mut made.file, writer)
    }
}

/// Tells of a file of the host that it took no more, and why, if it was that.
fn tell_unwritten<W: Write>(rt: &HostRuntime, place: &Place, made: &Made, writer: &mut W) {
    if let Some(error) = made.file.failure() {
        let _ = writeln!(writer, "{place} not written to its end");
        remarks::tell(rt, made.path.as_str(), Why::NotWritten(error));
    }
}

/// What the host has for a file of the volume.
#[derive(Drop)]
enum Host {
    /// A file that was made.
    File(Made),
    /// The file is there already: it was taken out before under the same name.
    Again,
    /// No file could be made, which was told.
    None,
}

/// A file of the host that was made for one of the volume.
#[derive(Drop)]
struct Made {
    path: String,
    file: HostFile,
    /// The identification of the volume's file, where the host's stands beside another of its name.
    beside: Option<FileId>,
}

/// What the host has for one in this place: a file is made.
fn host_of(rt: &HostRuntime, folder: &str, place: &Place) -> Result<Host, Failure> {
    match place {
        Place::Entered(directory, Some(name), id) => in_directory(rt, folder, directory, name, *id),
        Place::Entered(_, None, id) => lost(rt, folder, *id, None),
        Place::Lost(name, id) => lost(rt, folder, *id, *name),
    }
}

/// The file of the host for one that a directory names.
fn in_directory(
    rt: &HostRuntime,
    folder: &str,
    directory: &DirectoryName,
    name: &Name,
    id: FileId,
) -> Result<Host, Failure> {
    let part = folder_of(rt, folder, directory)?;
    let path = format!(in rt.alloc(); "{part}/{name}")?;
    match made_in(rt, part.as_str(), path.as_str())? {
        Err(error) if error.kind() == ErrorKind::AlreadyExists => {
            let path = format!(in rt.alloc(); "{part}/{name} ({id})")?;
            let file = made_in(rt, part.as_str(), path.as_str())?;
            Ok(or_told(rt, path, file, Some(id)))
        }
        file => Ok(or_told(rt, path, file, None)),
    }
}

/// The path of a directory's folder.
fn folder_of(rt: &HostRuntime, folder: &str, directory: &DirectoryName) -> Result<String, Failure> {
    match directory {
        DirectoryName::User(user) => {
            let (group, member) = (user.group, user.member);
            Ok(format!(in rt.alloc(); "{folder}/[{group:03o},{member:03o}]")?)
        }
        DirectoryName::Named(_) => Ok(format!(in rt.alloc(); "{folder}/{directory}")?),
    }
}

/// The file of the host for one that no directory names, or under no name.
fn lost(rt: &HostRuntime, folder: &str, id: FileId, name: Option<Name>) -> Result<Host, Failure> {
    let part = format!(in rt.alloc(); "{folder}/lost")?;
    let path = match name {
        Some(name) => format!(in rt.alloc(); "{part}/{id} {name}")?,
        None => format!(in rt.alloc(); "{part}/{id}")?,
    };
    let file = made_in(rt, part.as_str(), path.as_str())?;
    Ok(or_told(rt, path, file, None))
}

/// A new file in a folder, which is made where there is none; or why none could be made.
pub fn made_in(rt: &HostRuntime, part: &str, path: &str) -> Result<io::Result<HostFile>, Failure> {
    match HostFile::new(rt, path)? {
        Err(error) if error.kind() == ErrorKind::NotFound => {}
        made => return Ok(made),
    }
    match fs::create_dir(rt, part) {
        Err(error) if error.kind() != ErrorKind::AlreadyExists => Ok(Err(error)),
        _ => HostFile::new(rt, path),
    }
}

/// The file that was made, if one was; that it was there before; or else why it wasn't made is told on standard error.
fn or_told(
    rt: &HostRuntime,
    path: String,
    file: io::Result<HostFile>,
    beside: Option<FileId>,
) -> Host {
    match file {
        Ok(file) => Host::File(Made { path, file, beside }),
        Err(error) if error.kind() == ErrorKind::AlreadyExists => Host::Again,
        Err(error) => {
            remarks::tell(rt, path.as_str(), remarks::unmade(error));
            Host::None
        }
    }
}
