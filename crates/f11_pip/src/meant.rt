//! The command `get` with a pattern: the files of the host that it makes, in a folder.
use crate::heard::Heard;
use crate::host_file::HostFile;
use crate::host_files::{
    Named, Sought, Taking, as_far_as, given_up, is_directory_missing, tell_found,
};
use crate::image::{ReadImage, opened_to_read, tell_read_fault};
use crate::outcome::Failure;
use crate::refusals::{self, NO_SUCH_ENTRY, of_finding};
use crate::remarks::{self, Remark, Why, opened};
use crate::volumes::judged;
use f11_actions::{begin_taking, print_taking};
use f11_commands::f11_flx::CopyMode;
use f11_commands::f11_rad50::Name;
use f11_commands::{
    Answer, FoundFile, Served, refuse_host, refuse_names, seek_verified, tell_several, write_file,
};
use f11_patterns::Pattern;
use std::fs;
use std::io::{self, ErrorKind, Write};

/// Takes the files out of a volume that a pattern means, into a folder that is made where there is none: each under its name, where the folder
/// has no file of that yet. Which these are is decided before the first is taken out. Each has its line, in the order of the directory, and
/// one that can't be taken out doesn't end the others; a last line counts them.
///
/// # Errors
///
/// Beside those of taking out a file [`Failure::CannotOpen`] where the folder can't be had, or not all files of the host could be made, behind
/// what was done: which ones is told on standard error.
pub fn get_meant<'a, W: Write>(
    rt: &HostRuntime,
    file: &Named<'a>,
    taking: Taking,
    folder: &'a str,
    writer: &mut W,
    remark: &mut Option<Remark<'a>>,
) -> Result<Answer, Failure> {
    let Ok(pattern) = Pattern::parse(file.name.as_bytes()) else {
        *remark = Some(remarks::of_pattern(file.name));
        return Ok(refuse_names(writer)?);
    };
    if pattern.is_one() {
        *remark = Some(remarks::of_pattern(file.name));
        return Ok(refuse_names(writer)?);
    }
    let device = opened_to_read(rt, file.image, remark)?;
    let (device, faulty, names) = match begun(rt, file, &pattern, device, writer) {
        Ok((device, faulty, names)) => (device, faulty, names),
        Err((device, served)) => {
            tell_read_fault(rt, file.image, device);
            return Ok(judged(rt, file.image, served?, remark));
        }
    };
    opened(folder_made(rt, folder), folder, remark)?;
    let into = Into {
        image: file.image,
        directory: file.directory,
        taking,
        folder,
        faulty,
    };
    let (device, counts) = take_each(rt, &into, &names, device, writer)?;
    tell_read_fault(rt, file.image, device);
    let answer = tell_several(counts.copied, counts.refused, writer)?;
    let answer = judged(rt, file.image, Served { answer, faulty }, remark);
    if counts.lacks_host {
        Err(Failure::CannotOpen)
    } else {
        Ok(answer)
    }
}

/// The volume, whether it has faults, and the names of the files that are taken out; or why none is, which is told.
type Begun = Result<
    (ReadImage, bool, Vec<Name>),
    (ReadImage, Result<Served, f11_commands::Failure>),
>;

/// Decides which files are taken out.
fn begun<W: Write>(
    rt: &HostRuntime,
    file: &Named<'_>,
    pattern: &Pattern<'_>,
    device: ReadImage,
    writer: &mut W,
) -> Begun {
    let mut heard = Heard::new(writer, None);
    let begun = begin_taking(rt.alloc(), device, &file.directory, pattern, &mut heard);
    tell_none(rt, file, heard.refusal());
    begun
}

/// Says why none is taken out, by what its line says.
fn tell_none(rt: &HostRuntime, file: &Named<'_>, line: Option<&str>) {
    if let Some(line) = line {
        if !is_directory_missing(rt, file, line) {
            if line == NO_SUCH_ENTRY {
                remarks::tell(rt, file.name, Why::NONE_MEANT);
            } else {
                refusals::tell(rt, of_finding(line, file.name));
            }
        }
    }
}

/// Tells which files would be taken out of a volume that a pattern means, with nothing taken out.
pub fn tell_meant<'a, W: Write>(
    rt: &HostRuntime,
    file: &Named<'a>,
    writer: &mut W,
    remark: &mut Option<Remark<'a>>,
) -> Result<Answer, Failure> {
    let Ok(pattern) = Pattern::parse(file.name.as_bytes()) else {
        *remark = Some(remarks::of_pattern(file.name));
        return Ok(refuse_names(writer)?);
    };
    let device = opened_to_read(rt, file.image, remark)?;
    let mut heard = Heard::new(writer, None);
    let (device, told) = print_taking(rt.alloc(), device, &file.directory, &pattern, &mut heard);
    tell_none(rt, file, heard.refusal());
    tell_read_fault(rt, file.image, device);
    Ok(judged(rt, file.image, told?, remark))
}

/// The folder of the host, which is made where there is none; or why there is none.
fn folder_made(rt: &HostRuntime, folder: &str) -> Result<(), Why> {
    match fs::create_dir(rt, folder) {
        Ok(()) => Ok(()),
        Err(error) if error.kind() == ErrorKind::AlreadyExists && is_folder(rt, folder) => Ok(()),
        Err(error) => Err(remarks::unmade(error)),
    }
}

/// Whether a folder stands under a path.
pub fn is_folder(rt: &HostRuntime, path: &str) -> bool {
    match fs::metadata(rt, path) {
        Ok(metadata) => metadata.is_dir(),
        Err(_) => false,
    }
}

/// How files are taken out of a directory, and into which folder.
#[derive(Clone, Copy)]
struct Into<'a> {
    image: &'a str,
    /// Under which name the master file directory has the directory.
    directory: Name,
    taking: Taking,
    folder: &'a str,
    /// Whether the volume has faults.
    faulty: bool,
}

/// How it went with a file.
#[derive(Clone, Copy, PartialEq, Eq)]
enum Came {
    /// It was taken out.
    Copied,
    /// It wasn't, by a refusal.
    Refused,
    /// The host has no file for it.
    NoHost,
}

/// How many files were taken out, and how many weren't; and whether the host lacks a file for one.
#[derive(Clone, Copy)]
struct Counts {
    copied: usize,
    refused: usize,
    lacks_host: bool,
}

impl Counts {
    /// One more, with which it went so.
    fn with(self, came: Came) -> Counts {
        if came == Came::Copied {
            return Counts {
                copied: self.copied.saturating_add(1),
                ..self
            };
        }
        Counts {
            copied: self.copied,
            refused: self.refused.saturating_add(1),
            lacks_host: self.lacks_host || came == Came::NoHost,
        }
    }
}

/// Takes out one file after another.
fn take_each<W: Write>(
    rt: &HostRuntime,
    into: &Into<'_>,
    names: &[Name],
    device: ReadImage,
    writer: &mut W,
) -> Result<(ReadImage, Counts), Failure> {
    let mut device = device;
    let mut counts = Counts {
        copied: 0,
        refused: 0,
        lacks_host: false,
    };
    for name in names {
        let (back, came) = take_one(rt, into, *name, device, writer)?;
        device = back;
        counts = counts.with(came);
    }
    Ok((device, counts))
}

/// Takes out one file, for which one of the host is made once it is found.
fn take_one<W: Write>(
    rt: &HostRuntime,
    into: &Into<'_>,
    name: Name,
    device: ReadImage,
    writer: &mut W,
) -> Result<(ReadImage, Came), Failure> {
    let word = format!(in rt.alloc(); "{name}")?;
    let found = match seek(rt, into, name, word.as_str(), device, writer) {
        Ok(Ok(found)) => found,
        Ok(Err((device, _served))) => return Ok((device, Came::Refused)),
        Err((device, failure)) => {
            tell_read_fault(rt, into.image, device);
            return Err(Failure::from(failure));
        }
    };
    tell_found(rt, word.as_str(), &found, into.taking);
    let mode = into.taking.mode_of(&found);
    let found = as_far_as(rt, into.image, found, into.taking.all_blocks)?;
    let folder = into.folder;
    let path = format!(in rt.alloc(); "{folder}/{word}")?;
    match HostFile::new(rt, path.as_str())? {
        Ok(made) => write(
            rt,
            into,
            mode,
            name,
            word.as_str(),
            found,
            made,
            path.as_str(),
            writer,
        ),
        Err(error) => {
            remarks::tell(rt, path.as_str(), remarks::unmade(error));
            refuse_host(name, writer)?;
            Ok((found.into_device(), Came::NoHost))
        }
    }
}

/// Seeks one file on the volume.
fn seek<W: Write>(
    rt: &HostRuntime,
    into: &Into<'_>,
    name: Name,
    word: &str,
    device: ReadImage,
    writer: &mut W,
) -> Sought {
    let mut heard = Heard::new(writer, None);
    let sought = seek_verified(
        rt.alloc(),
        device,
        into.faulty,
        Some(name),
        &mut heard,
        &into.directory,
        &name,
    );
    if let Some(line) = heard.refusal_of_file() {
        refusals::tell(rt, of_finding(line, word));
    }
    sought
}

/// Writes a file that was found to the host's, which is removed again where that fails with nothing written.
fn write<W: Write>(
    rt: &HostRuntime,
    into: &Into<'_>,
    mode: CopyMode,
    name: Name,
    word: &str,
    found: FoundFile<ReadImage>,
    made: HostFile,
    path: &str,
    writer: &mut W,
) -> Result<(ReadImage, Came), Failure> {
    let lacks_lines = mode == CopyMode::Text && !found.has_lines();
    let mut made = made;
    let (device, served) = write_file(found, Some(name), mode, &mut made, writer);
    if let Ok(
        Served {
            answer: Answer::Done,
            ..
        },
    ) = served
    {
        if lacks_lines {
            remarks::tell(rt, word, Why::NO_LINES);
        }
        return Ok((device, Came::Copied));
    }
    let (stays, failure) = given_up(rt, made, path);
    if let Some(error) = failure {
        remarks::tell(rt, path, Why::NotWritten(error));
    }
    match served {
        Ok(_) => {
            remarks::tell(rt, word, Why::NO_RECORDS);
            if stays {
                remarks::tell(rt, path, Why::BEGINNING);
            }
            Ok((device, Came::Refused))
        }
        Err(failure) => {
            tell_read_fault(rt, into.image, device);
            Err(Failure::from(failure))
        }
    }
}
