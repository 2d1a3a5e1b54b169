//! The command `put --all`: the files of a folder of the host that are put on a volume, each in the directory as which its folder is called.
ghost use Rattle.std.specs.Prelude.{◌≡◌, false, OnOk, length};
ghost use Rattle.f11_commands.specs.PutEach.{counts_of};
ghost use Rattle.f11_commands.specs.PuttingCounts.{CountsAll};

use crate::directory::place_of;
use crate::each::{Each, ended_puts, put_named};
use crate::hosts::Hosts;
use crate::image::{opened_to_write, tell_fault};
use crate::meant::is_folder;
use crate::outcome::Failure;
use crate::remarks::{self, Remark, Why, opened};
use f11_actions::{HomeFault, default_protection, is_left_out, new_names, sort_names};
use f11_commands::f11_catalog::DirectoryName;
use f11_commands::f11_flx::CopyMode;
use f11_commands::f11_rad50::Name;
use f11_commands::{Answer, NoNames, Puts, Unput, begin_puts, directory_name};
use f11_dev::FileImage;
use f11_patterns::HostNames;
use f11_store::{Refusal, Uic};
use f11_words::{Manner, read_folder};
use std::fs::{self, File};
use std::io::Write;

/// The folder that `get --all` gives files that no directory names.
const LOST: &str = "lost";

/// The user whose directory is the master file directory.
const MASTER: Uic = Uic {
    group: 0,
    member: 0,
};

/// A folder of the host whose files are put on a volume.
#[derive(Clone, Copy)]
pub struct All<'a> {
    pub mode: CopyMode,
    pub folder: &'a str,
    pub image: &'a str,
}

/// What is in the folder, in the order in which it is taken.
#[derive(Drop)]
enum Part {
    /// A folder that is called as a directory.
    Directory(Filled),
    /// The folder of files that no directory names.
    Lost,
    /// Another one, of this name, of which nothing is put, and why.
    Other(String, Unput),
}

/// A directory, and the files of the host that it gets.
#[derive(Drop)]
struct Filled {
    /// Under which name the master file directory has it, or gets it.
    name: Name,
    owner: Uic,
    /// The master file directory doesn't have it.
    is_missing: bool,
    paths: Vec<String>,
    /// Under which name each is put; `None` of one that can't be such a name.
    names: Vec<Option<Name>>,
}

impl Filled {
    /// Under which name the file in this place is put.
    fn name_at(&self, at: usize) -> Option<Name> {
        match self.names.get(at) {
            Some(name) => *name,
            None => None,
        }
    }
}

/// Puts the files of the folders in a folder on a volume, each in the directory as which its folder is called; a directory that isn't there is
/// made. What a refusal means is said as it is met; the others go on behind one.
pub fn put_all<'a, W: Write>(
    rt: &HostRuntime,
    all: &All<'a>,
    writer: &mut W,
    remark: &mut Option<Remark<'a>>,
) -> Result<Answer, Failure> {
    let entries = opened(entries_of(rt, all.folder)?, all.folder, remark)?;
    let mut device = opened_to_write(rt, all.image, remark)?;
    let (parts, protection) = match decided(rt, &mut device, all.folder, &entries) {
        Ok(both) => both,
        Err(failure) => {
            tell_fault(rt, all.image, device);
            return Err(failure);
        }
    };
    let mut puts = match begin_puts(rt.alloc(), device, writer) {
        Ok(puts) => puts,
        Err((device, told)) => {
            tell_fault(rt, all.image, device);
            return Ok(crate::host_files::ended(rt, all.image, told?, remark));
        }
    };
    let came = put_parts(rt, all, &parts, protection, &mut puts, writer);
    ended_puts(rt, all.image, puts, came, writer, remark)
}

/// The names of what is in a folder, in the order of their bytes; or why it can't be read.
fn entries_of(rt: &HostRuntime, path: &str) -> Result<Result<Vec<String>, Why>, Failure> {
    let listing = match fs::read_dir(rt, path) {
        Ok(listing) => listing,
        Err(error) => return Ok(Err(remarks::unopened(error))),
    };
    let mut names = Vec::new(rt.alloc());
    for entry in listing {
        match entry {
            Ok(entry) => {
                let name = String::from_str(rt.alloc(), entry.file_name())?;
                if names.push(name).is_err() {
                    return Err(Failure::NoMemory);
                }
            }
            Err(error) => return Ok(Err(remarks::unopened(error))),
        }
    }
    sort_names(&mut names);
    Ok(Ok(names))
}

/// What is put of each of these in a folder, decided before the first file is; and with which protection directories are made.
fn decided(
    rt: &HostRuntime,
    device: &mut FileImage<File>,
    folder: &str,
    entries: &[String],
) -> Result<(Vec<Part>, u16), Failure> {
    let mut parts = Vec::new(rt.alloc());
    for entry in entries {
        let part = part_of(rt, device, folder, entry.as_str())?;
        if parts.push(part).is_err() {
            return Err(Failure::NoMemory);
        }
    }
    match default_protection(device) {
        Ok(protection) => Ok((parts, protection)),
        // then the volume isn't accepted
        Err(HomeFault::NoHome) => Ok((parts, 0)),
        Err(HomeFault::DeviceFault) => Err(Failure::DeviceFault),
    }
}

/// What is put of one in the folder.
fn part_of(
    rt: &HostRuntime,
    device: &mut FileImage<File>,
    folder: &str,
    entry: &str,
) -> Result<Part, Failure> {
    let path = format!(in rt.alloc(); "{folder}/{entry}")?;
    let other = String::from_str(rt.alloc(), entry)?;
    if !is_folder(rt, path.as_str()) {
        return Ok(Part::Other(other, Unput::BadName));
    }
    if entry == LOST {
        return Ok(Part::Lost);
    }
    let Some(directory) = read_folder(entry) else {
        return Ok(Part::Other(other, Unput::BadName));
    };
    match entries_of(rt, path.as_str())? {
        Ok(files) => {
            let (name, owner) = place_of(&directory);
            let filled = as_filled(rt, device, path.as_str(), name, owner, &files)?;
            Ok(Part::Directory(filled))
        }
        Err(why) => {
            remarks::tell(rt, path.as_str(), why);
            Ok(Part::Other(other, Unput::CannotOpen))
        }
    }
}

/// A directory, and the names that these files of its folder get in it.
fn as_filled(
    rt: &HostRuntime,
    device: &mut FileImage<File>,
    folder: &str,
    name: Name,
    owner: Uic,
    files: &[String],
) -> Result<Filled, Failure> {
    let is_master = name == directory_name(MASTER);
    let paths = paths_of(rt, folder, is_master, files)?;
    let (names, why) = names_for(rt, device, &name, &paths)?;
    let is_missing = why == Some(NoNames::Refused(Refusal::NoSuchEntry));
    Ok(Filled {
        name,
        owner,
        is_missing,
        paths,
        names,
    })
}

/// The names that files with these paths get in a directory, and why it has none.
fn names_for(
    rt: &HostRuntime,
    device: &mut FileImage<File>,
    directory: &Name,
    paths: &[String],
) -> Result<(Vec<Option<Name>>, Option<NoNames>), Failure> {
    let mut words = Vec::new(rt.alloc());
    for path in paths {
        if words.push(path.as_str()).is_err() {
            return Err(Failure::NoMemory);
        }
    }
    Ok(new_names(rt.alloc(), device, directory, &words, HostNames::AsTheyAre)?)
}

/// The paths of the files in a folder, but of those that the master file directory has already.
fn paths_of(
    rt: &HostRuntime,
    folder: &str,
    is_master: bool,
    files: &[String],
) -> Result<Vec<String>, Failure> {
    let mut paths = Vec::new(rt.alloc());
    for file in files {
        let file = file.as_str();
        if is_master && is_left_out(rt.alloc(), file)? {
            continue;
        }
        let path = format!(in rt.alloc(); "{folder}/{file}")?;
        if paths.push(path).is_err() {
            return Err(Failure::NoMemory);
        }
    }
    Ok(paths)
}

/// Puts one part after another.
fn put_parts<W: Write>(
    rt: &HostRuntime,
    all: &All<'_>,
    parts: &[Part],
    protection: u16,
    puts: &mut Puts<FileImage<File>>,
    writer: &mut W,
) -> Result<(), f11_commands::Failure> {
    for part in parts {
        match part {
            Part::Directory(filled) => put_filled(rt, all, filled, protection, puts, writer)?,
            Part::Lost => tell_lost(rt, all.folder),
            Part::Other(name, why) => {
                if *why == Unput::BadName {
                    remarks::tell(rt, name.as_str(), Why::NO_FOLDER_NAME);
                }
                puts.leave_out(name.as_str(), *why, writer)?;
            }
        }
    }
    Ok(())
}

/// Says that the files of `lost` are left out.
fn tell_lost(rt: &HostRuntime, folder: &str) {
    let _ = eprintln!(rt;
        "{folder}/{LOST}: left out, since no directory is called so; put --each takes the files in it"
    );
}

/// Makes a directory where it isn't there, and puts its files, each of which is counted once where no failure ends them.
fn put_filled<W: Write>(
    rt: &HostRuntime,
    all: &All<'_>,
    filled: &Filled,
    protection: u16,
    puts: &mut Puts<FileImage<File>>,
    writer: &mut W,
) -> Result<(), f11_commands::Failure>
    ensures counts { OnOk result (CountsAll false (length filled.now.paths.items)
        (counts_of puts.old) (counts_of puts.new)) }
{
    let place = DirectoryName::of(&filled.name);
    make_missing(&place, filled, protection, puts, writer)?;
    let each = Each {
        manner: Manner::GoesOn,
        mode: all.mode,
        image: all.image,
        directory: filled.name,
        hosts: Hosts {
            first: "",
            others: &[],
        },
        fitting: HostNames::AsTheyAre,
    };
    put_files(rt, &each, &place, filled, puts, writer)
}

/// Makes a directory where it isn't there. No file is counted.
fn make_missing<W: Write>(
    place: &DirectoryName,
    filled: &Filled,
    protection: u16,
    puts: &mut Puts<FileImage<File>>,
    writer: &mut W,
) -> Result<(), f11_commands::Failure>
    ensures counts { counts_of puts.new ≡ counts_of puts.old }
{
    if filled.is_missing {
        puts.make_directory(place, filled.name, filled.owner, protection, writer)?;
    }
    Ok(())
}

/// Puts the files of a directory, each of which is counted once where no failure ends them.
fn put_files<W: Write>(
    rt: &HostRuntime,
    each: &Each<'_>,
    place: &DirectoryName,
    filled: &Filled,
    puts: &mut Puts<FileImage<File>>,
    writer: &mut W,
) -> Result<(), f11_commands::Failure>
    ensures counts { OnOk result (CountsAll false (length filled.now.paths.items)
        (counts_of puts.old) (counts_of puts.new)) }
{
    for at in 0..filled.paths.len() {
        let path = filled.paths[at].as_str();
        put_named(
            rt,
            each,
            Some(place),
            path,
            filled.name_at(at),
            puts,
            writer,
        )?;
    }
    Ok(())
}
