//! The command `put --each`: files of the host that are put on a volume, each under its own name.
ghost use Rattle.std.specs.Prelude.{◌≡◌, ◌&&◌, OnOk, length};
ghost use Rattle.f11_commands.specs.PutEach.{counts_of};
ghost use Rattle.f11_commands.specs.PuttingCounts.{CountsAll, CountsOne, has_refused, no_files};
ghost use Rattle.f11_pip.specs.Stopping.{stops};

use crate::heard::Heard;
use crate::host_files::{ended, tell_no_directory, tell_nuls, tell_why};
use crate::hosts::Hosts;
use crate::image::{opened_to_read, opened_to_write, tell_fault, tell_read_fault};
use crate::outcome::Failure;
use crate::refusals::NO_SUCH_ENTRY;
use crate::remarks::{self, Remark, Why};
use crate::sources::Source;
use f11_actions::{new_names, write_all_copy_line, write_copy_line};
use f11_commands::f11_catalog::DirectoryName;
use f11_commands::f11_flx::CopyMode;
use f11_commands::f11_rad50::Name;
use f11_commands::{Answer, FileAnswer, NoNames, Puts, Putting, Unput, accept_files, begin_puts};
use f11_dev::{Device, FileImage};
use f11_patterns::{HostNames, OneName, last_part};
use f11_store::Refusal;
use f11_words::Manner;
use std::fs::File;
use std::io::Write;

/// Files of the host that are put on a volume.
#[derive(Clone, Copy)]
pub struct Each<'a> {
    /// What is done behind one that is refused, or whether it is only told what would be.
    pub manner: Manner,
    pub mode: CopyMode,
    pub image: &'a str,
    /// Under which name the master file directory has the directory that they get to stand in.
    pub directory: Name,
    pub hosts: Hosts<'a>,
    /// How names are taken that can't be those of files of the volume.
    pub fitting: HostNames,
}

/// Makes a file on a volume of each of these files of the host, which are opened one after another: under the last part of its path, with the
/// next version of those that the directory has where that has none. What a refusal means is said as it is met; the others go on behind one, or
/// none does. Or it is told which would be made.
pub fn put_each<'a, W: Write>(
    rt: &HostRuntime,
    each: &Each<'a>,
    writer: &mut W,
    remark: &mut Option<Remark<'a>>,
) -> Result<Answer, Failure> {
    if each.manner == Manner::Tells {
        return tell_each(rt, each, writer, remark);
    }
    let mut device = opened_to_write(rt, each.image, remark)?;
    let names = match names_of(rt, &mut device, each) {
        Ok(names) => names,
        Err(failure) => {
            tell_fault(rt, each.image, device);
            return Err(failure);
        }
    };
    let mut puts = match begin_puts(rt.alloc(), device, writer) {
        Ok(puts) => puts,
        Err((device, told)) => {
            tell_fault(rt, each.image, device);
            return Ok(ended(rt, each.image, told?, remark));
        }
    };
    let came = put_all(rt, each, &names, &mut puts, writer);
    ended_puts(rt, each.image, puts, came, writer, remark)
}

/// Ends the files that were put, or tells why they broke off.
pub fn ended_puts<'a, W: Write>(
    rt: &HostRuntime,
    image: &'a str,
    puts: Puts<FileImage<File>>,
    came: Result<(), f11_commands::Failure>,
    writer: &mut W,
    remark: &mut Option<Remark<'a>>,
) -> Result<Answer, Failure> {
    match came {
        Ok(()) => {
            let (device, told) = puts.end(writer);
            tell_fault(rt, image, device);
            Ok(ended(rt, image, told?, remark))
        }
        Err(failure) => {
            let (device, failure) = puts.break_off(failure);
            tell_fault(rt, image, device);
            Err(Failure::from(failure))
        }
    }
}

/// The names under which the files are put, decided before the first is; `None` of one that can't be such a name. Where there is no such
/// directory, that is said.
fn names_of<D: Device>(
    rt: &HostRuntime,
    device: &mut D,
    each: &Each<'_>,
) -> Result<Vec<Option<Name>>, Failure> {
    let paths = each.hosts.paths(rt)?;
    let (names, why) = new_names(rt.alloc(), device, &each.directory, &paths, each.fitting)?;
    if why == Some(NoNames::Refused(Refusal::NoSuchEntry)) {
        tell_no_directory(rt, each.directory);
    }
    Ok(names)
}

/// Puts one file after another, but none behind one that is refused where that is asked for. Each of those is counted once, where no failure ends them.
fn put_all<W: Write>(
    rt: &HostRuntime,
    each: &Each<'_>,
    names: &[Option<Name>],
    puts: &mut Puts<FileImage<File>>,
    writer: &mut W,
) -> Result<(), f11_commands::Failure>
    requires none { counts_of puts.old ≡ no_files }
    ensures counts { OnOk result (CountsAll (stops each.now.manner) (length names.now)
        (counts_of puts.old) (counts_of puts.new)) }
{
    for at in 0..names.len() {
        put_named(rt, each, None, each.hosts.at(at), names[at], puts, writer)?;
        if is_ended(each.manner, puts) {
            return Ok(());
        }
    }
    Ok(())
}

/// Whether no other file is put: one is refused, and that ends them.
fn is_ended(manner: Manner, puts: &Puts<FileImage<File>>) -> bool
    ensures { result ≡ (stops manner && has_refused (counts_of puts.now)) }
{
    matches!(manner, Manner::Stops) && puts.has_refused()
}

/// Puts one file under its name, or tells that it can't have one. It is counted once, but where the call fails.
pub fn put_named<W: Write>(
    rt: &HostRuntime,
    each: &Each<'_>,
    place: Option<&DirectoryName>,
    host: &str,
    name: Option<Name>,
    puts: &mut Puts<FileImage<File>>,
    writer: &mut W,
) -> Result<(), f11_commands::Failure>
    ensures counts { OnOk result (CountsOne (counts_of puts.old) (counts_of puts.new)) }
{
    match name {
        Some(name) => put_one(rt, each, place, host, name, puts, writer),
        None => {
            remarks::tell(rt, host, Why::NO_NAME);
            puts.leave_out(host, Unput::BadName, writer)
        }
    }
}

/// Puts one file, or tells that it can't be opened; its line has the place in front where one is given.
fn put_one<W: Write>(
    rt: &HostRuntime,
    each: &Each<'_>,
    place: Option<&DirectoryName>,
    host: &str,
    name: Name,
    puts: &mut Puts<FileImage<File>>,
    writer: &mut W,
) -> Result<(), f11_commands::Failure>
    ensures counts { OnOk result (CountsOne (counts_of puts.old) (counts_of puts.new)) }
{
    let mut unopened = None;
    let mut source = match Source::open(rt, each.mode, host, &mut unopened) {
        Ok(source) => source,
        Err(Failure::CannotOpen) => {
            if let Some(remark) = unopened {
                let _ = eprintln!(rt; "{remark}");
            }
            return puts.leave_out(host, Unput::CannotOpen, writer);
        }
        Err(_) => return Err(f11_commands::Failure::NoMemory),
    };
    let putting = Putting {
        directory: each.directory,
        name,
        mode: each.mode,
        blocks: source.blocks,
    };
    let mut heard = Heard::new(writer, None);
    let told = put_source(place, &putting, &mut source, puts, &mut heard)?;
    if told == FileAnswer::Done {
        tell_fitted(rt, host, &name);
        tell_nuls(rt, each.mode, host, &source);
    } else if let Some(line) = heard.refusal_of_file() {
        tell_refused(rt, each, host, &name, source.bytes, line);
    }
    Ok(())
}

/// Puts a file that is open.
fn put_source<W: Write>(
    place: Option<&DirectoryName>,
    putting: &Putting,
    source: &mut Source,
    puts: &mut Puts<FileImage<File>>,
    writer: &mut W,
) -> Result<FileAnswer, f11_commands::Failure>
    ensures counts { OnOk result (CountsOne (counts_of puts.old) (counts_of puts.new)) }
{
    let bytes = source.bytes;
    let (first, again) = (&mut source.first, &mut source.again);
    match place {
        Some(place) => puts.put_in(place, putting, first, again, bytes, writer),
        None => puts.put(putting, first, again, bytes, writer),
    }
}

/// Says which name a file gets that is put under another than its own, since that can't be one.
fn tell_fitted(rt: &HostRuntime, host: &str, name: &Name) {
    if OneName::of(last_part(host.as_bytes())).is_none() {
        let _ = eprintln!(rt; "{host}: put as {name}");
    }
}

/// Says why no file of this name was made of one of the host with so many bytes, by what its line says. That there is no such directory is
/// said once.
fn tell_refused(
    rt: &HostRuntime,
    each: &Each<'_>,
    host: &str,
    name: &Name,
    bytes: u64,
    line: &str,
) {
    if line == "no Unread" {
        remarks::tell(rt, host, Why::UNREAD);
    } else if line != NO_SUCH_ENTRY {
        if let Ok(name) = name.text(rt.alloc()) {
            tell_why(rt, each.image, name.as_str(), each.mode, host, bytes, line);
        }
    }
}

/// Tells under which names the files would be put, of a volume that is accepted. Nothing is opened but the image.
fn tell_each<'a, W: Write>(
    rt: &HostRuntime,
    each: &Each<'a>,
    writer: &mut W,
    remark: &mut Option<Remark<'a>>,
) -> Result<Answer, Failure> {
    let mut device = opened_to_read(rt, each.image, remark)?;
    let names = match names_of(rt, &mut device, each) {
        Ok(names) => names,
        Err(failure) => {
            tell_read_fault(rt, each.image, device);
            return Err(failure);
        }
    };
    let (device, told) = match accept_files(rt.alloc(), device, writer) {
        Ok(accepted) => (accepted.device(), tell_names(rt, each, &names, writer)),
        Err((device, told)) => (device, told),
    };
    tell_read_fault(rt, each.image, device);
    Ok(ended(rt, each.image, told?, remark))
}

/// Writes the line of each, and the last one.
fn tell_names<W: Write>(
    rt: &HostRuntime,
    each: &Each<'_>,
    names: &[Option<Name>],
    writer: &mut W,
) -> Result<FileAnswer, f11_commands::Failure> {
    let mut count: usize = 0;
    for (at, name) in names.iter().enumerate() {
        let host = each.hosts.at(at);
        match name {
            Some(name) => {
                tell_fitted(rt, host, name);
                write_copy_line(writer, name)?;
                count = count.saturating_add(1);
            }
            None => {
                remarks::tell(rt, host, Why::NO_NAME);
                let why = Unput::BadName;
                writeln!(writer, "{host} no {why}")?;
            }
        }
    }
    write_all_copy_line(writer, count)?;
    if count == names.len() {
        Ok(FileAnswer::Done)
    } else {
        Ok(FileAnswer::Refused)
    }
}
