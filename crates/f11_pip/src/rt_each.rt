//! The command `rt-put --each`: files of the host that are put on an RT-11 volume, each under its own name.
ghost use Rattle.std.specs.Prelude.{◌≡◌, ◌&&◌, OnOk, length};
ghost use Rattle.f11_commands.specs.PuttingCounts.{CountsAll, CountsOne, has_refused, no_files};
ghost use Rattle.f11_commands.specs.RtPutEach.{counts_of};
ghost use Rattle.f11_pip.specs.Stopping.{stops};

use crate::heard::Heard;
use crate::host_files::ended;
use crate::hosts::Hosts;
use crate::image::{opened_to_read, opened_to_write, tell_fault, tell_read_fault};
use crate::outcome::Failure;
use crate::refusals::{self, of_rt};
use crate::remarks::{self, Remark, Why};
use crate::sources::{in_pieces, lines_length, opened_host};
use f11_actions::{new_rt_names, write_all_copy_line, write_rt_copy_line};
use f11_commands::f11_flx::CopyMode;
use f11_commands::{
    Answer, FileAnswer, RtName, RtPuts, Unput, accept_rt, begin_rt_puts, read_rt_name,
};
use f11_dev::{Device, FileImage};
use f11_patterns::{HostNames, last_part};
use f11_words::Manner;
use rt11_text::FromHost;
use std::fs::File;
use std::io::{BufReader, Write};

/// Files of the host that are put on an RT-11 volume.
#[derive(Clone, Copy)]
pub struct RtEach<'a> {
    /// What is done behind one that is refused, or whether it is only told what would be.
    pub manner: Manner,
    pub mode: CopyMode,
    pub image: &'a str,
    pub hosts: Hosts<'a>,
    /// How names are taken that can't be those of files of the volume.
    pub fitting: HostNames,
}

/// Makes a file on an RT-11 volume of each of these files of the host, which are opened one after another: under the last part of its path. What
/// a refusal means is said as it is met; the others go on behind one, or none does. Or it is told which would be made.
pub fn put_rt_each<'a, W: Write>(
    rt: &HostRuntime,
    each: &RtEach<'a>,
    writer: &mut W,
    remark: &mut Option<Remark<'a>>,
) -> Result<Answer, Failure> {
    if each.manner == Manner::Tells {
        return tell_each(rt, each, writer, remark);
    }
    let mut device = opened_to_write(rt, each.image, remark)?;
    let names = match names_of(rt, &mut device, each) {
        Ok(names) => names,
        Err(failure) => {
            tell_fault(rt, each.image, device);
            return Err(failure);
        }
    };
    let mut puts = match begin_rt_puts(rt.alloc(), device, writer) {
        Ok(puts) => puts,
        Err((device, told)) => {
            tell_fault(rt, each.image, device);
            return Ok(ended(rt, each.image, told?, remark));
        }
    };
    match put_all(rt, each, &names, &mut puts, writer) {
        Ok(()) => {
            let (device, told) = puts.end(writer);
            tell_fault(rt, each.image, device);
            Ok(ended(rt, each.image, told?, remark))
        }
        Err(failure) => {
            let (device, failure) = puts.break_off(failure);
            tell_fault(rt, each.image, device);
            Err(Failure::from(failure))
        }
    }
}

/// The names under which the files are put, decided before the first is; `None` of one that can't be such a name.
fn names_of<D: Device>(
    rt: &HostRuntime,
    device: &mut D,
    each: &RtEach<'_>,
) -> Result<Vec<Option<RtName>>, Failure> {
    let paths = each.hosts.paths(rt)?;
    Ok(new_rt_names(rt.alloc(), device, &paths, each.fitting)?)
}

/// Puts one file after another, but none behind one that is refused where that is asked for. Each of those is counted once, where no failure ends them.
fn put_all<W: Write>(
    rt: &HostRuntime,
    each: &RtEach<'_>,
    names: &[Option<RtName>],
    puts: &mut RtPuts<FileImage<File>>,
    writer: &mut W,
) -> Result<(), f11_commands::Failure>
    requires none { counts_of puts.old ≡ no_files }
    ensures counts { OnOk result (CountsAll (stops each.now.manner) (length names.now)
        (counts_of puts.old) (counts_of puts.new)) }
{
    for at in 0..names.len() {
        put_named(rt, each, each.hosts.at(at), names[at], puts, writer)?;
        if is_ended(each.manner, puts) {
            return Ok(());
        }
    }
    Ok(())
}

/// Whether no other file is put: one is refused, and that ends them.
fn is_ended(manner: Manner, puts: &RtPuts<FileImage<File>>) -> bool
    ensures { result ≡ (stops manner && has_refused (counts_of puts.now)) }
{
    matches!(manner, Manner::Stops) && puts.has_refused()
}

/// Puts one file under its name, or tells that it can't have one. It is counted once, but where the call fails.
fn put_named<W: Write>(
    rt: &HostRuntime,
    each: &RtEach<'_>,
    host: &str,
    name: Option<RtName>,
    puts: &mut RtPuts<FileImage<File>>,
    writer: &mut W,
) -> Result<(), f11_commands::Failure>
    ensures counts { OnOk result (CountsOne (counts_of puts.old) (counts_of puts.new)) }
{
    match name {
        Some(name) => put_one(rt, each, host, &name, puts, writer),
        None => {
            remarks::tell(rt, host, Why::NO_RT_NAME);
            puts.leave_out(host, Unput::BadName, writer)
        }
    }
}

/// A file of the host that is open, and how many bytes it gives.
type Opened = (File, u64);

/// A file of the host, opened to be put in this mode; or `None` where it can't be, which is told.
fn source_of(
    rt: &HostRuntime,
    mode: CopyMode,
    host: &str,
) -> Result<Option<Opened>, f11_commands::Failure> {
    let mut unopened = None;
    let opened = match opened_host(rt, host, &mut unopened) {
        Ok((file, bytes)) => match mode {
            CopyMode::Image => Ok((file, bytes)),
            CopyMode::Text => lines_length(rt, host, &mut unopened).map(|bytes| (file, bytes)),
        },
        Err(failure) => Err(failure),
    };
    match opened {
        Ok(opened) => Ok(Some(opened)),
        Err(Failure::CannotOpen) => {
            if let Some(remark) = unopened {
                let _ = eprintln!(rt; "{remark}");
            }
            Ok(None)
        }
        Err(_) => Err(f11_commands::Failure::NoMemory),
    }
}

/// Puts one file, or tells that it can't be opened.
fn put_one<W: Write>(
    rt: &HostRuntime,
    each: &RtEach<'_>,
    host: &str,
    name: &RtName,
    puts: &mut RtPuts<FileImage<File>>,
    writer: &mut W,
) -> Result<(), f11_commands::Failure>
    ensures counts { OnOk result (CountsOne (counts_of puts.old) (counts_of puts.new)) }
{
    let Some((file, bytes)) = source_of(rt, each.mode, host)? else {
        return puts.leave_out(host, Unput::CannotOpen, writer);
    };
    let Ok(file) = in_pieces(rt, file) else {
        return Err(f11_commands::Failure::NoMemory);
    };
    let mut heard = Heard::new(writer, None);
    let told = put_source(each.mode, name, file, bytes, puts, &mut heard)?;
    if told == FileAnswer::Done {
        tell_fitted(rt, host, name);
    } else if let Some(line) = heard.refusal_of_file() {
        tell_refused(rt, each.image, host, name, line);
    }
    Ok(())
}

/// Puts a file that is open, and gives so many bytes in this mode.
fn put_source<W: Write>(
    mode: CopyMode,
    name: &RtName,
    file: BufReader<File>,
    bytes: u64,
    puts: &mut RtPuts<FileImage<File>>,
    writer: &mut W,
) -> Result<FileAnswer, f11_commands::Failure>
    ensures counts { OnOk result (CountsOne (counts_of puts.old) (counts_of puts.new)) }
{
    let mut file = file;
    match mode {
        CopyMode::Image => puts.put(name, &mut file, bytes, writer),
        CopyMode::Text => puts.put(name, &mut FromHost::new(file), bytes, writer),
    }
}

/// Says which name a file gets that is put under another than its own, since that can't be one.
fn tell_fitted(rt: &HostRuntime, host: &str, name: &RtName) {
    let is_own = match str::from_utf8(last_part(host.as_bytes())) {
        Ok(part) => read_rt_name(part).is_some(),
        Err(_) => false,
    };
    if !is_own {
        let _ = eprintln!(rt; "{host}: put as {name}");
    }
}

/// Says why no file of this name was made of one of the host, by what its line says.
fn tell_refused(rt: &HostRuntime, image: &str, host: &str, name: &RtName, line: &str) {
    if line == "no Unread" {
        remarks::tell(rt, host, Why::UNREAD);
    } else if let Ok(name) = name.text(rt.alloc()) {
        refusals::tell(rt, of_rt(line, image, name.as_str()));
    }
}

/// Tells under which names the files would be put, of a volume that is accepted. Nothing is opened but the image.
fn tell_each<'a, W: Write>(
    rt: &HostRuntime,
    each: &RtEach<'a>,
    writer: &mut W,
    remark: &mut Option<Remark<'a>>,
) -> Result<Answer, Failure> {
    let mut device = opened_to_read(rt, each.image, remark)?;
    let names = match names_of(rt, &mut device, each) {
        Ok(names) => names,
        Err(failure) => {
            tell_read_fault(rt, each.image, device);
            return Err(failure);
        }
    };
    let (device, told) = match accept_rt(rt.alloc(), device, writer) {
        Ok(accepted) => (accepted.device(), tell_names(rt, each, &names, writer)),
        Err((device, told)) => (device, told),
    };
    tell_read_fault(rt, each.image, device);
    Ok(ended(rt, each.image, told?, remark))
}

/// Writes the line of each, and the last one.
fn tell_names<W: Write>(
    rt: &HostRuntime,
    each: &RtEach<'_>,
    names: &[Option<RtName>],
    writer: &mut W,
) -> Result<FileAnswer, f11_commands::Failure> {
    let mut count: usize = 0;
    for (at, name) in names.iter().enumerate() {
        let host = each.hosts.at(at);
        match name {
            Some(name) => {
                tell_fitted(rt, host, name);
                write_rt_copy_line(writer, name)?;
                count = count.saturating_add(1);
            }
            None => {
                remarks::tell(rt, host, Why::NO_RT_NAME);
                let why = Unput::BadName;
                writeln!(writer, "{host} no {why}")?;
            }
        }
    }
    write_all_copy_line(writer, count)?;
    if count == names.len() {
        Ok(FileAnswer::Done)
    } else {
        Ok(FileAnswer::Refused)
    }
}
