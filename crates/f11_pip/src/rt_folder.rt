//! The command `rt-get --all`: the files of the host that it makes, in a folder.
use crate::folder::made_in;
use crate::host_file::HostFile;
use crate::image::{ReadImage, image_of, opened_to_read, tell_read_fault};
use crate::outcome::Failure;
use crate::remarks::{self, Remark, opened};
use crate::rt_files::judged;
use f11_commands::{Answer, RtFate, RtFileAt, RtPlace, TakingAllRt, begin_all_rt};
use f11_dev::Device;
use std::fs;
use std::io::{self, Write};

/// Takes all files out of an RT-11 volume, into a folder that is made: each under its name, and those that have none, or aren't the first of
/// theirs, into the folder `lost` in it, under the number of their segment and their own in it.
///
/// # Errors
///
/// Beside those of the command [`Failure::CannotOpen`] where not all files of the host could be made, behind what was done: which ones
/// is told on standard error. A transfer that failed is told before what the host refused.
pub fn get_all<'a, W: Write>(
    rt: &HostRuntime,
    image: &'a str,
    folder: &'a str,
    writer: &mut W,
    remark: &mut Option<Remark<'a>>,
) -> Result<Answer, Failure> {
    let device = opened_to_read(rt, image, remark)?;
    let mut all = match begin_all_rt(rt.alloc(), device, writer) {
        Ok(all) => all,
        Err((device, served)) => {
            tell_read_fault(rt, image, device);
            return Ok(judged(rt, image, served?, remark));
        }
    };
    opened(
        fs::create_dir(rt, folder).map_err(remarks::unmade),
        folder,
        remark,
    )?;
    let taken = take_all(rt, &mut all, folder, writer);
    // where it stopped the last line would count what was never tried as done
    let (device, served) = if taken.is_ok() {
        all.end(writer)
    } else {
        all.end(&mut io::sink())
    };
    tell_read_fault(rt, image, device);
    let answer = judged(rt, image, served?, remark);
    if taken? {
        Ok(answer)
    } else {
        Err(Failure::CannotOpen)
    }
}

/// Takes out the files that are still to come: whether a file of the host could be made for each. Where one takes no more it ends there, and
/// that one has a line, too.
fn take_all<W: Write>(
    rt: &HostRuntime,
    all: &mut TakingAllRt<ReadImage>,
    folder: &str,
    writer: &mut W,
) -> Result<bool, Failure> {
    let mut complete = true;
    while let Some(found) = all.next() {
        match found.fate {
            RtFate::NoFile => {}
            RtFate::NotCopied(_) => all.refuse(&found, writer)?,
            RtFate::Copied => match file_at(rt, folder, &found.place)? {
                Some(mut file) => {
                    let written = all.write(&found, &mut file, writer);
                    let ended = file.end();
                    if written.is_err() || ended.is_err() {
                        tell_unwritten(rt, folder, &found.place, &file, writer);
                        return Err(Failure::CannotWrite);
                    }
                }
                None => {
                    complete = false;
                    all.refuse(&found, writer)?;
                }
            },
        }
    }
    Ok(complete)
}

/// Tells of the file of the host for one in this place that it took no more, and why, if it was that.
fn tell_unwritten<W: Write>(
    rt: &HostRuntime,
    folder: &str,
    place: &RtPlace,
    file: &HostFile,
    writer: &mut W,
) {
    if let Some(error) = file.failure() {
        let _ = writeln!(writer, "{place} not written to its end");
        let _ = eprintln!(rt; "{folder}/{place}: not written to its end: {error}");
    }
}

/// The file of the host that is made for one in this place; `None` where it can't be, which is told.
fn file_at(rt: &HostRuntime, folder: &str, place: &RtPlace) -> Result<Option<HostFile>, Failure> {
    let path = format!(in rt.alloc(); "{folder}/{place}")?;
    let part = match place {
        RtPlace::Lost(_, _, _) => format!(in rt.alloc(); "{folder}/lost")?,
        _ => format!(in rt.alloc(); "{folder}")?,
    };
    match made_in(rt, part.as_str(), path.as_str())? {
        Ok(file) => Ok(Some(file)),
        Err(error) => {
            remarks::tell(rt, path.as_str(), remarks::unmade(error));
            Ok(None)
        }
    }
}

/// How many blocks the image of an RT-11 volume should have, by its directory, where it ends before the last area does; else `None`.
pub fn blocks_wanted(rt: &HostRuntime, image: &str) -> Option<u32> {
    let device = image_of(rt, image).ok()?;
    let size = device.blocks();
    let mut all = begin_all_rt(rt.alloc(), device, &mut io::sink()).ok()?;
    let mut end = size;
    while let Some(found) = all.next() {
        end = end.max(end_of(&found));
    }
    let _ = all.end(&mut io::sink());
    if end > size { Some(end) } else { None }
}

/// Behind which block the area of an entry ends, and 0 where no directory may give that away.
fn end_of(found: &RtFileAt) -> u32 {
    let entry = &found.entry;
    if entry.fits() {
        entry.first.saturating_add(u32::from(entry.blocks))
    } else {
        0
    }
}
