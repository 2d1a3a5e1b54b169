//! The commands that copy a file between the two file systems: which files they open, and what they say.
use crate::heard::Heard;
use crate::host_files::{lacks_directory, tell_no_directory};
use crate::image::{opened_source, opened_to_write, tell_fault};
use crate::outcome::Failure;
use crate::refusals::{self, NO_SUCH_ENTRY, of_finding, of_making, of_rt};
use crate::remarks::{self, Remark, Why};
use f11_commands::f11_flx::CopyMode;
use f11_commands::f11_rad50::Name;
use f11_commands::{
    Answer, Copying, Direction, FileAnswer, System, directory_name, print_copy, read_names,
    refuse_names,
};
use f11_dev::FileImage;
use f11_store::Uic;
use std::fs::File;
use std::io::Write;

/// What a command that copies is asked.
#[derive(Clone, Copy)]
pub struct Asked<'a> {
    pub direction: Direction,
    pub mode: CopyMode,
    pub directory: Uic,
    pub image: &'a str,
    pub name: &'a str,
    pub rt_image: &'a str,
    pub rt_name: &'a str,
}

/// Copies a file between two volumes. The image that is copied from is opened to be read alone.
pub fn copy<'a, W: Write>(
    rt: &HostRuntime,
    asked: &Asked<'a>,
    writer: &mut W,
    remark: &mut Option<Remark<'a>>,
) -> Result<Answer, Failure> {
    let Some((name, rt_name)) = read_names(asked.name, asked.rt_name) else {
        *remark = Some(bad_name(asked));
        return Ok(refuse_names(writer)?);
    };
    let copying = Copying {
        direction: asked.direction,
        mode: asked.mode,
        directory: asked.directory,
        name,
        rt_name,
    };
    let (files, rt_volume) = opened_both(rt, asked, remark)?;
    let mut heard = Heard::new(writer, None);
    let (files, rt_volume, answer) = print_copy(rt.alloc(), files, rt_volume, &copying, &mut heard);
    tell_fault(rt, asked.image, files);
    tell_fault(rt, asked.rt_image, rt_volume);
    if let Some(line) = heard.refusal() {
        tell_uncopied(rt, asked, line);
    }
    Ok(copied(rt, asked, answer?, remark))
}

/// Says why a copy is refused, by this line, which of its names isn't there among it.
fn tell_uncopied(rt: &HostRuntime, asked: &Asked<'_>, line: &str) {
    let directory = directory_name(asked.directory);
    if line == NO_SUCH_ENTRY {
        if asked.direction == Direction::FromRt || lacks_directory(rt, asked.image, directory) {
            tell_no_directory(rt, directory);
        } else {
            remarks::tell(rt, asked.name, Why::NOT_THERE);
        }
    } else {
        refusals::tell(rt, uncopied(asked, line));
    }
}

/// What there is to say of a copy that this line refuses.
fn uncopied<'a>(asked: &Asked<'a>, line: &str) -> Option<Remark<'a>> {
    let of_rt = of_rt(line, asked.rt_image, asked.rt_name);
    match asked.direction {
        Direction::FromRt if line == "no DuplicateName" => of_copied(asked, line),
        Direction::FromRt => of_rt.or(of_copied(asked, line)),
        Direction::ToRt => of_finding(line, asked.name).or(of_rt),
    }
}

fn of_copied<'a>(asked: &Asked<'a>, line: &str) -> Option<Remark<'a>> {
    if line == "no LineTooLong" {
        return Some(Remark::of(asked.rt_name, Why::LONG_RT_LINE));
    }
    of_making(line, asked.image, asked.name, asked.rt_name)
}

/// Which of the names of a copy, of which one is none, is the first.
fn bad_name<'a>(asked: &Asked<'a>) -> Remark<'a> {
    if Name::parse(asked.name.as_bytes()).is_err() {
        remarks::of_name(asked.name)
    } else {
        remarks::of_rt_name(asked.rt_name)
    }
}

/// The images of a copy, which are opened in the order of the words: the one that is copied from first, and to be read alone.
fn opened_both<'a>(
    rt: &HostRuntime,
    asked: &Asked<'a>,
    remark: &mut Option<Remark<'a>>,
) -> Result<(FileImage<File>, FileImage<File>), Failure> {
    let (image, rt_image) = (asked.image, asked.rt_image);
    if image == rt_image {
        *remark = Some(Remark::of(image, Why::TWICE));
        return Err(Failure::CannotOpen);
    }
    match asked.direction {
        Direction::ToRt => {
            let files = opened_source(rt, image, remark)?;
            let target = opened_to_write(rt, rt_image, remark)?;
            Ok((files, target))
        }
        Direction::FromRt => {
            let source = opened_source(rt, rt_image, remark)?;
            let files = opened_to_write(rt, image, remark)?;
            Ok((files, source))
        }
    }
}

/// What there is to say of the image of the volume of this system, which has faults.
fn unserved<'a>(rt: &HostRuntime, asked: &Asked<'a>, system: System) -> Remark<'a> {
    let image = match system {
        System::Files11 => asked.image,
        System::Rt11 => asked.rt_image,
    };
    remarks::of_unserved(rt, image, system)
}

/// The answer of a copy, and a remark on the file of each volume that has a fault, or of either where there is one.
fn copied<'a>(
    rt: &HostRuntime,
    asked: &Asked<'a>,
    answer: FileAnswer,
    remark: &mut Option<Remark<'a>>,
) -> Answer {
    *remark = match answer {
        FileAnswer::Faulty(system) => Some(unserved(rt, asked, system)),
        FileAnswer::BothFaulty => {
            let (source, target) = match asked.direction {
                Direction::ToRt => (System::Files11, System::Rt11),
                Direction::FromRt => (System::Rt11, System::Files11),
            };
            refusals::tell(rt, Some(unserved(rt, asked, source)));
            Some(unserved(rt, asked, target))
        }
        FileAnswer::Done | FileAnswer::Refused => {
            remarks::of_image(rt, asked.image, None).or(remarks::of_image(rt, asked.rt_image, None))
        }
    };
    answer.answer()
}
