//! RT-11 volumes of which all files are copied to another: which images are opened or made, and what is said of them.
use crate::heard::Heard;
use crate::image::{
    ReadImage, created, opened_to_read, opened_to_write, tell_fault, tell_read_fault,
};
use crate::outcome::Failure;
use crate::refusals::{self, of_rt_copying};
use crate::remarks::{self, Remark, Why};
use crate::rt_files::judged;
use f11_commands::{Answer, FileAnswer, RtServed};
use f11_salvage::{RtPack, begin_rt_copy, refuse_rt_copy};
use std::io::Write;

/// Copies all files of a volume to a fresh one, of so many blocks and segments where these are given. Its image file is made once it is
/// known that the files have room.
pub fn copy<'a, W: Write>(
    rt: &HostRuntime,
    blocks: Option<u16>,
    segments: Option<u16>,
    old: &'a str,
    new: &'a str,
    writer: &mut W,
    remark: &mut Option<Remark<'a>>,
) -> Result<Answer, Failure> {
    let pack = match begun(rt, old, writer, remark)? {
        Ok(pack) => pack,
        Err(answer) => return Ok(answer),
    };
    let size = match pack.size(blocks, segments) {
        Ok(size) => size,
        Err(why) => {
            tell_read_fault(rt, old, pack.device());
            *remark = Some(remarks::of_small(why, old, new));
            return Ok(refuse_rt_copy(why, writer)?);
        }
    };
    let target = created(rt, new, size.blocks, remark)?;
    let mut heard = Heard::new(writer, None);
    let (source, target, served) = pack.copy(rt.alloc(), target, size.segments, &mut heard);
    tell_read_fault(rt, old, source);
    tell_fault(rt, new, target);
    tell_uncopied(rt, &heard, new);
    Ok(copied(rt, old, new, served?, remark))
}

/// Copies all files of a volume to one that is there, whose image is opened once the directory of the other is read.
pub fn copy_onto<'a, W: Write>(
    rt: &HostRuntime,
    old: &'a str,
    new: &'a str,
    writer: &mut W,
    remark: &mut Option<Remark<'a>>,
) -> Result<Answer, Failure> {
    if old == new {
        *remark = Some(Remark::of(old, Why::TWICE));
        return Err(Failure::CannotOpen);
    }
    let pack = match begun(rt, old, writer, remark)? {
        Ok(pack) => pack,
        Err(answer) => return Ok(answer),
    };
    let target = opened_to_write(rt, new, remark)?;
    let mut heard = Heard::new(writer, None);
    let (source, target, served) = pack.copy_onto(rt.alloc(), target, &mut heard);
    tell_read_fault(rt, old, source);
    tell_fault(rt, new, target);
    tell_uncopied(rt, &heard, new);
    Ok(copied(rt, old, new, served?, remark))
}

/// The volume of which all files are copied, whose image is opened to be read alone; or the answer, where its directory can't be read.
fn begun<'a, W: Write>(
    rt: &HostRuntime,
    old: &'a str,
    writer: &mut W,
    remark: &mut Option<Remark<'a>>,
) -> Result<Result<RtPack<ReadImage>, Answer>, Failure> {
    let source = opened_to_read(rt, old, remark)?;
    match begin_rt_copy(rt.alloc(), source, writer) {
        Ok(pack) => Ok(Ok(pack)),
        Err((source, served)) => {
            tell_read_fault(rt, old, source);
            Ok(Err(judged(rt, old, served?, remark)))
        }
    }
}

/// Says why the new volume refuses a file, the last one that it does.
fn tell_uncopied<W: Write>(rt: &HostRuntime, heard: &Heard<'_, '_, W>, new: &str) {
    if let (Some(name), Some(refusal)) = (heard.refused_name(), heard.refused_action()) {
        refusals::tell(rt, of_rt_copying(refusal, new, name));
    }
}

/// The answer of a copy, and what there is to say of both images: that the new volume has faults, behind what the old one has, or else of
/// the old one, or of the new one's file.
fn copied<'a>(
    rt: &HostRuntime,
    old: &'a str,
    new: &'a str,
    served: RtServed,
    remark: &mut Option<Remark<'a>>,
) -> Answer {
    if let FileAnswer::Faulty(system) = served.answer {
        refusals::tell(rt, remarks::of_rt_volume(rt, old, served.state));
        *remark = Some(remarks::of_unserved(rt, new, system));
        return Answer::Fault;
    }
    let answer = judged(rt, old, served, remark);
    *remark = remark.or(remarks::of_image(rt, new, None));
    answer
}
