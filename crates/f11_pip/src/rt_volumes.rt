//! The commands on an RT-11 volume as a whole.
use crate::image::{created, opened_to_read, tell_fault, tell_read_fault};
use crate::outcome::Failure;
use crate::remarks::{self, Remark};
use crate::rt_files::judged;
use crate::volumes::{looked, told_zeros};
use f11_commands::{Answer, System, print_rt_init, print_rt_list, print_rt_ls, print_rt_vfy};
use std::io::Write;

/// Makes an image file of so many blocks with a fresh volume, whose directory has so many segments.
pub fn init<'a, W: Write>(
    rt: &HostRuntime,
    image: &'a str,
    blocks: u16,
    segments: u16,
    writer: &mut W,
    remark: &mut Option<Remark<'a>>,
) -> Result<Answer, Failure> {
    let made = created(rt, image, u32::from(blocks), remark)?;
    let (device, answer) = print_rt_init(made, segments, writer);
    tell_fault(rt, image, device);
    let answer = answer?;
    if answer == Answer::Fault {
        told_zeros(rt, image, remarks::passed_by_segments(segments), remark);
    }
    Ok(answer)
}

/// Lists the areas of a volume.
pub fn list<'a, W: Write>(
    rt: &HostRuntime,
    image: &'a str,
    writer: &mut W,
    remark: &mut Option<Remark<'a>>,
) -> Result<Answer, Failure> {
    let device = opened_to_read(rt, image, remark)?;
    let (device, answer) = print_rt_list(rt.alloc(), device, writer);
    tell_read_fault(rt, image, device);
    Ok(looked(rt, image, System::Rt11, answer?, remark))
}

/// Lists the files of a volume.
pub fn ls<'a, W: Write>(
    rt: &HostRuntime,
    image: &'a str,
    writer: &mut W,
    remark: &mut Option<Remark<'a>>,
) -> Result<Answer, Failure> {
    let device = opened_to_read(rt, image, remark)?;
    let (device, served) = print_rt_ls(rt.alloc(), device, writer);
    tell_read_fault(rt, image, device);
    Ok(judged(rt, image, served?, remark))
}

/// Verifies a volume.
pub fn vfy<'a, W: Write>(
    rt: &HostRuntime,
    image: &'a str,
    writer: &mut W,
    remark: &mut Option<Remark<'a>>,
) -> Result<Answer, Failure> {
    let device = opened_to_read(rt, image, remark)?;
    let (device, answer) = print_rt_vfy(rt.alloc(), device, writer);
    tell_read_fault(rt, image, device);
    Ok(looked(rt, image, System::Rt11, answer?, remark))
}
