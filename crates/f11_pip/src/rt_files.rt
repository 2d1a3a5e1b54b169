//! The commands on files of an RT-11 volume: which files they open, and how.
use crate::heard::Heard;
use crate::host_files::{ended, made, put_answer};
use crate::image::{opened_to_read, opened_to_write, tell_fault, tell_read_fault};
use crate::outcome::Failure;
use crate::refusals::{self, of_rt, of_rt_renaming};
use crate::remarks::{self, Remark, Why};
use crate::sources::{in_pieces, lines_length, opened_host};
use f11_commands::f11_flx::CopyMode;
use f11_commands::{
    Answer, FileAnswer, RtServed, RtState, find_rt_file, print_rt_delete, print_rt_protect,
    print_rt_put, print_rt_rename, print_rt_squeeze, read_rt_name, refuse_names, write_rt_file,
    write_rt_text,
};
use rt11_text::FromHost;
use std::io::Write;

/// The answer of a command that serves any RT-11 volume, and what there is to say of its image. Where the report of a directory that can't be
/// read was written, that is all.
pub fn judged<'a>(
    rt: &HostRuntime,
    image: &'a str,
    served: RtServed,
    remark: &mut Option<Remark<'a>>,
) -> Answer {
    if let FileAnswer::Faulty(system) = served.answer {
        *remark = remarks::of_image(rt, image, Some(system));
        return Answer::Fault;
    }
    *remark = remarks::of_rt_volume(rt, image, served.state);
    match served.state {
        RtState::Sound => served.answer.answer(),
        RtState::Short(_) | RtState::Faulty => Answer::Fault,
    }
}

/// Copies a file of an RT-11 volume, whose image is opened to be read alone, to a file of the host, which is made once the other one is
/// found. Where the copy fails, what was made stays, unless nothing was written to it.
pub fn get<'a, W: Write>(
    rt: &HostRuntime,
    mode: CopyMode,
    image: &'a str,
    word: &'a str,
    host: &'a str,
    writer: &mut W,
    remark: &mut Option<Remark<'a>>,
) -> Result<Answer, Failure> {
    let Some(name) = read_rt_name(word) else {
        *remark = Some(remarks::of_rt_name(word));
        return Ok(refuse_names(writer)?);
    };
    let device = opened_to_read(rt, image, remark)?;
    let mut heard = Heard::new(writer, None);
    let file = match find_rt_file(rt.alloc(), device, &name, &mut heard) {
        Ok(file) => file,
        Err((device, served)) => {
            tell_read_fault(rt, image, device);
            tell_refused(rt, &heard, image, word);
            return Ok(judged(rt, image, served?, remark));
        }
    };
    let mut made = made(rt, host, remark)?;
    let (device, served) = match mode {
        CopyMode::Image => write_rt_file(file, &mut made, &mut heard),
        CopyMode::Text => write_rt_text(file, &mut made, &mut heard),
    };
    tell_read_fault(rt, image, device);
    if !matches!(
        served,
        Ok(RtServed {
            answer: FileAnswer::Done,
            ..
        },)
    ) {
        let _ = made.end();
        if let Some(error) = made.failure() {
            *remark = Some(remarks::of_unwritten(host, error));
        }
        let _ = made.give_up(rt, host);
    }
    Ok(judged(rt, image, served?, remark))
}

/// Makes a file on an RT-11 volume with the bytes or the lines of a file of the host, which is opened first. A text is read to its end before
/// the file is made, to count its bytes there.
pub fn put<'a, W: Write>(
    rt: &HostRuntime,
    mode: CopyMode,
    image: &'a str,
    word: &'a str,
    host: &'a str,
    writer: &mut W,
    remark: &mut Option<Remark<'a>>,
) -> Result<Answer, Failure> {
    let Some(name) = read_rt_name(word) else {
        *remark = Some(remarks::of_rt_name(word));
        return Ok(refuse_names(writer)?);
    };
    let (file, bytes) = opened_host(rt, host, remark)?;
    let bytes = match mode {
        CopyMode::Image => bytes,
        CopyMode::Text => lines_length(rt, host, remark)?,
    };
    let mut file = in_pieces(rt, file)?;
    let device = opened_to_write(rt, image, remark)?;
    let mut heard = Heard::new(writer, None);
    let (device, told) = match mode {
        CopyMode::Image => print_rt_put(rt.alloc(), device, &name, &mut file, bytes, &mut heard),
        CopyMode::Text => {
            let mut text = FromHost::new(file);
            print_rt_put(rt.alloc(), device, &name, &mut text, bytes, &mut heard)
        }
    };
    tell_fault(rt, image, device);
    tell_refused(rt, &heard, image, word);
    put_answer(rt, image, host, told, remark)
}

/// Deletes a file of an RT-11 volume.
pub fn delete<'a, W: Write>(
    rt: &HostRuntime,
    image: &'a str,
    word: &'a str,
    writer: &mut W,
    remark: &mut Option<Remark<'a>>,
) -> Result<Answer, Failure> {
    let Some(name) = read_rt_name(word) else {
        *remark = Some(remarks::of_rt_name(word));
        return Ok(refuse_names(writer)?);
    };
    let device = opened_to_write(rt, image, remark)?;
    let mut heard = Heard::new(writer, None);
    let (device, told) = print_rt_delete(rt.alloc(), device, &name, &mut heard);
    tell_fault(rt, image, device);
    tell_refused(rt, &heard, image, word);
    Ok(ended(rt, image, told?, remark))
}

/// Gives a file of an RT-11 volume another name.
pub fn rename<'a, W: Write>(
    rt: &HostRuntime,
    image: &'a str,
    word: &'a str,
    new: &'a str,
    writer: &mut W,
    remark: &mut Option<Remark<'a>>,
) -> Result<Answer, Failure> {
    let Some(name) = read_rt_name(word) else {
        *remark = Some(remarks::of_rt_name(word));
        return Ok(refuse_names(writer)?);
    };
    let Some(other) = read_rt_name(new) else {
        *remark = Some(remarks::of_rt_name(new));
        return Ok(refuse_names(writer)?);
    };
    let device = opened_to_write(rt, image, remark)?;
    let mut heard = Heard::new(writer, None);
    let (device, told) = print_rt_rename(rt.alloc(), device, &name, &other, &mut heard);
    tell_fault(rt, image, device);
    if let Some(line) = heard.refusal() {
        refusals::tell(rt, of_rt_renaming(line, image, word, new));
    }
    Ok(ended(rt, image, told?, remark))
}

/// Protects a file of an RT-11 volume, or has it protected no more.
pub fn protect<'a, W: Write>(
    rt: &HostRuntime,
    image: &'a str,
    word: &'a str,
    on: bool,
    writer: &mut W,
    remark: &mut Option<Remark<'a>>,
) -> Result<Answer, Failure> {
    let Some(name) = read_rt_name(word) else {
        *remark = Some(remarks::of_rt_name(word));
        return Ok(refuse_names(writer)?);
    };
    let device = opened_to_write(rt, image, remark)?;
    let mut heard = Heard::new(writer, None);
    let (device, told) = print_rt_protect(rt.alloc(), device, &name, on, &mut heard);
    tell_fault(rt, image, device);
    tell_refused(rt, &heard, image, word);
    Ok(ended(rt, image, told?, remark))
}

/// Brings the files of an RT-11 volume to lower blocks.
pub fn squeeze<'a, W: Write>(
    rt: &HostRuntime,
    image: &'a str,
    writer: &mut W,
    remark: &mut Option<Remark<'a>>,
) -> Result<Answer, Failure> {
    let device = opened_to_write(rt, image, remark)?;
    let mut heard = Heard::new(writer, None);
    let (device, told) = print_rt_squeeze(rt.alloc(), device, &mut heard);
    tell_fault(rt, image, device);
    let told = told?;
    if told == FileAnswer::Refused {
        let is_copy_there = heard.refused_action() == Some("DuplicateName");
        let why = if is_copy_there {
            Why::COPY_THERE
        } else {
            Why::NOT_SQUEEZED
        };
        remarks::tell(rt, image, why);
    }
    Ok(ended(rt, image, told, remark))
}

/// Says what the last line means, where it refuses something that was asked of a file of this name.
fn tell_refused<W: Write>(rt: &HostRuntime, heard: &Heard<'_, '_, W>, image: &str, name: &str) {
    if let Some(line) = heard.refusal() {
        refusals::tell(rt, of_rt(line, image, name));
    }
}
