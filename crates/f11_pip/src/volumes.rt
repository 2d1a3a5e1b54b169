//! The commands on a Files-11 volume as a whole.
use crate::heard::Heard;
use crate::host_files::tell_no_directory;
use crate::image::{created, opened_to_read, opened_to_write, tell_fault, tell_read_fault};
use crate::outcome::Failure;
use crate::refusals::{NO_SUCH_ENTRY, not_found};
use crate::remarks::{self, Remark, Why};
use f11_commands::f11_catalog::LineForm;
use f11_commands::f11_rad50::Name;
use f11_commands::f11_vfy::{InitParams, MOST_BLOCKS};
use f11_commands::{
    Answer, Served, System, directory_name, print_header, print_home, print_init, print_ls,
    print_vfy, print_vfy_update, refuse_init,
};
use f11_store::Uic;
use std::io::Write;

/// The user whose directory is the master file directory.
const MASTER: Uic = Uic {
    group: 0,
    member: 0,
};

/// Shows a file header.
pub fn dump<'a, W: Write>(
    rt: &HostRuntime,
    image: &'a str,
    number: u16,
    writer: &mut W,
    remark: &mut Option<Remark<'a>>,
) -> Result<Answer, Failure> {
    let mut device = opened_to_read(rt, image, remark)?;
    let answer = print_header(rt.alloc(), &mut device, writer, number);
    tell_read_fault(rt, image, device);
    Ok(looked(rt, image, System::Files11, answer?, remark))
}

/// Shows the home block.
pub fn home<'a, W: Write>(
    rt: &HostRuntime,
    image: &'a str,
    writer: &mut W,
    remark: &mut Option<Remark<'a>>,
) -> Result<Answer, Failure> {
    let mut device = opened_to_read(rt, image, remark)?;
    let answer = print_home(&mut device, writer);
    tell_read_fault(rt, image, device);
    Ok(looked(rt, image, System::Files11, answer?, remark))
}

/// Lists one directory of a volume, or all, by long lines or short ones.
pub fn ls<'a, W: Write>(
    rt: &HostRuntime,
    is_long: bool,
    image: &'a str,
    directory: Option<Name>,
    writer: &mut W,
    remark: &mut Option<Remark<'a>>,
) -> Result<Answer, Failure> {
    let form = if is_long {
        LineForm::Long
    } else {
        LineForm::Short
    };
    let device = opened_to_read(rt, image, remark)?;
    let mut heard = Heard::new(writer, None);
    let (device, served) = print_ls(rt.alloc(), device, &mut heard, form, directory);
    tell_read_fault(rt, image, device);
    if let Some(line) = heard.refusal() {
        tell_unlisted(rt, directory.unwrap_or(directory_name(MASTER)), line);
    }
    Ok(judged(rt, image, served?, remark))
}

/// Says why a directory can't be listed, by the line that was written.
fn tell_unlisted(rt: &HostRuntime, directory: Name, line: &str) {
    if line == NO_SUCH_ENTRY {
        tell_no_directory(rt, directory);
    } else if let Some(why) = not_found(line) {
        let _ = eprintln!(rt; "{directory}: {why}");
    }
}

/// Verifies a volume, and gives back what lies idle on it where that is asked: then alone is the image opened to be written.
pub fn vfy<'a, W: Write>(
    rt: &HostRuntime,
    image: &'a str,
    update: bool,
    writer: &mut W,
    remark: &mut Option<Remark<'a>>,
) -> Result<Answer, Failure> {
    let answer = if update {
        let device = opened_to_write(rt, image, remark)?;
        let (device, answer) = print_vfy_update(rt.alloc(), device, writer);
        tell_fault(rt, image, device);
        written(rt, image, answer?, remark)
    } else {
        let device = opened_to_read(rt, image, remark)?;
        let (device, answer) = print_vfy(rt.alloc(), device, writer);
        tell_read_fault(rt, image, device);
        looked(rt, image, System::Files11, answer?, remark)
    };
    Ok(answer)
}

/// The answer of a command that writes on an accepted Files-11 volume alone, and a remark on its image where there is one.
pub fn written<'a>(
    rt: &HostRuntime,
    image: &'a str,
    answer: Answer,
    remark: &mut Option<Remark<'a>>,
) -> Answer {
    *remark = match answer {
        Answer::Fault => Some(remarks::of_unserved(rt, image, System::Files11)),
        Answer::Done => remarks::of_image(rt, image, None),
    };
    answer
}

/// The answer of a command that serves any volume, and what there is to say of its image.
pub fn judged<'a>(
    rt: &HostRuntime,
    image: &'a str,
    served: Served,
    remark: &mut Option<Remark<'a>>,
) -> Answer {
    *remark = remarks::of_volume(rt, image, served.faulty);
    if served.faulty {
        Answer::Fault
    } else {
        served.answer
    }
}

/// The answer of a command on an image of a volume of this system, and a remark on its file where there is one.
pub fn looked<'a>(
    rt: &HostRuntime,
    image: &'a str,
    system: System,
    answer: Answer,
    remark: &mut Option<Remark<'a>>,
) -> Answer {
    let fault = if answer == Answer::Fault {
        Some(system)
    } else {
        None
    };
    *remark = remarks::of_image(rt, image, fault);
    answer
}

/// Makes an image file of so many blocks with a fresh volume. A file that can't be one is not made; where no volume can be made for
/// another cause, the file of zeros stays, which is told.
pub fn init<'a, W: Write>(
    rt: &HostRuntime,
    image: &'a str,
    blocks: u32,
    params: &InitParams<'_>,
    writer: &mut W,
    remark: &mut Option<Remark<'a>>,
) -> Result<Answer, Failure> {
    let limit = remarks::passed_by(blocks, params);
    if blocks > MOST_BLOCKS {
        *remark = Some(limit);
        return Ok(refuse_init(writer)?);
    }
    let made = created(rt, image, blocks, remark)?;
    let (device, answer) = print_init(made, writer, params);
    tell_fault(rt, image, device);
    let answer = answer?;
    if answer == Answer::Fault {
        told_zeros(rt, image, limit, remark);
    }
    Ok(answer)
}

/// Tells which limit a parameter passed with which no volume was made, and has it told that the file of zeros stays, which was made for it.
pub fn told_zeros<'a>(
    rt: &HostRuntime,
    image: &'a str,
    limit: Remark<'static>,
    remark: &mut Option<Remark<'a>>,
) {
    let _ = eprintln!(rt; "{limit}");
    *remark = Some(Remark::of(image, Why::ZEROS));
}
