//! The files that a pattern means, or a purge deletes, to which something is done.
use crate::heard::Heard;
use crate::host_files::{Named, ended};
use crate::image::{opened_to_read, opened_to_write, tell_fault, tell_read_fault};
use crate::outcome::Failure;
use crate::refusals::{self, of_change, of_none};
use crate::remarks::{self, Remark};
use f11_actions::{Behind, Change, print_chosen, print_would};
use f11_commands::{Answer, refuse_names};
use f11_patterns::Pattern;
use f11_words::Manner;
use std::io::Write;

/// Does something to each file of a directory whose name is one that a pattern means, or tells what would be done, and says what the last
/// refusal means; where the word is no pattern, that is written.
pub fn change<'a, W: Write>(
    rt: &HostRuntime,
    file: &Named<'a>,
    change: Change,
    manner: Manner,
    writer: &mut W,
    remark: &mut Option<Remark<'a>>,
) -> Result<Answer, Failure> {
    let Ok(pattern) = Pattern::parse(file.name.as_bytes()) else {
        *remark = Some(remarks::of_pattern(file.name));
        refuse_names(writer)?;
        return Ok(Answer::Fault);
    };
    let behind = match manner {
        Manner::GoesOn => Behind::GoesOn,
        Manner::Stops => Behind::Stops,
        Manner::Tells => return tell_change(rt, file, &pattern, change, writer, remark),
    };
    let device = opened_to_write(rt, file.image, remark)?;
    let mut heard = Heard::new(writer, None);
    let (device, told) = print_chosen(
        rt.alloc(),
        device,
        file.directory,
        &pattern,
        change,
        behind,
        &mut heard,
    );
    tell_fault(rt, file.image, device);
    if let Some(line) = heard.refusal() {
        refusals::tell(rt, of_none(line, change, file.name));
    }
    if let (Some(name), Some(refusal)) = (heard.refused_name(), heard.refused_action()) {
        refusals::tell(rt, of_change(refusal, change, file.image, name));
    }
    Ok(ended(rt, file.image, told?, remark))
}

/// Tells what would be done to each file of a directory whose name is one that a pattern means.
fn tell_change<'a, W: Write>(
    rt: &HostRuntime,
    file: &Named<'a>,
    pattern: &Pattern<'_>,
    change: Change,
    writer: &mut W,
    remark: &mut Option<Remark<'a>>,
) -> Result<Answer, Failure> {
    let device = opened_to_read(rt, file.image, remark)?;
    let mut heard = Heard::new(writer, None);
    let (device, told) = print_would(
        rt.alloc(),
        device,
        file.directory,
        pattern,
        change,
        &mut heard,
    );
    tell_read_fault(rt, file.image, device);
    if let Some(line) = heard.refusal() {
        refusals::tell(rt, of_none(line, change, file.name));
    }
    Ok(ended(rt, file.image, told?, remark))
}
