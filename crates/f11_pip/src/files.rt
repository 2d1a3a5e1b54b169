//! The commands that do something to files of a volume by their names: which image they open, and what is said of a refusal.
use crate::chosen::change;
use crate::directory::{name_of, owner_of};
use crate::heard::Heard;
use crate::host_files::{Named, ended};
use crate::image::{opened_to_read, opened_to_write, tell_fault, tell_read_fault};
use crate::outcome::Failure;
use crate::refusals::{self, of_action, of_making_directory};
use crate::remarks::{self, Remark};
use f11_actions::{
    Action, Behind, Change, found_name, is_directory_name, next_name, print_actions,
    print_deletion, print_making, print_would_act, renaming,
};
use f11_commands::f11_rad50::Name;
use f11_commands::{Answer, read_name, refuse_names};
use f11_dev::FileImage;
use f11_patterns::{OneName, Pattern, Versions};
use f11_words::{Directory, Manner};
use std::fs::File;
use std::io::Write;

/// Deletes a file, unless it is a directory that has records, or those that a pattern means; or tells that it would be.
pub fn delete<'a, W: Write>(
    rt: &HostRuntime,
    file: &Named<'a>,
    manner: Manner,
    writer: &mut W,
    remark: &mut Option<Remark<'a>>,
) -> Result<Answer, Failure> {
    match (OneName::of(file.name.as_bytes()), manner) {
        (Some(named), Manner::GoesOn | Manner::Stops) => {
            delete_one(rt, file, &named, writer, remark)
        }
        (Some(named), Manner::Tells) if is_directory_name(&first_of(&named)) => {
            tell_directory(rt, file, &named, writer, remark)
        }
        _ => change(rt, file, Change::Delete, manner, writer, remark),
    }
}

/// Tells that a directory would be deleted, which a pattern leaves out.
fn tell_directory<'a, W: Write>(
    rt: &HostRuntime,
    file: &Named<'a>,
    named: &OneName,
    writer: &mut W,
    remark: &mut Option<Remark<'a>>,
) -> Result<Answer, Failure> {
    let mut device = opened_to_read(rt, file.image, remark)?;
    let directory = file.directory;
    let name = match found_name(rt.alloc(), &mut device, &directory, named) {
        Ok(name) => name,
        Err(failure) => {
            tell_read_fault(rt, file.image, device);
            return Err(Failure::from(failure));
        }
    };
    let action = Action::Delete { directory, name };
    let (device, told) = print_would_act(rt.alloc(), device, &[action], writer);
    tell_read_fault(rt, file.image, device);
    Ok(ended(rt, file.image, told?, remark))
}

/// Deletes one file.
fn delete_one<'a, W: Write>(
    rt: &HostRuntime,
    file: &Named<'a>,
    named: &OneName,
    writer: &mut W,
    remark: &mut Option<Remark<'a>>,
) -> Result<Answer, Failure> {
    let mut device = opened_to_write(rt, file.image, remark)?;
    let directory = file.directory;
    let name = match found_name(rt.alloc(), &mut device, &directory, named) {
        Ok(name) => name,
        Err(failure) => {
            tell_fault(rt, file.image, device);
            return Err(Failure::from(failure));
        }
    };
    let mut heard = Heard::new(writer, None);
    let (device, told) = print_deletion(rt.alloc(), device, directory, name, &mut heard);
    tell_fault(rt, file.image, device);
    if let Some(refusal) = heard.refused_action() {
        let action = Action::Delete { directory, name };
        refusals::tell(
            rt,
            of_action(refusal, &action, file.image, file.name, file.name),
        );
    }
    Ok(ended(rt, file.image, told?, remark))
}

/// Deletes the lower versions of files, where the highest is there, whose name and type a pattern means, which asks for no version.
pub fn purge<'a, W: Write>(
    rt: &HostRuntime,
    file: &Named<'a>,
    manner: Manner,
    writer: &mut W,
    remark: &mut Option<Remark<'a>>,
) -> Result<Answer, Failure> {
    match Pattern::parse(file.name.as_bytes()) {
        Ok(pattern) if pattern.versions() == Versions::Highest => {
            change(rt, file, Change::Purge, manner, writer, remark)
        }
        _ => {
            *remark = Some(remarks::of_purge(file.name));
            refuse_names(writer)?;
            Ok(Answer::Fault)
        }
    }
}

/// Gives a file another name, in its directory or in this one.
pub fn rename<'a, W: Write>(
    rt: &HostRuntime,
    file: &Named<'a>,
    to: Option<Name>,
    new: &'a str,
    writer: &mut W,
    remark: &mut Option<Remark<'a>>,
) -> Result<Answer, Failure> {
    let Some(named) = name_in(rt, file.name, writer, remark)? else {
        return Ok(Answer::Fault);
    };
    let Some(new_named) = name_in(rt, new, writer, remark)? else {
        return Ok(Answer::Fault);
    };
    if is_directory_name(&first_of(&named)) != is_directory_name(&first_of(&new_named)) {
        *remark = Some(remarks::of_type(new));
        return Ok(Answer::Fault);
    }
    let to = to.unwrap_or(file.directory);
    let mut device = opened_to_write(rt, file.image, remark)?;
    let (name, new_name) = match both_names(rt, &mut device, file, &named, &to, &new_named) {
        Ok(both) => both,
        Err(failure) => {
            tell_fault(rt, file.image, device);
            return Err(failure);
        }
    };
    match renaming(file.directory, name, to, new_name) {
        Some(action) => act(rt, device, file, new, &action, writer, remark),
        None => Ok(Answer::Fault),
    }
}

/// The name that a word is, or with version 1 where it asks for none.
fn first_of(named: &OneName) -> Name {
    let (OneName::Whole(name) | OneName::Highest(name)) = *named;
    name
}

/// The name of a file that is renamed, and the one that it gets: of the next version where none is given, but of a directory 1, by which it
/// is found.
fn both_names(
    rt: &HostRuntime,
    device: &mut FileImage<File>,
    file: &Named<'_>,
    named: &OneName,
    to: &Name,
    new_named: &OneName,
) -> Result<(Name, Name), Failure> {
    let name = found_name(rt.alloc(), device, &file.directory, named)?;
    let new = first_of(new_named);
    if is_directory_name(&new) {
        return Ok((name, new));
    }
    Ok((name, next_name(rt.alloc(), device, to, new_named)?))
}

/// Gives a file a protection word, or those that a pattern means.
pub fn protect<'a, W: Write>(
    rt: &HostRuntime,
    file: &Named<'a>,
    protection: u16,
    manner: Manner,
    writer: &mut W,
    remark: &mut Option<Remark<'a>>,
) -> Result<Answer, Failure> {
    let Some(name) = name_to_act_on(rt, file.name, manner)? else {
        return change(
            rt,
            file,
            Change::Protect(protection),
            manner,
            writer,
            remark,
        );
    };
    let action = Action::Protect {
        directory: file.directory,
        name,
        protection,
    };
    let device = opened_to_write(rt, file.image, remark)?;
    act(rt, device, file, file.name, &action, writer, remark)
}

/// Leaves a file the blocks up to its end, or those that a pattern means.
pub fn truncate<'a, W: Write>(
    rt: &HostRuntime,
    file: &Named<'a>,
    manner: Manner,
    writer: &mut W,
    remark: &mut Option<Remark<'a>>,
) -> Result<Answer, Failure> {
    let Some(name) = name_to_act_on(rt, file.name, manner)? else {
        return change(rt, file, Change::Truncate, manner, writer, remark);
    };
    let action = Action::Truncate {
        directory: file.directory,
        name,
    };
    let device = opened_to_write(rt, file.image, remark)?;
    act(rt, device, file, file.name, &action, writer, remark)
}

/// The name of the one file to which something is done; `None` where the word is none, or it is told what would be, as of a pattern.
fn name_to_act_on(rt: &HostRuntime, word: &str, manner: Manner) -> Result<Option<Name>, Failure> {
    match manner {
        Manner::GoesOn | Manner::Stops => Ok(read_name(rt.alloc(), word)?),
        Manner::Tells => Ok(None),
    }
}

/// Whether a name has a type alone, and no character before the dot.
fn is_bare(name: &Name) -> bool {
    name.words()[0] == 0
}

/// Makes a directory, with the protection that the volume gives files for which none is given.
pub fn make_directory<'a, W: Write>(
    rt: &HostRuntime,
    image: &'a str,
    directory: Directory,
    writer: &mut W,
    remark: &mut Option<Remark<'a>>,
) -> Result<Answer, Failure> {
    let name = name_of(directory);
    if !is_directory_name(&name) || is_bare(&name) {
        *remark = Some(remarks::of_directory_name());
        refuse_names(writer)?;
        return Ok(Answer::Fault);
    }
    let device = opened_to_write(rt, image, remark)?;
    let mut heard = Heard::new(writer, None);
    let (device, told) = print_making(rt.alloc(), device, name, owner_of(directory), &mut heard);
    tell_fault(rt, image, device);
    if let Some(refusal) = heard.refused_action() {
        refusals::tell(rt, of_making_directory(refusal, image));
    }
    Ok(ended(rt, image, told?, remark))
}

/// Which file a word names; where it is no name, that is written.
fn name_in<'a, W: Write>(
    rt: &HostRuntime,
    word: &'a str,
    writer: &mut W,
    remark: &mut Option<Remark<'a>>,
) -> Result<Option<OneName>, Failure> {
    let named = OneName::of(word.as_bytes());
    if named.is_none() {
        *remark = Some(remarks::of_name(word));
        refuse_names(writer)?;
    }
    Ok(named)
}

/// Does something to a file, and says what a refusal means, `new` being the name that it gets.
fn act<'a, W: Write>(
    rt: &HostRuntime,
    device: FileImage<File>,
    file: &Named<'a>,
    new: &'a str,
    action: &Action,
    writer: &mut W,
    remark: &mut Option<Remark<'a>>,
) -> Result<Answer, Failure> {
    let mut heard = Heard::new(writer, None);
    let (device, told) = print_actions(rt.alloc(), device, &[*action], Behind::GoesOn, &mut heard);
    tell_fault(rt, file.image, device);
    if let Some(refusal) = heard.refused_action() {
        refusals::tell(rt, of_action(refusal, action, file.image, file.name, new));
    }
    Ok(ended(rt, file.image, told?, remark))
}
