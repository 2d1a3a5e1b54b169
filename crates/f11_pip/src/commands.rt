//! The commands, each with the files that the words name for it.
use crate::copies::{Asked, copy};
use crate::directory::{OPERATOR, name_of};
use crate::each::{Each, put_each};
use crate::folder::get_all;
use crate::host_files::{self, Named, Taking};
use crate::hosts::Hosts;
use crate::meant::tell_meant;
use crate::outcome::Failure;
use crate::remarks::{self, Remark};
use crate::rt_each::{RtEach, put_rt_each};
use crate::script::serve;
use crate::tree::{All, put_all};
use crate::{files, rt_copies, rt_files, rt_folder, rt_volumes, volumes};
use f11_commands::f11_vfy::InitParams;
use f11_commands::{Answer, Direction, print_name, print_rights};
use f11_patterns::HostNames;
use f11_words::{Directory, Words};
use std::io::Write;

/// Does what the words ask for, with the files that they name, and of `put --each` and `rt-put --each` the others behind their first one.
pub fn run<'a, W: Write>(
    rt: &HostRuntime,
    words: &Words<'a>,
    others: &'a [String],
    writer: &mut W,
    remark: &mut Option<Remark<'a>>,
) -> Result<Answer, Failure> {
    match *words {
        Words::Del {
            manner,
            image,
            directory,
            name,
        } => files::delete(rt, &named(image, directory, name), manner, writer, remark),
        Words::Dump { image, number } => volumes::dump(rt, image, number, writer, remark),
        Words::FlxFromRt {
            mode,
            rt: rt_image,
            rt_name,
            image,
            directory,
            name,
        } => {
            let asked = Asked {
                direction: Direction::FromRt,
                mode,
                directory,
                image,
                name,
                rt_image,
                rt_name,
            };
            copy(rt, &asked, writer, remark)
        }
        Words::FlxToRt {
            mode,
            image,
            directory,
            name,
            rt: rt_image,
            rt_name,
        } => {
            let asked = Asked {
                direction: Direction::ToRt,
                mode,
                directory,
                image,
                name,
                rt_image,
                rt_name,
            };
            copy(rt, &asked, writer, remark)
        }
        Words::Get {
            is_told: true,
            image,
            directory,
            name,
            ..
        } => tell_meant(rt, &named(image, directory, name), writer, remark),
        Words::Get {
            is_told: false,
            mode,
            all_blocks,
            image,
            directory,
            name,
            host,
        } => {
            let taking = Taking { mode, all_blocks };
            host_files::get(
                rt,
                &named(image, directory, name),
                taking,
                host,
                writer,
                remark,
            )
        }
        Words::GetAll {
            mode,
            image,
            folder,
        } => get_all(rt, mode, image, folder, writer, remark),
        Words::Home { image } => volumes::home(rt, image, writer, remark),
        Words::Init {
            image,
            blocks,
            slots,
            label,
            max_files,
        } => {
            let params = InitParams {
                label: label.as_bytes(),
                slots,
                max_files,
                owner: OPERATOR,
                date: [0; 14],
            };
            volumes::init(rt, image, blocks, &params, writer, remark)
        }
        Words::Ls { is_long, image } => volumes::ls(rt, is_long, image, None, writer, remark),
        Words::LsIn {
            is_long,
            image,
            directory,
        } => {
            let directory = Some(name_of(directory));
            volumes::ls(rt, is_long, image, directory, writer, remark)
        }
        Words::Mkdir { image, directory } => {
            files::make_directory(rt, image, directory, writer, remark)
        }
        Words::Name { text } => {
            let answer = print_name(text, writer)?;
            if answer == Answer::Fault {
                *remark = Some(remarks::of_name(text));
            }
            Ok(answer)
        }
        Words::Prot {
            manner,
            image,
            directory,
            name,
            protection,
        } => {
            let file = named(image, directory, name);
            files::protect(rt, &file, protection, manner, writer, remark)
        }
        Words::Purge {
            manner,
            image,
            directory,
            name,
        } => files::purge(rt, &named(image, directory, name), manner, writer, remark),
        Words::Put {
            mode,
            image,
            directory,
            name,
            host,
        } => {
            let file = named(image, directory, name);
            host_files::put(rt, &file, mode, host, writer, remark)
        }
        Words::PutEach {
            manner,
            is_fitted,
            mode,
            image,
            directory,
            host,
        } => {
            let each = Each {
                manner,
                mode,
                image,
                directory: name_of(directory),
                hosts: Hosts {
                    first: host,
                    others,
                },
                fitting: fitting_of(is_fitted),
            };
            put_each(rt, &each, writer, remark)
        }
        Words::PutAll {
            mode,
            folder,
            image,
        } => {
            let all = All {
                mode,
                folder,
                image,
            };
            put_all(rt, &all, writer, remark)
        }
        Words::Ren {
            image,
            directory,
            name,
            to,
            new,
        } => {
            let file = named(image, directory, name);
            files::rename(rt, &file, to.map(name_of), new, writer, remark)
        }
        Words::Rights {
            caller,
            owner,
            protection,
        } => Ok(print_rights(caller, owner, protection, writer)?),
        Words::RtCopy {
            blocks,
            segments,
            old,
            new,
        } => rt_copies::copy(rt, blocks, segments, old, new, writer, remark),
        Words::RtCopyOnto { old, new } => rt_copies::copy_onto(rt, old, new, writer, remark),
        Words::RtDel { rt: image, name } => rt_files::delete(rt, image, name, writer, remark),
        Words::RtGet {
            mode,
            rt: image,
            name,
            host,
        } => rt_files::get(rt, mode, image, name, host, writer, remark),
        Words::RtGetAll { rt: image, folder } => rt_folder::get_all(
            rt, image, folder, writer, remark,
        ),
        Words::RtInit {
            image,
            blocks,
            segments,
        } => rt_volumes::init(rt, image, blocks, segments, writer, remark),
        Words::RtList { image } => rt_volumes::list(rt, image, writer, remark),
        Words::RtLs { rt: image } => rt_volumes::ls(rt, image, writer, remark),
        Words::RtProt {
            rt: image,
            name,
            on,
        } => rt_files::protect(rt, image, name, on, writer, remark),
        Words::RtPut {
            mode,
            rt: image,
            name,
            host,
        } => rt_files::put(rt, mode, image, name, host, writer, remark),
        Words::RtPutEach {
            manner,
            is_fitted,
            mode,
            rt: image,
            host,
        } => {
            let each = RtEach {
                manner,
                mode,
                image,
                hosts: Hosts {
                    first: host,
                    others,
                },
                fitting: fitting_of(is_fitted),
            };
            put_rt_each(rt, &each, writer, remark)
        }
        Words::RtRen {
            rt: image,
            name,
            new,
        } => rt_files::rename(rt, image, name, new, writer, remark),
        Words::RtSqueeze { rt: image } => rt_files::squeeze(rt, image, writer, remark),
        Words::RtVfy { image } => rt_volumes::vfy(rt, image, writer, remark),
        Words::Run {
            image,
            script,
            is_quiet,
        } => serve(rt, image, script, is_quiet, writer, remark),
        Words::Trunc {
            manner,
            image,
            directory,
            name,
        } => files::truncate(rt, &named(image, directory, name), manner, writer, remark),
        Words::Vfy { image, update } => volumes::vfy(rt, image, update, writer, remark),
    }
}

/// How names of the host are taken.
fn fitting_of(is_fitted: bool) -> HostNames {
    if is_fitted {
        HostNames::Fitted
    } else {
        HostNames::AsTheyAre
    }
}

/// The file that a directory has under a name, on the volume in an image.
fn named<'a>(image: &'a str, directory: Directory, name: &'a str) -> Named<'a> {
    Named {
        image,
        directory: name_of(directory),
        name,
    }
}
