//! The words of the commands on an RT-11 volume.
ghost use Rattle.std.specs.Prelude.{ℕ, Bool, List, Option};
ghost use Rattle.f11_words.specs.Lines.{rt_copy_line, rt_copy_onto_line, rt_get_all_line, rt_get_line, rt_put_each_line, rt_put_line};
ghost use Rattle.f11_words.specs.Reading.{Reads, ReadsWords};
ghost use Rattle.f11_words.specs.declared.usage.Subcommand.TheVariants as subcommand;
ghost use Rattle.f11_words.specs.declared.words.Manner.{Manner};

use crate::args::{has, manner_of, mode_or_image, number_or_none};
use crate::words::Words;
use clap::ArgMatches;
use f11_numbers::read_number;

pub fn rt_copy_of<'a>(given: &ArgMatches<'a>) -> Option<Words<'a>>
    ensures { ReadsWords subcommand.RtCopy given.now result }
{
    if given.get_flag("onto") {
        rt_copy_onto_of(given)
    } else {
        rt_copy_fresh_of(given)
    }
}

/// The words of `rt-copy` to a fresh volume.
fn rt_copy_fresh_of<'a>(given: &ArgMatches<'a>) -> Option<Words<'a>>
    ensures { (blocks segments : Option (List ℕ)) → (old new : List ℕ)
        → Reads (rt_copy_line blocks segments old new) given.now result }
{
    let old = given.get_str("old")?;
    let new = given.get_str("new")?;
    Some(Words::RtCopy {
        blocks: number_or_none(given, "blocks")?,
        segments: number_or_none(given, "segments")?,
        old,
        new,
    })
}

/// The words of `rt-copy` to a volume that is there, among which is no number.
fn rt_copy_onto_of<'a>(given: &ArgMatches<'a>) -> Option<Words<'a>>
    ensures { (old new : List ℕ) → Reads (rt_copy_onto_line old new) given.now result }
{
    if has(given, "blocks") || has(given, "segments") {
        return None;
    }
    let old = given.get_str("old")?;
    let new = given.get_str("new")?;
    Some(Words::RtCopyOnto { old, new })
}

pub fn rt_del_of<'a>(given: &ArgMatches<'a>) -> Option<Words<'a>>
    ensures { ReadsWords subcommand.RtDel given.now result }
{
    Some(Words::RtDel {
        rt: given.get_str("rt")?,
        name: given.get_str("name")?,
    })
}

pub fn rt_get_of<'a>(given: &ArgMatches<'a>) -> Option<Words<'a>>
    ensures { ReadsWords subcommand.RtGet given.now result }
{
    if given.get_flag("all") {
        rt_get_all_of(given)
    } else {
        rt_get_file_of(given)
    }
}

/// The words of `rt-get` for one file.
fn rt_get_file_of<'a>(given: &ArgMatches<'a>) -> Option<Words<'a>>
    ensures { (mode : Option (List ℕ)) → (rt name host : List ℕ)
        → Reads (rt_get_line mode rt name host) given.now result }
{
    Some(Words::RtGet {
        mode: mode_or_image(given)?,
        rt: given.get_str("rt")?,
        name: given.get_str("name")?,
        host: given.get_str("host")?,
    })
}

/// The words of `rt-get` for all files, which are of no file of the host.
fn rt_get_all_of<'a>(given: &ArgMatches<'a>) -> Option<Words<'a>>
    ensures { (rt folder : List ℕ) → Reads (rt_get_all_line rt folder) given.now result }
{
    if has(given, "mode") || has(given, "host") {
        return None;
    }
    Some(Words::RtGetAll {
        rt: given.get_str("rt")?,
        folder: given.get_str("name")?,
    })
}

pub fn rt_init_of<'a>(given: &ArgMatches<'a>) -> Option<Words<'a>>
    ensures { ReadsWords subcommand.RtInit given.now result }
{
    Some(Words::RtInit {
        image: given.get_str("image")?,
        blocks: read_number(given.get_str("blocks")?)?,
        segments: read_number(given.get_str("segments")?)?,
    })
}

pub fn rt_list_of<'a>(given: &ArgMatches<'a>) -> Option<Words<'a>>
    ensures { ReadsWords subcommand.RtList given.now result }
{
    let image = given.get_str("image")?;
    Some(Words::RtList { image })
}

pub fn rt_ls_of<'a>(given: &ArgMatches<'a>) -> Option<Words<'a>>
    ensures { ReadsWords subcommand.RtLs given.now result }
{
    let rt = given.get_str("rt")?;
    Some(Words::RtLs { rt })
}

pub fn rt_prot_of<'a>(given: &ArgMatches<'a>) -> Option<Words<'a>>
    ensures { ReadsWords subcommand.RtProt given.now result }
{
    Some(Words::RtProt {
        rt: given.get_str("rt")?,
        name: given.get_str("name")?,
        on: !given.get_flag("off"),
    })
}

pub fn rt_put_of<'a>(given: &ArgMatches<'a>) -> Option<Words<'a>>
    ensures { ReadsWords subcommand.RtPut given.now result }
{
    if given.get_flag("each") {
        rt_put_each_of(given)
    } else {
        rt_put_file_of(given)
    }
}

/// The words of `rt-put --each`, among which is one file of the host.
fn rt_put_each_of<'a>(given: &ArgMatches<'a>) -> Option<Words<'a>>
    ensures { (manner : Manner) (fitted : Bool) (mode : Option (List ℕ)) → (rt host : List ℕ)
        → Reads (rt_put_each_line manner fitted mode rt host) given.now result }
{
    if has(given, "host") {
        return None;
    }
    Some(Words::RtPutEach {
        manner: manner_of(given),
        is_fitted: given.get_flag("fit"),
        mode: mode_or_image(given)?,
        rt: given.get_str("rt")?,
        host: given.get_str("name")?,
    })
}

/// The words of `rt-put` for one file, among which is nothing of several.
fn rt_put_file_of<'a>(given: &ArgMatches<'a>) -> Option<Words<'a>>
    ensures { (mode : Option (List ℕ)) → (rt name host : List ℕ)
        → Reads (rt_put_line mode rt name host) given.now result }
{
    if given.get_flag("n") || given.get_flag("stop") || given.get_flag("fit") {
        return None;
    }
    Some(Words::RtPut {
        mode: mode_or_image(given)?,
        rt: given.get_str("rt")?,
        name: given.get_str("name")?,
        host: given.get_str("host")?,
    })
}

pub fn rt_ren_of<'a>(given: &ArgMatches<'a>) -> Option<Words<'a>>
    ensures { ReadsWords subcommand.RtRen given.now result }
{
    Some(Words::RtRen {
        rt: given.get_str("rt")?,
        name: given.get_str("name")?,
        new: given.get_str("new")?,
    })
}

pub fn rt_squeeze_of<'a>(given: &ArgMatches<'a>) -> Option<Words<'a>>
    ensures { ReadsWords subcommand.RtSqueeze given.now result }
{
    let rt = given.get_str("rt")?;
    Some(Words::RtSqueeze { rt })
}

pub fn rt_vfy_of<'a>(given: &ArgMatches<'a>) -> Option<Words<'a>>
    ensures { ReadsWords subcommand.RtVfy given.now result }
{
    let image = given.get_str("image")?;
    Some(Words::RtVfy { image })
}
