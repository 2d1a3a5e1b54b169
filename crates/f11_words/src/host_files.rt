//! The words of the commands on files of the host.
ghost use Rattle.std.specs.Prelude.{ℕ, Bool, List, Option};
ghost use Rattle.f11_words.specs.Lines.{get_all_line, get_blocks_line, get_line, put_all_line, put_each_line, put_line};
ghost use Rattle.f11_words.specs.Reading.{Reads, ReadsWords};
ghost use Rattle.f11_words.specs.declared.words.Manner.{Manner};
ghost use Rattle.f11_words.specs.declared.usage.Subcommand.TheVariants as subcommand;

use crate::args::{directory_of, has, is_told, manner_of, mode_or_image, taking_mode_or_image};
use crate::words::{TakingMode, Words};
use clap::ArgMatches;
use f11_flx::CopyMode;

pub fn get_of<'a>(given: &ArgMatches<'a>) -> Option<Words<'a>>
    ensures { ReadsWords subcommand.Get given.now result }
{
    if given.get_flag("all") {
        get_all_of(given)
    } else if given.get_flag("blocks") {
        get_blocks_of(given)
    } else {
        get_file_of(given)
    }
}

/// The words of `get` for one file.
fn get_file_of<'a>(given: &ArgMatches<'a>) -> Option<Words<'a>>
    ensures { (told : Bool) (mode : Option (List ℕ)) → (image uic name host : List ℕ)
        → Reads (get_line told mode image uic name host) given.now result }
{
    Some(Words::Get {
        is_told: is_told(given),
        mode: taking_mode_or_image(given)?,
        all_blocks: false,
        image: given.get_str("image")?,
        directory: directory_of(given)?,
        name: given.get_str("name")?,
        host: given.get_str("host")?,
    })
}

/// The words of `get` for all blocks of one file, among which is no mode.
fn get_blocks_of<'a>(given: &ArgMatches<'a>) -> Option<Words<'a>>
    ensures { (told : Bool) (image uic name host : List ℕ)
        → Reads (get_blocks_line told image uic name host) given.now result }
{
    if has(given, "mode") {
        return None;
    }
    Some(Words::Get {
        is_told: is_told(given),
        mode: TakingMode::Copy(CopyMode::Image),
        all_blocks: true,
        image: given.get_str("image")?,
        directory: directory_of(given)?,
        name: given.get_str("name")?,
        host: given.get_str("host")?,
    })
}

/// The words of `get` for all files, none of which is of one file alone.
fn get_all_of<'a>(given: &ArgMatches<'a>) -> Option<Words<'a>>
    ensures { (mode : Option (List ℕ)) → (image folder : List ℕ)
        → Reads (get_all_line mode image folder) given.now result }
{
    if given.get_flag("n") || given.get_flag("blocks") {
        return None;
    }
    if has(given, "name") || has(given, "host") {
        return None;
    }
    Some(Words::GetAll {
        mode: taking_mode_or_image(given)?,
        image: given.get_str("image")?,
        folder: given.get_str("dir")?,
    })
}

pub fn put_of<'a>(given: &ArgMatches<'a>) -> Option<Words<'a>>
    ensures { ReadsWords subcommand.Put given.now result }
{
    if given.get_flag("all") {
        put_all_of(given)
    } else if given.get_flag("each") {
        put_each_of(given)
    } else {
        put_file_of(given)
    }
}

/// The words of `put --each`, among which is one file of the host.
fn put_each_of<'a>(given: &ArgMatches<'a>) -> Option<Words<'a>>
    ensures { (manner : Manner) (fitted : Bool) (mode : Option (List ℕ)) → (image uic host : List ℕ)
        → Reads (put_each_line manner fitted mode image uic host) given.now result }
{
    if has(given, "host") {
        return None;
    }
    Some(Words::PutEach {
        manner: manner_of(given),
        is_fitted: given.get_flag("fit"),
        mode: mode_or_image(given)?,
        image: given.get_str("image")?,
        directory: directory_of(given)?,
        host: given.get_str("name")?,
    })
}

/// The words of `put --all`.
fn put_all_of<'a>(given: &ArgMatches<'a>) -> Option<Words<'a>>
    ensures { (mode : Option (List ℕ)) → (folder image : List ℕ)
        → Reads (put_all_line mode folder image) given.now result }
{
    if given.get_flag("n") || given.get_flag("stop") {
        return None;
    }
    if given.get_flag("each") || given.get_flag("fit") {
        return None;
    }
    if has(given, "name") || has(given, "host") {
        return None;
    }
    Some(Words::PutAll {
        mode: mode_or_image(given)?,
        folder: given.get_str("image")?,
        image: given.get_str("dir")?,
    })
}

/// The words of `put` for one file, among which is nothing of several.
fn put_file_of<'a>(given: &ArgMatches<'a>) -> Option<Words<'a>>
    ensures { (mode : Option (List ℕ)) → (image uic name host : List ℕ)
        → Reads (put_line mode image uic name host) given.now result }
{
    if given.get_flag("n") || given.get_flag("stop") || given.get_flag("fit") {
        return None;
    }
    Some(Words::Put {
        mode: mode_or_image(given)?,
        image: given.get_str("image")?,
        directory: directory_of(given)?,
        name: given.get_str("name")?,
        host: given.get_str("host")?,
    })
}
