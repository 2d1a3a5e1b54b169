//! Which word of a command can't be read, and why.

use crate::args::{mode_in, taking_mode_in, word_in};
use crate::directory::read_directory;
use crate::program::program;
use crate::usage::Subcommand;
use clap::ArgMatches;
use f11_numbers::{read_count, read_number, read_protection, read_uic};
use std::alloc::Global;
use thiserror::Error;

/// What can't be read, a word or the name of one, and why.
#[derive(Clone, Copy, Debug, Error)]
#[error("{word}: {why}")]
pub struct Unread<'a> {
    pub word: &'a str,
    pub why: Why,
}

/// Why words that `clap` takes can't be read.
#[derive(Clone, Copy, Debug, PartialEq, Eq, Error)]
pub enum Why {
    /// It is no number that can be given under this name, at most so great.
    #[error("{0} takes a decimal number, at most {1}")]
    NoNumber(&'static str, u32),
    /// It goes with these words alone.
    #[error("goes with {0} alone")]
    Alone(&'static str),
    /// It doesn't go with `--blocks`.
    #[error("doesn't go with --blocks, which takes whole blocks as they are")]
    BesideBlocks,
    /// It goes with `--each` alone.
    #[error("goes with --each alone, by which several files are put")]
    WithoutEach,
    /// It isn't there.
    #[error("missing")]
    Missing,
    /// It is no mode of a copy.
    #[error("no mode; one is image or text")]
    NoMode,
    /// It is no mode of `get`.
    #[error("no mode; one is image, text or auto")]
    NoTakingMode,
    /// It is no user's code.
    #[error("no user's code; one is two octal numbers of 0 to 377, as 200,1")]
    NoUser,
    /// It names no directory.
    #[error("no directory; one is a user's code, two octal numbers of 0 to 377 as 200,1, or a name of up to 9 of A to Z, 0 to 9 and $, in brackets or without")]
    NoDirectory,
    /// It is no protection word in octal.
    #[error("no protection word; one is up to 6 octal digits, at most 177777")]
    NoProtection,
    /// It is no protection word, in octal or as RSX-11 shows it.
    #[error("no protection word; one is up to 6 octal digits, at most 177777, or [RWED,RWED,RWED,R], what the system, the owner, the group and the world are granted, each some of R, W, E and D in this order")]
    NoWord,
}

/// The first word that can't be read, and why, of words that [`parse`](crate::parse) refuses. `None` for those that it takes, for those that
/// `clap` doesn't take, and where no memory is left.
pub fn misread<'a>(alloc: Global, words: &'a [String]) -> Option<Unread<'a>> {
    let matches = program(alloc).ok()?.try_get_matches_from(words).ok()?;
    let (name, given) = matches.subcommand()?;
    first_unread(Subcommand::named(name)?, given)
}

/// What `clap` says of words that it doesn't take. `None` for those that it takes, and where no memory is left.
pub fn refusal(alloc: Global, words: &[String]) -> Option<String> {
    let error = program(alloc).ok()?.try_get_matches_from(words).err()?;
    format!(in alloc; "{error}").ok()
}

/// The first of a command's words that can't be read, if there is one.
fn first_unread<'a>(command: Subcommand, given: &ArgMatches<'a>) -> Option<Unread<'a>> {
    match command {
        Subcommand::Del
        | Subcommand::Ls
        | Subcommand::Mkdir
        | Subcommand::Purge
        | Subcommand::Trunc => { directory(given) }
        Subcommand::Ren => directory(given).or(target(given)),
        Subcommand::Dump => number(given, "number", "NUMBER", 65_535),
        Subcommand::FlxFromRt | Subcommand::FlxToRt => mode(given).or(user(given, "uic")),
        Subcommand::Get => get(given),
        Subcommand::Prot => directory(given).or(word(given)),
        Subcommand::Put => put(given),
        Subcommand::Init => blocks(given)
            .or(number(given, "slots", "--slots", 16_000))
            .or(number(given, "max", "--max", 65_500)),
        Subcommand::Rights => user(given, "uic")
            .or(user(given, "owner"))
            .or(protection(given)),
        Subcommand::RtCopy => rt_copy(given),
        Subcommand::RtInit => rt_size(given),
        Subcommand::RtGet => rt_get(given),
        Subcommand::RtPut => rt_put(given),
        Subcommand::Home
        | Subcommand::Name
        | Subcommand::RtDel
        | Subcommand::RtList
        | Subcommand::RtLs
        | Subcommand::RtProt
        | Subcommand::RtRen
        | Subcommand::RtSqueeze
        | Subcommand::RtVfy
        | Subcommand::Run
        | Subcommand::Vfy => None,
    }
}

fn get<'a>(given: &ArgMatches<'a>) -> Option<Unread<'a>> {
    let has_mode = given.get_str("mode").is_some();
    let has_blocks = given.get_flag("blocks");
    if given.get_flag("all") {
        let has_others = has_blocks || given.get_flag("n") || given.get_str("name").is_some();
        return taking_mode(given).or(unless(
            !has_others,
            "--all",
            Why::Alone("IMAGE, FOLDER and --mode"),
        ));
    }
    taking_mode(given)
        .or(directory(given))
        .or(there(given, "name", "NAME"))
        .or(there(given, "host", "HOST"))
        .or(unless(!has_mode || !has_blocks, "--mode", Why::BesideBlocks))
}

fn put<'a>(given: &ArgMatches<'a>) -> Option<Unread<'a>> {
    if given.get_flag("all") {
        let has_others = given.get_flag("each")
            || given.get_flag("fit")
            || given.get_flag("n")
            || given.get_flag("stop")
            || given.get_str("name").is_some()
            || given.get_str("host").is_some();
        return mode(given).or(unless(!has_others, "--all", Why::Alone("FOLDER, IMAGE and --mode")));
    }
    let unread = mode(given).or(directory(given));
    if given.get_flag("each") {
        return unread.or(there(given, "name", "HOST"));
    }
    unread
        .or(there(given, "name", "NAME"))
        .or(there(given, "host", "HOST"))
        .or(without_each(given))
}

fn rt_put<'a>(given: &ArgMatches<'a>) -> Option<Unread<'a>> {
    if given.get_flag("each") {
        return mode(given);
    }
    mode(given)
        .or(there(given, "host", "HOST"))
        .or(without_each(given))
}

/// What goes with `--each` alone.
fn without_each<'a>(given: &ArgMatches<'a>) -> Option<Unread<'a>> {
    unless(!given.get_flag("n"), "-n", Why::WithoutEach)
        .or(unless(!given.get_flag("stop"), "--stop", Why::WithoutEach))
        .or(unless(!given.get_flag("fit"), "--fit", Why::WithoutEach))
}

fn rt_get<'a>(given: &ArgMatches<'a>) -> Option<Unread<'a>> {
    if given.get_flag("all") {
        return unless(
            given.get_str("mode").is_none() && given.get_str("host").is_none(),
            "--all",
            Why::Alone("RT and FOLDER"),
        );
    }
    mode(given).or(there(given, "host", "HOST"))
}

fn rt_copy<'a>(given: &ArgMatches<'a>) -> Option<Unread<'a>> {
    if given.get_flag("onto") {
        return unless(
            given.get_str("blocks").is_none() && given.get_str("segments").is_none(),
            "--onto",
            Why::Alone("OLD and NEW"),
        );
    }
    rt_size(given)
}

/// How many blocks and segments a fresh RT-11 volume has.
fn rt_size<'a>(given: &ArgMatches<'a>) -> Option<Unread<'a>> {
    number(given, "blocks", "--blocks", 65_535).or(number(given, "segments", "--segments", 31))
}

/// That a word is missing, unless it is there.
fn there<'a>(given: &ArgMatches<'a>, id: &str, name: &'static str) -> Option<Unread<'a>> {
    unless(given.get_str(id).is_some(), name, Why::Missing)
}

fn blocks<'a>(given: &ArgMatches<'a>) -> Option<Unread<'a>> {
    let text = given.get_str("blocks")?;
    unless(
        read_count(text).is_some(),
        text,
        Why::NoNumber("--blocks", 516_096),
    )
}

fn number<'a>(
    given: &ArgMatches<'a>,
    id: &str,
    name: &'static str,
    most: u32,
) -> Option<Unread<'a>> {
    let text = given.get_str(id)?;
    unless(read_number(text).is_some(), text, Why::NoNumber(name, most))
}

fn user<'a>(given: &ArgMatches<'a>, id: &str) -> Option<Unread<'a>> {
    let text = given.get_str(id)?;
    unless(read_uic(text).is_some(), text, Why::NoUser)
}

fn directory<'a>(given: &ArgMatches<'a>) -> Option<Unread<'a>> {
    let text = given.get_str("dir")?;
    unless(read_directory(text).is_some(), text, Why::NoDirectory)
}

/// The directory before the slash in a file's new name.
fn target<'a>(given: &ArgMatches<'a>) -> Option<Unread<'a>> {
    let (text, _) = given.get_str("new")?.split_once('/')?;
    unless(read_directory(text).is_some(), text, Why::NoDirectory)
}

fn mode<'a>(given: &ArgMatches<'a>) -> Option<Unread<'a>> {
    let text = given.get_str("mode")?;
    unless(mode_in(text).is_some(), text, Why::NoMode)
}

fn taking_mode<'a>(given: &ArgMatches<'a>) -> Option<Unread<'a>> {
    let text = given.get_str("mode")?;
    unless(taking_mode_in(text).is_some(), text, Why::NoTakingMode)
}

fn protection<'a>(given: &ArgMatches<'a>) -> Option<Unread<'a>> {
    let text = given.get_str("word")?;
    unless(read_protection(text).is_some(), text, Why::NoProtection)
}

fn word<'a>(given: &ArgMatches<'a>) -> Option<Unread<'a>> {
    let text = given.get_str("word")?;
    unless(word_in(text).is_some(), text, Why::NoWord)
}

/// Why a word isn't read, unless it is.
fn unless<'a>(is_so: bool, word: &'a str, why: Why) -> Option<Unread<'a>> {
    if is_so {
        return None;
    }
    let word = if word.is_empty() { "''" } else { word };
    Some(Unread { word, why })
}
