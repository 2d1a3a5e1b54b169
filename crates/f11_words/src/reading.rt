//! The words of a command line, read.
ghost use Rattle.std.specs.Prelude.{◌≡◌, ◌≢◌, ◌≤◌, [], length, map, None, IfNone, IsErr, MatchOption, MatchResult, true};
ghost use Rattle.clap.specs.Words.{fault_of, subcommand_of, subcommand_rows_of, takes};
ghost use Rattle.f11_words.specs.Asking.{Asks, FailsToAsk, IsUnreadable};
ghost use Rattle.f11_words.specs.Lines.{CommandLine, IsLineOf};
ghost use Rattle.f11_words.specs.Reading.{Meets, ReadsWords};
ghost use Rattle.f11_words.specs.Told.{program_app};

use crate::copies::{from_rt_of, to_rt_of};
use crate::files::{del_of, mkdir_of, prot_of, purge_of, ren_of, trunc_of};
use crate::host_files::{get_of, put_of};
use crate::program::program;
use crate::rt11::{
    rt_copy_of, rt_del_of, rt_get_of, rt_init_of, rt_list_of, rt_ls_of, rt_prot_of, rt_put_of,
    rt_ren_of, rt_squeeze_of, rt_vfy_of,
};
use crate::spelled::{name_of, rights_of};
use crate::usage::Subcommand;
use crate::volumes::{dump_of, home_of, init_of, ls_of, run_of, vfy_of};
use crate::words::Words;
use clap::ArgMatches;
use clap::error::ErrorKind;
use std::alloc::{AllocError, Global};
use std::convert::AsStr;

/// Why it isn't known what words ask for.
#[derive(Clone, Copy, Debug, PartialEq, Eq)]
pub enum Failure {
    /// They don't parse, ask for help, or are none at all; or one isn't what it has to be.
    Usage,
    /// No memory is left.
    NoMemory,
}

impl From<AllocError> for Failure {
    ghost use Rattle.f11_words.specs.declared.reading.Failure.TheVariants.{NoMemory};

    ghost from_gives = { λ _ failure. failure ≡ NoMemory };

    fn from(_: AllocError) -> Self {
        Failure::NoMemory
    }
}

/// An error of the words.
impl From<clap::Error> for Failure {
    ghost use Rattle.clap.specs.Words.{kind_of};
    ghost use Rattle.f11_words.specs.Failing.{failure_of_kind};

    ghost from_gives = { λ error failure. failure ≡ failure_of_kind (kind_of error) };

    fn from(error: clap::Error) -> Self {
        match error.kind() {
            ErrorKind::OutOfMemory => Failure::NoMemory,
            _ => Failure::Usage,
        }
    }
}

/// Reads the words of a command line, of which the first is the program's name.
///
/// # Errors
///
/// [`Failure::Usage`] for words that don't parse, that ask for help, or that are none at all; and for numbers, users' codes, directories and
/// protection words that [`read_number`](f11_numbers::read_number), [`read_uic`](f11_numbers::read_uic),
/// [`read_directory`](crate::read_directory) and [`read_protection`](f11_numbers::read_protection), or of `prot` also
/// [`read_rights`](f11_numbers::read_rights), don't read, and modes of a copy but `image` and `text`. [`Failure::NoMemory`] where there was no
/// memory.
pub fn parse<'a, S: AsStr>(alloc: Global, words: &'a [S]) -> Result<Words<'a>, Failure>
    ensures asks { (line : CommandLine) → IsLineOf line (map S.text words.entry.now)
        → MatchResult result (Asks line) (FailsToAsk line) }

    // In whatever order `clap` takes them, and only where it takes them.
    ensures met { (line : CommandLine) → takes program_app (map S.text words.entry.now) ≡ true
        → Meets line (subcommand_of program_app (map S.text words.entry.now))
        → MatchResult result (Asks line) (FailsToAsk line) }
    ensures refused { fault_of program_app (map S.text words.entry.now) ≢ [] → IsErr result }
    ensures none { length words.entry.now ≤ 1 → IsErr result }
{
    let matches = program(alloc)?.try_get_matches_from(words)?;
    match words_in(&matches) {
        Some(asked) => Ok(asked),
        None => Err(Failure::Usage),
    }
}

/// What the words ask for that `clap` took.
fn words_in<'a>(matches: &ArgMatches<'a>) -> Option<Words<'a>>
    ensures asks { (line : CommandLine) → Meets line (subcommand_rows_of matches.now)
        → MatchOption result (IsUnreadable line) (Asks line) }
    ensures none { subcommand_rows_of matches.now ≡ None → result ≡ None }
{
    let (name, given) = matches.subcommand()?;
    words_of(Subcommand::named(name)?, given)
}

/// What the words of a command ask for.
fn words_of<'a>(command: Subcommand, given: &ArgMatches<'a>) -> Option<Words<'a>>
    ensures { ReadsWords command given.now result }
{
    match command {
        Subcommand::Del => del_of(given),
        Subcommand::Dump => dump_of(given),
        Subcommand::FlxFromRt => from_rt_of(given),
        Subcommand::FlxToRt => to_rt_of(given),
        Subcommand::Get => get_of(given),
        Subcommand::Home => home_of(given),
        Subcommand::Init => init_of(given),
        Subcommand::Ls => ls_of(given),
        Subcommand::Mkdir => mkdir_of(given),
        Subcommand::Name => name_of(given),
        Subcommand::Prot => prot_of(given),
        Subcommand::Purge => purge_of(given),
        Subcommand::Put => put_of(given),
        Subcommand::Ren => ren_of(given),
        Subcommand::Rights => rights_of(given),
        Subcommand::RtCopy => rt_copy_of(given),
        Subcommand::RtDel => rt_del_of(given),
        Subcommand::RtGet => rt_get_of(given),
        Subcommand::RtInit => rt_init_of(given),
        Subcommand::RtList => rt_list_of(given),
        Subcommand::RtLs => rt_ls_of(given),
        Subcommand::RtProt => rt_prot_of(given),
        Subcommand::RtPut => rt_put_of(given),
        Subcommand::RtRen => rt_ren_of(given),
        Subcommand::RtSqueeze => rt_squeeze_of(given),
        Subcommand::RtVfy => rt_vfy_of(given),
        Subcommand::Run => run_of(given),
        Subcommand::Trunc => trunc_of(given),
        Subcommand::Vfy => vfy_of(given),
    }
}
