//! The words of the commands on a Files-11 volume.
ghost use Rattle.std.specs.Prelude.{◌≡◌, ℕ, List, Option, MatchOption, codes};
ghost use Rattle.clap.specs.Words.{first_value, found_of};
ghost use Rattle.f11_words.specs.Asking.{IsNoNumberOrNone, SpellsMax};
ghost use Rattle.f11_words.specs.Reading.{ReadsWords};
ghost use Rattle.f11_words.specs.declared.usage.Subcommand.TheVariants as subcommand;

use crate::args::directory_of;
use crate::words::Words;
use clap::ArgMatches;
use f11_numbers::{read_count, read_number};

/// How many files a volume may have where no number is given.
const MAX_FILES: u16 = 4000;

pub fn dump_of<'a>(given: &ArgMatches<'a>) -> Option<Words<'a>>
    ensures { ReadsWords subcommand.Dump given.now result }
{
    Some(Words::Dump {
        image: given.get_str("image")?,
        number: read_number(given.get_str("number")?)?,
    })
}

pub fn home_of<'a>(given: &ArgMatches<'a>) -> Option<Words<'a>>
    ensures { ReadsWords subcommand.Home given.now result }
{
    let image = given.get_str("image")?;
    Some(Words::Home { image })
}

pub fn init_of<'a>(given: &ArgMatches<'a>) -> Option<Words<'a>>
    ensures { ReadsWords subcommand.Init given.now result }
{
    Some(Words::Init {
        image: given.get_str("image")?,
        blocks: read_count(given.get_str("blocks")?)?,
        slots: read_number(given.get_str("slots")?)?,
        label: given.get_str("label")?,
        max_files: max_files_of(given)?,
    })
}

/// How many files a volume may have, among the words of `init`.
fn max_files_of(given: &ArgMatches<'_>) -> Option<u16>
    ensures { (max : Option (List ℕ)) → first_value (found_of given.now) (codes "max") ≡ max
        → MatchOption result (IsNoNumberOrNone max) (SpellsMax max) }
{
    match given.get_str("max") {
        Some(text) => read_number(text),
        None => Some(MAX_FILES),
    }
}

pub fn ls_of<'a>(given: &ArgMatches<'a>) -> Option<Words<'a>>
    ensures { ReadsWords subcommand.Ls given.now result }
{
    let is_long = given.get_flag("l");
    let image = given.get_str("image")?;
    match given.get_str("dir") {
        Some(_) => Some(Words::LsIn {
            is_long,
            image,
            directory: directory_of(given)?,
        }),
        None => Some(Words::Ls { is_long, image }),
    }
}

pub fn run_of<'a>(given: &ArgMatches<'a>) -> Option<Words<'a>>
    ensures { ReadsWords subcommand.Run given.now result }
{
    Some(Words::Run {
        image: given.get_str("image")?,
        script: given.get_str("script")?,
        is_quiet: given.get_flag("quiet"),
    })
}

pub fn vfy_of<'a>(given: &ArgMatches<'a>) -> Option<Words<'a>>
    ensures { ReadsWords subcommand.Vfy given.now result }
{
    Some(Words::Vfy {
        image: given.get_str("image")?,
        update: given.get_flag("update"),
    })
}
