//! The words of the commands that need no volume.
ghost use Rattle.f11_words.specs.Reading.{ReadsWords};
ghost use Rattle.f11_words.specs.declared.usage.Subcommand.TheVariants as subcommand;

use crate::args::uic_of;
use crate::words::Words;
use clap::ArgMatches;
use f11_numbers::read_protection;

pub fn name_of<'a>(given: &ArgMatches<'a>) -> Option<Words<'a>>
    ensures { ReadsWords subcommand.Name given.now result }
{
    let text = given.get_str("text")?;
    Some(Words::Name { text })
}

pub fn rights_of<'a>(given: &ArgMatches<'a>) -> Option<Words<'a>>
    ensures { ReadsWords subcommand.Rights given.now result }
{
    Some(Words::Rights {
        caller: uic_of(given, "uic")?,
        owner: uic_of(given, "owner")?,
        protection: read_protection(given.get_str("word")?)?,
    })
}
