//! The words of the commands that copy between two volumes.
ghost use Rattle.f11_words.specs.Reading.{ReadsWords};
ghost use Rattle.f11_words.specs.declared.usage.Subcommand.TheVariants as subcommand;

use crate::args::{mode_of, uic_of};
use crate::words::Words;
use clap::ArgMatches;

pub fn from_rt_of<'a>(given: &ArgMatches<'a>) -> Option<Words<'a>>
    ensures { ReadsWords subcommand.FlxFromRt given.now result }
{
    Some(Words::FlxFromRt {
        mode: mode_of(given)?,
        rt: given.get_str("rt")?,
        rt_name: given.get_str("rt-name")?,
        image: given.get_str("image")?,
        directory: uic_of(given, "uic")?,
        name: given.get_str("name")?,
    })
}

pub fn to_rt_of<'a>(given: &ArgMatches<'a>) -> Option<Words<'a>>
    ensures { ReadsWords subcommand.FlxToRt given.now result }
{
    Some(Words::FlxToRt {
        mode: mode_of(given)?,
        image: given.get_str("image")?,
        directory: uic_of(given, "uic")?,
        name: given.get_str("name")?,
        rt: given.get_str("rt")?,
        rt_name: given.get_str("rt-name")?,
    })
}
