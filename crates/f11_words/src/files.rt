//! The words of the commands on files of a volume.
ghost use Rattle.f11_words.specs.Reading.{ReadsWords};
ghost use Rattle.f11_words.specs.declared.usage.Subcommand.TheVariants as subcommand;

use crate::args::{directory_of, manner_of, target_of, word_of};
use crate::words::Words;
use clap::ArgMatches;

pub fn del_of<'a>(given: &ArgMatches<'a>) -> Option<Words<'a>>
    ensures { ReadsWords subcommand.Del given.now result }
{
    Some(Words::Del {
        manner: manner_of(given),
        image: given.get_str("image")?,
        directory: directory_of(given)?,
        name: given.get_str("name")?,
    })
}

pub fn mkdir_of<'a>(given: &ArgMatches<'a>) -> Option<Words<'a>>
    ensures { ReadsWords subcommand.Mkdir given.now result }
{
    Some(Words::Mkdir {
        image: given.get_str("image")?,
        directory: directory_of(given)?,
    })
}

pub fn prot_of<'a>(given: &ArgMatches<'a>) -> Option<Words<'a>>
    ensures { ReadsWords subcommand.Prot given.now result }
{
    Some(Words::Prot {
        manner: manner_of(given),
        image: given.get_str("image")?,
        directory: directory_of(given)?,
        name: given.get_str("name")?,
        protection: word_of(given)?,
    })
}

pub fn purge_of<'a>(given: &ArgMatches<'a>) -> Option<Words<'a>>
    ensures { ReadsWords subcommand.Purge given.now result }
{
    Some(Words::Purge {
        manner: manner_of(given),
        image: given.get_str("image")?,
        directory: directory_of(given)?,
        name: given.get_str("name").unwrap_or("*.*"),
    })
}

pub fn ren_of<'a>(given: &ArgMatches<'a>) -> Option<Words<'a>>
    ensures { ReadsWords subcommand.Ren given.now result }
{
    let image = given.get_str("image")?;
    let directory = directory_of(given)?;
    let name = given.get_str("name")?;
    match target_of(given) {
        Some((to, new)) => Some(Words::Ren {
            image,
            directory,
            name,
            to,
            new,
        }),
        None => None,
    }
}

pub fn trunc_of<'a>(given: &ArgMatches<'a>) -> Option<Words<'a>>
    ensures { ReadsWords subcommand.Trunc given.now result }
{
    Some(Words::Trunc {
        manner: manner_of(given),
        image: given.get_str("image")?,
        directory: directory_of(given)?,
        name: given.get_str("name")?,
    })
}
