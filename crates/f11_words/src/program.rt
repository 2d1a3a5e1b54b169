//! The commands, as `clap` is told of them.
ghost use Rattle.std.specs.Prelude.{◌≡◌, IfOk, false};
ghost use Rattle.clap.specs.Words.{app_of, rule_of};
ghost use Rattle.f11_words.specs.Told.{as_word, command_app, program_app, rule_for};

use crate::usage::{Subcommand, Word};
use clap::{Arg, ArgAction, Command};
use std::alloc::{AllocError, Global};

/// All commands.
pub fn program<'a>(alloc: Global) -> Result<Command<'a>, AllocError>
    ensures { IfOk result (λ command. app_of command ≡ program_app) }
{
    let mut program = Command::new(alloc, "f11_pip");
    for command in Subcommand::all() {
        program = program.subcommand(told(alloc, command)?)?;
    }
    Ok(program)
}

/// One command, with its words.
fn told<'a>(alloc: Global, command: Subcommand) -> Result<Command<'a>, AllocError>
    ensures { IfOk result (λ made. app_of made ≡ command_app command) }
{
    let mut made = Command::new(alloc, command.name());
    for word in command.words() {
        made = made.arg(arg(alloc, *word))?;
    }
    Ok(made)
}

/// A word.
fn arg<'a>(alloc: Global, word: Word) -> Arg<'a>
    ensures rule { rule_of result ≡ rule_for (as_word word) }
    ensures local { result.global ≡ false }
{
    match word {
        Word::Flag(name) => Arg::new(alloc, name).long(name).action(ArgAction::SetTrue),
        Word::Letter(name, letter) => {
            Arg::new(alloc, name)
                .short(letter)
                .action(ArgAction::SetTrue)
        }
        Word::Option(name, is_needed) => {
            Arg::new(alloc, name)
                .long(name)
                .required(is_needed)
                .action(ArgAction::Set)
        }
        Word::Place(name, is_needed) => {
            Arg::new(alloc, name)
                .required(is_needed)
                .action(ArgAction::Set)
        }
    }
}
