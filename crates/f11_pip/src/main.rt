//! The program: `f11_pip COMMAND ..` works on Files-11 volumes in image files.
//!
//! [`main`] has the words read ([`f11_words`]) and the work done ([`run`]), which opens the files in their order and calls the command's
//! function of [`f11_commands`], or of [`f11_salvage`] where all files of a volume are copied, and ends with the [`status`] of the outcome. The
//! crate stands on these, on [`f11_dev`] and [`f11_read_ahead`], for images, and on [`f11_store`].
#![tactic(auto)]

mod chosen;
mod commands;
mod copies;
mod directory;
mod each;
mod files;
mod folder;
mod heard;
mod help;
mod host_file;
mod host_files;
mod hosts;
mod image;
mod meant;
mod outcome;
mod refusals;
mod remarks;
mod rt_copies;
mod rt_each;
mod rt_files;
mod rt_folder;
mod rt_volumes;
mod script;
mod sources;
mod tree;
mod volumes;

use commands::run;
use f11_commands::Answer;
use f11_words::{misread, parse, refusal, split_hosts};
use outcome::{Failure, status};
use remarks::{Remark, Why};
use std::env;
use std::fs::File;
use std::io::{self, BufWriter, ErrorKind, Write};
use std::process::ExitCode;

fn main(rt: HostRuntime) -> ExitCode {
    let outcome = match Start::new(&rt) {
        Ok(start) => {
            let mut remark = None;
            let outcome = answer(&rt, start.words.as_slice(), &mut remark);
            told(&rt, outcome, start.words.as_slice(), remark)
        }
        Err(Failure::Usage) => told(&rt, Err(Failure::Usage), &[], Some(remarks::of_words(&rt))),
        Err(failure) => told(&rt, Err(failure), &[], None),
    };
    ExitCode::from(status(outcome))
}

/// What the program starts with.
#[derive(Drop)]
struct Start {
    /// The words of the command line, of which the first is the program's name.
    words: Vec<String>,
    /// The null device, three times. Where one of the standard descriptors 0, 1 and 2 was closed, it is taken by one of
    /// these: so no file that is opened later becomes standard output. They are open to be read alone.
    null: [File; 3],
}

impl Start {
    fn new(rt: &HostRuntime) -> Result<Start, Failure> {
        let null = [null(rt)?, null(rt)?, null(rt)?];
        let words = env::args(rt).map_err(failure_of)?.collect(rt.alloc())?;
        Ok(Start { words, null })
    }
}

fn null(rt: &HostRuntime) -> Result<File, Failure> {
    File::open(rt, "/dev/null").map_err(|_| Failure::CannotOpen)
}

/// Says on standard error why the work isn't done, at wrong words the words of the command that was meant, and what there is to say
/// of a word.
fn told(
    rt: &HostRuntime,
    outcome: Result<Answer, Failure>,
    words: &[String],
    remark: Option<Remark<'_>>,
) -> Result<Answer, Failure> {
    if let Err(failure) = outcome {
        let _ = eprintln!(rt; "{failure}");
        if failure == Failure::Usage && remark.is_none() {
            tell_usage(rt, words);
        }
    }
    if let Some(remark) = remark {
        let _ = eprintln!(rt; "{remark}");
    }
    outcome
}

/// Says on standard error the words of the command that was meant, and which of those that were given can't be read; or that there is no
/// such command.
fn tell_usage(rt: &HostRuntime, words: &[String]) {
    if help::is_asked(words) {
        if let Some(remark) = remarks::of_unknown(help::asked_for(words)) {
            let _ = eprintln!(rt; "{remark}");
        }
    } else if let Some(meant) = help::meant(words) {
        let _ = eprintln!(rt; "{meant}");
        let (front, others) = split_hosts(words);
        if let Some(word) = misplaced(others) {
            let _ = eprintln!(rt;
                "{word}: options stand before IMAGE; a file of this name is ./{word}"
            );
            return;
        }
        match misread(rt.alloc(), front) {
            Some(unread) => {
                let _ = eprintln!(rt; "{unread}");
            }
            None => tell_refused(rt, front),
        }
    } else if let Some(remark) = remarks::of_command(words) {
        let _ = eprintln!(rt; "{remark}");
    } else {
        let _ = eprintln!(rt; "f11_pip help lists the commands");
    }
}

/// The first of the files of the host behind the first one of `put --each` that is an option.
fn misplaced(others: &[String]) -> Option<&String> {
    others.iter().find(|word| word.as_str().starts_with('-'))
}

/// Says on standard error why words aren't taken that don't parse, where it is `clap` that doesn't take them: what stands before the first
/// empty line of what it says.
fn tell_refused(rt: &HostRuntime, words: &[String]) {
    if let Some(text) = refusal(rt.alloc(), words) {
        let all = text.as_str();
        let lacks_words = all.starts_with("error: the following required arguments");
        if lacks_words && words.iter().any(|word| word.as_str() == "--all") {
            let is_put = words.iter().any(|word| word.as_str() == "put");
            let word = if is_put { "IMAGE" } else { "FOLDER" };
            let _ = eprintln!(rt; "{word}: missing");
            return;
        }
        if lacks_words && words.iter().any(|word| word.as_str() == "--each") {
            let _ = eprintln!(rt; "HOST: missing");
            return;
        }
        let first = match all.split_once("\n\n") {
            Some((first, _)) => first,
            None => all,
        };
        let _ = eprintln!(rt; "{first}");
    }
}

/// Does what the words ask for. Standard output is written in pieces of 8 KiB, the last one here; a failure of the work is told
/// rather than one of that last piece.
fn answer<'a>(
    rt: &HostRuntime,
    words: &'a [String],
    remark: &mut Option<Remark<'a>>,
) -> Result<Answer, Failure> {
    let mut writer = BufWriter::new(rt.alloc(), io::writer(rt)).map_err(failure_of)?;
    let outcome = if help::is_asked(words) {
        help::write_asked(words, &mut writer)
            .map_err(Failure::from)
            .and(Err(Failure::Usage))
    } else if help::is_version(words) {
        help::write_version(&mut writer)
            .map_err(Failure::from)
            .and(Ok(Answer::Done))
    } else {
        let (front, others) = split_hosts(words);
        if misplaced(others).is_some() {
            Err(Failure::Usage)
        } else {
            match parse(rt.alloc(), front) {
                Ok(asked) => run(rt, &asked, others, &mut writer, remark),
                Err(failure) => Err(Failure::from(failure)),
            }
        }
    };
    let written = writer.flush();
    if written.is_err() {
        remarks::tell(rt, "standard output", Why::UNWRITTEN);
    }
    match outcome {
        Ok(_) | Err(Failure::Usage) => {
            written?;
            outcome
        }
        Err(_) => outcome,
    }
}

/// Why the words, or room for output, can't be had: a word is no text, or no memory is left.
fn failure_of(error: io::Error) -> Failure {
    match error.kind() {
        ErrorKind::OutOfMemory => Failure::NoMemory,
        _ => Failure::Usage,
    }
}
