//! What the program says of its words.
use f11_words::Subcommand;
use std::io::{self, Write};

/// A command: which it is, its words, what it does, what there is to say of its words, a line each, and an example.
struct Synopsis {
    command: Subcommand,
    words: &'static str,
    does: &'static str,
    about: &'static [&'static str],
    example: &'static str,
}

/// The program's name and version, and what it was built with.
const VERSION: &str = "f11_pip 0.1, built with Rattle, logic dac8208d650f15bf";

/// The commands on Files-11 volumes.
const FILES: [Synopsis; 14] = [
    Synopsis {
        command: Subcommand::Ls,
        words: "f11_pip ls [-l] IMAGE [DIR]",
        does: "lists all directories, or one",
        about: &[
            "of a volume that has faults, too; a line a record: name, blocks, bytes, owner and protection word",
            "-l: also when it was created and revised, how often, when it expires, and how its records are kept; the protection as [RWED,RWED,RWED,R]",
            "DIR: a UIC, octal, as 200,1, or a name, as [USERFILES]; 0,0 is the master file directory",
        ],
        example: "f11_pip ls pack.dsk 200,1",
    },
    Synopsis {
        command: Subcommand::Get,
        words: "f11_pip get [-n] [--mode M|--blocks] IMAGE DIR NAME HOST | get --all [--mode M] IMAGE FOLDER",
        does: "takes out a file, or all files",
        about: &[
            "of a volume that has faults, too; HOST and FOLDER are made, and mustn't be there; NAME: without a version the highest",
            "NAME may be a pattern, as '*.TXT;*': its files go into the folder HOST, which is made where it isn't there",
            "-n: tells which files would be taken out, and takes out none",
            "--mode M: image, as where none is given, all bytes as they are; text: records become lines; auto: as text where they are lines",
            "--blocks: all its blocks, those behind its end, too",
            "--all: each file into a folder of FOLDER for its directory, as [200,001]; those that none names into FOLDER/lost; what can't be text is as it is",
            "DIR: a UIC, octal, as 200,1, or a name, as [USERFILES]; 0,0 is the master file directory",
        ],
        example: "f11_pip get --mode text pack.dsk 200,1 'LOGIN.CMD;1' login.cmd",
    },
    Synopsis {
        command: Subcommand::Put,
        words: "f11_pip put [--mode M] IMAGE DIR NAME HOST | put --each [-n|--stop] [--fit] [--mode M] IMAGE DIR HOST.. | put --all [--mode M] FOLDER IMAGE",
        does: "makes a file of one of the host, or of each of some",
        about: &[
            "of a volume that is accepted; NAME: without a version the next one",
            "--each: each HOST under the last part of its path, as the next version where that has none; a line each, and counts",
            "--all: what get --all makes of a volume: each file of a folder of FOLDER into the directory as which that is called, as [200,001], which is made where it isn't there",
            "--fit: with --each, a HOST whose name can't be one gets the characters of it that may stand in one, and a number where that is there",
            "-n: with --each, tells which files would be made, and makes none; --stop: the first that is refused is the last that is tried",
            "--mode M: image, as where none is given, all bytes as they are, or text: lines, ended by LF or CR LF, become records",
            "text: bytes of 0 are dropped, and the last line gets an end",
            "DIR: a UIC, octal, as 200,1, or a name, as [USERFILES]; 0,0 is the master file directory",
        ],
        example: "f11_pip put --mode text pack.dsk 200,1 'LOGIN.CMD;1' login.cmd",
    },
    Synopsis {
        command: Subcommand::Mkdir,
        words: "f11_pip mkdir IMAGE DIR",
        does: "makes a directory",
        about: &[
            "on a volume that is accepted; its owner is the UIC, or [1,1] where it has a name; its protection word is that of the home block",
            "DIR: a UIC, octal, as 200,1, or a name, as [USERFILES]",
        ],
        example: "f11_pip mkdir pack.dsk 200,1",
    },
    Synopsis {
        command: Subcommand::Del,
        words: "f11_pip del [-n|--stop] IMAGE DIR NAME",
        does: "deletes a file, or those that a pattern means",
        about: &[
            "of a volume that is accepted; a directory by its name in 0,0, where it has no files; none of the volume's own files",
            "NAME: with its version, or without one the highest; * stands for any characters and % for one, as *.TXT;*",
            "-n: tells what would be done, and does nothing; --stop: the first file that is refused is the last that is tried",
            "DIR: a UIC, octal, as 200,1, or a name, as [USERFILES]; 0,0 is the master file directory",
        ],
        example: "f11_pip del pack.dsk 200,1 'LOGIN.CMD;1'",
    },
    Synopsis {
        command: Subcommand::Ren,
        words: "f11_pip ren IMAGE DIR NAME NEW",
        does: "gives a file another name",
        about: &[
            "of a volume that is accepted; NAME: with its version, or without one the highest; none of the volume's own files",
            "NEW: a name that isn't there yet, or without a version the next, in the same directory, or DIR/NAME, in that one",
            "DIR: a UIC, octal, as 200,1, or a name, as [USERFILES]; 0,0 is the master file directory",
        ],
        example: "f11_pip ren pack.dsk 200,1 'LOGIN.CMD;1' 'LOGIN.OLD;1'",
    },
    Synopsis {
        command: Subcommand::Prot,
        words: "f11_pip prot [-n|--stop] IMAGE DIR NAME WORD",
        does: "gives a file a protection word, or those that a pattern means",
        about: &[
            "of a volume that is accepted; none of the volume's own files",
            "NAME: with its version, or without one the highest; * stands for any characters and % for one, as *.TXT;*",
            "WORD: octal, as ls and rights have it: a bit that is set denies a right; or as '[RWED,RWED,RWED,R]'",
            "-n: tells what would be done, and does nothing; --stop: the first file that is refused is the last that is tried",
            "DIR: a UIC, octal, as 200,1, or a name, as [USERFILES]; 0,0 is the master file directory",
        ],
        example: "f11_pip prot pack.dsk 200,1 'LOGIN.CMD;1' 177400",
    },
    Synopsis {
        command: Subcommand::Purge,
        words: "f11_pip purge [-n|--stop] IMAGE DIR [NAME]",
        does: "deletes the versions of files but the highest",
        about: &[
            "of a volume that is accepted; no directory, and none of the volume's own files",
            "where the highest version's record leads to no file they stay; one that leads to its file is removed, and the file stays",
            "NAME: without a version; * stands for any characters and % for one, as *.TXT; where it isn't given, *.*",
            "-n: tells what would be done, and does nothing; --stop: the first file that is refused is the last that is tried",
            "DIR: a UIC, octal, as 200,1, or a name, as [USERFILES]; 0,0 is the master file directory",
        ],
        example: "f11_pip purge pack.dsk 200,1 '*.TXT'",
    },
    Synopsis {
        command: Subcommand::Trunc,
        words: "f11_pip trunc [-n|--stop] IMAGE DIR NAME",
        does: "gives back the blocks behind a file's end",
        about: &[
            "of a volume that is accepted; none of the volume's own files",
            "NAME: with its version, or without one the highest; * stands for any characters and % for one, as *.TXT;*",
            "the end is that which ls shows in bytes; a file that states none, or that was open when the system stopped, isn't cut",
            "-n: tells what would be done, and does nothing; --stop: the first file that is refused is the last that is tried",
            "DIR: a UIC, octal, as 200,1, or a name, as [USERFILES]; 0,0 is the master file directory",
        ],
        example: "f11_pip trunc pack.dsk 200,1 'LOGIN.CMD;1'",
    },
    Synopsis {
        command: Subcommand::Vfy,
        words: "f11_pip vfy [--update] IMAGE",
        does: "verifies a volume: a line a fault or note, and whether it is accepted",
        about: &[
            "--update: gives back what is lost, where the volume is accepted",
            "docs/VFY.md tells what each line means, and what to type then",
        ],
        example: "f11_pip vfy pack.dsk",
    },
    Synopsis {
        command: Subcommand::Run,
        words: "f11_pip run [--quiet] IMAGE SCRIPT",
        does: "serves the requests of a script on a volume that is accepted",
        about: &[
            "SCRIPT: a file, a request a line, as `0 [1,1] FIND 4,4 LOGIN.CMD;1`; docs/FORMATS.md tells its language",
            "docs/RECIPES.md has scripts",
            "--quiet: standard error doesn't tell which lines are bad or refused; the status is 0 where some are, too",
        ],
        example: "f11_pip run pack.dsk requests",
    },
    Synopsis {
        command: Subcommand::Init,
        words: "f11_pip init --blocks N --slots N --label L [--max N] IMAGE",
        does: "makes an image with a fresh volume",
        about: &[
            "--blocks: of 512 bytes, at most 516096",
            "--slots: of file headers at first, 16 to 16000; a file takes one, a long one more; docs/RECIPES.md tells how many",
            "--label: 1 to 12 of A to Z and 0 to 9",
            "--max: of slots at most, as many as --slots to 65500; 4000 where it isn't given",
        ],
        example: "f11_pip init --blocks 4800 --slots 160 --label MYPACK pack.dsk",
    },
    Synopsis {
        command: Subcommand::Home,
        words: "f11_pip home IMAGE",
        does: "shows the home block",
        about: &[],
        example: "f11_pip home pack.dsk",
    },
    Synopsis {
        command: Subcommand::Dump,
        words: "f11_pip dump IMAGE NUMBER",
        does: "shows a file header and its retrieval pointers",
        about: &["NUMBER: the file's, decimal"],
        example: "f11_pip dump pack.dsk 4",
    },
];

/// Those on RT-11 volumes.
const RT11: [Synopsis; 11] = [
    Synopsis {
        command: Subcommand::RtLs,
        words: "f11_pip rt-ls RT",
        does: "lists the files",
        about: &["of a volume that has faults, too"],
        example: "f11_pip rt-ls rt.dsk",
    },
    Synopsis {
        command: Subcommand::RtGet,
        words: "f11_pip rt-get [--mode M] RT NAME HOST | rt-get --all RT FOLDER",
        does: "takes out a file, or all files, as they are",
        about: &[
            "of a volume that has faults, too; HOST and FOLDER are made, and mustn't be there",
            "--mode M: image, as where none is given, whole blocks, or text: up to CTRL/Z, without NULs, with LF for CR LF",
        ],
        example: "f11_pip rt-get --mode text rt.dsk LOGIN.COM login.com",
    },
    Synopsis {
        command: Subcommand::RtPut,
        words: "f11_pip rt-put [--mode M] RT NAME HOST | rt-put --each [-n|--stop] [--fit] [--mode M] RT HOST..",
        does: "makes a file of one of the host, or of each of some, filled up with zeros to whole blocks",
        about: &[
            "of a volume that is accepted",
            "--each: each HOST under the last part of its path; a line each, and counts",
            "--fit: with --each, a HOST whose name can't be one gets the characters of it that may stand in one, and a number where that is there",
            "-n: with --each, tells which files would be made, and makes none; --stop: the first that is refused is the last that is tried",
            "--mode M: image, as where none is given, all bytes as they are, or text: lines, ended by LF or CR LF, end in CR LF",
        ],
        example: "f11_pip rt-put --mode text rt.dsk LOGIN.COM login.com",
    },
    Synopsis {
        command: Subcommand::RtDel,
        words: "f11_pip rt-del RT NAME",
        does: "deletes a file",
        about: &["of a volume that is accepted"],
        example: "f11_pip rt-del rt.dsk OLD.BAK",
    },
    Synopsis {
        command: Subcommand::RtRen,
        words: "f11_pip rt-ren RT NAME NEW",
        does: "renames a file",
        about: &[
            "of a volume that is accepted; no file has the name NEW; the date and the protection stay",
        ],
        example: "f11_pip rt-ren rt.dsk DRAFT.TXT LETTER.TXT",
    },
    Synopsis {
        command: Subcommand::RtProt,
        words: "f11_pip rt-prot [--off] RT NAME",
        does: "protects a file, so that it isn't deleted",
        about: &["of a volume that is accepted; --off: has it protected no more"],
        example: "f11_pip rt-prot rt.dsk SWAP.SYS",
    },
    Synopsis {
        command: Subcommand::RtSqueeze,
        words: "f11_pip rt-squeeze RT",
        does: "brings the files to lower blocks, and the empty areas together behind them",
        about: &[
            "of a volume that is accepted; a file is copied before its old place is given up, so it stays where no empty area that serves for that is as long",
            "a copy has the type SQZ until the file is deleted: where it is stopped a file may be there twice, or so alone, and rt-ren gives it its name back",
            "files of the type BAD, and those of a name that several have, stay, with no line; each other one that moves, or can't, has one, and counts",
        ],
        example: "f11_pip rt-squeeze rt.dsk",
    },
    Synopsis {
        command: Subcommand::RtCopy,
        words: "f11_pip rt-copy [--blocks N] [--segments N] OLD NEW | rt-copy --onto OLD NEW",
        does: "copies all files to a fresh volume, or to one that is there",
        about: &[
            "OLD: of a volume that has faults, too; NEW is made, and mustn't be there; a line each, and counts, and the lines of rt-vfy on NEW",
            "--blocks, --segments: as of rt-init; where one isn't given as OLD has it, or more segments where the files need them",
            "--onto: NEW is of a volume that is accepted, and keeps its files",
            "a file keeps its date and its protection; the boot block isn't copied",
        ],
        example: "f11_pip rt-copy old.dsk new.dsk",
    },
    Synopsis {
        command: Subcommand::RtVfy,
        words: "f11_pip rt-vfy IMAGE",
        does: "verifies a volume: a line a fault or note, and whether it is accepted",
        about: &[],
        example: "f11_pip rt-vfy rt.dsk",
    },
    Synopsis {
        command: Subcommand::RtList,
        words: "f11_pip rt-list IMAGE",
        does: "lists the areas of a volume that is accepted",
        about: &[],
        example: "f11_pip rt-list rt.dsk",
    },
    Synopsis {
        command: Subcommand::RtInit,
        words: "f11_pip rt-init --blocks N --segments N IMAGE",
        does: "makes an image with a fresh volume",
        about: &[
            "--blocks: of 512 bytes, at most 65535",
            "--segments: of the directory, 1 to 31, each for some 70 files",
        ],
        example: "f11_pip rt-init --blocks 4800 --segments 4 rt.dsk",
    },
];

/// Those that copy between the two.
const COPIES: [Synopsis; 2] = [
    Synopsis {
        command: Subcommand::FlxToRt,
        words: "f11_pip flx-to-rt --mode M IMAGE UIC NAME RT RTNAME",
        does: "copies a file of a Files-11 volume to an RT-11 one",
        about: &[
            "--mode M: image, all bytes as they are, or text: records become lines ended by CR LF",
            "UIC: of its directory, octal, as 200,1; 0,0 is the master file directory",
        ],
        example: "f11_pip flx-to-rt --mode text pack.dsk 200,1 'LOGIN.CMD;1' rt.dsk LOGIN.CMD",
    },
    Synopsis {
        command: Subcommand::FlxFromRt,
        words: "f11_pip flx-from-rt --mode M RT RTNAME IMAGE UIC NAME",
        does: "copies a file of an RT-11 volume to a Files-11 one",
        about: &[
            "--mode M: image, all bytes as they are, or text: lines, ended by CR LF, become records",
            "UIC: of its directory, octal, as 200,1; 0,0 is the master file directory",
        ],
        example: "f11_pip flx-from-rt --mode text rt.dsk LOGIN.CMD pack.dsk 200,1 'LOGIN.CMD;1'",
    },
];

/// Those that need no volume.
const WORDS: [Synopsis; 2] = [
    Synopsis {
        command: Subcommand::Name,
        words: "f11_pip name TEXT",
        does: "shows the five words of a file's name",
        about: &[],
        example: "f11_pip name 'LOGIN.CMD;1'",
    },
    Synopsis {
        command: Subcommand::Rights,
        words: "f11_pip rights UIC OWNER WORD",
        does: "shows a caller's rights to a file of an owner with a protection word",
        about: &[
            "UIC, OWNER: octal, as 200,1",
            "WORD: octal, a bit that is 1 denies: four each, from the right, for system, owner, group and world",
        ],
        example: "f11_pip rights 200,2 200,1 160000",
    },
];

/// Whether the words, of which the first is the program's name, ask for help: by `help` in a command's place, or by
/// `--help` or `-h` there or behind a command, before a word `--`.
pub fn is_asked(words: &[String]) -> bool {
    match words {
        [_, first, rest @ ..] => first.as_str() == "help" || is_help(first) || has_help(rest),
        _ => false,
    }
}

/// Whether a word before `--` asks for help. Behind it each word is taken as it is.
fn has_help(words: &[String]) -> bool {
    for word in words {
        if word.as_str() == "--" {
            return false;
        }
        if is_help(word) {
            return true;
        }
    }
    false
}

fn is_help(word: &String) -> bool {
    matches!(word.as_str(), "--help" | "-h")
}

/// Whether the words, of which the first is the program's name, ask for its version: by `--version` or `-V` alone.
pub fn is_version(words: &[String]) -> bool {
    match words {
        [_, only] => matches!(only.as_str(), "--version" | "-V"),
        _ => false,
    }
}

/// Writes the program's version.
pub fn write_version<W: Write>(writer: &mut W) -> io::Result<()> {
    writeln!(writer, "{}", VERSION)
}

/// Writes what there is to say of the command that is asked about, or a line of each, where none is named.
pub fn write_asked<W: Write>(words: &[String], writer: &mut W) -> io::Result<()> {
    match asked_about(words) {
        Some(command) => write_one(command, writer),
        None => write_all(writer),
    }
}

/// The command that words that ask for help name, if they name one.
fn asked_about(words: &[String]) -> Option<&'static Synopsis> {
    match words {
        [_, first, second, ..] if first.as_str() == "help" => command_of(second),
        [_, first, _, ..] => command_of(first),
        _ => None,
    }
}

/// The word behind `help`, or in its place before what asks for help, where it is no command.
pub fn asked_for(words: &[String]) -> Option<&String> {
    let word = match words {
        [_, first, second, ..] if first.as_str() == "help" => second,
        [_, first, _, ..] => first,
        _ => return None,
    };
    if command_of(word).is_some() || is_help(word) || word.as_str() == "help" {
        return None;
    }
    Some(word)
}

/// The command of this name, if there is one. Each of the tables is looked at by a function of its own: all of them are too much for one.
fn command_of(name: &String) -> Option<&'static Synopsis> {
    let named = Subcommand::named(name.as_str())?;
    if let Some(command) = of_files(named) {
        return Some(command);
    }
    if let Some(command) = of_rt11(named) {
        return Some(command);
    }
    if let Some(command) = of_copies(named) {
        return Some(command);
    }
    of_words(named)
}

fn of_files(named: Subcommand) -> Option<&'static Synopsis> {
    found_in(&FILES, named)
}

fn of_rt11(named: Subcommand) -> Option<&'static Synopsis> {
    found_in(&RT11, named)
}

fn of_copies(named: Subcommand) -> Option<&'static Synopsis> {
    found_in(&COPIES, named)
}

fn of_words(named: Subcommand) -> Option<&'static Synopsis> {
    found_in(&WORDS, named)
}

fn found_in(commands: &'static [Synopsis], named: Subcommand) -> Option<&'static Synopsis> {
    for command in commands {
        if command.command == named {
            return Some(command);
        }
    }
    None
}

fn write_one<W: Write>(command: &Synopsis, writer: &mut W) -> io::Result<()> {
    writeln!(writer, "{}\n    {}", command.words, command.does)?;
    for line in command.about {
        writeln!(writer, "    {line}")?;
    }
    writeln!(writer, "    as {}", command.example)
}

fn write_all<W: Write>(writer: &mut W) -> io::Result<()> {
    write_files(writer)?;
    write_rt11(writer)?;
    write_copies(writer)?;
    write_words(writer)?;
    writeln!(
        writer,
        "f11_pip help COMMAND tells a command's words, with an example"
    )
}

fn write_files<W: Write>(writer: &mut W) -> io::Result<()> {
    write_group("Files-11 volumes", &FILES, writer)
}

fn write_rt11<W: Write>(writer: &mut W) -> io::Result<()> {
    write_group("RT-11 volumes", &RT11, writer)
}

fn write_copies<W: Write>(writer: &mut W) -> io::Result<()> {
    write_group("Copies between the two", &COPIES, writer)
}

fn write_words<W: Write>(writer: &mut W) -> io::Result<()> {
    write_group("Words and rights", &WORDS, writer)
}

/// Writes a line for each of some commands, under a title.
fn write_group<W: Write>(title: &str, commands: &[Synopsis], writer: &mut W) -> io::Result<()> {
    writeln!(writer, "{title}")?;
    for command in commands {
        write_line(command, writer)?;
    }
    Ok(())
}

fn write_line<W: Write>(command: &Synopsis, writer: &mut W) -> io::Result<()> {
    let name = command.command.name();
    let does = command.does;
    writeln!(writer, "  {name}: {does}")
}

/// The words of the command that was meant, where the first word behind the program's name is a command.
pub fn meant(words: &[String]) -> Option<&'static str> {
    let command = command_of(words.get(1)?)?;
    Some(command.words)
}
