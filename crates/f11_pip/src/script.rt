//! The command `run`: how its script is read.
ghost use Rattle.std.specs.Prelude.{◌≤◌, length};

use crate::failure_of;
use crate::heard::{Heard, Told};
use crate::image::{opened_to_write, tell_fault};
use crate::outcome::Failure;
use crate::remarks::{Remark, Why, opened, unopened};
use crate::volumes::written;
use f11_commands::{Answer, RunFailure, ScriptError, print_run};
use f11_dev::FileImage;
use std::alloc::Global;
use std::cell::Cell;
use std::fs::{self, File};
use std::io::{self, BufRead, BufReader, Read, Write};

/// A script of which no more is read than up to a line's end at once, so that the line that was read last is the one that is answered.
#[derive(Drop)]
pub struct Script<'a> {
    file: BufReader<File>,
    /// The number of the line that was read last, from 1.
    number: &'a Cell<u64>,
    /// Whether it was read to its end.
    is_ended: bool,
}

impl<'a> Script<'a> {
    pub fn new(alloc: Global, file: File, number: &'a Cell<u64>) -> io::Result<Script<'a>> {
        Ok(Script {
            file: BufReader::new(alloc, file)?,
            number,
            is_ended: true,
        })
    }
}

impl Read for Script<'_> {
    fn read(&mut self, piece: &mut [u8]) -> io::Result<usize> {
        let bytes = self.file.fill_buf()?;
        let count = line_length(bytes).min(piece.len());
        piece[..count].copy_from_slice(&bytes[..count]);
        self.file.consume(count);
        if count != 0 {
            if self.is_ended {
                self.number.set(self.number.get().saturating_add(1));
            }
            self.is_ended = piece[count - 1] == b'\n';
        }
        Ok(count)
    }
}

/// How many bytes stand up to the first end of a line, with it, or in all.
fn line_length(bytes: &[u8]) -> usize
    ensures bound { result ≤ length bytes.now }
{
    match bytes.iter().position(|byte| *byte == b'\n') {
        Some(place) => place + 1,
        None => bytes.len(),
    }
}

/// Serves a script on a volume. Which of its lines are bad or refused is told, unless it is to be quiet.
pub fn serve<'a, W: Write>(
    rt: &HostRuntime,
    image: &'a str,
    script: &'a str,
    is_quiet: bool,
    writer: &mut W,
    remark: &mut Option<Remark<'a>>,
) -> Result<Answer, Failure> {
    let device = opened_to_write(rt, image, remark)?;
    let file = File::open(rt, script).map_err(unopened);
    let file = opened(file, script, remark)?;
    let number = Cell::new(0);
    let (device, answer) = serve_lines(rt, device, file, script, &number, is_quiet, writer)?;
    tell_fault(rt, image, device);
    if let Err(RunFailure::Script(error)) = answer {
        let _ = eprintln!(rt; "{error}");
        if error == ScriptError::ReadFault {
            *remark = Some(Remark::of(script, unread(rt, script)));
        }
    }
    Ok(written(rt, image, answer?, remark))
}

/// Why a script wasn't read to its end.
fn unread(rt: &HostRuntime, path: &str) -> Why {
    match fs::metadata(rt, path) {
        Ok(metadata) if metadata.is_dir() => Why::FOLDER,
        _ => Why::UNREAD,
    }
}

/// Serves the script that was opened under this path, and counts its lines. The device comes back.
fn serve_lines<'x, W: Write>(
    rt: &'x HostRuntime,
    device: FileImage<File>,
    file: File,
    path: &'x str,
    number: &'x Cell<u64>,
    is_quiet: bool,
    writer: &mut W,
) -> Result<(FileImage<File>, Result<Answer, RunFailure>), Failure> {
    let lines = Script::new(rt.alloc(), file, number).map_err(failure_of)?;
    let told = if is_quiet {
        None
    } else {
        Some(Told { rt, path, number })
    };
    let mut heard = Heard::new(writer, told);
    Ok(print_run(rt.alloc(), device, lines, &mut heard))
}
