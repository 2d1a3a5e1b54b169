//! What is written line by line, overheard on its way: which lines refuse something, and which line of a script such a one answers.
use crate::refusals::of_request;
use std::cell::Cell;
use std::io::{self, Write};

/// How many bytes of a line are kept: more than the longest line that refuses something has.
const KEPT: usize = 96;

/// The beginning of a line.
#[derive(Clone, Copy)]
struct Beginning {
    bytes: [u8; KEPT],
    length: usize,
}

impl Beginning {
    /// That of an empty line.
    const NONE: Beginning = Beginning {
        bytes: [0; KEPT],
        length: 0,
    };

    /// Takes one byte more, as far as there is room.
    fn add(&mut self, byte: u8) {
        if let Some(place) = self.bytes.get_mut(self.length) {
            *place = byte;
            self.length += 1;
        }
    }

    /// Why an action is refused, where the line says so: its last word, behind `NAME not ..`.
    fn refused_action(&self) -> Option<&str> {
        let line = str::from_utf8(self.bytes.get(..self.length)?).ok()?;
        let (_, behind) = line.split_once(" not ")?;
        let (_, refusal) = behind.rsplit_once(' ')?;
        Some(refusal)
    }

    /// The name of the file, where the line says that an action on it is refused.
    fn refused_name(&self) -> Option<&str> {
        let line = str::from_utf8(self.bytes.get(..self.length)?).ok()?;
        let (name, _) = line.split_once(" not ")?;
        Some(name)
    }

    /// What the line says behind the name of a file that it begins with, or that stands behind its directory, where that refuses something: `no`
    /// and why.
    fn refusal_of_file(&self) -> Option<&str> {
        let line = str::from_utf8(self.bytes.get(..self.length)?).ok()?;
        let (first, rest) = line.split_once(" ")?;
        let behind = if first.starts_with("[") {
            rest.split_once(" ")?.1
        } else {
            rest
        };
        if behind.starts_with("no ") {
            Some(behind)
        } else {
            None
        }
    }

    /// The line, where it refuses something: `bad line`, or `no` and why.
    fn refusal(&self) -> Option<&str> {
        let line = str::from_utf8(self.bytes.get(..self.length)?).ok()?;
        if line == "bad line" || line.starts_with("no ") {
            Some(line)
        } else {
            None
        }
    }
}

/// A script, of whose lines it is told which ones are refused.
#[derive(Clone, Copy)]
pub struct Told<'a> {
    pub rt: &'a HostRuntime,
    /// Under which path it was opened.
    pub path: &'a str,
    /// The number of the line that is answered, from 1.
    pub number: &'a Cell<u64>,
}

impl Told<'_> {
    fn tell(&self, line: &str) {
        let (path, number) = (self.path, self.number.get());
        let _ = match of_request(line) {
            Some(why) => eprintln!(self.rt; "{path}: line {number}: {line}: {why}"),
            None => eprintln!(self.rt; "{path}: line {number}: {line}"),
        };
    }
}

/// A writer that passes on what is written to it, and keeps the beginning of its last line.
#[derive(Drop)]
pub struct Heard<'w, 't, W> {
    writer: &'w mut W,
    /// The script that the lines answer, where each refusal is told at once.
    told: Option<Told<'t>>,
    /// The line that isn't ended yet, the one before it, and the last one that says that an action is refused.
    line: Beginning,
    last: Beginning,
    refused: Beginning,
}

impl<'w, 't, W: Write> Heard<'w, 't, W> {
    pub fn new(writer: &'w mut W, told: Option<Told<'t>>) -> Heard<'w, 't, W> {
        Heard {
            writer,
            told,
            line: Beginning::NONE,
            last: Beginning::NONE,
            refused: Beginning::NONE,
        }
    }

    /// The last line, where it refuses something.
    pub fn refusal(&self) -> Option<&str> {
        self.last.refusal()
    }

    /// What the last line says behind the name of a file, where that refuses something.
    pub fn refusal_of_file(&self) -> Option<&str> {
        self.last.refusal_of_file()
    }

    /// Why the last action that is refused is so.
    pub fn refused_action(&self) -> Option<&str> {
        self.refused.refused_action()
    }

    /// The name of the file on which the last action is refused that is so.
    pub fn refused_name(&self) -> Option<&str> {
        self.refused.refused_name()
    }

    /// Ends the line.
    fn end(&mut self) {
        self.last = self.line;
        if self.line.refused_action().is_some() {
            self.refused = self.line;
        }
        self.line = Beginning::NONE;
        if let (Some(told), Some(line)) = (&self.told, self.last.refusal()) {
            told.tell(line);
        }
    }
}

impl<W: Write> Write for Heard<'_, '_, W> {
    fn write(&mut self, bytes: &[u8]) -> io::Result<usize> {
        let count = self.writer.write(bytes)?;
        for byte in &bytes[..count] {
            if *byte == b'\n' {
                self.end();
            } else {
                self.line.add(*byte);
            }
        }
        Ok(count)
    }

    fn flush(&mut self) -> io::Result<()> {
        self.writer.flush()
    }
}
