//! A file of the host that is made.
ghost use Rattle.std.specs.Prelude.{◌≤◌, IfOk, length};

use crate::outcome::Failure;
use std::fs::{self, File, OpenOptions};
use std::io::{self, BufWriter, Seek, SeekFrom, Write};

/// How many bytes of a file of the host are read, or written, at once.
pub const PIECE: usize = 65_536;

/// A file of the host that was made, to be written once, from its beginning, in pieces of [`PIECE`] bytes. Blocks of zeros aren't written:
/// the file is made longer, so that zeros for what an image lacks take no room. Its `flush` gives it its length and syncs it, so that what
/// the system tells only then, as where a disk of the network is full or a quota is used up, is an error: the end of a [`File`] tells
/// nothing.
#[derive(Drop)]
pub struct HostFile {
    file: BufWriter<File>,
    /// How many bytes it was given.
    length: u64,
    /// Whether the last of them were zeros that were passed over, so that the file is shorter yet.
    is_short: bool,
    /// Whether the disk has all that it was given.
    is_synced: bool,
    /// Why it took no more when it was last asked, if it didn't.
    failure: Option<io::Error>,
}

impl HostFile {
    /// A new one, where none is yet; or why none could be made.
    ///
    /// # Errors
    ///
    /// [`Failure::NoMemory`] where there is no memory for a piece: then none is made.
    pub fn new(rt: &HostRuntime, path: &str) -> Result<io::Result<HostFile>, Failure> {
        let mut options = OpenOptions::new();
        let file = match options.write(true).create_new(true).open(rt, path) {
            Ok(file) => file,
            Err(error) => return Ok(Err(error)),
        };
        match BufWriter::with_capacity(rt.alloc(), PIECE, file) {
            Ok(file) => Ok(Ok(HostFile {
                file,
                length: 0,
                is_short: false,
                is_synced: false,
                failure: None,
            })),
            Err(_) => {
                let _ = fs::remove_file(rt, path);
                Err(Failure::NoMemory)
            }
        }
    }

    /// Why it took no more when it was last asked, if it didn't: a write that was interrupted and then done again is no failure.
    pub fn failure(&self) -> Option<io::Error> {
        self.failure
    }

    /// Gives it up: where no byte was written to it, it is removed again. Whether it stays.
    pub fn give_up(self, rt: &HostRuntime, path: &str) -> bool {
        let mut file = self;
        let _ = file.settle();
        let is_empty = match file.file.get_ref().metadata() {
            Ok(metadata) => metadata.len() == 0,
            Err(_) => false,
        };
        drop(file);
        if is_empty {
            let _ = fs::remove_file(rt, path);
        }
        !is_empty
    }

    /// Passes over a block of zeros.
    fn pass(&mut self, count: usize) -> io::Result<()> {
        let end = self.length.saturating_add(count as u64);
        self.file.seek(SeekFrom::Start(end))?;
        self.length = end;
        self.is_short = true;
        Ok(())
    }

    /// Writes what is still to be written, and gives it its length, where zeros at its end were passed over.
    fn settle(&mut self) -> io::Result<()> {
        self.file.flush()?;
        if self.is_short {
            self.file.get_ref().set_len(self.length)?;
            self.is_short = false;
        }
        Ok(())
    }
}

impl HostFile {
    /// Ends it where it broke off, before its `flush`: it gets its length, and is synced.
    pub fn end(&mut self) -> io::Result<()> {
        if self.is_synced { Ok(()) } else { self.flush() }
    }

    fn take(&mut self, bytes: &[u8]) -> io::Result<usize>
        ensures bound { IfOk result (λ written. written ≤ length bytes.now) }
    {
        self.is_synced = false;
        if bytes.len() >= 512 && bytes.iter().all(|byte| *byte == 0) {
            self.pass(bytes.len())?;
            return Ok(bytes.len());
        }
        let written = self.file.write(bytes)?;
        if written != 0 {
            self.length = self.length.saturating_add(written as u64);
            self.is_short = false;
        }
        Ok(written)
    }

    fn sync(&mut self) -> io::Result<()> {
        self.settle()?;
        self.file.get_ref().sync_all()?;
        self.is_synced = true;
        Ok(())
    }
}

impl Write for HostFile {
    fn write(&mut self, bytes: &[u8]) -> io::Result<usize> {
        let written = self.take(bytes);
        self.failure = written.err();
        written
    }

    fn flush(&mut self) -> io::Result<()> {
        let synced = self.sync();
        self.failure = synced.err();
        synced
    }
}
