//! A reader that gives a text of the host as that of an RT-11 file.
ghost use Rattle.std.specs.Prelude.{◌≡◌, ◌≤◌, ◌<◌, ◌++◌, [], ℕ, List, OnOk, length, min, take};
ghost use Rattle.std.specs.Io.KnownBytes.{IsAtEnd, Keeps};
ghost use Rattle.rt11_text.specs.FromHost.{left_in, lines_of_host, text_to_come};

use crate::crs::{Expanded, expand};
use f11_bytes::BLOCK_SIZE;
use std::io::{self, Read};

/// A reader that gives what another reads with CR before each LF that has none before it. So its lines end in CR LF, as those of RT-11 do.
#[derive(Drop)]
pub struct FromHost<R: Read> {
    /// The text of the host.
    pub(crate) host: R,
    /// What was made of the last bytes that were read.
    pub(crate) text: Expanded,
    /// How much of it was given.
    pub(crate) given: usize,
    /// Whether a CR is before what the host gives next.
    pub(crate) cr: bool,
}

impl<R: Read> FromHost<R> {
    /// Gives what a reader gives from here on.
    pub fn new(host: R) -> FromHost<R>
        ensures { text_to_come R.remaining result ≡ lines_of_host (R.remaining host) }
    {
        FromHost {
            host,
            text: Expanded::new(),
            given: 0,
            cr: false,
        }
    }

    /// Reads more of the host.
    fn fill(&mut self) -> io::Result<()>
        requires empty { left_in self.old ≡ [] }
        ensures keeps { Keeps (text_to_come R.remaining self.old) (text_to_come R.remaining self.new) }
        ensures end { OnOk result (left_in self.new ≡ [] → IsAtEnd (R.remaining self.new.host)) }
    {
        let mut block = [0; BLOCK_SIZE];
        let count = self.host.read(&mut block)?;
        self.cr = expand(&block, count, self.cr, &mut self.text);
        self.given = 0;
        Ok(())
    }

    /// Reads more of the host where so many bytes are wanted, not none, and nothing is left.
    fn make_ready(&mut self, wanted: usize) -> io::Result<()>
        ensures keeps { Keeps (text_to_come R.remaining self.old) (text_to_come R.remaining self.new) }
        ensures end { OnOk result (0 < wanted → left_in self.new ≡ []
            → IsAtEnd (R.remaining self.new.host)) }
    {
        if wanted > 0 && self.given >= self.text.len() {
            self.fill()?;
        }
        Ok(())
    }

    /// What was made and not given yet.
    fn left(&self) -> &[u8]
        ensures { result.now ≡ left_in self.now }
    {
        &self.text[self.at()..]
    }

    /// How much was given, no more than was made.
    fn at(&self) -> usize
        ensures at { result ≡ min self.now.given (length self.now.text.items) }
        ensures fits { length self.now.text.items ≤ 1024 }
    {
        self.given.min(self.text.len())
    }

    /// Gives what is left, as much as there is room for.
    fn give(&mut self, buf: &mut [u8]) -> usize
        ensures bound { result ≤ length buf.new }
        ensures gives { left_in self.old ≡ take result buf.new ++ left_in self.new }
        ensures some { result ≡ 0 → 0 < length buf.new → left_in self.old ≡ [] }
        ensures host { self.new.host ≡ self.old.host }
        ensures cr { self.new.cr ≡ self.old.cr }
    {
        let left = self.left();
        let count = left.len().min(buf.len());
        buf[..count].copy_from_slice(&left[..count]);
        self.given = self.at() + count;
        count
    }
}

impl<R: Read> Read for FromHost<R> {
    ghost remaining = { text_to_come R.remaining };

    fn read(&mut self, buf: &mut [u8]) -> io::Result<usize> {
        self.make_ready(buf.len())?;
        Ok(self.give(buf))
    }
}
