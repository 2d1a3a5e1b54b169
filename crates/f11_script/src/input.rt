//! The lines of a script, read.

ghost use Rattle.std.specs.Prelude.{◌≡◌, ◌≢◌, ◌<◌, ◌≤◌, ◌+◌, ◌∷◌, ◌++◌, [], All, MatchResult, MatchOption, Some, None, length, drop, take};
ghost use Rattle.std.specs.Io.KnownBytes.{Consumes, Keeps, IsAtEnd};
ghost use Rattle.std.specs.Str.Lines.{strip_carriage_return};
ghost use Rattle.f11_script.specs.declared.errors.ScriptError.TheVariants.{ReadFault};

use crate::errors::{ScriptError, TRIES};
use arrayvec::ArrayVec;
use memchr::memchr;
use std::io::{ErrorKind, Read};

/// The most bytes of a script.
const LIMIT: u32 = 16_777_216;

/// How many bytes are read at once.
const PIECE: usize = 4096;

/// Reads some bytes, and none only at the end; an interrupted read is tried again.
fn read_some<R: Read>(reader: &mut R, piece: &mut [u8]) -> Result<usize, ScriptError>
    requires { 0 < length piece.old }
    ensures read { MatchResult result
        (λ n. (n ≤ length piece.new)
        × Consumes (R.remaining reader.old) (R.remaining reader.new) (take n piece.new)
        × (n ≡ 0 → IsAtEnd (R.remaining reader.new)))
        (λ e. (e ≡ ReadFault) × Keeps (R.remaining reader.old) (R.remaining reader.new)) }
{
    for _ in 0..=TRIES {
        match reader.read(piece) {
            Ok(n) => return Ok(n),
            Err(error) => {
                if error.kind() != ErrorKind::Interrupted {
                    return Err(ScriptError::ReadFault);
                }
            }
        }
    }
    Err(ScriptError::ReadFault)
}

/// A line without its end, or the first 1,202 bytes of a longer one.
pub type Line = ArrayVec<u8, 1202>;

/// A script that is read line by line (profile). It is read in pieces of 4,096 bytes.
///
/// It owns its reader, and is dropped with it: a function over any reader asks for `R: Read + Drop`, lends a reader of which it
/// knows `Read` alone by `&mut`, or is lent the script.
#[derive(Drop)]
pub struct ScriptReader<R> {
    reader: R,
    /// The bytes that were read last.
    piece: [u8; PIECE],
    /// The place of the next one, and of the end.
    at: usize,
    end: usize,
    /// How many bytes were taken.
    count: u32,
    ghost in_piece: { at ≤ end },
    ghost whole: { end ≤ length piece },
    ghost limited: { count ≤ 16777216 },
}

impl<R: Read> ScriptReader<R> {
    ghost use Rattle.f11_script.specs.Input.{ReadsByte, ReadsLine, TakesBytes, at_hand, left_of, number_read, reader_of};

    /// A script from its beginning.
    pub fn new(reader: R) -> ScriptReader<R>
        ensures bytes { left_of R.remaining result ≡ R.remaining reader }
        ensures number { number_read result ≡ 0 }
    {
        ScriptReader {
            reader,
            piece: [0; PIECE],
            at: 0,
            end: 0,
            count: 0,
        }
    }

    /// The reader, of which more may have been read than lines were handed out.
    pub fn into_inner(self) -> R
        ensures { result ≡ reader_of self }
    {
        let ScriptReader { reader, .. } = self;
        reader
    }

    /// Reads the next line; `false` where none is left.
    ///
    /// A line ends in a line feed, which is dropped with a carriage return before it; the last line may lack it, and
    /// then keeps its carriage return. Of a line of more than 1,202 bytes the first 1,202 are kept, or 1,201.
    ///
    /// # Errors
    ///
    /// [`ScriptError::ReadFault`] where the reader fails, or where it was interrupted more than 65,536 times in a row;
    /// [`ScriptError::TooLong`] at byte 16,777,217. Each line before it was handed out.
    pub fn read_line(&mut self, line: &mut Line) -> Result<bool, ScriptError>
        ensures { ReadsLine (left_of R.remaining self.old) (left_of R.remaining self.new)
            (number_read self.old) (number_read self.new) (at_hand self.new) result line.new.items }
    {
        line.clear();
        loop {
            self.take_bytes(line);
            match self.next()? {
                None => {
                    if line.len() == 0 {
                        return Ok(false);
                    }
                    return Ok(true);
                }
                Some(byte) => {
                    if byte == b'\n' {
                        drop_return(line);
                        return Ok(true);
                    }
                    keep(line, byte);
                }
            }
        }
    }

    /// Takes the bytes at hand that stand before the next line feed, as many as may still be counted.
    fn take_bytes(&mut self, line: &mut Line)
        ensures { TakesBytes (left_of R.remaining self.old) (left_of R.remaining self.new)
            (number_read self.old) (number_read self.new) line.old.items line.new.items }
    {
        let most = (LIMIT - self.count) as usize;
        let end = self.end.min(self.at + most);
        let stop = line_end(&self.piece, self.at, end);
        keep_bytes(line, &self.piece, self.at, stop);
        self.count += (stop - self.at) as u32;
        self.at = stop;
    }

    /// The next byte, and `None` at the end.
    fn next(&mut self) -> Result<Option<u8>, ScriptError>
        ensures next { ReadsByte (left_of R.remaining self.old) (left_of R.remaining self.new)
            (number_read self.old) (number_read self.new) (at_hand self.new) result }
    {
        self.refill()?;
        if self.at == self.end {
            return Ok(None);
        }
        if self.count == LIMIT {
            return Err(ScriptError::TooLong);
        }
        let byte = self.piece[self.at];
        self.at += 1;
        self.count += 1;
        Ok(Some(byte))
    }

    /// Has a byte at hand, where one is left.
    fn refill(&mut self) -> Result<(), ScriptError>
        ensures filled { MatchResult result
            (λ _. Keeps (left_of R.remaining self.old)
            (left_of R.remaining self.new)
            × (self.new.at ≡ self.new.end → IsAtEnd (R.remaining self.new.reader)))
            (λ e. (e ≡ ReadFault) × (self.new.at ≡ self.new.end)
            × Keeps (left_of R.remaining self.old)
            (left_of R.remaining self.new)) }
        ensures count { self.new.count ≡ self.old.count }
    {
        if self.at < self.end {
            return Ok(());
        }
        self.fill()
    }

    /// Reads the next piece, where none is left of the last one.
    fn fill(&mut self) -> Result<(), ScriptError>
        requires { self.old.at ≡ self.old.end }
        ensures filled { MatchResult result
            (λ _. Keeps (left_of R.remaining self.old)
            (left_of R.remaining self.new)
            × (self.new.at ≡ self.new.end → IsAtEnd (R.remaining self.new.reader)))
            (λ e. (e ≡ ReadFault) × (self.new.at ≡ self.new.end)
            × Keeps (left_of R.remaining self.old)
            (left_of R.remaining self.new)) }
        ensures count { self.new.count ≡ self.old.count }
    {
        let read = read_some(&mut self.reader, &mut self.piece)?;
        self.at = 0;
        self.end = read;
        Ok(())
    }
}

/// The place of the first line feed of a piece from `at` on, before `end`, and `end` where there is none.
fn line_end(piece: &[u8; PIECE], at: usize, end: usize) -> usize
    requires order { at ≤ end }
    requires within { end ≤ length piece.now }
    ensures above { at ≤ result }
    ensures within { result ≤ end }
    ensures none { All (λ c. c ≢ 10) (drop at (take result piece.now)) }
{
    match memchr(b'\n', &piece[at..end]) {
        Some(place) => at + place,
        None => end,
    }
}

/// Keeps the bytes of a piece from `at` on, before `end`, as far as there is room.
fn keep_bytes(line: &mut Line, piece: &[u8; PIECE], at: usize, end: usize)
    requires order { at ≤ end }
    requires within { end ≤ length piece.now }
    ensures { line.new.items ≡ take 1202 (line.old.items ++ drop at (take end piece.now)) }
{
    let room = 1202 - line.len();
    let stop = end.min(at + room);
    push_bytes(line, &piece[at..stop]);
}

/// Puts bytes behind a line, where there is room for them.
fn push_bytes(line: &mut Line, bytes: &[u8])
    requires { length line.old.items + length bytes.now ≤ 1202 }
    ensures { line.new.items ≡ line.old.items ++ bytes.now }
{
    let _ = line.try_extend_from_slice(bytes);
}

/// Keeps a byte of a line, where there is room.
fn keep(line: &mut Line, byte: u8)
    ensures { line.new.items ≡ take 1202 (line.old.items ++ byte ∷ []) }
{
    if line.len() < 1202 {
        line.push(byte);
    }
}

/// Drops a carriage return at the end of a line.
fn drop_return(line: &mut Line)
    ensures { line.new.items ≡ strip_carriage_return line.old.items }
{
    if let Some(b'\r') = line.last() {
        line.pop();
    }
}
