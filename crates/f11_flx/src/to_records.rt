//! From text to records.
ghost use Rattle.std.specs.Prelude.{◌≡◌, ◌+◌, ◌%◌, ◌<◌, ◌≤◌, ◌∷◌, ◌++◌, [], ◌==◌, ◌&&◌, false, if◌then◌else◌, length, slice_index, IfOk, IfSome, IfNone, OnOk, OnErr};
ghost use Rattle.f11_flx.specs.Lines.{has_crlf, ends_with_cr};
ghost use Rattle.f11_flx.specs.Puts.{PutsAt};
ghost use Rattle.f11_flx.specs.Spelled.{variable_record};
ghost use Rattle.f11_flx.specs.Stage.{given_in, is_pending, text_so_far, with_cr};

use crate::put::put;
use crate::stage::Stage;
use arrayvec::ArrayVec;
use f11_bytes::{BLOCK_SIZE, Block};
use std::error::Error;
use std::fmt;

/// The most bytes that a line may have.
pub const LONGEST_LINE: usize = 2048;

/// A line of a text has more than 2,048 bytes.
#[derive(Clone, Copy, Debug, PartialEq, Eq, Hash)]
pub struct LineTooLong;

impl fmt::Display for LineTooLong {
    ghost use Rattle.std.specs.Prelude.{Some, codes};

    ghost output = { λ _. Some (codes "line too long") };

    fn fmt<W: fmt::Write>(&self, f: &mut fmt::Formatter<W>) -> fmt::Result {
        write!(f, "line too long")
    }
}

impl Error for LineTooLong {}

const CR: u8 = b'\r';

const LF: u8 = b'\n';

/// The variable records of the lines of an RT-11 text (RT-11 Volume and File Formats Manual; RSX-11M Utilities manual, FLX),
/// made from the text's bytes in whatever pieces they come.
#[derive(Drop)]
pub struct ToRecords {
    /// The line, without a CR that may end it.
    line: ArrayVec<u8, LONGEST_LINE>,
    stage: Stage,
    /// The length of the longest line whose record was given whole.
    longest: u16,
    ghost whole: { has_crlf (text_so_far line.items stage) ≡ false },
    ghost ended: { ends_with_cr (text_so_far line.items stage) ≡ is_pending stage },
    ghost given: { given_in stage < 2 + length line.items + length line.items % 2 },
}

impl ToRecords {
    ghost use Rattle.std.specs.Prelude.{List, ℕ, drop, true};
    ghost use Rattle.f11_flx.specs.Lines.{lines_of, without_zeros, has_long_line};
    ghost use Rattle.f11_flx.specs.Spelled.{longest_of, variable_records};
    ghost use Rattle.f11_flx.specs.ToRecords.{bytes_to_come, is_too_long, longest_with, open_of, gives, longest_given, GivesBytes, ConvertsText, EndsText, StopsText, HasLongLine, StepsText, ReadsText};

    /// A conversion of which nothing was read.
    #[tactic(auto, unfolding(crate::specs::Lines::has_crlf))]
    pub fn new() -> ToRecords
        ensures bytes { (bytes : List ℕ) → bytes_to_come result bytes
            ≡ variable_records (lines_of (without_zeros bytes)) }
        ensures longest { (bytes : List ℕ) → longest_with result bytes
            ≡ longest_of (lines_of (without_zeros bytes)) }
        ensures long { (bytes : List ℕ) → is_too_long result bytes
            ≡ has_long_line (lines_of (without_zeros bytes)) }
    {
        ToRecords {
            line: ArrayVec::new(),
            stage: Stage::Reading(false),
            longest: 0,
        }
    }

    /// Converts bytes of the text into a target block, from byte `from` of it on, until the target is full or the bytes are
    /// used up: how many bytes of the source were read, and the byte of the target behind the last that was put.
    ///
    /// # Errors
    ///
    /// `LineTooLong` where a line has more than 2,048 bytes. Then this value is of no more use.
    pub fn convert(
        &mut self,
        source: &[u8],
        target: &mut Block,
        from: usize,
    ) -> Result<(usize, usize), LineTooLong>
        requires { from ≤ 512 }
        ensures converts { IfOk result (λ done.
            ConvertsText self.old self.new source.now done.0 target.new from done.1) }
        ensures puts { IfOk result (λ done. PutsAt target.old target.new from done.1) }
        ensures room { IfOk result (λ done. done.1 ≤ 512) }
        ensures stops { IfOk result (λ done. StopsText self.new source.now done.0 done.1) }
        ensures bad { OnErr result (HasLongLine self.old source.now) }
    {
        let mut used = 0;
        let mut to = from;
        while to < BLOCK_SIZE {
            let Some((next, given)) = self.step(source, used)? else {
                return Ok((used, to));
            };
            used = next;
            to = put(target, to, given);
        }
        Ok((used, to))
    }

    /// Ends the last line of the text, which may end without CR LF. The rest of its record is then given by
    /// [`ToRecords::convert`] of no more bytes.
    ///
    /// # Errors
    ///
    /// `LineTooLong` where it has more than 2,048 bytes.
    pub fn finish(&mut self) -> Result<(), LineTooLong>
        ensures ends { OnOk result (EndsText self.old self.new) }
        ensures bad { OnErr result (is_too_long self.old [] ≡ true) }
    {
        let Stage::Reading(cr) = self.stage else {
            return Ok(());
        };
        if self.line.remaining_capacity() < cr_bytes(cr) {
            return Err(LineTooLong);
        }
        keep_cr(&mut self.line, cr);
        if self.line.is_empty() {
            self.stage = Stage::Reading(false);
        } else {
            self.stage = Stage::Giving(0);
        }
        Ok(())
    }

    /// The length of the longest line whose record was given whole.
    pub fn longest(&self) -> u16
        ensures { result ≡ longest_given self.now }
    {
        self.longest
    }

    /// Gives the next byte of the line's record, or else reads the source's next byte: how many of its bytes are then read,
    /// and the byte that was given, if one was. `None` where neither can be done.
    fn step(
        &mut self,
        source: &[u8],
        used: usize,
    ) -> Result<Option<(usize, Option<u8>)>, LineTooLong>
        requires { used ≤ length source.now }
        ensures steps { IfOk result (λ answer. IfSome answer (λ step.
            StepsText self.old self.new source.now used step.0 step.1)) }
        ensures stops { IfOk result (λ answer. IfNone answer
            ((gives self.old ≡ false) × (used ≡ length source.now))) }
        ensures stays { IfOk result (λ answer. IfNone answer (self.new ≡ self.old)) }
        ensures bad { OnErr result (HasLongLine self.old (drop used source.now)) }
    {
        match self.stage {
            Stage::Giving(given) => {
                let byte = self.give(given);
                Ok(Some((used, Some(byte))))
            }
            Stage::Reading(cr) => {
                if used == source.len() {
                    return Ok(None);
                }
                self.read(source[used], cr)?;
                Ok(Some((used + 1, None)))
            }
        }
    }

    /// Gives the next byte of the line's record.
    fn give(&mut self, given: usize) -> u8
        requires { self.old.stage ≡ Stage.Giving given }
        ensures gives { (bytes : List ℕ) → GivesBytes self.old self.new bytes bytes (result ∷ []) }
        ensures unended { open_of self.new ≡ 0 }
    {
        let length = self.line.len();
        let byte = record_byte(&self.line, given);
        if given + 1 < 2 + length + length % 2 {
            self.stage = Stage::Giving(given + 1);
        } else {
            self.longest = self.longest.max(length as u16);
            self.line.clear();
            self.stage = Stage::Reading(false);
        }
        byte
    }

    /// Reads a byte of the text, behind a CR or not.
    fn read(&mut self, byte: u8, cr: bool) -> Result<(), LineTooLong>
        requires { self.old.stage ≡ Stage.Reading cr }
        ensures reads { OnOk result (ReadsText self.old self.new byte) }
        ensures bad { OnErr result (HasLongLine self.old (byte ∷ [])) }
    {
        if byte == 0 {
            return Ok(());
        }
        if ends_line(cr, byte) {
            self.stage = Stage::Giving(0);
            return Ok(());
        }
        if self.line.remaining_capacity() < bytes_with(cr, byte) {
            return Err(LineTooLong);
        }
        extend(&mut self.line, cr, byte);
        self.stage = Stage::Reading(byte == CR);
        Ok(())
    }
}

/// Whether a byte ends a line, behind a CR or not.
fn ends_line(cr: bool, byte: u8) -> bool
    ensures { result ≡ (cr && byte == 10) }
{
    cr && byte == LF
}

/// Makes a CR that is pending a byte of the line.
fn keep_cr(line: &mut ArrayVec<u8, LONGEST_LINE>, cr: bool)
    requires { length line.old.items + (if cr then 1 else 0) ≤ 2048 }
    ensures { line.new.items ≡ with_cr line.old.items cr }
{
    if cr {
        line.push(CR);
    }
}

/// How many bytes of a line a CR makes that is pending.
fn cr_bytes(cr: bool) -> usize
    ensures { result ≡ (if cr then 1 else 0) }
{
    if cr { 1 } else { 0 }
}

/// How many it makes together with a byte behind it, which is pending itself if it is a CR.
fn bytes_with(cr: bool, byte: u8) -> usize
    ensures { result ≡ (if cr then 1 else 0) + (if byte == 13 then 0 else 1) }
{
    let first = cr_bytes(cr);
    if byte == CR { first } else { first + 1 }
}

/// Puts a byte behind a line and the CR that may end it, and leaves a CR pending.
fn extend(line: &mut ArrayVec<u8, LONGEST_LINE>, cr: bool, byte: u8)
    requires { length line.old.items + (if cr then 1 else 0) + (if byte == 13 then 0 else 1)
        ≤ 2048 }
    ensures { with_cr line.new.items (byte == 13) ≡ with_cr line.old.items cr ++ byte ∷ [] }
{
    keep_cr(line, cr);
    if byte != CR {
        line.push(byte);
    }
}

/// Byte `at` of the record of a line.
fn record_byte(line: &[u8], at: usize) -> u8
    requires few { length line.now ≤ 2048 }
    requires within { at < 2 + length line.now + length line.now % 2 }
    ensures { result ≡ slice_index (variable_record line.now) at }
{
    match at {
        0 => (line.len() % 256) as u8,
        1 => (line.len() / 256) as u8,
        _ if at - 2 < line.len() => line[at - 2],
        _ => 0,
    }
}
