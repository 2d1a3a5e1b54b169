//! From records to text.
ghost use Rattle.f11_store.specs.File.{most_blocks};
ghost use Rattle.std.specs.Prelude.{◌≡◌, ◌↔◌, ◌+◌, ◌-◌, ◌*◌, ◌<◌, ◌≤◌, ℕ, true, false, List, ◌∷◌, IsTrue, length, min, slice_range, None, option_map, option_to_list, IsErr, IfOk, IfSome, IfNone, OnErr};
ghost use Rattle.f11_flx.specs.Place.{behind_line, has_place, is_ending, wanted_at, ReadsByte, RefusesByte};
ghost use Rattle.f11_flx.specs.Puts.{PutsAt};
ghost use Rattle.f11_flx.specs.Records.{layout_of, some_of, Which};

use crate::attributes::layout;
use crate::layout::Layout;
use crate::line_end::LineEnd;
use crate::place::Place;
use crate::put::put;
use crate::records::BadRecord;
use f11_bytes::{BLOCK_SIZE, Block};
use f11_making::end;

/// The text of a file's records, each of them and then what ends a line (RSX-11M Utilities manual, FLX), made from the
/// file's bytes in whatever pieces they come.
#[derive(Clone, Copy, Debug)]
pub struct ToText {
    layout: Layout,
    ends: LineEnd,
    /// The bytes of the file that are still to come.
    rest: u32,
    place: Place,
    ghost some: { 0 < some_of layout },
    ghost wanted: { wanted_at place ≤ rest },
    ghost placed: { IsTrue (has_place layout place) },
}

impl ToText {
    ghost use Rattle.std.specs.Prelude.{drop};
    ghost use Rattle.std.specs.List.{concat};
    ghost use Rattle.f11_store.specs.File.{File, stated_end, length_of};
    ghost use Rattle.f11_flx.specs.ToText.{converted_by, converted_text, ends_record, rest_of, text_by, text_left, Converts, HasNoText, MeetsBad, StopsAt, Stops, EndsRecord, ReadsOn, RefusesOn, IsTextStep};

    /// The conversion into lines that end with CR LF of a file with these attributes (H.UFAT) and so many blocks, of which it
    /// may have 8,323,072.
    ///
    /// # Errors
    ///
    /// `BadRecord` where the attributes don't say how the records lie.
    pub fn new(attr: &[u8; 32], allocation: u32) -> Result<ToText, BadRecord>
        requires { allocation ≤ most_blocks }
        ensures starts { IfOk result (λ text. (file : File) → file.attr ≡ attr.now
            → length_of file ≡ allocation
            → text_left text (concat file.blocks) ≡ converted_text file) }
        ensures rest { IfOk result (λ text.
            rest_of text ≡ min (stated_end attr.now) (512 * allocation)) }
        ensures begins { IfOk result (λ text. ends_record text ≡ false) }
        ensures bad { IsErr result ↔ (layout_of attr.now ≡ None) }
    {
        ToText::ending(attr, allocation, LineEnd::CrLf)
    }

    /// The conversion as [`ToText::new`] begins it, into lines that end so.
    ///
    /// # Errors
    ///
    /// `BadRecord` where the attributes don't say how the records lie.
    pub fn ending(attr: &[u8; 32], allocation: u32, ends: LineEnd) -> Result<ToText, BadRecord>
        requires { allocation ≤ most_blocks }
        ensures starts { IfOk result (λ text. (which : Which) (file : File) → file.attr ≡ attr.now
            → length_of file ≡ allocation
            → text_by which text (concat file.blocks) ≡ converted_by ends which file) }
        ensures rest { IfOk result (λ text.
            rest_of text ≡ min (stated_end attr.now) (512 * allocation)) }
        ensures begins { IfOk result (λ text. ends_record text ≡ false) }
        ensures bad { IsErr result ↔ (layout_of attr.now ≡ None) }
    {
        let Some(layout) = layout(attr) else {
            return Err(BadRecord);
        };
        Ok(ToText {
            layout,
            ends,
            rest: end(attr, allocation),
            place: Place::Record,
        })
    }

    /// Converts bytes of the file into a target block, from byte `from` of it on, until the target is full or the bytes are
    /// used up: how many bytes of the source were read, and the byte of the target behind the last that was put. The file
    /// goes on with the source's other bytes.
    ///
    /// # Errors
    ///
    /// `BadRecord` where a record goes past the end of the file. Then this value is of no more use.
    pub fn convert(
        &mut self,
        source: &[u8],
        target: &mut Block,
        from: usize,
    ) -> Result<(usize, usize), BadRecord>
        requires { from ≤ 512 }
        ensures converts { IfOk result (λ done.
            Converts self.old self.new source.now done.0 target.new from done.1) }
        ensures puts { IfOk result (λ done. PutsAt target.old target.new from done.1) }
        ensures room { IfOk result (λ done. done.1 ≤ 512) }
        ensures stops { IfOk result (λ done. StopsAt self.new source.now done.0 done.1) }
        ensures bad { OnErr result (HasNoText self.old source.now) }
    {
        let (used, to, bad) = self.convert_good(source, target, from);
        if bad {
            return Err(BadRecord);
        }
        Ok((used, to))
    }

    /// Converts as [`ToText::convert`] does, up to a record that goes past the end of the file: how many bytes of the source
    /// were read, the byte of the target behind the last that was put, and whether there is such a record. Then all of the
    /// text before it was put, and this value is of no more use.
    pub fn convert_good(
        &mut self,
        source: &[u8],
        target: &mut Block,
        from: usize,
    ) -> (usize, usize, bool)
        requires { from ≤ 512 }
        ensures converts { Converts self.old self.new source.now result.0 target.new from result.1 }
        ensures puts { PutsAt target.old target.new from result.1 }
        ensures room { result.1 ≤ 512 }
        ensures stops { result.2 ≡ false → StopsAt self.new source.now result.0 result.1 }
        ensures bad { result.2 ≡ true → MeetsBad self.new (drop result.0 source.now) }
    {
        let mut used = 0;
        let mut to = from;
        while to < BLOCK_SIZE {
            match self.step(source, used) {
                Ok(Some((next, given))) => {
                    used = next;
                    to = put(target, to, given);
                }
                Ok(None) => return (used, to, false),
                Err(_) => return (used, to, true),
            }
        }
        (used, to, false)
    }

    /// Gives the byte of a line's end that is to come, or else reads the source's next byte: how many of its bytes are then
    /// read, and the byte of text that was given, if one was. `None` where neither can be done.
    fn step(&mut self, source: &[u8], used: usize) -> Result<Option<(usize, Option<u8>)>, BadRecord>
        requires { used ≤ length source.now }
        ensures steps { IfOk result (λ answer. IfSome answer (λ step.
            IsTextStep self.old self.new source.now used step.0 step.1)) }
        ensures stops { IfOk result (λ answer. IfNone answer (Stops self.old source.now used)) }
        ensures stays { IfOk result (λ answer. IfNone answer (self.new ≡ self.old)) }
        ensures bad { OnErr result (MeetsBad self.new (drop used source.now)) }
        ensures kept { OnErr result (self.new ≡ self.old) }
    {
        if let Some(byte) = self.end_record() {
            return Ok(Some((used, Some(byte))));
        }
        if used == source.len() || self.rest == 0 {
            return Ok(None);
        }
        let given = self.read(source[used])?;
        Ok(Some((used + 1, given)))
    }

    /// How many bytes of the file are still to come.
    pub fn rest(&self) -> u32
        ensures { result ≡ rest_of self.now }
    {
        self.rest
    }

    /// A byte that ends a line, where one is to come.
    fn end_record(&mut self) -> Option<u8>
        ensures ends { IfSome result (λ byte. EndsRecord self.old self.new byte) }
        ensures none { IfNone result (ends_record self.old ≡ false) }
        ensures stays { IfNone result (self.new ≡ self.old) }
    {
        match self.place {
            Place::Within(0, pad) => match self.ends {
                LineEnd::CrLf => {
                    self.place = Place::LineFeed(pad);
                    Some(b'\r')
                }
                LineEnd::Lf => {
                    self.place = behind(pad);
                    Some(b'\n')
                }
            },
            Place::LineFeed(pad) => {
                self.place = behind(pad);
                Some(b'\n')
            }
            _ => None,
        }
    }

    /// Reads a byte of the file, and gives the byte of text that it is, if it is one.
    fn read(&mut self, byte: u8) -> Result<Option<u8>, BadRecord>
        requires some { 0 < rest_of self.old }
        requires reads { ends_record self.old ≡ false }
        ensures reads { IfOk result (λ given. ReadsOn self.old self.new byte given) }
        ensures bad { OnErr result (RefusesOn self.old byte) }
        ensures kept { OnErr result (self.new ≡ self.old) }
    {
        let rest = self.rest - 1;
        let (place, given) = next(self.layout, self.place, byte, rest)?;
        self.rest = rest;
        self.place = place;
        Ok(given)
    }
}

/// What comes behind the end of a line.
fn behind(pad: bool) -> Place
    ensures { result ≡ behind_line pad }
{
    if pad { Place::Pad } else { Place::Record }
}

/// What comes behind a byte, and the byte of text that it is, if it is one.
type Next = Result<(Place, Option<u8>), BadRecord>;

/// What is behind a byte at a place, where `rest` bytes of the file are behind it.
fn next(layout: Layout, place: Place, byte: u8, rest: u32) -> Next
    requires some { 0 < some_of layout }
    requires reads { is_ending place ≡ false }
    requires wanted { wanted_at place ≤ rest + 1 }
    requires placed { IsTrue (has_place layout place) }
    ensures reads { IfOk result (λ next. ReadsByte layout place next.0 byte rest next.1) }
    ensures bad { OnErr result (RefusesByte layout place byte rest) }
{
    match place {
        Place::Record => first(layout, byte, rest),
        Place::High(low) => sized(low, byte, rest),
        Place::Within(left, pad) => Ok((Place::Within(left - 1, pad), Some(byte))),
        Place::LineFeed(_) => unreachable!(),
        Place::Pad => Ok((Place::Record, None)),
    }
}

/// What is behind the first byte of a record.
fn first(layout: Layout, byte: u8, rest: u32) -> Next
    requires { 0 < some_of layout }
    ensures reads { IfOk result (λ next. ReadsByte layout Place.Record next.0 byte rest next.1) }
    ensures bad { OnErr result (RefusesByte layout Place.Record byte rest) }
{
    match layout {
        Layout::Fixed(size) => {
            if u32::from(size - 1) > rest {
                Err(BadRecord)
            } else {
                Ok((Place::Within(size - 1, false), Some(byte)))
            }
        }
        Layout::Variable => {
            if rest == 0 {
                Err(BadRecord)
            } else {
                Ok((Place::High(byte), None))
            }
        }
    }
}

/// What is behind the high byte of a length word.
fn sized(low: u8, byte: u8, rest: u32) -> Next
    ensures reads { IfOk result (λ next.
        ReadsByte Layout.Variable (Place.High low) next.0 byte rest next.1) }
    ensures bad { OnErr result (RefusesByte Layout.Variable (Place.High low) byte rest) }
{
    let size = u16::from(byte) * 256 + u16::from(low);
    if u32::from(size) > rest {
        Err(BadRecord)
    } else {
        Ok((Place::Within(size, size % 2 == 1), None))
    }
}
