//! Files that are taken out as texts of the host, one after another.
ghost use Rattle.std.specs.Prelude.{◌≡◌, ◌&&◌, length, IfErr, IfOk, OnErr, OnOk};
ghost use Rattle.f11_commands.specs.AllCommand.{CanBeRead};
ghost use Rattle.f11_commands.specs.AllText.{FindsFileText, FindsText, LooksAt, LooksThrough, may_be_lines, states_end};
ghost use Rattle.f11_index.specs.Kept.{index_kept, IndexLiesWithin};
ghost use Rattle.f11_reader.specs.Reading.{IsReading};

use crate::get::all::left_out::LeftOut;
use crate::get::all::line::write_text_line;
use crate::get::all::next::is_lost;
use crate::get::all::state::TakingAll;
use crate::get::all::taken_text::{TakenText, take_text_by};
use crate::get::all::taking::HostFull;
use crate::get::open::{has_open_end, is_text};
use crate::outcome::Failure;
use crate::records::has_all_records;
use f11_bytes::BLOCK_SIZE;
use f11_catalog::{Content, FileAt, Place, stated_end};
use f11_dev::{Device, DeviceFault};
use f11_header::Header;
use f11_index::IndexFile;
use f11_reader::FileReader;
use f11_store::FileId;
use std::io::Write;

/// Whether a file's header states its end, and says that its records are lines where it decides.
fn may_be_text(file: &FileReader, by_header: bool) -> bool
    ensures { result ≡ (states_end file.now && may_be_lines by_header file.now) }
{
    !has_open_end(file) && (!by_header || is_text(file))
}

/// Whether a file can be taken out as a text, whole.
fn file_has_text<D: Device>(
    device: &mut D,
    index: &IndexFile,
    size: u32,
    file: &FileReader,
    by_header: bool,
) -> Result<bool, DeviceFault>
    requires within { IndexLiesWithin (index_kept index.now) (length (D.disk device.old).image) }
    requires reading { IsReading (index_kept index.now) file.now (D.disk device.old) }
    ensures finds { IfOk result (λ answer. FindsFileText (index_kept index.now) size by_header
        file.now answer (D.disk device.old) (D.disk device.new)) }
    ensures failed { OnErr result
        (LooksThrough file.now (D.disk device.old) (D.disk device.new) 1) }
{
    if !may_be_text(file, by_header) {
        return Ok(false);
    }
    let end = stated_end(&Header::new(file.header()).attributes());
    let there = size.min(device.blocks());
    match file.first_missing(device, index, end.div_ceil(BLOCK_SIZE as u64), there) {
        Ok(None) => has_all_records(device, index, *file),
        Ok(Some(_)) => Ok(false),
        Err(fault) => Err(fault),
    }
}

/// Whether what stands in a place is a file that can be taken out as a text, whole.
fn content_has_text<D: Device>(
    device: &mut D,
    index: &IndexFile,
    wide: &IndexFile,
    size: u32,
    content: &Content,
    by_header: bool,
) -> Result<bool, DeviceFault>
    requires within { IndexLiesWithin (index_kept index.now) (length (D.disk device.old).image) }
    requires wide { IndexLiesWithin (index_kept wide.now) (length (D.disk device.old).image) }
    requires reading { CanBeRead (index_kept index.now) (index_kept wide.now) content.now
        (D.disk device.old) }
    ensures finds { IfOk result (λ answer. FindsText (index_kept index.now) (index_kept wide.now)
        size by_header content.now answer (D.disk device.old) (D.disk device.new)) }
    ensures failed { OnErr result (LooksAt content.now (D.disk device.old) (D.disk device.new) 1) }
{
    match content {
        Content::File(file) => file_has_text(device, index, size, file, by_header),
        Content::OutOfUse(file) => file_has_text(device, wide, size, file, by_header),
        Content::Missing(_) => Ok(false),
    }
}

impl<D: Device> TakingAll<D> {
    ghost use Rattle.f11_commands.specs.AllCommand.{FillsHost, device_of, index_by, index_of, wide_of};
    ghost use Rattle.f11_commands.specs.AllText.{AnswersText, FailsToTakeText, FailsToTakeTextFile, StaysInPlace};
    ghost use Rattle.f11_commands.specs.AllText.{TakesOutText, TakesTextFile, TakesTextNext};

    /// Whether what stands in a place can be taken out as a text of the host, whole, by [`TakingAll::write_text`]: it is a file; its header
    /// states its end, as that of a file doesn't which wasn't closed and states the end 0; where `by_header` is true its header says that
    /// its records are lines, which are of variable length (R.VAR) with a carriage return behind each (FD.CR); each block before the end
    /// lies on the volume and on the device, and a header names it; and all its records can be read up to the end.
    ///
    /// It reads the file, and writes nothing. Where a transfer fails it answers that it can't, and [`TakingAll::end`] answers that then. It
    /// makes at most so many transfers: three for each header that the file may still have, one for each block before the end, and one that
    /// fails; none where there is no file.
    pub fn has_text(&mut self, found: &FileAt, by_header: bool) -> bool
        requires reading { CanBeRead (index_of self.old) (wide_of self.old) found.now.content
            (D.disk (device_of self.old)) }
        ensures stays { StaysInPlace self.old self.new }
        ensures reading { CanBeRead (index_of self.new) (wide_of self.new) found.now.content
            (D.disk (device_of self.new)) }
        ensures answers { AnswersText found.now.content by_header result D.disk self.old self.new }
    {
        match content_has_text(
            &mut self.device,
            &self.index,
            &self.wide,
            self.size,
            &found.content,
            by_header,
        ) {
            Ok(answer) => answer,
            Err(DeviceFault) => {
                self.failed = true;
                false
            }
        }
    }

    /// Writes the text of a file's records to the host, each record and LF, and then its line, which is that of [`TakingAll::write`] with
    /// ` as text` behind the bytes: `[g,m] NAME.TYP;V copied N bytes as text`. It is called behind [`TakingAll::has_text`], where that
    /// answered true. Where a record can't be read after all, or a transfer fails, which [`TakingAll::end`] answers then, the host has the
    /// text of the records before that, or a beginning of it, the line has `a beginning` for the bytes, and the file counts as one that
    /// broke off. Where there is no file it writes the line that says so, as [`TakingAll::leave_out`].
    ///
    /// # Errors
    ///
    /// [`Failure::CannotWrite`] where the host takes no more, which may hold a part then, and nothing of the line is written; or where the
    /// writer takes no more, which may hold a part of the line, and the host has the text that it tells.
    pub fn write_text<H: Write, W: Write>(
        &mut self,
        found: &FileAt,
        beside: Option<FileId>,
        host: &mut H,
        writer: &mut W,
    ) -> Result<(), Failure>
        requires reading { CanBeRead (index_of self.old) (wide_of self.old) found.now.content
            (D.disk (device_of self.old)) }
        ensures takes { OnOk result (TakesTextNext found.now.place found.now.content beside D.disk
            self.old self.new H.contents host.old host.new W.contents writer.old writer.new) }
        ensures failed { IfErr result (λ failure. FailsToTakeText failure found.now.place
            found.now.content D.disk self.old self.new H.contents host.old host.new
            writer.old writer.new) }
    {
        match found.content {
            Content::File(file) => {
                self.write_text_file(&found.place, &file, true, beside, host, writer)
            }
            Content::OutOfUse(file) => {
                self.write_text_file(&found.place, &file, false, beside, host, writer)
            }
            Content::Missing(absence) => {
                let why = LeftOut::Missing(found.place.id(), absence);
                self.leave_out(&found.place, &why, writer)
            }
        }
    }

    /// Writes a file's text to the host, by the index file that it was found by, and then its line.
    fn write_text_file<H: Write, W: Write>(
        &mut self,
        place: &Place,
        file: &FileReader,
        in_use: bool,
        beside: Option<FileId>,
        host: &mut H,
        writer: &mut W,
    ) -> Result<(), Failure>
        requires reading { IsReading (index_by in_use self.old) file.now
            (D.disk (device_of self.old)) }
        ensures takes { OnOk result (TakesTextFile place.now file.now in_use beside D.disk
            self.old self.new H.contents host.old host.new W.contents writer.old writer.new) }
        ensures failed { IfErr result (λ failure. FailsToTakeTextFile failure place.now file.now
            in_use D.disk self.old self.new H.contents host.old host.new writer.old writer.new) }
    {
        match self.take_text(place, file, in_use, host) {
            Ok(taken) => {
                write_text_line(writer, place, in_use, beside, &taken)?;
                Ok(())
            }
            Err(HostFull) => Err(Failure::CannotWrite),
        }
    }

    /// Writes a file's text to the host, and counts it.
    fn take_text<H: Write>(
        &mut self,
        place: &Place,
        file: &FileReader,
        in_use: bool,
        host: &mut H,
    ) -> Result<TakenText, HostFull>
        requires reading { IsReading (index_by in_use self.old) file.now
            (D.disk (device_of self.old)) }
        ensures takes { IfOk result (λ taken. TakesOutText place.now file.now in_use taken D.disk
            self.old self.new H.contents host.old host.new) }
        ensures full { OnErr result (FillsHost D.disk self.old self.new) }
    {
        let taken = take_text_by(
            &mut self.device,
            &self.index,
            &self.wide,
            in_use,
            file,
            host,
        )?;
        self.failed = self.failed || taken.has_failed();
        self.counts.add_copied(taken.is_cut(), is_lost(place));
        Ok(taken)
    }
}
