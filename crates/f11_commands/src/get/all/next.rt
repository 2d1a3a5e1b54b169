//! The steps of `get --all`.
ghost use Rattle.std.specs.Prelude.{◌≡◌, IfErr, IfNone, IfSome, OnErr, OnOk, IfOk};
ghost use Rattle.f11_commands.specs.AllCommand.{place_is_lost};

use crate::get::all::left_out::LeftOut;
use crate::get::all::line::{write_all_line, write_left_out, write_line};
use crate::get::all::state::TakingAll;
use crate::get::all::taking::{HostFull, Taken, take_by};
use crate::ls::Served;
use crate::outcome::{Answer, Failure};
use f11_catalog::{Content, FileAt, Place};
use f11_dev::{Device, DeviceFault};
use f11_reader::FileReader;
use f11_store::FileId;
use std::io::Write;

/// Whether a place is that of a file which no directory names.
pub(crate) fn is_lost(place: &Place) -> bool
    ensures { result ≡ place_is_lost place.now }
{
    matches!(place, Place::Lost(_, _))
}

impl<D: Device> TakingAll<D> {
    ghost use Rattle.f11_commands.specs.AllCommand.{CanBeRead, EndsAll, FailsToLeaveOut, FailsToTake, FailsToTakeFile};
    ghost use Rattle.f11_commands.specs.AllCommand.{FillsHost, FindsNext, HasNoNext, LeavesOut, TakesFileNext, TakesNext, TakesOut};
    ghost use Rattle.f11_commands.specs.AllCommand.{device_of, index_by, index_of, wide_of};
    ghost use Rattle.f11_reader.specs.Reading.{IsReading};

    /// What stands in the next place; `None` behind the last, or where a transfer fails, which [`TakingAll::end`] answers then: files may be
    /// left out.
    pub fn next(&mut self) -> Option<FileAt>
        ensures finds { IfSome result (λ found. FindsNext found D.disk self.old self.new) }
        ensures reading { IfSome result (λ found. CanBeRead (index_of self.new) (wide_of self.new)
            found.content (D.disk (device_of self.new))) }
        ensures ended { IfNone result (HasNoNext D.disk self.old self.new) }
    {
        match self.files.next(&mut self.device, &self.index, &self.wide) {
            Ok(Some(found)) => Some(found),
            Ok(None) => None,
            Err(DeviceFault) => {
                self.failed = true;
                None
            }
        }
    }

    /// Writes the bytes of a file up to its end to the host, or before the block by which it breaks off, and then its line: `[g,m] NAME.TYP;V
    /// copied N bytes` or `lost N,S NAME.TYP;V copied N bytes`. Behind the name stands ` (N,S)` where `beside` has an identification: the file
    /// stands beside another of its name. Behind the bytes stands ` open, all blocks` where the file wasn't closed and states the end 0, so
    /// that all its blocks are taken; ` out of use` where the bit of its slot is 0; ` zeros from VBN V` where block V is the first before the
    /// end that lies past the device's end, so that zeros came for it; and ` broke off at VBN V` where block V is the first before the end
    /// that lies past the volume's end, or that no header names, or at which a transfer failed, which [`TakingAll::end`] answers then. Where there is no file it writes the line that says so, as [`TakingAll::leave_out`].
    ///
    /// # Errors
    ///
    /// [`Failure::CannotWrite`] where the host takes no more, which may hold a part then, and nothing of the line is written; or where the
    /// writer takes no more, which may hold a part of the line, and the host has the bytes that it tells.
    pub fn write<H: Write, W: Write>(
        &mut self,
        found: &FileAt,
        beside: Option<FileId>,
        host: &mut H,
        writer: &mut W,
    ) -> Result<(), Failure>
        requires reading { CanBeRead (index_of self.old) (wide_of self.old) found.now.content
            (D.disk (device_of self.old)) }
        ensures takes { OnOk result (TakesNext found.now.place found.now.content beside D.disk
            self.old self.new H.contents host.old host.new W.contents writer.old writer.new) }
        ensures failed { IfErr result (λ failure. FailsToTake failure found.now.place
            found.now.content D.disk self.old self.new H.contents host.old host.new
            writer.old writer.new) }
    {
        match found.content {
            Content::File(file) => {
                self.write_file(&found.place, &file, true, beside, host, writer)
            }
            Content::OutOfUse(file) => {
                self.write_file(&found.place, &file, false, beside, host, writer)
            }
            Content::Missing(absence) => {
                let why = LeftOut::Missing(found.place.id(), absence);
                self.leave_out(&found.place, &why, writer)
            }
        }
    }

    /// Writes a file to the host, by the index file that it was found by, and then its line.
    fn write_file<H: Write, W: Write>(
        &mut self,
        place: &Place,
        file: &FileReader,
        in_use: bool,
        beside: Option<FileId>,
        host: &mut H,
        writer: &mut W,
    ) -> Result<(), Failure>
        requires reading { IsReading (index_by in_use self.old) file.now
            (D.disk (device_of self.old)) }
        ensures takes { OnOk result (TakesFileNext place.now file.now in_use beside D.disk
            self.old self.new H.contents host.old host.new W.contents writer.old writer.new) }
        ensures failed { IfErr result (λ failure. FailsToTakeFile failure place.now file.now in_use
            D.disk self.old self.new H.contents host.old host.new writer.old writer.new) }
    {
        match self.take(place, file, in_use, host) {
            Ok(taken) => {
                write_line(writer, place, in_use, beside, &taken)?;
                Ok(())
            }
            Err(HostFull) => Err(Failure::CannotWrite),
        }
    }

    /// Writes a file's bytes to the host, and counts it.
    fn take<H: Write>(
        &mut self,
        place: &Place,
        file: &FileReader,
        in_use: bool,
        host: &mut H,
    ) -> Result<Taken, HostFull>
        requires reading { IsReading (index_by in_use self.old) file.now
            (D.disk (device_of self.old)) }
        ensures takes { IfOk result (λ taken. TakesOut place.now file.now in_use taken D.disk
            self.old self.new H.contents host.old host.new) }
        ensures full { OnErr result (FillsHost D.disk self.old self.new) }
    {
        let taken = take_by(
            &mut self.device,
            &self.index,
            &self.wide,
            in_use,
            self.size,
            file,
            host,
        )?;
        self.failed = self.failed || taken.failed;
        self.counts.add_copied(taken.is_cut(), is_lost(place));
        Ok(taken)
    }

    /// Writes the line of a file that isn't taken out: `[g,m] NAME.TYP;V not copied` and why.
    ///
    /// # Errors
    ///
    /// [`Failure::CannotWrite`] where the writer takes no more, which may hold a part of the line.
    pub fn leave_out<W: Write>(
        &mut self,
        place: &Place,
        why: &LeftOut,
        writer: &mut W,
    ) -> Result<(), Failure>
        ensures leaves { OnOk result (LeavesOut place.now why.now self.old self.new
            W.contents writer.old writer.new) }
        ensures failed { IfErr result (λ failure. FailsToLeaveOut failure why.now self.old self.new) }
    {
        self.counts.add_left_out(why.is_wanting());
        write_left_out(writer, place, why)?;
        Ok(())
    }

    /// Writes the last line, `all N copied, M cut, K not copied, L in lost`: how many files were taken out, how many of these broke off, how
    /// many were left out, and how many of those that were taken out no directory names. It gives the device back, and what the command
    /// answers: whether the volume has faults, and [`Answer::Fault`] where a file broke off or was left out.
    ///
    /// # Errors
    ///
    /// Within: [`Failure::DeviceFault`] where a transfer failed; else [`Failure::CannotWrite`] where the writer takes no more.
    pub fn end<W: Write>(self, writer: &mut W) -> (D, Result<Served, Failure>)
        ensures device { result.0 ≡ device_of self }
        ensures ends { EndsAll self result.1 W.contents writer.old writer.new }
    {
        let written = write_all_line(writer, &self.counts);
        let TakingAll {
            device,
            faulty,
            failed,
            counts,
            ..
        } = self;
        if failed {
            return (device, Err(Failure::DeviceFault));
        }
        let answer = if counts.cut == 0 && counts.left_out == 0 {
            Answer::Done
        } else {
            Answer::Fault
        };
        match written {
            Ok(()) => (device, Ok(Served { answer, faulty })),
            Err(_) => (device, Err(Failure::CannotWrite)),
        }
    }
}
