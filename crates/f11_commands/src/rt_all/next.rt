//! The steps of `rt-get --all`.
ghost use Rattle.std.specs.Prelude.{◌≡◌, IfErr, IfNone, IfOk, IfSome, OnErr, OnOk};
ghost use Rattle.f11_commands.specs.Output.{WriterTakes};
ghost use Rattle.f11_commands.specs.RtAll.{copied_at_line, copied_text, counted_copied, counted_refused, counts_answer, counts_line, not_copied_line, one_more, one_more_if};

use crate::get::all::taking::HostFull;
use crate::outcome::{Failure, FileAnswer};
use crate::rt_all::found::{RtFileAt, RtPlace, RtWhyNot, file_at, is_lost, why_of};
use crate::rt_all::state::{RtCounts, TakingAllRt};
use crate::rt_all::taking::{RtTaken, take_out};
use crate::rt_any::{RtServed, write_replaced};
use crate::rt_area::ShownBreak;
use f11_dev::Device;
use std::io::{self, Write};

/// One more, as far as is counted.
fn one_more(n: u32) -> u32
    ensures { result ≡ one_more n }
{
    n.saturating_add(1)
}

/// One more where that holds.
fn one_more_if(holds: bool, n: u32) -> u32
    ensures { result ≡ one_more_if holds n }
{
    if holds { one_more(n) } else { n }
}

/// What is counted behind a file that was taken out.
fn counted_copied(place: &RtPlace, missing: Option<u64>, counts: &RtCounts) -> RtCounts
    ensures { result ≡ counted_copied place.now missing counts.now }
{
    RtCounts {
        copied: one_more(counts.copied),
        cut: one_more_if(missing.is_some(), counts.cut),
        not_copied: counts.not_copied,
        lost: one_more_if(is_lost(place), counts.lost),
    }
}

/// What is counted behind an entry that wasn't.
fn counted_refused(counts: &RtCounts) -> RtCounts
    ensures { result ≡ counted_refused counts.now }
{
    RtCounts {
        copied: counts.copied,
        cut: counts.cut,
        not_copied: one_more(counts.not_copied),
        lost: counts.lost,
    }
}

/// How the command's work ended.
fn counts_answer(counts: &RtCounts) -> FileAnswer
    ensures { result ≡ counts_answer counts.now }
{
    if counts.cut == 0 && counts.not_copied == 0 {
        FileAnswer::Done
    } else {
        FileAnswer::Refused
    }
}

/// Writes the line of a file that was taken out.
fn write_copied<W: Write>(
    writer: &mut W,
    found: &RtFileAt,
    taken: &RtTaken,
    bad: &[u16],
) -> io::Result<()>
    ensures { OnOk result (WriterTakes W.contents writer.old writer.new
        (copied_at_line bad.now found.now taken.now)) }
{
    write_text(writer, &found.place, taken)?;
    write_replaced(writer, bad, found.entry.first, found.entry.blocks)?;
    writeln!(writer)
}

/// Writes that line but for its end.
fn write_text<W: Write>(writer: &mut W, place: &RtPlace, taken: &RtTaken) -> io::Result<()>
    ensures { OnOk result (WriterTakes W.contents writer.old writer.new
        (copied_text place.now taken.now)) }
{
    let blocks = taken.blocks;
    let broken = ShownBreak(taken.missing);
    write!(writer, "{place} copied {blocks}{broken}")
}

/// Writes the line of an entry that wasn't.
fn write_not_copied<W: Write>(writer: &mut W, place: &RtPlace, why: RtWhyNot) -> io::Result<()>
    ensures { OnOk result (WriterTakes W.contents writer.old writer.new
        (not_copied_line place.now why)) }
{
    writeln!(writer, "{place} not copied {why}")
}

/// Writes the last line.
fn write_counts<W: Write>(writer: &mut W, counts: &RtCounts) -> io::Result<()>
    ensures { OnOk result (WriterTakes W.contents writer.old writer.new (counts_line counts.now)) }
{
    let RtCounts {
        copied,
        cut,
        not_copied,
        lost,
    } = *counts;
    writeln!(
        writer,
        "all {copied} copied, {cut} cut, {not_copied} not copied, {lost} in lost"
    )
}

impl<D: Device> TakingAllRt<D> {
    ghost use Rattle.f11_commands.specs.RtAll.{device_of};
    ghost use Rattle.f11_commands.specs.RtAll.{EndsAll, FailsToRefuse, FailsToTake, FillsHost, GivesNext, HasNoNext, RefusesNext};
    ghost use Rattle.f11_commands.specs.RtAll.{TakesNext, TakesOut};

    /// The next entry of the directory, where it stands, and what becomes of it; `None` behind the last.
    pub fn next(&mut self) -> Option<RtFileAt>
        ensures gives { IfSome result (λ found. GivesNext found self.old self.new) }
        ensures ended { IfNone result (HasNoNext self.old self.new) }
    {
        match self.entries.as_slice().get(self.next) {
            Some(entry) => {
                let found = file_at(&self.entries, entry);
                self.next += 1;
                Some(found)
            }
            None => None,
        }
    }

    /// Writes the blocks of a file to the host, zeros for those past the device's end, and then its line: `NAME.TYP copied N`, `lost/S,E
    /// NAME.TYP copied N` or `lost/S,E copied N`, and behind it ` broke off at block V` where V, from 1, is the first that lies past the end; or
    /// where a transfer failed at that block, which [`TakingAllRt::end`] answers then; and ` block N replaced` for each of its blocks that the
    /// table of bad blocks has.
    ///
    /// # Errors
    ///
    /// [`Failure::CannotWrite`] where the host takes no more, which may hold a part then, and nothing of the line is written; or where the
    /// writer takes no more, which may hold a part of the line, and the host has the blocks that it tells.
    pub fn write<H: Write, W: Write>(
        &mut self,
        found: &RtFileAt,
        host: &mut H,
        writer: &mut W,
    ) -> Result<(), Failure>
        ensures takes { OnOk result (TakesNext found.now D.disk self.old self.new
            H.contents host.old host.new W.contents writer.old writer.new) }
        ensures failed { IfErr result (λ failure. FailsToTake failure found.now D.disk
            self.old self.new H.contents host.old host.new writer.old writer.new) }
    {
        match self.take(found, host) {
            Ok(taken) => {
                write_copied(writer, found, &taken, self.bad.as_slice())?;
                Ok(())
            }
            Err(HostFull) => Err(Failure::CannotWrite),
        }
    }

    /// Writes a file's blocks to the host, and counts it.
    fn take<H: Write>(&mut self, found: &RtFileAt, host: &mut H) -> Result<RtTaken, HostFull>
        ensures takes { IfOk result (λ taken. TakesOut found.now taken D.disk self.old self.new
            H.contents host.old host.new) }
        ensures full { OnErr result (FillsHost found.now D.disk self.old self.new) }
    {
        let taken = take_out(&mut self.device, &found.entry, host)?;
        self.failed = self.failed || taken.failed;
        self.counts = counted_copied(&found.place, taken.missing, &self.counts);
        Ok(taken)
    }

    /// Writes the line of an entry that isn't taken out: its place, and ` not copied status wrong`, ` not copied past block 65534`, or where a
    /// file of the host can't be made for it ` not copied cannot be made`.
    ///
    /// # Errors
    ///
    /// [`Failure::CannotWrite`] where the writer takes no more.
    pub fn refuse<W: Write>(&mut self, found: &RtFileAt, writer: &mut W) -> Result<(), Failure>
        ensures refuses { OnOk result (RefusesNext found.now self.old self.new
            W.contents writer.old writer.new) }
        ensures failed { IfErr result (λ failure. FailsToRefuse failure self.old self.new) }
    {
        self.counts = counted_refused(&self.counts);
        write_not_copied(writer, &found.place, why_of(&found.fate))?;
        Ok(())
    }

    /// Writes the last line, `all N copied, M cut, K not copied, L in lost`, and gives the device back, and what the command answers: that all is
    /// done where M and K are 0.
    ///
    /// # Errors
    ///
    /// Within: [`Failure::DeviceFault`] where a transfer failed; else [`Failure::CannotWrite`] where the writer takes no more.
    pub fn end<W: Write>(self, writer: &mut W) -> (D, Result<RtServed, Failure>)
        ensures device { result.0 ≡ device_of self }
        ensures ends { EndsAll self result.1 W.contents writer.old writer.new }
    {
        let written = write_counts(writer, &self.counts);
        let TakingAllRt {
            device,
            state,
            counts,
            failed,
            ..
        } = self;
        if failed {
            return (device, Err(Failure::DeviceFault));
        }
        let answer = counts_answer(&counts);
        match written {
            Ok(()) => (device, Ok(RtServed { answer, state })),
            Err(_) => (device, Err(Failure::CannotWrite)),
        }
    }
}
