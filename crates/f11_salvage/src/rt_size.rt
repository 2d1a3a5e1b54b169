//! Of which size a fresh RT-11 volume is to which all files of another are copied.
ghost use Rattle.std.specs.Prelude.{◌≡◌, IfErr, IfOk, OnOk, length};
ghost use Rattle.f11_commands.specs.Output.{WriterTakes};
ghost use Rattle.f11_salvage.specs.RtSize.{FirstSize, IsTooSmall, TakesSegments, TakesSize, is_count, old_blocks, refused_size_line, takes_blocks};

use crate::rt_pack::RtPack;
use f11_commands::{Answer, Failure, RtState};
use f11_dev::Device;
use rt11_copy::{RtNeed, blocks_for, need_of, will_fit};
use std::io::Write;

/// Of which size a fresh volume is.
#[derive(Clone, Copy, Debug, PartialEq, Eq)]
pub struct RtSize {
    /// How many blocks its device has.
    pub blocks: u32,
    /// How many segments its directory has.
    pub segments: u16,
}

/// Why a fresh volume of a size has no room for files.
#[derive(Clone, Copy, Debug, PartialEq, Eq)]
pub enum RtTooSmall {
    /// A directory has 1 to 31 segments.
    BadParameter,
    /// The files want this size: with so many segments no volume of fewer blocks has room, nor any with fewer segments that are as many as
    /// were to be, or any at all where more segments leave no room.
    Wants(RtSize),
    /// No RT-11 volume has room for them.
    Never,
}

/// The first size, by segments from so many on, that has room for files.
fn first_size(need: &RtNeed, from: u16) -> Option<RtSize>
    ensures { FirstSize need.now from result }
{
    for segments in from..32 {
        if let Some(blocks) = blocks_for(need, segments) {
            return Some(RtSize { blocks, segments });
        }
    }
    None
}

/// How many segments are to be, by what is asked for and how many the old volume has.
fn segments_to_be(need: &RtNeed, old: u16, asked: Option<u16>) -> u16
    ensures { TakesSegments need.now old asked result }
{
    match asked {
        Some(segments) => segments,
        None => match first_size(need, old) {
            Some(size) => size.segments,
            None => old,
        },
    }
}

/// How many blocks an old volume should have whose device has so many.
fn old_blocks(state: RtState, size: u32) -> u32
    ensures { result ≡ old_blocks state size }
{
    match state {
        RtState::Short(wanted) => wanted,
        RtState::Sound => size,
        RtState::Faulty => size,
    }
}

/// How many blocks are to be, by what is asked for and how many the old volume should have.
fn blocks_to_be(old: u32, asked: Option<u16>) -> u32
    ensures { result ≡ takes_blocks old asked }
{
    match asked {
        Some(blocks) => u32::from(blocks),
        None => old.min(65535),
    }
}

/// Why no volume of this size has room.
fn why_too_small(need: &RtNeed, tried: RtSize) -> RtTooSmall
    ensures { IsTooSmall need.now tried result }
{
    if tried.segments == 0 || tried.segments > 31 {
        return RtTooSmall::BadParameter;
    }
    match first_size(need, tried.segments) {
        Some(size) => RtTooSmall::Wants(size),
        None => match first_size(need, 1) {
            Some(size) => RtTooSmall::Wants(size),
            None => RtTooSmall::Never,
        },
    }
}

impl<D: Device> RtPack<D> {
    /// Of which size a fresh volume is to be, of so many blocks and segments where these are said: else of as many blocks as the old one
    /// should have, and of as many segments, or more, where its files want them. By arithmetic over the entries alone, with no transfer.
    ///
    /// # Errors
    ///
    /// Where not all files surely fit: which size they want.
    pub fn size(&self, blocks: Option<u16>, segments: Option<u16>) -> Result<RtSize, RtTooSmall>
        ensures { TakesSize D.disk self.now blocks segments result }
    {
        let size = self.device.blocks();
        let need = need_of(size, self.entries.as_slice());
        let tried = RtSize {
            blocks: blocks_to_be(old_blocks(self.state, size), blocks),
            segments: segments_to_be(&need, self.head.segments, segments),
        };
        if will_fit(&need, tried.segments, tried.blocks) {
            Ok(tried)
        } else {
            Err(why_too_small(&need, tried))
        }
    }
}

/// Writes that no volume of a size has room for the files: `no BadParameter` where no directory has so many segments, and else `no NoSpace`.
///
/// # Errors
///
/// [`Failure::CannotWrite`] where the writer takes no more.
pub fn refuse_rt_copy<W: Write>(why: RtTooSmall, writer: &mut W) -> Result<Answer, Failure>
    ensures line { OnOk result (WriterTakes W.contents writer.old writer.new
        (refused_size_line why)) }
    ensures answer { IfOk result (λ answer. answer ≡ Answer.Fault) }
    ensures failed { IfErr result (λ failure. failure ≡ Failure.CannotWrite) }
{
    match why {
        RtTooSmall::BadParameter => writeln!(writer, "no BadParameter")?,
        RtTooSmall::Wants(_) => writeln!(writer, "no NoSpace")?,
        RtTooSmall::Never => writeln!(writer, "no NoSpace")?,
    }
    Ok(Answer::Fault)
}
