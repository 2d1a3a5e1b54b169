//! A file that was found, on its device.
ghost use Rattle.std.specs.Prelude.{◌≡◌, length};
ghost use Rattle.f11_commands.specs.OpenEnd.{has_lines as is_of_lines, has_open_end as is_left_open, mode_of as mode_by_header};
ghost use Rattle.f11_index.specs.Kept.{index_kept, IndexLiesWithin};
ghost use Rattle.f11_reader.specs.Reading.{IsReading};

use crate::get::open::{has_lines, has_open_end, mode_of};
use f11_dev::Device;
use f11_flx::CopyMode;
use f11_index::IndexFile;
use f11_reader::FileReader;

/// A file that was found, none of whose bytes was read, on its device.
#[derive(Drop)]
pub struct FoundFile<D: Device> {
    /// The device that has the volume.
    pub(crate) device: D,
    /// The volume's index file.
    pub(crate) index: IndexFile,
    /// The file, whose first header is in hand.
    pub(crate) file: FileReader,
    /// Where it ends, in bytes, if it has blocks for so many.
    pub(crate) end: u64,
    /// Where the volume ends, in blocks.
    pub(crate) size: u32,
    /// Whether the bit of its slot says that it is in use.
    pub(crate) in_use: bool,
    /// Whether the volume has faults.
    pub(crate) faulty: bool,
    /// The index file lies on the device.
    pub ghost within: { IndexLiesWithin (index_kept index) (length (D.disk device).image) },
    /// The header in hand is one of the device's.
    pub ghost reading: { IsReading (index_kept index) file (D.disk device) },
}

impl<D: Device> FoundFile<D> {
    /// Its device.
    pub fn into_device(self) -> D
        ensures { result ≡ self.device }
    {
        self.device
    }

    /// Whether the bit of its slot says that it is in use. Where it doesn't its blocks may have become another file's, if the volume was
    /// written since.
    pub fn is_in_use(&self) -> bool
        ensures { result ≡ self.now.in_use }
    {
        self.in_use
    }

    /// Whether it wasn't closed and states that it has no bytes, as a file does that was open when the system stopped:
    /// [`crate::to_last_block`] takes what blocks it has.
    pub fn was_left_open(&self) -> bool
        ensures { result ≡ is_left_open self.now.file }
    {
        has_open_end(&self.file)
    }

    /// Whether its record attributes say how a printer goes on to the next line (FD.FTN, FD.CR or FD.PRN), as those of a text do: then its
    /// records are lines.
    pub fn has_lines(&self) -> bool
        ensures { result ≡ is_of_lines self.now.file }
    {
        has_lines(&self.file)
    }

    /// As what it is copied where its header decides (Files-11 On-Disk Structure Level 1, "File Attributes"): as [`CopyMode::Text`] where its
    /// records are of variable length (R.VAR) and a carriage return stands behind each (FD.CR), and else as [`CopyMode::Image`].
    pub fn mode(&self) -> CopyMode
        ensures { result ≡ mode_by_header self.now.file }
    {
        mode_of(&self.file)
    }
}
