//! What stands under an identification.
ghost use Rattle.std.specs.Prelude.{◌≡◌, ◌⊎◌, IfOk, OnErr, length, true, false};
ghost use Rattle.f11_dev.specs.Looked.{Looked};
ghost use Rattle.f11_header.specs.Header.{IsDead, IsHeader};
ghost use Rattle.f11_index.specs.Kept.{index_kept, IndexLiesWithin};
ghost use Rattle.f11_catalog.specs.Contents.{Holds, HoldsElse, TellsAbsence};
ghost use Rattle.f11_catalog.specs.Records.{Reads};

use crate::records::is_of_directory;
use f11_bytes::{BLOCK_SIZE, Block};
use f11_dev::{Device, DeviceFault};
use f11_header::{HeaderFault, check};
use f11_index::IndexFile;
use f11_reader::{FileReader, is_slot};
use f11_store::FileId;

/// What stands under the identification that a record has.
#[derive(Clone, Copy)]
pub enum Content {
    /// A file, whose first header is in hand.
    File(FileReader),
    /// A file all the same, though the bit of its slot is 0: its first header is valid, and has the sequence number.
    OutOfUse(FileReader),
    /// No file.
    Missing(Absence),
}

/// Why an identification is that of no file.
#[derive(Clone, Copy, Debug, PartialEq, Eq)]
pub enum Absence {
    /// No header has its number and its sequence number, or it is of another volume.
    NoFile,
    /// The block of that header is neither a valid header nor a dead one.
    BadHeader,
}

impl Content {
    ghost use Rattle.f11_catalog.specs.Contents.{HasFirstHeader, is_file, is_unused_directory};

    /// Whether it is a file, with its slot in use.
    pub(crate) fn is_file(&self) -> bool
        ensures { result ≡ is_file self.now }
    {
        matches!(self, Content::File(_))
    }

    /// Whether it is a directory whose slot isn't in use.
    pub(crate) fn is_unused_directory(&self) -> bool
        requires first { HasFirstHeader self.now }
        ensures { result ≡ is_unused_directory self.now }
    {
        match self {
            Content::OutOfUse(file) => is_of_directory(file.header()),
            Content::File(_) | Content::Missing(_) => false,
        }
    }
}

/// What stands under an identification. A file whose slot is in use comes before one whose slot isn't. Three transfers at most.
///
/// # Errors
///
/// `DeviceFault` where a transfer failed.
pub(crate) fn open_content<D: Device>(
    device: &mut D,
    index: &IndexFile,
    wide: &IndexFile,
    id: FileId,
) -> Result<Content, DeviceFault>
    requires within { IndexLiesWithin (index_kept index.now) (length (D.disk device.old).image) }
    requires wide { IndexLiesWithin (index_kept wide.now) (length (D.disk device.old).image) }
    ensures holds { IfOk result (λ content.
        Holds (index_kept index.now) (index_kept wide.now) id content
        (D.disk device.old) (D.disk device.new)) }
    ensures failed { OnErr result (Reads (D.disk device.old) (D.disk device.new) 1) }
{
    match FileReader::open(device, index, id)? {
        Some(file) => Ok(Content::File(file)),
        None => open_out_of_use(device, index, wide, id),
    }
}

/// What stands under an identification that no file has whose slot is in use.
fn open_out_of_use<D: Device>(
    device: &mut D,
    index: &IndexFile,
    wide: &IndexFile,
    id: FileId,
) -> Result<Content, DeviceFault>
    requires within { IndexLiesWithin (index_kept index.now) (length (D.disk device.old).image) }
    requires wide { IndexLiesWithin (index_kept wide.now) (length (D.disk device.old).image) }
    ensures holds { IfOk result (λ content.
        HoldsElse (index_kept index.now) (index_kept wide.now) id content
        (D.disk device.old) (D.disk device.new)) }
    ensures failed { OnErr result (Reads (D.disk device.old) (D.disk device.new) 1) }
{
    match FileReader::open(device, wide, id)? {
        Some(file) => Ok(Content::OutOfUse(file)),
        None => Ok(Content::Missing(why_missing(device, index, id)?)),
    }
}

/// Why an identification is that of no file. One transfer at most.
///
/// # Errors
///
/// `DeviceFault` where the transfer failed.
fn why_missing<D: Device>(
    device: &mut D,
    index: &IndexFile,
    id: FileId,
) -> Result<Absence, DeviceFault>
    requires within { IndexLiesWithin (index_kept index.now) (length (D.disk device.old).image) }
    ensures tells { IfOk result (λ absence. TellsAbsence (index_kept index.now) id absence
        (D.disk device.old) (D.disk device.new)) }
    ensures failed { OnErr result (Looked (D.disk device.old) (D.disk device.new) 1 1) }
{
    if !is_slot(index, id) {
        return Ok(Absence::NoFile);
    }
    let mut block = [0; BLOCK_SIZE];
    device.read(index.lbn_of_header(id.number), &mut block)?;
    if is_bad(&block, id.number) {
        Ok(Absence::BadHeader)
    } else {
        Ok(Absence::NoFile)
    }
}

/// Whether a block is neither a dead header nor a valid header `n`.
fn is_bad(block: &Block, n: u16) -> bool
    ensures bad { result ≡ true → ¬ IsDead block.now × ¬ IsHeader block.now n }
    ensures good { result ≡ false → IsDead block.now ⊎ IsHeader block.now n }
{
    match check(block, n) {
        Err(HeaderFault::Bad) => true,
        Err(HeaderFault::Dead) => false,
        Ok(()) => false,
    }
}
