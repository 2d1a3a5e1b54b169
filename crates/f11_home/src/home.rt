//! The home block of a device.
ghost use Rattle.std.specs.Prelude.{◌≡◌, ◌<◌, ◌^◌, IfOk, IsErrOf};
ghost use Rattle.f11_home.specs.Home.{candidate, candidates, fields_of, FindsHome, FindsNoHome, FailsToFind};
ghost use Rattle.f11_home.specs.declared.home.HomeFault.TheVariants.{DeviceFault as Fault};

use crate::block::{is_home_block, read_index_lbn};
use crate::fields::{INDEX_BLOCKS, LABEL, MAX_FILES};
use f11_bytes::{BLOCK_SIZE, Block, read_word};
use f11_dev::{Device, DeviceFault};
use std::error::Error;
use std::fmt;
use std::marker::Model;

/// Why there is no home block to go by.
#[derive(Clone, Copy, Debug, PartialEq, Eq, Hash)]
pub enum HomeFault {
    /// No candidate is valid.
    NoHome,
    /// A transfer failed.
    DeviceFault,
}

impl fmt::Display for HomeFault {
    ghost use Rattle.std.specs.Prelude.{Some};
    ghost use Rattle.f11_home.specs.HomeFault.{home_fault_text};

    ghost output = { λ fault. Some (home_fault_text fault) };

    fn fmt<W: fmt::Write>(&self, f: &mut fmt::Formatter<W>) -> fmt::Result {
        match self {
            HomeFault::NoHome => write!(f, "no home block"),
            HomeFault::DeviceFault => write!(f, "device fault"),
        }
    }
}

impl Error for HomeFault {}

impl From<DeviceFault> for HomeFault {
    ghost from_gives = { λ _ fault. fault ≡ Fault };

    fn from(_: DeviceFault) -> Self {
        HomeFault::DeviceFault
    }
}

/// The home block of a device: its place, and what stands in it.
#[derive(Clone, Copy, Debug, PartialEq, Eq)]
pub struct Home {
    lbn: u32,
    index_lbn: u32,
    index_blocks: u16,
    max_files: u16,
    label: [u8; 12],
}

impl Model for Home {
    ghost use Rattle.f11_home.specs.Home.{HomeFields};

    ghost Value = { HomeFields };

    ghost view = { λ h. record {
      lbn = h.lbn;
      index_lbn = h.index_lbn;
      index_blocks = h.index_blocks;
      max_files = h.max_files;
      label = h.label;
    } };

    ghost inverse = { λ h. record {
      lbn = h.lbn;
      index_lbn = h.index_lbn;
      index_blocks = h.index_blocks;
      max_files = h.max_files;
      label = h.label;
    } };
}

impl Home {
    /// What stands in a home block at this LBN.
    fn of(lbn: u32, block: &Block) -> Home
        ensures { result ≡ fields_of lbn block.now }
    {
        let mut label = [0; 12];
        label.copy_from_slice(&block[LABEL..LABEL + 12]);
        Home {
            lbn,
            index_lbn: read_index_lbn(block),
            index_blocks: read_word(block, INDEX_BLOCKS),
            max_files: read_word(block, MAX_FILES),
            label,
        }
    }

    /// The LBN of the home block.
    pub fn lbn(&self) -> u32
        ensures { result ≡ self.now.lbn }
    {
        self.lbn
    }

    /// The LBN of the index file's bitmap (H.IBLB).
    pub fn index_lbn(&self) -> u32
        ensures { result ≡ self.now.index_lbn }
    {
        self.index_lbn
    }

    /// How many blocks the index file's bitmap has (H.IBSZ).
    pub fn index_blocks(&self) -> u16
        ensures { result ≡ self.now.index_blocks }
    {
        self.index_blocks
    }

    /// How many files the volume may have (H.FMAX).
    pub fn max_files(&self) -> u16
        ensures { result ≡ self.now.max_files }
    {
        self.max_files
    }

    /// The volume's label as it stands (H.VNAM).
    pub fn label(&self) -> [u8; 12]
        ensures { result ≡ self.now.label }
    {
        self.label
    }
}

/// Finds the home block, which stands at LBN 1 or at a multiple of 256: they are read in ascending order, each once, up to
/// the first that is valid or the last that the device has.
///
/// # Errors
///
/// `NoHome` where no candidate is valid, and `DeviceFault` where a transfer failed.
pub fn find<D: Device>(device: &mut D) -> Result<Home, HomeFault>
    ensures found { IfOk result (λ home.
        FindsHome (D.disk device.old) (D.disk device.new) home) }
    ensures none { IsErrOf result HomeFault.NoHome
        → FindsNoHome (D.disk device.old) (D.disk device.new) }
    ensures failed { IsErrOf result HomeFault.DeviceFault
        → FailsToFind (D.disk device.old) (D.disk device.new) }
{
    let blocks = device.blocks();
    let mut block = [0; BLOCK_SIZE];
    for k in 0..candidate_count(blocks) {
        let lbn = candidate_lbn(k);
        device.read(lbn, &mut block)?;
        if is_home_block(&block, blocks) {
            return Ok(Home::of(lbn, &block));
        }
    }
    Err(HomeFault::NoHome)
}

/// The number of candidates below the end of a device of so many blocks: LBN 1, 256, 512 and each further multiple of 256.
pub fn candidate_count(blocks: u32) -> u32
    ensures { result ≡ candidates blocks }
{
    if blocks <= 1 { 0 } else { blocks.div_ceil(256) }
}

/// The LBN of candidate `k`, from 0.
pub fn candidate_lbn(k: u32) -> u32
    requires { candidate k < 2 ^ 32 }
    ensures { result ≡ candidate k }
{
    if k == 0 { 1 } else { 256 * k }
}
