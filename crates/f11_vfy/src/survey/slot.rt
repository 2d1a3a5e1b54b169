//! What is kept of a slot and its header.
ghost use Rattle.std.specs.Prelude.{◌≡◌, ◌≢◌, ◌↔◌, ◌≤◌, ◌&&◌, ◌==◌, length, slice_index, IsTrue};
ghost use Rattle.f11_bytes.specs.Words.{word};
ghost use Rattle.f11_header.specs.Header.{IsHeader, IsDead, holds_header};
ghost use Rattle.f11_map.specs.HeaderBlock.{segment_number, link_of};
ghost use Rattle.f11_vfy.specs.Surveying.Slot.{KeepsValidHeader, says_directory};

use crate::survey::extent::{Extent, extent_of};
use f11_bytes::{Block, read_word};
use f11_header::{Header, HeaderFault, check};
use f11_map::in_hand::{link, segment};
use f11_store::FileId;

/// What a slot has.
#[derive(Clone, Copy, Debug, PartialEq, Eq)]
pub enum State {
    /// It isn't in use.
    Unused,
    /// It is in use, and its header is dead.
    Dead,
    /// It is in use, and its header is neither valid nor dead.
    Bad,
    /// It is in use, and its header is valid.
    Live,
}

/// What is kept of a slot. All but its state is of a valid header, and nothing where it has none.
#[derive(Clone, Copy, Debug)]
pub struct Slot {
    pub state: State,
    /// The segment number (M.ESQN).
    pub segment: u8,
    /// The file sequence number (H.FSEQ).
    pub sequence: u16,
    /// The characteristics (H.UCHA in the low byte, H.SCHA in the high one).
    pub characteristics: u16,
    /// The next header (M.EFNU, M.EFSQ, M.ERVN); number 0 is none.
    pub link: FileId,
    /// The header is a file's first, and the file is a directory.
    pub directory: bool,
    /// Where the blocks lie that the header names.
    pub extent: Extent,
}

impl Slot {
    /// Whether its header is valid.
    pub fn is_live(&self) -> bool
        ensures { IsTrue result ↔ (self.now.state ≡ State.Live) }
    {
        self.state == State::Live
    }

    /// Whether its header is valid and has another segment number than 0.
    pub fn is_extension(&self) -> bool
        ensures { IsTrue result ↔ ((self.now.state ≡ State.Live) × (self.now.segment ≢ 0)) }
    {
        self.is_live() && self.segment != 0
    }

    /// Whether its header is the first of a file.
    pub fn is_file(&self) -> bool
        ensures { IsTrue result ↔ ((self.now.state ≡ State.Live) × (self.now.segment ≡ 0)) }
    {
        self.is_live() && self.segment == 0
    }
}

/// The state of slot `n`, in use, by its header.
pub(crate) fn judge(block: &Block, n: u16) -> State
    ensures live { (result ≡ State.Live) ↔ IsHeader block.now n }
    ensures dead { (result ≡ State.Dead) ↔ IsDead block.now }
    ensures used { result ≢ State.Unused }
{
    match check(block, n) {
        Ok(()) => State::Live,
        Err(HeaderFault::Dead) => State::Dead,
        Err(HeaderFault::Bad) => State::Bad,
    }
}

/// What is kept of a slot in this state, and of its header where that is valid.
pub(crate) fn keep(state: State, block: &Block) -> Slot
    requires { state ≡ State.Live → IsTrue (holds_header block.now) }
    ensures state { result.state ≡ state }
    ensures header { state ≡ State.Live → KeepsValidHeader block.now result }
{
    match state {
        State::Live => keep_header(block),
        _ => Slot {
            state,
            segment: 0,
            sequence: 0,
            characteristics: 0,
            link: FileId {
                number: 0,
                sequence: 0,
                volume: 0,
            },
            directory: false,
            extent: Extent::Empty,
        },
    }
}

/// What is kept of a valid header.
fn keep_header(block: &Block) -> Slot
    requires { IsTrue (holds_header block.now) }
    ensures state { result.state ≡ State.Live }
    ensures header { KeepsValidHeader block.now result }
{
    let header = Header::new(block);
    let segment = segment(block);
    Slot {
        state: State::Live,
        segment,
        sequence: header.id().sequence,
        characteristics: header.characteristics(),
        link: link(block),
        directory: segment == 0 && is_directory(block),
        extent: extent_of(block),
    }
}

/// The ident type of a directory, `DIR` in Radix-50 (Files-11 On-Disk Structure Level 1, "Directories").
const TYPE_DIR: u16 = 6778;

/// Whether a file whose first header this is is a directory: ident type `DIR`, record type 1, record size 16.
#[tactic(auto, unfolding(f11_map::specs::HeaderBlock::segment_number))]
fn is_directory(block: &Block) -> bool
    requires header { IsTrue (holds_header block.now) }
    requires first { segment_number block.now ≡ 0 }
    ensures { result ≡ says_directory block.now }
{
    let header = Header::new(block);
    are_directory(header.ident(), &header.attributes())
}

/// Whether an ident area and attributes are those of a directory.
fn are_directory(ident: &[u8], attributes: &[u8; 32]) -> bool
    requires { 8 ≤ length ident.now }
    ensures { result ≡ ((word ident.now 6 == 6778)
        && (slice_index attributes.now 0 == 1) && (word attributes.now 2 == 16)) }
{
    read_word(ident, 6) == TYPE_DIR && attributes[0] == 1 && read_word(attributes, 2) == 16
}
