//! Where the parts of a fresh volume are.
ghost use Rattle.std.specs.Prelude.{◌≡◌, ◌↔◌, ◌≤◌, IsTrue};
ghost use Rattle.f11_layout.specs.Places.{bit_blocks, used_blocks, AreNumbers};

use crate::params::{InitParams, is_label};
use f11_bytes::{BLOCK_BITS, put_bytes};
use f11_map::f11_store::Uic;

/// How many blocks a volume may have: as many as 126 blocks have bits.
pub const MOST_BLOCKS: u32 = 516_096;

/// Where the parts of a fresh volume are, and what they are made with.
#[derive(Clone, Copy)]
pub struct Layout {
    pub(crate) blocks: u32,
    pub(crate) slots: u16,
    pub(crate) max_files: u16,
    pub(crate) label: [u8; 12],
    pub(crate) label_length: usize,
    pub(crate) owner: Uic,
    pub(crate) date: [u8; 14],
    /// The numbers are within their limits, and there is room.
    pub ghost valid: { AreNumbers slots max_files blocks },
    /// The label has its length.
    pub ghost labelled: { label_length ≤ 12 },
}

impl Layout {
    ghost use Rattle.std.specs.Prelude.{IsSome, IfSome};
    ghost use Rattle.f11_layout.specs.Places.{first_header, control_lbn, directory_lbn, CanBeMade};
    ghost use Rattle.f11_layout.specs.Layout.{label_of, label_in, IsLayoutOf};

    /// The layout of a volume of so many blocks that is made with these; `None` where none can be: the label isn't one, slots
    /// or files are out of their limits, there are more than 516,096 blocks, or fewer than the layout has in use.
    pub fn new(params: &InitParams, blocks: u32) -> Option<Layout>
        ensures some { IsSome result ↔ CanBeMade (label_of params.now)
            params.now.slots params.now.max_files blocks }
        ensures layout { IfSome result (λ layout. IsLayoutOf params.now blocks layout) }
    {
        if !is_label(params.label) || !are_numbers(params.slots, params.max_files, blocks) {
            return None;
        }
        let mut label = [0; 12];
        put_bytes(&mut label, 0, params.label);
        Some(Layout {
            blocks,
            slots: params.slots,
            max_files: params.max_files,
            label,
            label_length: params.label.len(),
            owner: params.owner,
            date: params.date,
        })
    }

    /// How many blocks are in use on the fresh volume: those at its front, which are written.
    pub fn used_blocks(&self) -> u32
        ensures { result ≡ used_blocks self.now.max_files self.now.slots self.now.blocks }
    {
        used_blocks(self.slots, self.max_files, self.blocks)
    }

    /// The label.
    pub(crate) fn label(&self) -> &[u8]
        ensures { result.now ≡ label_in self.now }
    {
        &self.label[..self.label_length]
    }

    /// The LBN of header 1.
    pub(crate) fn first_header(&self) -> u32
        ensures { result ≡ first_header self.now.max_files }
    {
        2 + bit_blocks(u32::from(self.max_files))
    }

    /// The LBN of the control block.
    pub(crate) fn control_lbn(&self) -> u32
        ensures { result ≡ control_lbn self.now.max_files self.now.slots }
    {
        self.first_header() + u32::from(self.slots)
    }

    /// The LBN of the block of the master file directory.
    pub(crate) fn directory_lbn(&self) -> u32
        ensures { result ≡ directory_lbn self.now.max_files self.now.slots self.now.blocks }
    {
        self.control_lbn() + 1 + bit_blocks(self.blocks)
    }
}

/// How many blocks have a bit each for so many things.
pub(crate) fn bit_blocks(things: u32) -> u32
    requires { things ≤ 516096 }
    ensures { result ≡ bit_blocks things }
{
    things.div_ceil(BLOCK_BITS)
}

/// How many blocks are in use on a fresh volume.
fn used_blocks(slots: u16, max_files: u16, blocks: u32) -> u32
    requires { blocks ≤ 516096 }
    ensures { result ≡ used_blocks max_files slots blocks }
{
    let control = 2 + bit_blocks(u32::from(max_files)) + u32::from(slots);
    control + 1 + bit_blocks(blocks) + 1
}

/// Whether the numbers are within their limits, and the layout has room.
fn are_numbers(slots: u16, max_files: u16, blocks: u32) -> bool
    ensures { IsTrue result ↔ AreNumbers slots max_files blocks }
{
    slots >= 16
        && slots <= 16_000
        && slots <= max_files
        && max_files <= 65_500
        && blocks <= MOST_BLOCKS
        && used_blocks(slots, max_files, blocks) <= blocks
}
