//! The blocks at the front of a fresh volume, by their LBN.
ghost use Rattle.std.specs.Prelude.{◌+◌, ◌-◌, ◌<◌, ◌≤◌};

use crate::bitmaps::fill_index_bitmap;
use crate::files::OWN_FILES;
use crate::layout::Layout;
use f11_bytes::{Block, zeros};

impl Layout {
    ghost use Rattle.f11_layout.specs.Fresh.{IsFreshBlock};
    ghost use Rattle.f11_layout.specs.Places.{used_blocks, first_header, control_lbn};

    /// Makes a block the one that stands at LBN `lbn`, below [`used_blocks`](Layout::used_blocks), of the fresh volume.
    pub fn fill(&self, lbn: u32, block: &mut Block)
        requires { lbn < used_blocks self.now.max_files self.now.slots self.now.blocks }
        ensures { IsFreshBlock self.now lbn block.new }
    {
        if lbn < self.first_header() {
            self.fill_front(lbn, block);
        } else if lbn < self.control_lbn() {
            self.fill_slot((lbn - self.first_header()) as u16 + 1, block);
        } else if lbn == self.control_lbn() {
            self.fill_control(block);
        } else if lbn < self.directory_lbn() {
            self.fill_bitmap(lbn - self.control_lbn() - 1, block);
        } else {
            self.fill_directory(block);
        }
    }

    /// Fills a block before the headers: the boot block, the home block, or one of the index bitmap.
    fn fill_front(&self, lbn: u32, block: &mut Block)
        requires { lbn < first_header self.now.max_files }
        ensures { IsFreshBlock self.now lbn block.new }
    {
        match lbn {
            0 => *block = zeros(),
            1 => self.fill_home(block),
            _ => fill_index_bitmap(lbn - 2, block),
        }
    }

    /// Fills the block of slot `n`: the header of one of the five files, or zeros.
    fn fill_slot(&self, n: u16, block: &mut Block)
        requires { (0 < n) × (n ≤ self.now.slots) }
        ensures { IsFreshBlock self.now (first_header self.now.max_files + (n - 1)) block.new }
    {
        if n <= OWN_FILES {
            self.fill_header(n, block);
        } else {
            *block = zeros();
        }
    }
}
