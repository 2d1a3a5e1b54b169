//! The headers of a fresh volume's own files.
ghost use Rattle.std.specs.Prelude.{◌≡◌, ◌<◌, ◌≤◌, ◌+◌, ◌*◌, ◌^◌};
ghost use Rattle.f11_layout.specs.NamesBlocks.{NamesBlocks, HasNoPointers};
ghost use Rattle.f11_layout.specs.OwnFields.{own_ident, own_attributes};

use crate::files::OwnFile;
use crate::layout::Layout;
use f11_bytes::{Block, write_long, write_word};
use f11_map::f11_header::{HeaderMut, blank};
use f11_map::f11_store::FileId;
use f11_map::in_hand::append_runs;

/// The protection of a fresh volume's own files.
const PROTECTION: u16 = 0o160000;

impl Layout {
    ghost use Rattle.f11_layout.specs.Files.{own_file};
    ghost use Rattle.f11_layout.specs.FreshHeader.{IsBareHeader, IsFreshHeader};

    /// Makes the block the header of file `n`, of 1 to 5.
    pub(crate) fn fill_header(&self, n: u16, block: &mut Block)
        requires { (0 < n) × (n ≤ 5) }
        ensures { IsFreshHeader self.now n block.new }
    {
        let file = self.own_file(n);
        self.fill_fields(n, &file, block);
        name_blocks(block, file.first, file.count);
    }

    /// Makes the block the header of file `n`, which names no block yet.
    fn fill_fields(&self, n: u16, file: &OwnFile, block: &mut Block)
        requires number { 0 < n }
        requires file { file.now ≡ own_file self.now n }
        ensures { IsBareHeader self.now n block.new }
    {
        let id = FileId {
            number: n,
            sequence: n,
            volume: 0,
        };
        blank(block, id, self.owner, PROTECTION, 0);
        let mut header = HeaderMut::new(block);
        header.set_ident(&own_ident(&file.name));
        header.set_attributes(&own_attributes(file));
        header.seal();
    }
}

/// Names blocks in a sealed header that names none: `count` of them from LBN `first` on, by as few pointers as can be.
fn name_blocks(block: &mut Block, first: u32, count: u32)
    requires none { HasNoPointers block.old }
    requires lbns { first + count < 2 ^ 24 }
    requires count { count ≤ 256 * 102 }
    ensures { NamesBlocks first count block.old block.new }
{
    // it has places for 102 pointers, and these are no more
    let _ = append_runs(block, first, count);
}

/// The ident area of a file of this name: its five words, and zeros.
fn own_ident(name: &[u16; 5]) -> [u8; 46]
    ensures { result ≡ own_ident name.now }
{
    let [first, second, third, kind, version] = *name;
    let mut ident = [0; 46];
    write_word(&mut ident, 0, first);
    write_word(&mut ident, 2, second);
    write_word(&mut ident, 4, third);
    write_word(&mut ident, 6, kind);
    write_word(&mut ident, 8, version);
    ident
}

/// The attributes of a file of fixed records: their size, the blocks that it has, and where it ends.
fn own_attributes(file: &OwnFile) -> [u8; 32]
    ensures { result ≡ own_attributes file.now }
{
    let mut attributes = [0; 32];
    write_word(&mut attributes, 0, 1);
    write_word(&mut attributes, 2, file.record_size);
    write_long(&mut attributes, 4, file.count);
    write_long(&mut attributes, 8, file.end_block);
    write_word(&mut attributes, 12, file.end_byte);
    attributes
}
