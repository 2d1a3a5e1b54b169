//! What is to be made of a file that is copied, as its first header says.
ghost use Rattle.std.specs.Prelude.{◌≡◌, ◌≤◌, IsTrue};
ghost use Rattle.f11_header.specs.Header.{holds_header};
ghost use Rattle.f11_index.specs.map.HeaderBlock.{segment_number};
ghost use Rattle.f11_store.specs.File.{most_blocks};
ghost use Rattle.f11_copying.specs.OldHeader.{attributes_kept, cut_attributes, file_told, is_contiguous};

use crate::file::FileToMake;
use f11_bytes::Block;
use f11_entries::moved_end;
use f11_header::Header;
use f11_making::end;

/// UC.CON, the bit of H.UCHA that is set of a file whose blocks lie in one run.
const CONTIGUOUS: u32 = 7;

/// The attributes of a file of which so many blocks are there: it ends where it did, but no further than these.
fn cut_attributes(attr: &[u8; 32], blocks: u32) -> [u8; 32]
    requires { blocks ≤ most_blocks }
    ensures { result ≡ cut_attributes attr.now blocks }
{
    moved_end(attr, blocks, end(attr, blocks))
}

/// Those of a file of which all blocks are there, or so many alone.
fn attributes_kept(attr: &[u8; 32], blocks: u32, is_cut: bool) -> [u8; 32]
    requires { blocks ≤ most_blocks }
    ensures { result ≡ attributes_kept attr.now blocks is_cut }
{
    if is_cut {
        cut_attributes(attr, blocks)
    } else {
        *attr
    }
}

/// Whether characteristics have the contiguous mark.
fn is_contiguous(characteristics: u16) -> bool
    ensures { result ≡ is_contiguous characteristics }
{
    characteristics >> CONTIGUOUS & 1 == 1
}

/// What is to be made of a file of which `blocks` blocks are there, as its first header says: the same owner, protection, ident area and
/// attributes, but that one which is cut, of which these are the beginning, ends no further than they go; and in one run where it is marked so.
pub fn file_told(header: &Block, blocks: u32, is_cut: bool) -> FileToMake
    requires header { IsTrue (holds_header header.now) }
    requires first { segment_number header.now ≡ 0 }
    requires few { blocks ≤ most_blocks }
    ensures { result ≡ file_told header.now blocks is_cut }
{
    let header = Header::new(header);
    let mut ident = [0; 46];
    ident.copy_from_slice(header.ident());
    FileToMake {
        owner: header.owner(),
        protection: header.protection(),
        ident,
        attr: attributes_kept(&header.attributes(), blocks, is_cut),
        blocks,
        in_one_run: is_contiguous(header.characteristics()),
    }
}
