//! Which blocks are file headers.
ghost use Rattle.std.specs.Prelude.{◌≡◌, ◌↔◌, Some};
ghost use Rattle.f11_bytes.specs.Words.{with_word};
ghost use Rattle.f11_header.specs.Header.{holds_header};
ghost use Rattle.f11_scan.specs.Uses.{is_killed, is_live, use_of_block, IsKilled, IsLive};

use crate::HeaderUse;
use f11_bytes::{Block, write_word};
use f11_header::{Header, HeaderMut, check};

/// Where the file number stands in a header, in bytes (H.FNUM).
const NUMBER: usize = 2;

/// Tells whether a block is a file header, and which: a valid one of some number, or what the deletion of a file leaves of one (Files-11
/// On-Disk Structure Level 1, "File Header").
pub fn use_of(block: &Block) -> Option<HeaderUse>
    ensures live { (result ≡ Some HeaderUse.Live) ↔ IsLive block.now }
    ensures killed { (result ≡ Some HeaderUse.Killed) ↔ IsKilled block.now }
    ensures test { result ≡ use_of_block block.now }
{
    if is_live(block) {
        Some(HeaderUse::Live)
    } else if is_killed(block) {
        Some(HeaderUse::Killed)
    } else {
        None
    }
}

/// Whether a block is a valid header of the number in it.
fn is_live(block: &Block) -> bool
    ensures { result ≡ is_live block.now }
{
    check(block, Header::new(block).id().number).is_ok()
}

/// Whether it is what killing a header leaves.
fn is_killed(block: &Block) -> bool
    ensures { result ≡ is_killed block.now }
{
    let header = Header::new(block);
    if header.id().number != 0 {
        return false;
    }
    if header.check_word() != 0 {
        return false;
    }
    would_be_live(block)
}

/// Whether it would be a valid header, had it a number and the right check word. Without a sequence number it isn't, a block of zeros
/// for one, and then nothing is summed up.
fn would_be_live(block: &Block) -> bool
    ensures { result ≡ holds_header (with_word block.now NUMBER 1) }
{
    if Header::new(block).id().sequence == 0 {
        return false;
    }
    let mut header = *block;
    write_word(&mut header, NUMBER, 1);
    HeaderMut::new(&mut header).seal();
    check(&header, 1).is_ok()
}
