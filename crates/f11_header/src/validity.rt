//! When a block is a valid file header.
ghost use Rattle.std.specs.Prelude.{◌≡◌, ◌≢◌, ◌*◌, ◌%◌, ◌≤◌, ◌↔◌, length, IsTrue, IsErrOf, IsOk};
ghost use Rattle.f11_store.specs.bytes.Words.{word_sum};
ghost use Rattle.f11_header.specs.Fields.{ident_offset, map_offset, file_number, file_sequence, level, check_word, ident_end, ident_words};
ghost use Rattle.f11_header.specs.MapFields.{count_size, lbn_size, words_in_use, places};
ghost use Rattle.f11_header.specs.Header.{IsHeader, IsDead};

use crate::fields::{CHECK_WORD, IDENT_OFFSET, LEVEL, MAP_OFFSET, NUMBER, SEQUENCE};
use crate::header::Header;
use crate::map_fields::{COUNT_SIZE, IN_USE, LBN_SIZE, MOST};
use f11_bits::word_sum as sum_of_words;
use f11_store::f11_bytes::{Block, read_word};
use std::error::Error;
use std::fmt;

/// Why a block isn't a valid header.
#[derive(Clone, Copy, Debug, PartialEq, Eq, Hash)]
pub enum HeaderFault {
    /// Its file number is 0.
    Dead,
    /// Something else in it is wrong.
    Bad,
}

impl fmt::Display for HeaderFault {
    ghost use Rattle.std.specs.Prelude.{Some};
    ghost use Rattle.f11_header.specs.HeaderFault.{header_fault_text};

    ghost output = { λ fault. Some (header_fault_text fault) };

    fn fmt<W: fmt::Write>(&self, f: &mut fmt::Formatter<W>) -> fmt::Result {
        match self {
            HeaderFault::Dead => write!(f, "dead"),
            HeaderFault::Bad => write!(f, "bad"),
        }
    }
}

impl Error for HeaderFault {}

/// Tells whether a block is a valid header of slot `n`.
///
/// # Errors
///
/// `Dead` where the file number is 0, and else `Bad` where it isn't a valid header `n`.
pub fn check(block: &Block, n: u16) -> Result<(), HeaderFault>
    ensures valid { IsOk result ↔ IsHeader block.now n }
    ensures dead { IsErrOf result HeaderFault.Dead ↔ IsDead block.now }
{
    if read_word(block, NUMBER) == 0 {
        return Err(HeaderFault::Dead);
    }
    if is_numbered(block, n) && is_placed(block) && holds_pointers(Header::new(block).map()) {
        Ok(())
    } else {
        Err(HeaderFault::Bad)
    }
}

/// Whether number, sequence number, level and check word are right.
fn is_numbered(block: &Block, n: u16) -> bool
    ensures { IsTrue result ↔ ((file_number block.now ≡ n) × (file_sequence block.now ≢ 0)
        × (level block.now ≡ 257) × (check_word block.now ≡ word_sum block.now 255)) }
{
    read_word(block, NUMBER) == n
        && read_word(block, SEQUENCE) != 0
        && read_word(block, LEVEL) == 0o401
        && read_word(block, CHECK_WORD) == sum_of_words(block)
}

/// The words of the ident area of a header with this segment number.
fn ident_words(segment: u8) -> usize
    ensures { result ≡ ident_words segment }
{
    if segment == 0 { 23 } else { 0 }
}

/// Whether the ident area and the map area lie in the block, one behind the other.
fn is_placed(block: &Block) -> bool
    ensures { IsTrue result ↔ ((23 ≤ ident_offset block.now)
        × (ident_end block.now ≤ map_offset block.now) × (map_offset block.now ≤ 250)) }
{
    let ident = usize::from(block[IDENT_OFFSET]);
    let map = usize::from(block[MAP_OFFSET]);
    ident >= 23 && map <= 250 && ident + ident_words(Header::new(block).segment()) <= map
}

/// Whether a map area holds retrieval pointers of format 1, no more than there are places for.
fn holds_pointers(area: &[u8]) -> bool
    requires { 10 ≤ length area.now }
    ensures { IsTrue result ↔ ((count_size area.now ≡ 1) × (lbn_size area.now ≡ 3)
        × (words_in_use area.now % 2 ≡ 0) × (words_in_use area.now ≤ 2 * places area.now)) }
{
    let most = usize::from(area[MOST]).min((area.len() - 10) / 2);
    let in_use = usize::from(area[IN_USE]);
    area[COUNT_SIZE] == 1 && area[LBN_SIZE] == 3 && in_use % 2 == 0 && in_use <= 2 * (most / 2)
}
