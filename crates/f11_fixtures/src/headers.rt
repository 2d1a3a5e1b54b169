//! File headers.
ghost use Rattle.std.specs.Prelude.{◌≡◌};

use f11_bytes::{Block, write_word, zeros};
use f11_header::{HeaderMut, blank};
use f11_store::{FileId, Uic};

/// The user of the system.
pub const SYSTEM: Uic = Uic {
    group: 1,
    member: 1,
};

/// The identification of a file.
pub fn file(number: u16, sequence: u16) -> FileId
    ensures number { result.number ≡ number }
    ensures volume { result.volume ≡ 0 }
{
    FileId {
        number,
        sequence,
        volume: 0,
    }
}

/// An empty header of a file that [1,1] owns, not sealed yet.
pub fn blank_of(id: FileId, protection: u16, segment: u8) -> Block {
    let mut block = zeros();
    blank(&mut block, id, SYSTEM, protection, segment);
    block
}

/// A header with this link and these retrieval pointers, an LBN and a count less one each.
pub fn linked(id: FileId, segment: u8, link: FileId, pointers: &[(u16, u8)]) -> Block {
    let mut block = blank_of(id, 0, segment);
    write_word(&mut block, 94, link.number);
    write_word(&mut block, 96, link.sequence);
    for (i, (lbn, more)) in pointers.iter().enumerate() {
        if i < 102 {
            block[100] = (2 * i + 2) as u8;
            block[103 + 4 * i] = *more;
            write_word(&mut block, 104 + 4 * i, *lbn);
        }
    }
    HeaderMut::new(&mut block).seal();
    block
}

/// Puts the words of a name where a fresh header's ident area stands.
fn put_name(block: &mut Block, words: &[u16; 5]) {
    for i in 0..5 {
        write_word(block, 46 + 2 * i, words[i]);
    }
}

/// Header 4 of a fresh volume of 400 blocks and 16 slots: the master file directory, in block 21.
pub fn directory_header() -> Block {
    let mut block = blank_of(file(4, 4), 0o160000, 0);
    put_name(&mut block, &[49230, 49230, 0, 6778, 1]);
    let mut attributes = [0; 32];
    (attributes[0], attributes[2], attributes[6]) = (1, 16, 1);
    (attributes[10], attributes[12]) = (1, 80);
    HeaderMut::new(&mut block).set_attributes(&attributes);
    block[100] = 2;
    write_word(&mut block, 104, 21);
    HeaderMut::new(&mut block).seal();
    block
}
