//! A file header, read in the block that holds it.
ghost use Rattle.std.specs.Prelude.{◌≡◌, ◌+◌, ◌-◌, ◌*◌, ◌≤◌, length};

use crate::fields::{
    ATTRIBUTES, CHARACTERISTICS, CHECK_WORD, IDENT_BYTES, IDENT_OFFSET, MAP_OFFSET, NUMBER, OWNER,
    PROTECTION, SEQUENCE,
};
use crate::map_fields::SEGMENT;
use f11_store::f11_bytes::{Block, read_word};
use f11_store::{FileId, Uic};

/// A file header, read in the block that holds it, without a copy.
#[derive(Clone, Copy)]
pub struct Header<'a> {
    block: &'a Block,
}

impl<'a> Header<'a> {
    ghost use Rattle.f11_header.specs.Lent.{header_block};
    ghost use Rattle.f11_header.specs.Fields.{ident_offset, map_offset, ident_area, map_area, file_number, file_sequence, owner, protection, characteristics, attributes, check_word};
    ghost use Rattle.f11_header.specs.MapFields.{segment};

    /// The header in a block.
    pub fn new(block: &'a Block) -> Header<'a>
        ensures { header_block result ≡ block.now }
    {
        Header { block }
    }

    /// The file number and the file sequence number (H.FNUM, H.FSEQ), with relative volume 0.
    pub fn id(&self) -> FileId
        ensures { result ≡ record {
          number = file_number (header_block self.now);
          sequence = file_sequence (header_block self.now);
          volume = 0;
        } }
    {
        let block = self.block;
        FileId {
            number: read_word(block, NUMBER),
            sequence: read_word(block, SEQUENCE),
            volume: 0,
        }
    }

    /// The owner (H.FOWN).
    pub fn owner(&self) -> Uic
        ensures { result ≡ owner (header_block self.now) }
    {
        Uic {
            group: self.block[OWNER + 1],
            member: self.block[OWNER],
        }
    }

    /// The protection word (H.FPRO).
    pub fn protection(&self) -> u16
        ensures { result ≡ protection (header_block self.now) }
    {
        let block = self.block;
        read_word(block, PROTECTION)
    }

    /// The characteristics (H.UCHA in the low byte, H.SCHA in the high one).
    pub fn characteristics(&self) -> u16
        ensures { result ≡ characteristics (header_block self.now) }
    {
        let block = self.block;
        read_word(block, CHARACTERISTICS)
    }

    /// The user attributes (H.UFAT).
    pub fn attributes(&self) -> [u8; 32]
        ensures { result ≡ attributes (header_block self.now) }
    {
        let mut attributes = [0; 32];
        let block = self.block;
        attributes.copy_from_slice(&block[ATTRIBUTES..ATTRIBUTES + 32]);
        attributes
    }

    /// The check word (H.CKSM).
    pub fn check_word(&self) -> u16
        ensures { result ≡ check_word (header_block self.now) }
    {
        let block = self.block;
        read_word(block, CHECK_WORD)
    }

    /// The segment number (M.ESQN), 0 in the first header of a file.
    pub fn segment(&self) -> u8
        requires { map_offset (header_block self.now) ≤ 250 }
        ensures { result ≡ segment (map_area (header_block self.now)) }
    {
        self.map()[SEGMENT]
    }

    /// The ident area, 46 bytes, which the first header of a file has, and an extension header hasn't.
    pub fn ident(&self) -> &'a [u8]
        requires first { segment (map_area (header_block self.now)) ≡ 0 }
        requires within { 2 * ident_offset (header_block self.now) + 46 ≤ 510 }
        ensures area { result.now ≡ ident_area (header_block self.now) }
        ensures len { length result.now ≡ 46 }
    {
        let block = self.block;
        let ident = 2 * usize::from(block[IDENT_OFFSET]);
        &block[ident..ident + IDENT_BYTES]
    }

    /// The map area, up to the check word.
    pub fn map(&self) -> &'a [u8]
        requires { map_offset (header_block self.now) ≤ 250 }
        ensures area { result.now ≡ map_area (header_block self.now) }
        ensures len { length result.now ≡ 510 - 2 * map_offset (header_block self.now) }
    {
        let block = self.block;
        let map = 2 * usize::from(block[MAP_OFFSET]);
        &block[map..CHECK_WORD]
    }
}
