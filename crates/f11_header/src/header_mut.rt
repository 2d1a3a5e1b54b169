//! A file header, written in the block that holds it.
ghost use Rattle.std.specs.Prelude.{◌≡◌, ◌≢◌, ℕ, List, ◌+◌, ◌-◌, ◌*◌, ◌≤◌, length, IsTrue, Some};
ghost use Rattle.std.specs.Borrow.{sem};
ghost use Rattle.f11_header.specs.Header.{holds_header, header_in, header_with};
ghost use Rattle.f11_header.specs.Writing.{with_id, with_owner, with_protection, with_characteristics, with_attributes, with_ident, with_check_word, KeepsHeader, IsSealed};

use crate::fields::{
    ATTRIBUTES, CHARACTERISTICS, CHECK_WORD, IDENT_BYTES, IDENT_OFFSET, MAP_OFFSET, NUMBER, OWNER,
    PROTECTION, SEQUENCE,
};
use crate::lifecycle::owner_word;
use f11_bits::word_sum;
use f11_store::f11_bytes::{Block, bytes_mut, put_bytes, write_word};
use f11_store::{FileId, Uic};

/// A file header, written in the block that holds it, without a copy. Each writer changes its field alone, and what is
/// written to an area that was lent changes that area alone; `seal` makes the check word right again.
#[derive(Drop)]
pub struct HeaderMut<'a> {
    block: &'a mut Block,
}

impl<'a> HeaderMut<'a> {
    ghost use Rattle.f11_header.specs.Lent.{written_block, block_loan};
    ghost use Rattle.f11_header.specs.Fields.{ident_offset, map_offset, ident_area, map_area, header_fields};
    ghost use Rattle.f11_header.specs.MapFields.{segment};
    ghost use Rattle.f11_header.specs.Lending.{LendsIdent, LendsMap};

    /// The header in a block.
    pub fn new(block: &'a mut Block) -> HeaderMut<'a>
        ensures block { written_block result ≡ block.old }
        ensures same_reference { block_loan result ≡ block.entry.ghost_name }
    {
        HeaderMut { block }
    }

    /// The ident area, 46 bytes, to be written: the first header of a file has one, and an extension header hasn't.
    pub fn ident_mut(&mut self) -> &mut [u8]
        requires first { segment (map_area (written_block self.old)) ≡ 0 }
        requires within { 2 * ident_offset (written_block self.old) + 46 ≤ 510 }
        ensures* writes_back { sem 𝓛 (LendsIdent self.entry result) }
        ensures area { result.now ≡ ident_area (written_block self.old) }
        ensures len { length result.now ≡ 46 }
        ensures header { (ident : List ℕ) → length ident ≡ 46
            → IsTrue (holds_header (written_block self.old))
            → header_in (with_ident (written_block self.old) ident)
            ≡ header_with (λ h. record h { ident = ident }) (written_block self.old) }
    {
        let ident = 2 * usize::from(self.block[IDENT_OFFSET]);
        bytes_mut(self.block, ident, ident + IDENT_BYTES)
    }

    /// Sets the ident area of a header of segment 0.
    pub fn set_ident(&mut self, ident: &[u8; 46])
        requires holds { IsTrue (holds_header (written_block self.old)) }
        requires first { segment (map_area (written_block self.old)) ≡ 0 }
        ensures block { written_block self.new ≡ with_ident (written_block self.old) ident.now }
        ensures header { KeepsHeader (written_block self.old) (written_block self.new) }
        ensures fields { header_in (written_block self.new)
            ≡ header_with (λ h. record h { ident = ident.now }) (written_block self.old) }
        ensures same_reference { block_loan self.new ≡ block_loan self.old }
    {
        let at = 2 * usize::from(self.block[IDENT_OFFSET]);
        put_bytes(self.block, at, ident);
    }

    /// The map area, up to the check word, to be written.
    pub fn map_mut(&mut self) -> &mut [u8]
        requires { map_offset (written_block self.old) ≤ 250 }
        ensures* writes_back { sem 𝓛 (LendsMap self.entry result) }
        ensures area { result.now ≡ map_area (written_block self.old) }
        ensures len { length result.now ≡ 510 - 2 * map_offset (written_block self.old) }
    {
        let map = 2 * usize::from(self.block[MAP_OFFSET]);
        bytes_mut(self.block, map, CHECK_WORD)
    }

    /// Sets the file number and the file sequence number (H.FNUM, H.FSEQ).
    pub fn set_id(&mut self, id: FileId)
        ensures block { written_block self.new ≡ with_id (written_block self.old) id }
        ensures fields { IsTrue (holds_header (written_block self.old))
            → id.number ≢ 0 → id.sequence ≢ 0
            → header_in (written_block self.new)
            ≡ Some (record (header_fields (written_block self.old)) {
              number = id.number;
              sequence = id.sequence;
            }) }
        ensures same_reference { block_loan self.new ≡ block_loan self.old }
    {
        write_word(self.block, NUMBER, id.number);
        write_word(self.block, SEQUENCE, id.sequence);
    }

    /// Sets the owner (H.FOWN).
    pub fn set_owner(&mut self, owner: Uic)
        ensures block { written_block self.new ≡ with_owner (written_block self.old) owner }
        ensures header { KeepsHeader (written_block self.old) (written_block self.new) }
        ensures fields { header_in (written_block self.new)
            ≡ header_with (λ h. record h { owner = owner }) (written_block self.old) }
        ensures same_reference { block_loan self.new ≡ block_loan self.old }
    {
        write_word(self.block, OWNER, owner_word(owner));
    }

    /// Sets the protection word (H.FPRO).
    pub fn set_protection(&mut self, protection: u16)
        ensures block { written_block self.new
            ≡ with_protection (written_block self.old) protection }
        ensures header { KeepsHeader (written_block self.old) (written_block self.new) }
        ensures fields { header_in (written_block self.new)
            ≡ header_with (λ h. record h { protection = protection }) (written_block self.old) }
        ensures same_reference { block_loan self.new ≡ block_loan self.old }
    {
        write_word(self.block, PROTECTION, protection);
    }

    /// Sets the characteristics (H.UCHA in the low byte, H.SCHA in the high one).
    pub fn set_characteristics(&mut self, characteristics: u16)
        ensures block { written_block self.new
            ≡ with_characteristics (written_block self.old) characteristics }
        ensures header { KeepsHeader (written_block self.old) (written_block self.new) }
        ensures fields { header_in (written_block self.new)
            ≡ header_with (λ h. record h { characteristics = characteristics }) (written_block self.old) }
        ensures same_reference { block_loan self.new ≡ block_loan self.old }
    {
        write_word(self.block, CHARACTERISTICS, characteristics);
    }

    /// Sets the user attributes (H.UFAT).
    pub fn set_attributes(&mut self, attributes: &[u8; 32])
        ensures block { written_block self.new
            ≡ with_attributes (written_block self.old) attributes.now }
        ensures header { KeepsHeader (written_block self.old) (written_block self.new) }
        ensures fields { header_in (written_block self.new)
            ≡ header_with (λ h. record h { attributes = attributes.now }) (written_block self.old) }
        ensures same_reference { block_loan self.new ≡ block_loan self.old }
    {
        put_bytes(self.block, ATTRIBUTES, attributes);
    }

    /// Makes the check word right (H.CKSM).
    pub fn seal(&mut self)
        ensures block { written_block self.new ≡ with_check_word (written_block self.old) }
        ensures sealed { IsSealed (written_block self.old) (written_block self.new) }
        ensures fields { header_in (written_block self.new) ≡ header_in (written_block self.old) }
        ensures same_reference { block_loan self.new ≡ block_loan self.old }
    {
        let sum = word_sum(self.block);
        write_word(self.block, CHECK_WORD, sum);
    }
}
