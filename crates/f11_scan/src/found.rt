//! A header that was found.
ghost use Rattle.std.specs.Prelude.{◌≡◌, ◌-◌, ◌*◌, ◌↔◌, length, IfSome, IsSome, Some};
ghost use Rattle.f11_header.specs.Fields.{ident_area, map_area, map_offset};
ghost use Rattle.f11_header.specs.Lent.{header_block};
ghost use Rattle.f11_header.specs.MapFields.{segment};
ghost use Rattle.f11_scan.specs.Uses.{use_of_block};

use crate::HeaderUse;
use f11_bytes::Block;
use f11_header::Header;

/// A header, live or killed, where it was found.
#[derive(Drop)]
pub struct FoundHeader {
    /// The LBN of its block.
    pub lbn: u32,
    /// What it is.
    pub header_use: HeaderUse,
    /// Its block.
    pub block: Block,
    ghost is_header: { use_of_block block ≡ Some header_use },
}

impl FoundHeader {
    /// It as a header, of which identification, owner, protection, characteristics and attributes are read. A killed one has the file
    /// number 0, and all else as it was.
    pub fn header(&self) -> Header<'_>
        ensures { header_block result ≡ self.now.block }
    {
        Header::new(&self.block)
    }

    /// Its segment number (M.ESQN), from 0 to 255: 0 in the first header of a file.
    pub fn segment(&self) -> u8
        ensures { result ≡ segment (map_area self.now.block) }
    {
        self.header().segment()
    }

    /// The ident area, 46 bytes, of the first header of a file; an extension header hasn't any.
    pub fn ident(&self) -> Option<&[u8]>
        ensures first { IsSome result ↔ (segment (map_area self.now.block) ≡ 0) }
        ensures area { IfSome result (λ ident. ident.now ≡ ident_area self.now.block) }
        ensures len { IfSome result (λ ident. length ident.now ≡ 46) }
    {
        let header = self.header();
        if header.segment() == 0 {
            Some(header.ident())
        } else {
            None
        }
    }

    /// The map area, up to the check word.
    pub fn map(&self) -> &[u8]
        ensures area { result.now ≡ map_area self.now.block }
        ensures len { length result.now ≡ 510 - 2 * map_offset self.now.block }
    {
        self.header().map()
    }
}
