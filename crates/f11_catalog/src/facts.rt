//! What the line of a file shows.
ghost use Rattle.f11_store.specs.File.{most_blocks};
ghost use Rattle.std.specs.Prelude.{◌≡◌, ◌≤◌, IsTrue};
ghost use Rattle.f11_header.specs.Header.{holds_header};
ghost use Rattle.f11_volume.specs.map.HeaderBlock.{segment_number};

use crate::dates::FileDates;
use crate::record_form::RecordForm;
use crate::records::stated_end;
use f11_bytes::Block;
use f11_header::Header;
use f11_store::Uic;

/// What the line of a file shows.
#[derive(Clone, Copy)]
pub(crate) struct FileFacts {
    /// Its allocation in blocks.
    pub(crate) blocks: u32,
    /// Its end in bytes, which is no further than the allocation.
    pub(crate) bytes: u64,
    pub(crate) owner: Uic,
    pub(crate) protection: u16,
    pub(crate) characteristics: u16,
    pub(crate) dates: FileDates,
    pub(crate) records: RecordForm,
}

impl FileFacts {
    ghost use Rattle.f11_catalog.specs.Facts.{facts_in};

    /// What the first header of a file of so many blocks says of it.
    pub(crate) fn of(header: &Block, blocks: u32) -> FileFacts
        requires header { IsTrue (holds_header header.now) }
        requires first { segment_number header.now ≡ 0 }
        requires few { blocks ≤ most_blocks }
        ensures { result ≡ facts_in header.now blocks }
    {
        let header = Header::new(header);
        FileFacts {
            blocks,
            bytes: stated_end(&header.attributes()).min(u64::from(512 * blocks)),
            owner: header.owner(),
            protection: header.protection(),
            characteristics: header.characteristics(),
            dates: FileDates::of(header.ident()),
            records: RecordForm::of(&header.attributes()),
        }
    }
}
