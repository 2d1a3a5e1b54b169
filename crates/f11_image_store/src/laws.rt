//! Laws of the store of an image, each the contract of a function that does nothing.
ghost use Rattle.f11_image_store.specs.AllocationLaws as allocation;
ghost use Rattle.f11_image_store.specs.ConfinesLaws as confines;
ghost use Rattle.f11_image_store.specs.ExtensionLaws as extensions;
ghost use Rattle.f11_image_store.specs.FieldLaws as fields;
ghost use Rattle.f11_image_store.specs.FileLaws as files;
ghost use Rattle.f11_image_store.specs.FreeingLaws as freeing;
ghost use Rattle.f11_image_store.specs.FreshStore as fresh;
ghost use Rattle.f11_image_store.specs.NewFileLaws as new;
ghost use Rattle.f11_image_store.specs.SlotLaws as slots;
ghost use Rattle.f11_image_store.specs.StoreLaws as laws;

/// Whether a header is a file's first is found by a test.
pub fn tests()
    ensures { laws.FirstIsTested }
{}

/// A slot that isn't in use has no file.
pub fn unused_slots()
    ensures { laws.UnusedIsEmpty }
{}

/// A write that leaves all files, or changes a block of one.
pub fn block_writes()
    ensures stays { laws.StoreStays }
    ensures block { laws.BlockIsStored }
{}

/// A write that marks blocks used or free.
pub fn bitmap_writes()
    ensures used { laws.FewerAreFree }
    ensures free { laws.MoreAreFree }
{}

/// A write of one slot, of its header or of its bit.
pub fn slot_writes()
    ensures any { slots.SlotIsStored }
    ensures unused { slots.UnusedSlotIsGiven }
    ensures entered { slots.FileIsEntered }
    ensures set { slots.FilelessSlotIsSet }
{}

/// A write of a header where it is.
pub fn header_writes()
    ensures fileless { slots.FilelessHeaderIsWritten }
    ensures killed { slots.FileIsKilled }
    ensures rewritten { slots.FileIsRewritten }
{}

/// A file whose last header names more blocks, or links to a header that does.
pub fn growth()
    ensures file { files.FileHasMore }
    ensures store { files.FileGrows }
    ensures links { files.FileHasHeaderMore }
{}

/// A file that ends at one of its headers.
pub fn cuts()
    ensures { files.FileEndsThere }
{}

/// A file that grows or is cut by one write of one of its headers, which may be made.
pub fn map_writes()
    ensures names { files.LastMayNameMore }
    ensures links { files.LastMayLinkOn }
    ensures ends { files.HeaderMayEnd }
{}

/// An index file that grows.
pub fn index_growth()
    ensures any { slots.IndexFileIsStored }
    ensures names { files.IndexFileHasMore }
    ensures links { files.IndexFileHasHeaderMore }
{}

/// What a header says of its file once a field of it was written.
pub fn written_fields()
    ensures attributes { fields.AttributesAreReplaced }
    ensures ident { fields.IdentIsReplaced }
    ensures protection { fields.ProtectionIsReplaced }
    ensures marked { fields.DeleteMarkIsSet }
    ensures unmarked { fields.ContiguousMarkIsCleared }
    ensures contiguous { fields.ContiguousMarkIsSet }
{}

/// A file whose first header says another thing of it.
pub fn field_writes()
    ensures file { fields.FirstHeaderMayChange }
    ensures index_file { fields.IndexHeaderMayChange }
{}

/// A new file, whose header is written and then entered.
pub fn new_files()
    ensures free { new.FreeSlotsAreStored }
    ensures written { new.NewFirstMayBeWritten }
    ensures entered { new.NewFileMayBeEntered }
{}

/// A header for a file that grows, which is written and entered.
pub fn extensions()
    ensures taken { extensions.SlotIsTaken }
    ensures entered { extensions.ExtensionMayBeEntered }
{}

/// The store of a fresh volume.
pub fn fresh_volumes()
    ensures { fresh.FreshIsStored }
{}

/// Which blocks headers name, and which are free.
pub fn allocation()
    ensures cells { allocation.CellsAreNamed }
    ensures files { allocation.FileBlocksAreNamed }
    ensures gains { allocation.GainsAdd }
    ensures free { allocation.FreeBlocksAreStored }
    ensures kept { allocation.FileKeepsBlocks }
{}

/// Which blocks of a sound volume calls don't change on their own account.
pub fn spared_blocks()
    ensures boot { confines.BootBlockIsSpared }
    ensures home { confines.HomeBlockIsSpared }
    ensures control { confines.ControlBlockIsSpared }
    ensures file { confines.FileBlockIsSpared }
    ensures unnamed { confines.UnnamedBlockIsSpared }
    ensures behind { confines.BlockBehindIsSpared }
{}

/// What may be freed without touching a file: an orphan header is killed, a slot with a dead header leaves use, and blocks that no header
/// names become free.
pub fn freeing()
    ensures orphan { freeing.OrphanMayBeKilled }
    ensures slot { freeing.DeadSlotMayBeFreed }
    ensures blocks { freeing.UnnamedMayBeFreed }
{}
