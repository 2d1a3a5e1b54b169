//! Laws of writes, each the contract of a function that does nothing: layers above cite them.
ghost use Rattle.f11_writes.specs.HeaderLaws as headers;
ghost use Rattle.f11_writes.specs.Laws as laws;
ghost use Rattle.f11_writes.specs.Lost as lost;
ghost use Rattle.f11_writes.specs.Moments as moments;
ghost use Rattle.f11_writes.specs.NameLaws as names;
ghost use Rattle.f11_writes.specs.OrderLaws as order;
ghost use Rattle.f11_writes.specs.OtherSlots as slots;
ghost use Rattle.f11_writes.specs.Volumes as volumes;
ghost use Rattle.f11_writes.specs.Worked as worked;

/// A volume that has lost headers, or has other blocks free.
pub fn shrunk_volumes()
    ensures { volumes.ShrunkIsSound }
{}

/// A volume one of whose headers is set.
pub fn set_volumes()
    ensures { volumes.SetIsSound }
{}

/// The headers of a file where all slots but one are as they were.
pub fn other_slots()
    ensures files { slots.OtherFilesStay }
    ensures before { slots.OtherSlotsStayBefore }
    ensures up_to { slots.OtherSlotsStayUpTo }
    ensures were { slots.OtherHeadersWere }
    ensures entered { slots.EnteredIsUnlinked }
{}

/// A write of a block that the volume isn't read from.
pub fn unread_writes()
    ensures any { laws.UnreadWriteKeeps }
    ensures file { laws.FileWriteKeeps }
    ensures unnamed { laws.UnnamedWriteKeeps }
{}

/// A write of blocks of the storage bitmap.
pub fn bitmap_writes()
    ensures any { laws.BitmapWriteKeeps }
    ensures used { laws.UsedMarksKeep }
    ensures free { laws.FreeMarksKeep }
{}

/// A header that is written where it is.
pub fn header_writes()
    ensures unused { headers.UnusedHeaderWriteKeeps }
    ensures killed { headers.KillKeeps }
    ensures any { headers.HeaderRewriteKeeps }
    ensures file { headers.FileHeaderRewriteKeeps }
{}

/// A slot's bit that is written.
pub fn bit_writes()
    ensures set { headers.BitSetKeeps }
    ensures clear { headers.BitClearKeeps }
{}

/// An index file that grows at its end.
pub fn growth()
    ensures names { headers.IndexFileMayGrow }
    ensures links { headers.IndexFileMayGrowByHeader }
{}

/// The blocks that no header names.
pub fn unnamed_blocks()
    ensures free { names.FreeIsUnnamed }
    ensures taken { names.TakenAreUnreferenced }
    ensures lost { names.LostIsUnnamed }
{}

/// Unreferenced blocks, in use and named by no header, which are unreferenced still.
pub fn unreferenced_blocks()
    ensures part { names.PartIsUnreferenced }
    ensures stay { names.UnreferencedStay }
    ensures others { names.OtherUnreferencedStay }
    ensures unentered { names.UnreferencedStayUnentered }
{}

/// The blocks that a header may name.
pub fn names()
    ensures unreferenced { names.UnreferencedMayBeNamed }
    ensures own { names.OwnMayBeNamed }
    ensures more { names.MoreMayBeNamed }
    ensures fewer { names.FewerMayBeNamed }
{}

/// Writes of blocks that are in order.
pub fn orderly_blocks()
    ensures file { order.FileWriteIsOrderly }
    ensures lost { order.LostWriteIsOrderly }
    ensures bitmap { order.BitmapWriteIsOrderly }
{}

/// Writes of headers that are.
pub fn orderly_headers()
    ensures unused { order.UnusedHeaderWriteIsOrderly }
    ensures killed { order.KillIsOrderly }
    ensures any { order.HeaderRewriteIsOrderly }
    ensures file { order.FileHeaderRewriteIsOrderly }
    ensures grows { order.IndexFileGrowsInOrder }
    ensures links { order.IndexFileGrowsByHeaderInOrder }
{}

/// Writes of slots' bits that are.
pub fn orderly_bits()
    ensures set { order.BitSetIsOrderly }
    ensures clear { order.BitClearIsOrderly }
{}

/// Calls that write in order.
pub fn ordered_calls()
    ensures looked { order.LooksAreInOrder }
    ensures wrote { order.WriteIsInOrder }
    ensures failed { order.FailedWriteIsInOrder }
    ensures kept { order.OrderIsKept }
    ensures sound { order.OrderIsSound }
    ensures fixed { order.OrderKeepsFixed }
    ensures accepted { moments.SparingLostIsAccepted }
{}

/// Blocks in no file, and calls that spare them.
pub fn lost_blocks()
    ensures noted { lost.NotedAreUsedInNoFile }
    ensures orphans { lost.OrphansAreUsedInNoFile }
    ensures looked { lost.LooksSpareLost }
    ensures kept { lost.SparingLostIsKept }
{}

/// Writes that are not.
pub fn out_of_order()
    ensures free { order.FreeBlocksAreSpared }
    ensures fixed { order.FixedBlocksAreSpared }
    ensures comes { order.SlotsComeWithHeaders }
    ensures leaves { order.LiveSlotsStay }
    ensures linked { order.LinkedHeadersStay }
    ensures zeros { order.NamedBlocksHoldZeros }
    ensures used { order.NamedBlocksStayUsed }
{}

/// A block of zeros that is added to a file, an empty file that is made, a file that gets one more header, and one that is
/// deleted, each in two or three writes.
pub fn worked_examples()
    ensures added { worked.BlockIsAdded }
    ensures made { worked.FileIsMade }
    ensures linked { worked.HeaderIsLinked }
    ensures deleted { worked.FileIsDeleted }
{}
