//! Laws of the storage bitmap, each the contract of a function that does nothing: layers above cite them.
ghost use Rattle.f11_bits.specs.Laws as laws;

/// What a write of other blocks leaves: the bitmap's blocks, and with them which blocks are free, their number, what a
/// [`Storage`](crate::Storage) keeps, and that it is for this disk.
pub fn other_writes()
    ensures bitmap { laws.OtherWriteKeepsBitmap }
    ensures free { laws.FreeStays }
    ensures count { laws.CountStays }
    ensures kept { laws.KeptStays }
    ensures stays { laws.ForStays }
{}

/// What a write of one bitmap block makes of which blocks are free, where the bits past the volume's size are as they were.
pub fn bitmap_writes()
    ensures replaces { laws.BlockReplaces }
{}
