//! What was read of a volume's frame, or its fault.
ghost use Rattle.std.specs.Prelude.{◌≡◌, ◌+◌, ◌≤◌, vec_len};
ghost use Rattle.f11_index.specs.Kept.{index_kept};

use f11_index::IndexFile;

/// What was read of a volume's frame.
#[derive(Drop)]
pub struct Frame {
    /// The index file.
    pub(crate) index: IndexFile,
    /// The LBNs of the first blocks of the storage bitmap file: the control block, and then those of the bitmap.
    pub(crate) blocks: Vec<u32>,
    /// How many blocks the bitmap has.
    pub(crate) count: usize,
    /// How many blocks the volume has.
    pub(crate) size: u32,
    /// The bitmap's blocks are among those of the file.
    pub ghost whole: { count + 1 ≤ vec_len blocks },
}

impl Frame {
    ghost use Rattle.f11_vfy.specs.Frames.Read.{frame_index, places_of};

    /// The index file.
    pub fn index(&self) -> &IndexFile
        ensures { index_kept result.now ≡ frame_index self.now }
    {
        &self.index
    }

    /// The LBNs of the storage bitmap's blocks, in order: 1 to 126 of them.
    pub fn places(&self) -> &[u32]
        ensures { result.now ≡ places_of self.now }
    {
        let blocks: &[u32] = &self.blocks;
        &blocks[1..1 + self.count]
    }

    /// How many blocks the volume has.
    pub fn size(&self) -> u32
        ensures { result ≡ self.now.size }
    {
        self.size
    }
}

/// What is found of a volume's frame.
#[derive(Drop)]
pub enum Framing {
    /// It is as it should be.
    Framed(Frame),
    /// It has this fault, by its code and a number.
    Faulty { code: u8, a: u32 },
}

impl Frame {
    ghost use Rattle.f11_vfy.specs.Frames.Read.{frame_index};

    /// The index file, given up.
    pub fn into_index(self) -> IndexFile
        ensures { index_kept result ≡ frame_index self }
    {
        let Frame { index, .. } = self;
        index
    }
}

impl Framing {
    ghost use Rattle.f11_vfy.specs.declared.frame.framing.Framing.TheVariants.{Faulty as Fault};

    /// A fault, by its code and a number.
    pub(crate) fn faulty(code: u8, a: u32) -> Framing
        ensures { result ≡ Fault code a }
    {
        Framing::Faulty { code, a }
    }
}
