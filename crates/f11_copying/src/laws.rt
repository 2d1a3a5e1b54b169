//! What a file is that was made of the blocks of a source, each law as the contract of a function that does nothing.
ghost use Rattle.f11_copying.specs.Made.{MadeIsMadeOf};
ghost use Rattle.f11_copying.specs.OldFile.{OldFileGives, OldFileIsCopied};

use crate::old_file::OldFile;
use crate::source::Blocks;
use f11_dev::Device;

/// A file that was made is as it was to be, of the blocks that the source gave, and all others are as before.
pub fn made<B: Blocks>()
    ensures made { MadeIsMadeOf B.gives }
{}

/// A file of a volume that is copied gives its blocks, in order, and leaves the image as it is; what is made of it has these.
pub fn old_file<D: Device>(file: &OldFile<D>)
    ensures gives { OldFileGives D.disk file.now }
    ensures copied { OldFileIsCopied D.disk file.now }
{
    let _ = file;
}
