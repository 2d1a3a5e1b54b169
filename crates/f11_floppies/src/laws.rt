//! Laws of sector order, each the contract of a function that does nothing.
ghost use Rattle.f11_floppies.specs.Laws as laws;

/// What tells an order: how many blocks there are, and a length, which is then that of a whole image.
pub fn orders()
    ensures blocks { laws.BlocksTellTheOrder }
    ensures length { laws.LengthIsOfAWholeImage }
{}

/// Where the bytes of blocks are: each at a place of its own, which is in the image and behind a track 0 that isn't used; and each place
/// there is one of them.
pub fn places()
    ensures apart { laws.BytesAreApart }
    ensures within { laws.BytesAreInTheImage }
    ensures behind { laws.BytesAreBehindTrackZero }
    ensures all { laws.EachByteIsABlocks }
{}

/// What putting a block back does: it is read again, all others stay, and so does what is no block's. A whole image is nothing else.
pub fn blocks()
    ensures there { laws.WhatIsPutIsRead }
    ensures others { laws.OtherBlocksStay }
    ensures write { laws.PuttingIsWriting }
    ensures outside { laws.OutsideStays }
    ensures whole { laws.ImageIsBlocksAndOutside }
{}
