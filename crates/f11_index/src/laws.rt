//! Laws of the index file, each the contract of a function that does nothing: they show that the definitions say what is
//! meant, and layers above cite them.
ghost use Rattle.f11_index.specs.ChangeLaws as changes;
ghost use Rattle.f11_index.specs.Growth as growth;
ghost use Rattle.f11_index.specs.HeaderLaws as headers;
ghost use Rattle.f11_index.specs.Laws as laws;

/// Live headers and next ones are found by tests.
pub fn tests()
    ensures live { headers.LiveIsTested }
    ensures next { headers.NextIsFound }
{}

/// A header of a file is known by its segment number, which is a byte.
pub fn segments()
    ensures one { headers.SegmentIsOne }
    ensures bytes { headers.ImageHasByteSegments }
{}

/// A file's headers are listed, each at the place of its segment.
pub fn lists()
    ensures placed { headers.HeaderIsPlaced }
    ensures listed { headers.HeadersAreListed }
{}

/// The list of a whole file's headers has them alone, each once, and its links lead to no others.
pub fn whole_lists()
    ensures place { headers.PlaceHasHeader }
    ensures alone { headers.ListedAreHeaders }
    ensures apart { headers.HeadersAreApart }
    ensures few { headers.HeadersAreFew }
    ensures end { headers.LinksEnd }
{}

/// A file's last header.
pub fn last_headers()
    ensures some { headers.WholeHasLast }
    ensures one { headers.LastIsOne }
    ensures ends { headers.LastEndsList }
    ensures whole { headers.LastMakesWhole }
{}

/// Files that are chained.
pub fn chained_files()
    ensures whole { headers.ChainedAreWhole }
    ensures apart { headers.ChainedAreApart }
    ensures before { headers.ChainedHaveOneBefore }
{}

/// The headers of a file where headers change.
pub fn changed_headers()
    ensures whole { changes.WholeFileStays }
    ensures stays { changes.HeaderStays }
    ensures last { changes.HeaderBecomesLast }
    ensures next { changes.NextBecomesLast }
{}

/// A write of blocks that are none of the index file's.
pub fn other_writes()
    ensures images { laws.OtherImagesKeep }
    ensures keeps { laws.OtherWriteKeeps }
    ensures stays { laws.OtherWriteStaysFor }
{}

/// A write of a slot's bit, as [`IndexFile::set`](crate::IndexFile::set) and
/// [`IndexFile::clear`](crate::IndexFile::clear) do it.
pub fn bit_writes()
    ensures keeps { laws.BitWriteKeeps }
    ensures others { laws.OtherSlotsStay }
    ensures stays { laws.BitWriteStaysFor }
{}

/// A header that is written where it is.
pub fn header_writes()
    ensures keeps { laws.HeaderWriteKeeps }
    ensures stays { laws.HeaderWriteStaysFor }
{}

/// An index file that grows at its end, as [`IndexFile::grow`](crate::IndexFile::grow) keeps it.
pub fn growth()
    ensures names { growth.IndexFileGrows }
    ensures links { growth.IndexFileGrowsByHeader }
    ensures stays { growth.GrownStaysFor }
{}

/// When the index file is still as it should be.
pub fn soundness()
    ensures { laws.IndexFileStays }
{}
