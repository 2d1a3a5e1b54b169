//! Laws of the conversions, each the contract of a function that does nothing: they show that the definitions say what is
//! meant.
ghost use Rattle.f11_flx.specs.Laws as laws;

/// Where a line ends.
pub fn lines()
    ensures ended { laws.LineEnds }
    ensures last { laws.LastLineEnds }
{}

/// What comes back: lines from their text, and from the records that spell them.
pub fn round_trips()
    ensures lines { laws.LinesComeBack }
    ensures records { laws.RecordsComeBack }
{}

/// What a walk over the records of a file finds: [`Records`](crate::Records) takes them one by one.
pub fn walks()
    ensures start { laws.StartHasAll }
    ensures taken { laws.TakenIsFirst }
    ensures refused { laws.RefusedIsBad }
    ensures end { laws.EndHasNone }
{}

/// Which records are good.
pub fn good_records()
    ensures all { laws.AllAreGood }
{}

/// When a conversion is done: [`ToText`](crate::ToText) and [`ToRecords`](crate::ToRecords) have nothing more to give.
pub fn ends()
    ensures text { laws.TextEnds }
    ensures refused { laws.TextIsRefused }
    ensures records { laws.RecordsEnd }
{}

/// What a copy says of itself: its attributes fit its bytes.
pub fn copies()
    ensures text { laws.CopyHasLines }
    ensures few { laws.RecordsAreFew }
    ensures image { laws.ImageEndsWithBlocks }
{}

/// What comes back of a copy that was made of another one.
pub fn copies_back()
    ensures image { laws.ImageComesBack }
    ensures text { laws.TextComesBack }
{}
