//! Laws of directories, each the contract of a function that does nothing.
ghost use Rattle.f11_entries.specs.Costs as costs;
ghost use Rattle.f11_entries.specs.Entering as entering;
ghost use Rattle.f11_entries.specs.Seen as seen;
ghost use Rattle.f11_entries.specs.Writing as writes;

/// A directory that is looked at block by block.
pub fn looking()
    ensures begins { seen.LookingBegins }
    ensures on { seen.LookingGoesOn }
    ensures found { seen.NameIsFound }
    ensures ends { seen.LookingEnds }
    ensures put { seen.EntryIsPut }
    ensures block { seen.BlockIsThere }
    ensures new_block { seen.NewBlockIsZeros }
    ensures there { seen.NamedIsThere }
{}

/// What stands while a record is entered.
pub fn entering()
    ensures in_place { entering.EnteringInPlace }
    ensures at_end { entering.EnteringAtEnd }
    ensures in_new_block { entering.EnteringInNewBlock }
    ensures request { entering.EnterLags }
    ensures entry { entering.EntryIsBlock }
    ensures end { entering.EndIsAttr }
{}

/// The transfers of looking, and of entering and removing behind a look.
pub fn costs()
    ensures find { costs.FindFits }
    ensures remove { costs.RemoveFits }
    ensures enter { costs.EnterFits }
    ensures append { costs.AppendFits }
    ensures grown { costs.GrownFits }
    ensures headers { costs.GrownHeaders }
{}

/// Records entered and removed by writes of blocks and of attributes, and why entering is refused.
pub fn writing()
    ensures writes { writes.EnteringByWrites }
    ensures room { writes.RoomIsAsked }
    ensures in_place { writes.EnteringInPlaceByWrite }
    ensures removing { writes.RemovingIsOneWrite }
    ensures refused { writes.RefusedLagsToo }
    ensures marks { writes.EnterKeepsMarks }
{}
