//! Laws of the plain store, each the contract of a function that does nothing: they show that the
//! definitions say what is meant.

ghost use Rattle.f11_store.specs.Contiguous as contiguous;
ghost use Rattle.f11_store.specs.Laws as laws;
ghost use Rattle.f11_store.specs.Pieces as pieces;
ghost use Rattle.f11_store.specs.SlotsFirst as slots_first;

/// What a store is: its values, and nothing else.
pub fn stores()
    ensures { laws.AgreeingAreOne }
{}

/// What a refusal is: it changes nothing, and it is the only one; only want of memory, or of a run of
/// free blocks, stands beside an answer.
pub fn refusals()
    ensures unchanged { laws.RefusalChangesNothing }
    ensures one { laws.RefusalIsOne }
    ensures wanting { laws.ServedOrWanting }
    ensures reply { laws.ReplyIsOne }
{}

/// What is written is read, and nothing else changes.
pub fn blocks()
    ensures read { laws.WrittenIsRead }
    ensures other_blocks { laws.OtherBlocksStay }
    ensures other_files { laws.OtherFilesStay }
{}

/// A new file's identification is new in its slot; a file that is deleted stays for those who access it.
pub fn identifications()
    ensures free { laws.NewSlotWasFree }
    ensures next { laws.NewFileIsNext }
    ensures kept { laws.AccessedKeepsBlocks }
{}

/// Blocks come back as zeros.
pub fn lengths()
    ensures zeros { laws.CutComesBackZero }
{}

/// What a request leaves behind lags the store before it.
pub fn lags()
    ensures itself { laws.LagsItself }
    ensures step { laws.StepLags }
{}

/// What is no lag: another file changed, a change where there is no work, the end of a directory moved before
/// its record is there.
pub fn no_lags()
    ensures others { laws.OthersAreEqual }
    ensures no_parts { laws.NoPartsNoChange }
    ensures refused { laws.RefusedIsStill }
    ensures end_last { laws.EndComesLast }
{}

/// A name that is entered is found, and it can't be entered twice; one that is removed leaves all other
/// records, and is found afterwards in another one or not at all.
pub fn directories()
    ensures found { laws.EnteredIsFound }
    ensures duplicate { laws.StandingIsDuplicate }
    ensures removed { laws.RemovedIsEmpty }
    ensures elsewhere { laws.RemovedThenFound }
{}

/// A file of the plain store that grows piece by piece, the index file or another.
pub fn pieces()
    ensures none { pieces.NoneGrows }
    ensures twice { pieces.GrowsTwice }
    ensures within { pieces.GrowsWithin }
    ensures fewer { pieces.FewerMayGrow }
    ensures others { pieces.OthersMayGrow }
{}

/// What stands meanwhile lags the store before.
pub fn pieces_under_way()
    ensures grown { pieces.GrownLags }
    ensures taken { pieces.TakenLags }
    ensures taking_adds { pieces.TakingAdds }
{}

/// A file whose contiguous mark is cleared before it grows.
pub fn cleared_marks()
    ensures may { pieces.ClearedMayGrow }
    ensures grows { pieces.ClearedGrows }
    ensures lags { pieces.ClearedLags }
{}

/// What it is to grow, of a file that requests reach and of the index file.
pub fn growth()
    ensures extends { pieces.GrowsAsExtends }
    ensures index { pieces.GrowsAsIndex }
{}

/// An index file that grows before headers are taken.
pub fn slots_first()
    ensures ready { slots_first.GainedIsReady }
    ensures gaining { slots_first.GainingLags }
    ensures lags { slots_first.ReadyLags }
{}

/// What may be done then: what takes headers.
pub fn headers_for()
    ensures enough { slots_first.EnoughAreFree }
    ensures extend { slots_first.ReadyMayExtend }
{}

/// A file that is laid out in one run: what stands while its blocks come, and then the contiguous mark.
pub fn laying_out()
    ensures blocks { contiguous.BlocksComeLags }
    ensures mark { contiguous.MarkComesLags }
    ensures whole { contiguous.LaidOutLags }
    ensures more { contiguous.RunGoesOn }
    ensures under_way { contiguous.RunUnderWay }
{}

/// What it has then.
pub fn laid_out()
    ensures marked { contiguous.MarkedIsLaidOut }
    ensures has { contiguous.LaidOutHas }
{}
