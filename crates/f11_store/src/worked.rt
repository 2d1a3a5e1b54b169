//! Worked examples of the plain store, the contract of a function that does nothing.

ghost use Rattle.f11_store.specs.Worked as worked;
ghost use Rattle.f11_store.specs.WorkedCosts as costs;
ghost use Rattle.f11_store.specs.WorkedLags as lags;
ghost use Rattle.f11_store.specs.WorkedRuns as runs;

/// What requests on files of a small volume are answered.
pub fn files()
    ensures sequence_numbers { worked.SequenceNumbers }
    ensures full_volume { worked.FullVolume }
    ensures deferred_delete { worked.DeferredDelete }
    ensures truncated_under_a_reader { worked.TruncatedUnderAReader }
    ensures conflicts { worked.Conflicts }
    ensures other_volumes { worked.OtherVolumes }
{}

/// What they are answered where headers, or slots, run out.
pub fn headers()
    ensures too_long { worked.TooLong }
    ensures headers_run_out { worked.HeadersRunOut }
    ensures slots_run_out { worked.SlotsRunOut }
    ensures refused_for_slots_alone { worked.RefusedForSlotsAlone }
{}

/// What requests on directories are answered.
pub fn directories()
    ensures entered_and_removed { worked.EnteredAndRemoved }
    ensures entered_in_new_block { worked.EnteredInNewBlock }
    ensures entered_behind_slot { worked.EnteredBehindSlot }
    ensures end_moves { worked.EndMoves }
{}

/// How many transfers requests may take.
pub fn transfers()
    ensures bounds { worked.Bounds }
    ensures bounds_behind_slots { worked.BoundsBehindSlots }
    ensures lengths { costs.WideLengths }
    ensures directories { costs.WideDirectories }
    ensures small { costs.SmallBounds }
    ensures no_file { costs.NoFileBounds }
    ensures long { costs.LongFileBounds }
    ensures several_headers { costs.SeveralHeaderBounds }
    ensures wide_index { costs.WideIndexBounds }
    ensures giving_up { costs.GivingUpBounds }
{}

/// What no request on a small volume may leave behind.
pub fn no_lags()
    ensures create { lags.CreateTakesOneHeader }
    ensures extend { lags.ExtendTakesWhatItAsks }
    ensures grow_index { lags.GrowIndexClearsFirst }
    ensures delete { lags.DeleteLeavesOthers }
    ensures release { lags.ReleaseFreesOnce }
{}

/// What no request changes, and what of the numbers of slots.
pub fn still_counts()
    ensures limits { lags.LimitsStay }
    ensures sequences { lags.SequencesStay }
    ensures pointers { lags.TruncateAddsNoPointer }
{}

/// What requests may take, and in which order directories are written.
pub fn work()
    ensures headers { lags.WorkTakesHeaders }
    ensures entered { lags.EnteredAtTheEnd }
{}

/// What a file is that is laid out in one run, what stands against it, and what it takes.
pub fn runs()
    ensures pointers { runs.RunPointers }
    ensures mark { runs.RunMark }
    ensures causes { runs.RunCauses }
    ensures costs { runs.RunCosts }
    ensures header { runs.RunInHeader }
{}

/// What none may leave behind.
pub fn no_run_lags()
    ensures { runs.RunMarksLast }
{}

/// The same where the index file gets a slot first.
pub fn no_lags_behind_slots()
    ensures create { lags.CreateGetsSlotFirst }
    ensures extend { lags.ExtendGetsSlotFirst }
{}
