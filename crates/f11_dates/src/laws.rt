//! Laws of dates, each the contract of a function that does nothing: they show that the definitions say what is meant.
ghost use Rattle.f11_dates.specs.Laws as laws;

/// What is written reads back as the same.
pub fn there_and_back()
    ensures date { laws.DateBack }
    ensures time { laws.TimeBack }
    ensures moment { laws.MomentBack }
    ensures word { laws.WordBack }
{}

/// What is read and written again is the same, but for a space at the front of a date.
pub fn the_same_again()
    ensures date { laws.DateSame }
    ensures time { laws.TimeSame }
    ensures moment { laws.MomentSame }
    ensures word { laws.WordSame }
{}

/// There is just one answer that is right.
pub fn one_answer()
    ensures date { laws.OneDate }
    ensures time { laws.OneTime }
    ensures word { laws.OneWord }
{}

/// Dates with each kind of byte and of word.
pub fn worked()
    ensures moment { laws.MomentWorks }
    ensures years { laws.YearsWork }
    ensures leap_days { laws.LeapDaysWork }
    ensures words { laws.WordsWork }
    ensures refused { laws.WordsRefused }
{}
