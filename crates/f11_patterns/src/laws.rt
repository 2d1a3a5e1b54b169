//! Laws of patterns, each the contract of a function that does nothing: they show that the definitions say what is
//! meant.
ghost use Rattle.f11_patterns.specs.Laws as laws;

/// What patterns are like, and which names fit.
pub fn laws()
    ensures star { laws.StarIsLikeEach }
    ensures plain { laws.PlainIsItself }
    ensures pattern { laws.PatternIsOne }
    ensures dot { laws.NoDotIsNone }
    ensures one { laws.OneMeansOne }
    ensures exactly { laws.ExactlyMeansOne }
    ensures fitted { laws.FittedIsThere }
{}

/// Worked values.
pub fn worked()
    ensures star { laws.StarWorks }
    ensures percent { laws.PercentWorks }
    ensures highest { laws.HighestWorks }
    ensures fitted { laws.FittedWorks }
{}
