//! Laws of scripts that are served, each the contract of a function that does nothing: they show that the definitions say
//! what is meant.

ghost use Rattle.f11_serving.specs.Laws as laws;

use f11_making::Asked;

/// A script is served as its front is and then what is behind it, wherever it is parted: so one of a line more is that of the
/// front and that line.
pub fn parts<S: Asked>()
    ensures joined { laws.PartsAreServed S.service.serves }
    ensures parted { laws.ServedIsInParts S.service.serves }
{}

/// The number that a served script gives is the number of its requests.
pub fn counts<S: Asked>()
    ensures { laws.CountIsOfRequests S.service.serves }
{}

/// The requests of a served script are answered one after another, each lent the block as the one before it left it, and the
/// text has the line of each answer.
pub fn answers<S: Asked>()
    ensures { laws.RequestsAreAnswered S.service.serves }
{}

/// A script that is served by steps of the plain store is a run of its requests; so is one of a service that makes such steps
/// while nothing fails, where nothing failed.
pub fn runs<S: Asked>()
    ensures steps { laws.LinesAreRun }
    ensures sound { laws.SoundIsRun S.service.serves }
{}
