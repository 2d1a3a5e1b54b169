//! Laws of what is said of requests, each the contract of a function that does nothing.
ghost use Rattle.f11_fcp.specs.Laws as laws;

/// What a stop between two block writes of a request leaves is a volume that the verifier accepts.
pub fn stops()
    ensures { laws.StandingIsAccepted }
{}

/// What is met while requests are served.
pub fn damage()
    ensures undamaged { laws.HandledIsUndamaged }
{}
