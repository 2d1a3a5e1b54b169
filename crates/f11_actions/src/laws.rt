//! A law of names, the contract of a function that does nothing: it shows that its definition says what is meant.
ghost use Rattle.f11_actions.specs.RtNamed.{RtFittedIsThere};

/// Fitted names on RT-11.
pub fn laws()
    ensures fitted { RtFittedIsThere }
{}
