//! What bytes or a word hold of a date.
ghost use Rattle.std.specs.Prelude.{◌≡◌};
ghost use Rattle.f11_dates.specs.Dated.{held};

/// What bytes or a word hold of a date: nothing, the date, or what is no date.
#[derive(Clone, Copy, Debug, PartialEq, Eq)]
pub enum Dated<T> {
    /// No date is kept.
    Unset,
    /// This one is kept.
    Set(T),
    /// What is kept is no date.
    Invalid,
}

/// Nothing where it is empty, else what is found, if there is something.
pub(crate) fn held<T: Copy>(empty: bool, found: Option<T>) -> Dated<T>
    ensures { result ≡ held empty found }
{
    if empty {
        return Dated::Unset;
    }
    match found {
        Some(value) => Dated::Set(value),
        None => Dated::Invalid,
    }
}
