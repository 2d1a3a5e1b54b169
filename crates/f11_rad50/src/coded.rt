//! Words of a name, judged by the codes in them.
ghost use Rattle.std.specs.Prelude.{◌≡◌, ◌&&◌, ◌||◌};
ghost use Rattle.f11_rad50.specs.Coded.{is_name_code, is_padded, goes_on, are_named};

/// Whether a code is that of a character that may stand in a name.
#[tactic(auto, unfolding(crate::specs::Coded::is_name_code))]
fn is_name_code(code: u16) -> bool
    ensures { result ≡ is_name_code code }
{
    matches!(code, 1..=27 | 30..=39)
}

/// Whether a word is that of characters of a name and then spaces.
#[tactic(auto, unfolding(crate::specs::Coded::is_padded))]
fn is_padded(word: u16) -> bool
    ensures { result ≡ is_padded word }
{
    word == 0
        || is_name_code(word / 1600)
            && (word % 1600 == 0
                || is_name_code(word / 40 % 40) && (word % 40 == 0 || is_name_code(word % 40)))
}

/// Whether a word may stand behind another one, which has no space if this one has a character.
#[tactic(auto, unfolding(crate::specs::Coded::goes_on))]
fn goes_on(word: u16, next: u16) -> bool
    ensures { result ≡ goes_on word next }
{
    next == 0 || word % 40 != 0
}

/// Whether three words are those of a name and one that of a type, not both empty.
#[tactic(auto, unfolding(crate::specs::Coded::are_named))]
pub(crate) fn are_named(first: u16, second: u16, third: u16, kind: u16) -> bool
    ensures { result ≡ are_named first second third kind }
{
    is_padded(first)
        && is_padded(second)
        && is_padded(third)
        && is_padded(kind)
        && goes_on(first, second)
        && goes_on(second, third)
        && (first != 0 || kind != 0)
}
