//! The words of a line, one after another.

ghost use Rattle.std.specs.Prelude.{◌≡◌, ◌==◌, position, Some, None, if◌then◌else◌};

/// The words that are left of a line, which single spaces separate (profile).
#[derive(Clone, Copy, Debug)]
pub(crate) struct Words<'a> {
    /// From the next word on; `None` behind the last one.
    rest: Option<&'a [u8]>,
}

impl<'a> Words<'a> {
    ghost use Rattle.f11_script.specs.Reading.{Gives, at_end, next_word, words_left, words_between};
    ghost use Rattle.f11_script.specs.Requests.{Ask};

    /// The words of a line.
    pub(crate) fn of(line: &'a [u8]) -> Words<'a>
        ensures { words_left result ≡ words_between line.entry.now }
    {
        Words { rest: Some(line) }
    }

    /// The next word, and those behind it.
    pub(crate) fn next(self) -> Option<(&'a [u8], Words<'a>)>
        ensures { Gives (λ next. (next.0.now, words_left next.1)) result
            (next_word (words_left self.entry)) }
    {
        let text = self.rest?;
        let Some(at) = first_space(text) else {
            return Some((text, Words { rest: None }));
        };
        Some((
            &text[..at],
            Words {
                rest: Some(&text[at + 1..]),
            },
        ))
    }

    /// Whether no word is left.
    pub(crate) fn is_empty(self) -> bool
        ensures { (ask : Ask) → at_end (words_left self.entry) ask
            ≡ (if result then Some ask else None) }
    {
        self.rest.is_none()
    }
}

/// The place of the first space.
fn first_space(text: &[u8]) -> Option<usize>
    ensures { result ≡ position (λ c. c == 32) text.now }
{
    text.iter().position(|c| *c == b' ')
}
