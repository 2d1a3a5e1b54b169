//! The single words of a command, as they are read.
ghost use Rattle.std.specs.Prelude.{◌≡◌, ℕ, Bool, List, Option, MatchOption, codes, is_some};
ghost use Rattle.clap.specs.Words.{first_value, found_of};
ghost use Rattle.f11_numbers.specs.Octal.{SpellsUic};
ghost use Rattle.f11_words.specs.Asking.{IsMode, IsNoModeOrNone, IsNoWord, SpellsMode, SpellsModeOrNone, SpellsWord};
ghost use Rattle.f11_words.specs.Asking.{IsNoNumberOrNone, SpellsNumberOrNone};
ghost use Rattle.f11_words.specs.Asking.{IsNoTakingMode, IsTakingMode, SpellsTakingMode, SpellsTakingModeOrNone};
ghost use Rattle.f11_words.specs.Directory.{IsNoDirectory, IsNoTarget, IsNoUic, SpellsDirectory, SpellsTarget};
ghost use Rattle.f11_words.specs.Lines.{is_stopping, is_told as told_by, manner_from};
ghost use Rattle.f11_words.specs.declared.words.Manner.{Manner as MannerWord};
ghost use Rattle.f11_words.specs.Reading.{HasFlag, HasText};

use crate::directory::{Directory, read_directory, read_target};
use crate::words::{Manner, TakingMode};
use clap::ArgMatches;
use f11_flx::CopyMode;
use f11_numbers::{read_number, read_protection, read_rights, read_uic};
use f11_store::Uic;

/// Whether there is a word of this name.
pub fn has(given: &ArgMatches<'_>, name: &str) -> bool
    ensures { result ≡ is_some (first_value (found_of given.now) name.now) }
{
    given.get_str(name).is_some()
}

/// Whether it is only told what would be done.
pub fn is_told(given: &ArgMatches<'_>) -> bool
    ensures { (told : Bool) → HasFlag (codes "n") told given.now → result ≡ told }
{
    given.get_flag("n")
}

/// How something is done to several files: where `-n` is there nothing is done, whether `--stop` is or not.
fn manner_by(is_told: bool, is_stopping: bool) -> Manner
    ensures { result ≡ manner_from is_told is_stopping }
{
    if is_told {
        Manner::Tells
    } else if is_stopping {
        Manner::Stops
    } else {
        Manner::GoesOn
    }
}

/// How something is done to several files.
pub fn manner_of(given: &ArgMatches<'_>) -> Manner
    ensures { (manner : MannerWord) → HasFlag (codes "n") (told_by manner) given.now
        → HasFlag (codes "stop") (is_stopping manner) given.now → result ≡ manner }
{
    manner_by(given.get_flag("n"), given.get_flag("stop"))
}

/// The mode of a copy that a text spells.
pub fn mode_in(text: &str) -> Option<CopyMode>
    ensures { MatchOption result (¬ IsMode text.now) (SpellsMode text.now) }
{
    match text {
        "image" => Some(CopyMode::Image),
        "text" => Some(CopyMode::Text),
        _ => None,
    }
}

/// The mode of a copy among the words, and that of an image where none is there.
pub fn mode_or_image(given: &ArgMatches<'_>) -> Option<CopyMode>
    ensures { (mode : Option (List ℕ)) → first_value (found_of given.now) (codes "mode") ≡ mode
        → MatchOption result (IsNoModeOrNone mode) (SpellsModeOrNone mode) }
{
    match given.get_str("mode") {
        Some(text) => mode_in(text),
        None => Some(CopyMode::Image),
    }
}

/// The mode of `get` that a text spells.
pub fn taking_mode_in(text: &str) -> Option<TakingMode>
    ensures { MatchOption result (¬ IsTakingMode text.now) (SpellsTakingMode text.now) }
{
    if text == "auto" {
        return Some(TakingMode::Auto);
    }
    mode_in(text).map(TakingMode::Copy)
}

/// The mode of `get` among the words, and that of an image where none is there.
pub fn taking_mode_or_image(given: &ArgMatches<'_>) -> Option<TakingMode>
    ensures { (mode : Option (List ℕ)) → first_value (found_of given.now) (codes "mode") ≡ mode
        → MatchOption result (IsNoTakingMode mode) (SpellsTakingModeOrNone mode) }
{
    match given.get_str("mode") {
        Some(text) => taking_mode_in(text),
        None => Some(TakingMode::Copy(CopyMode::Image)),
    }
}

/// The mode of a copy among the words, which has to be there.
pub fn mode_of(given: &ArgMatches<'_>) -> Option<CopyMode>
    ensures { (text : List ℕ) → HasText (codes "mode") text given.now
        → MatchOption result (¬ IsMode text) (SpellsMode text) }
{
    mode_in(given.get_str("mode")?)
}

/// The number that a word of this name spells, and none where none is there.
pub fn number_or_none(given: &ArgMatches<'_>, name: &str) -> Option<Option<u16>>
    ensures { (text : Option (List ℕ)) → first_value (found_of given.now) name.now ≡ text
        → MatchOption result (IsNoNumberOrNone text) (SpellsNumberOrNone text) }
{
    match given.get_str(name) {
        Some(text) => read_number(text).map(Some),
        None => Some(None),
    }
}

/// The protection word that a text spells, in octal or as RSX-11 shows it.
pub fn word_in(text: &str) -> Option<u16>
    ensures { MatchOption result (IsNoWord text.now) (SpellsWord text.now) }
{
    match read_protection(text) {
        Some(word) => Some(word),
        None => read_rights(text),
    }
}

/// The protection word among the words, which has to be there.
pub fn word_of(given: &ArgMatches<'_>) -> Option<u16>
    ensures { (text : List ℕ) → HasText (codes "word") text given.now
        → MatchOption result (IsNoWord text) (SpellsWord text) }
{
    word_in(given.get_str("word")?)
}

/// The user's code that a word spells.
pub fn uic_of(given: &ArgMatches<'_>, name: &str) -> Option<Uic>
    ensures { (text : List ℕ) → HasText name.now text given.now
        → MatchOption result (IsNoUic text) (SpellsUic text) }
{
    read_uic(given.get_str(name)?)
}

/// The directory that a word spells.
pub fn directory_of(given: &ArgMatches<'_>) -> Option<Directory>
    ensures { (text : List ℕ) → HasText (codes "dir") text given.now
        → MatchOption result (IsNoDirectory text) (SpellsDirectory text) }
{
    read_directory(given.get_str("dir")?)
}

/// In which other directory a file gets its new name, and which, as a word spells them.
pub fn target_of<'a>(given: &ArgMatches<'a>) -> Option<(Option<Directory>, &'a str)>
    ensures { (text : List ℕ) → HasText (codes "new") text given.now
        → MatchOption result (IsNoTarget text) (λ t. SpellsTarget text t.0 t.1.now) }
{
    read_target(given.get_str("new")?)
}
