//! The words of the files of the host that `put --each` and `rt-put --each` have behind their first one.
ghost use Rattle.std.specs.Prelude.{◌≡◌, ◌++◌, drop, map, string_bytes};
ghost use Rattle.std.specs.List.{list_any};
ghost use Rattle.std.specs.Str.{bytes_eq};
ghost use Rattle.f11_words.specs.Hosts.{HostsStandBehind, behind_options, has_each, other_hosts, places_in, places_of};
ghost use Rattle.f11_words.specs.Lines.{is_option};

/// Whether a word begins with a hyphen.
fn is_option(word: &str) -> bool
    ensures { result ≡ is_option word.now }
{
    match word.as_bytes() {
        [first, ..] => *first == b'-',
        [] => false,
    }
}

/// The words behind the options, and the mode behind one.
fn behind_options(words: &[String]) -> &[String]
    ensures { map string_bytes result.now ≡ behind_options (map string_bytes words.now) }
{
    match words {
        [] => words,
        [word, rest @ ..] => {
            if word.as_str() == "--mode" && words.len() > 1 {
                behind_options(without_first(without_first(words)))
            } else if is_option(word.as_str()) {
                behind_options(rest)
            } else {
                words
            }
        }
    }
}

/// Words without the first.
fn without_first(words: &[String]) -> &[String]
    ensures { result.now ≡ drop 1 words.now }
{
    match words {
        [] => words,
        [_, rest @ ..] => rest,
    }
}

/// Whether `--each` is among words.
fn has_each(words: &[String]) -> bool
    ensures { result ≡ has_each (map string_bytes words.now) }
{
    match words {
        [] => false,
        [word, rest @ ..] => word.as_str() == "--each" || has_each(rest),
    }
}

/// How many words stand before the other files of the host: of `put` the image, the directory, and the first one; of `rt-put` the volume and
/// the first one; `None` of any other command.
fn places_of(command: &str) -> Option<usize>
    ensures { result ≡ places_of command.now }
{
    match command {
        "put" => Some(3),
        "rt-put" => Some(2),
        _ => None,
    }
}

/// The same of all words, where `--each` is among them.
fn places_in(words: &[String]) -> Option<usize>
    ensures { result ≡ places_in (map string_bytes words.now) }
{
    match words {
        [_, command, rest @ ..] => {
            if has_each(rest) {
                places_of(command.as_str())
            } else {
                None
            }
        }
        _ => None,
    }
}

/// The words of a command line, of which the first is the program's name, as [`parse`](crate::parse) takes them, and the words of the files of
/// the host behind the first one of `put --each` or `rt-put --each`. The options of that stand before the other words, and any word behind these is a file.
pub fn split_hosts(words: &[String]) -> (&[String], &[String])
    ensures whole { result.0.now ++ result.1.now ≡ words.now }
    ensures others { map string_bytes result.1.now ≡ other_hosts (map string_bytes words.now) }
    ensures behind { HostsStandBehind }
{
    let Some(before) = places_in(words) else {
        return words.split_at(words.len());
    };
    let places = behind_options(without_first(without_first(words)));
    let others = places.len().saturating_sub(before);
    words.split_at(words.len() - others.min(words.len()))
}
