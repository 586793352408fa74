//! The two forms in which words give options.

ghost use Rattle.std.specs.Prelude.{◌≡◌, is_some, option_copied};
ghost use Rattle.stencil_words.specs.BehindFirst.{IsBehindFirst};
ghost use Rattle.stencil_words.specs.Options.{divided, has_equals, is_value, joined, name_part, options_of, paired};
ghost use Rattle.stencil_words.specs.Options.{texts, undashed};

/// A word behind its first byte, where that is a `-`.
fn undashed(word: &str) -> Option<&str>
    ensures { option_copied result ≡ undashed word.now }
{
    word.strip_prefix('-')
}

/// What stands behind the `--` at the front of a word.
fn name_part(word: &str) -> Option<&str>
    ensures { option_copied result ≡ name_part word.now }
{
    undashed(undashed(word)?)
}

/// Whether a text has a `=`, with something behind the first.
fn is_divided(text: &str) -> bool
    ensures { result ≡ is_some (divided text.now) }
{
    match text.split_once('=') {
        Some((_, value)) => !value.is_empty(),
        None => false,
    }
}

/// Whether a word is `--NAME=VALUE`.
#[tactic(auto, unfolding(crate::specs::Options::joined))]
fn is_joined(word: &str) -> bool
    ensures { result ≡ is_some (joined word.now) }
{
    match name_part(word) {
        Some(text) => is_divided(text),
        None => false,
    }
}

/// Whether a text has a `=`.
fn has_equals(text: &str) -> bool
    ensures { result ≡ has_equals text.now }
{
    text.split_once('=').is_some()
}

/// Whether a word may stand as a value behind `--NAME`, and whether it may name a script's file: it isn't empty, and
/// doesn't begin with `-`.
pub fn is_value(word: &str) -> bool
    ensures { result ≡ is_value word.now }
{
    match word.as_bytes() {
        [] => false,
        [first, ..] => *first != b'-',
    }
}

/// Whether a word is `--NAME`, and the next may stand as a value behind it.
#[tactic(auto, unfolding(crate::specs::Options::paired))]
fn is_paired(word: &str, next: &str) -> bool
    ensures { result ≡ is_some (paired word.now next.now) }
{
    match name_part(word) {
        Some(name) => !has_equals(name) && is_value(next),
        None => false,
    }
}

/// The words behind the option at the front of words, if one stands there.
fn behind_first<'a>(word: &str, after: &'a [String]) -> Option<&'a [String]>
    ensures { IsBehindFirst word.now after.entry.now result }
{
    if is_joined(word) {
        return Some(after);
    }
    let (next, rest) = after.split_first()?;
    if is_paired(word, next.as_str()) {
        Some(rest)
    } else {
        None
    }
}

/// Whether words are options, each `--NAME=VALUE` in one word or `--NAME` and the value in two.
pub(crate) fn are_options(words: &[String]) -> bool
    ensures { result ≡ is_some (options_of (texts words.now)) }
{
    let mut rest = words;
    while let Some((word, after)) = rest.split_first() {
        let Some(behind) = behind_first(word.as_str(), after) else {
            return false;
        };
        rest = behind;
    }
    true
}
