//! What the words of a command line ask for.

ghost use Rattle.std.specs.Prelude.{◌≡◌, option_copied};
ghost use Rattle.stencil_top.specs.Words.{named, texts};

use stencil_words::is_value;

/// The name of a file, where the words are this command and such a name.
pub(crate) fn named<'a>(known: &str, words: &'a Vec<String>) -> Option<&'a str>
    ensures { option_copied result ≡ named known.now (texts words.entry.now) }
{
    match words.as_slice() {
        [command, name] if command.as_str() == known && is_value(name.as_str()) => {
            Some(name.as_str())
        }
        _ => None,
    }
}
