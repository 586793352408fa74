//! Number texts.

ghost use Rattle.std.specs.Prelude.{◌≡◌, ◌<◌, ◌^◌};
ghost use Rattle.grid_text.specs.Numbers.{bare, from_first, sign_and_digits, signed_of, within};

use text_words::unsigned;

/// Why a text is no number of a range.
#[derive(Clone, Copy)]
pub enum NumberFault {
    /// The text hasn't the form of a number.
    BadForm,
    /// The number is out of the range.
    OutOfRange,
}

/// Whether a text has a `-` at its front, and what stands behind it.
fn sign_and_digits(text: &[u8]) -> (bool, &[u8])
    ensures sign { result.0 ≡ (sign_and_digits text.now).0 }
    ensures digits { result.1.now ≡ (sign_and_digits text.now).1 }
{
    match text {
        [b'-', digits @ ..] => (true, digits),
        _ => (false, text),
    }
}

/// The value of a text of 1 to 19 decimal digits with or without a `-` before them, where it is from `-limit` to
/// `limit`. `BadForm` says that the text is no such number, and `OutOfRange` that its value is out of the range.
pub fn signed_within(text: &[u8], limit: u64) -> Result<i64, NumberFault>
    requires { limit < 2 ^ 63 }
    ensures { result ≡ within limit (signed_of text.now) }
{
    let (is_negative, digits) = sign_and_digits(text);
    let Some(size) = unsigned(digits) else {
        return Err(NumberFault::BadForm);
    };
    if size > limit {
        return Err(NumberFault::OutOfRange);
    }
    let value = size as i64;
    Ok(if is_negative { -value } else { value })
}

/// A text without the spaces at its front.
fn without_first_spaces(text: &[u8]) -> &[u8]
    ensures { result.now ≡ from_first text.now }
{
    let mut rest = text;
    while let [b' ', after @ ..] = rest {
        rest = after;
    }
    rest
}

/// A text without the spaces at both ends.
pub(crate) fn without_spaces(text: &[u8]) -> &[u8]
    ensures { result.now ≡ bare text.now }
{
    let mut rest = without_first_spaces(text);
    while let [before @ .., b' '] = rest {
        rest = before;
    }
    rest
}
