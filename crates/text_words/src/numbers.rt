//! Decimal numbers.

ghost use Rattle.std.specs.Prelude.{◌≡◌, ◌≤◌, length, true};
ghost use Rattle.std.specs.Char.{is_ascii_digit};
ghost use Rattle.std.specs.List.{list_all};
ghost use Rattle.std.specs.Str.Parse.{digits_value};
ghost use Rattle.text_words.specs.Numbers.{is_unsigned, number_of, unsigned_of};

/// The most digits of a number.
const MAX_DIGITS: usize = 19;

/// Whether each byte of a text is a decimal digit.
fn has_digits(text: &[u8]) -> bool
    ensures { result ≡ list_all is_ascii_digit text.now }
{
    text.iter().all(|&byte| byte.is_ascii_digit())
}

/// Whether a text is 1 to 19 decimal digits.
fn is_unsigned(text: &[u8]) -> bool
    ensures { result ≡ is_unsigned text.now }
{
    !text.is_empty() && text.len() <= MAX_DIGITS && has_digits(text)
}

/// The value of decimal digits.
fn digits_value(digits: &[u8]) -> u64
    requires digits { list_all is_ascii_digit digits.now ≡ true }
    requires few { length digits.now ≤ 19 }
    ensures { result ≡ digits_value 10 digits.now }
{
    let mut value = 0;
    for &digit in digits {
        value = value * 10 + u64::from(digit - b'0');
    }
    value
}

/// The value of a text of 1 to 19 decimal digits, and nothing else. Leading zeros are allowed.
pub fn unsigned(text: &[u8]) -> Option<u64>
    ensures { result ≡ unsigned_of text.now }
{
    if is_unsigned(text) {
        Some(digits_value(text))
    } else {
        None
    }
}

/// The same, where the value is at most 4,294,967,295.
pub fn number(text: &[u8]) -> Option<u32>
    ensures { result ≡ number_of text.now }
{
    u32::try_from(unsigned(text)?).ok()
}
