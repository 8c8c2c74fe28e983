//! Texts of numbers.
ghost use Rattle.std.specs.Prelude.{◌≡◌, ◌≤◌, ◌^◌, ◌<◌, MatchOption, IsTrue};
ghost use Rattle.std.specs.Char.{is_ascii_digit};
ghost use Rattle.std.specs.List.{list_all};
ghost use Rattle.std.specs.Str.Parse.{digits_value};
ghost use Rattle.bg_words.specs.Numbers as definition;

/// The numbers that an option takes.
#[derive(Clone, Copy, Debug)]
pub(crate) struct Numbers {
    /// The least of them.
    pub least: u64,
    /// The greatest of them.
    pub greatest: u64,
    /// The number that is meant where the option is not given.
    pub default: u64,
}

/// The number that the text writes in one to twenty digits, where it is one of these.
pub(crate) fn number_of(text: &str, numbers: Numbers) -> Option<u64>
    ensures { result ≡ definition.option_value numbers text.now }
{
    if !is_number(text) {
        return None;
    }
    let number = value_of(text)?;
    if number < numbers.least || numbers.greatest < number {
        return None;
    }
    Some(number)
}

/// Whether the text is one to twenty digits.
fn is_number(text: &str) -> bool
    ensures { result ≡ definition.is_number text.now }
{
    !text.is_empty() && text.len() <= 20 && are_digits(text)
}

/// Whether the text has no byte that is no digit.
fn are_digits(text: &str) -> bool
    ensures { result ≡ list_all is_ascii_digit text.now }
{
    text.bytes().all(|byte| byte.is_ascii_digit())
}

/// The number that the digits write, where it is below 2^64.
fn value_of(digits: &str) -> Option<u64>
    requires { IsTrue (definition.is_number digits.now) }
    ensures { MatchOption result (2 ^ 64 ≤ digits_value 10 digits.now) (λ number. number ≡ digits_value 10 digits.now) }
{
    digits.parse().ok()
}
