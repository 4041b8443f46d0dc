//! The number that one word stands for.
ghost use Rattle.std.specs.Prelude.{◌≡◌, ◌+◌, ◌-◌, ◌*◌, IsTrue, option_map};
ghost use Rattle.std.specs.List.{list_all};
ghost use Rattle.rs01_words.specs.Value.{IsOf, given_number, is_decimal, is_digit, is_sound};
ghost use Rattle.rs01_words.specs.Value.{number_of, number_or, number_within, option_kind, up_to};
ghost use Rattle.rs01_words.specs.Value.{value_of};

use crate::fault::WordFault;
use crate::table::{Kind, OptionWord, preset_of, rule_of};

/// Whether a byte is a decimal digit.
pub fn is_digit(byte: u8) -> bool
    ensures { result ≡ is_digit byte }
{
    byte >= b'0' && byte <= b'9'
}

// Whether all bytes are decimal digits.
fn all_digits(bytes: &[u8]) -> bool
    ensures { result ≡ list_all is_digit bytes.now }
{
    bytes.iter().all(|byte| is_digit(*byte))
}

// Whether the word is one or more decimal digits.
fn is_decimal(word: &str) -> bool
    ensures { result ≡ is_decimal word.now }
{
    if word.is_empty() {
        return false;
    }
    all_digits(word.as_bytes())
}

// The number with one more digit, where it is at most `high`.
fn add_digit(number: u64, digit: u8, high: u64) -> Option<u64>
    ensures { result ≡ up_to high (10 * number + (digit - 48)) }
{
    let number = number
        .checked_mul(10)?
        .checked_add(u64::from(digit.saturating_sub(b'0')))?;
    if number <= high { Some(number) } else { None }
}

/// The number of these digits, where it is at most `high`. A word may have any count of digits, so
/// the number may be beyond every type.
pub fn number_up_to(digits: &[u8], high: u64) -> Option<u64>
    ensures { result ≡ up_to high (number_of digits.now) }
{
    let mut number: u64 = 0;
    for digit in digits {
        number = match add_digit(number, *digit, high) {
            Some(longer) => longer,
            None => return None,
        };
    }
    Some(number)
}

// The number of the word, where it is one from `low` to `high`.
fn number_within(word: &str, low: u64, high: u64) -> Result<u64, WordFault>
    ensures { result ≡ number_within low high word.now }
{
    if !is_decimal(word) {
        return Err(WordFault::BadNumber);
    }
    match number_up_to(word.as_bytes(), high) {
        Some(number) if low <= number => Ok(number),
        _ => Err(WordFault::OutOfRange),
    }
}

/// The number that a word of this kind stands for. A name stands for none, and 0 is the answer.
pub fn value_of(kind: Kind, word: &str) -> Result<u64, WordFault>
    ensures { result ≡ value_of kind word.now }
{
    match kind {
        Kind::Name | Kind::Drive => Ok(0),
        Kind::Number { low, high } => number_within(word, low, high),
        Kind::Parity { low, high } => match preset_of(word) {
            Some(number) => Ok(number),
            None => number_within(word, low, high),
        },
    }
}

/// The number that a word of this kind stands for, and `other` for a word that stands for none.
pub fn number_or(kind: Kind, other: u64, word: &str) -> u64
    requires sound { IsTrue (is_sound kind) }
    requires other { IsOf kind other }
    ensures value { result ≡ number_or kind other word.now }
    ensures range { IsOf kind result }
{
    match value_of(kind, word) {
        Ok(number) => number,
        Err(_) => other,
    }
}

/// The number of an option: that of its value where it is given, else its default.
pub fn given_number(option: OptionWord, word: Option<&str>) -> u64
    ensures value { result ≡ given_number option (option_map (λ x. x.now) word.entry) }
    ensures range { IsOf (option_kind option) result }
{
    let rule = rule_of(option);
    match word {
        None => rule.default,
        Some(word) => number_or(rule.value.unwrap_or(Kind::Name), rule.default, word),
    }
}
