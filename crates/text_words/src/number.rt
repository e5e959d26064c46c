// The number that a word says.
ghost use Rattle.std.specs.Prelude.{◌≡◌, ◌+◌, ◌*◌, ◌<◌, ◌^◌, ◌↔◌, IsSome, IfSome};
ghost use Rattle.text_words.specs.Says.{digit_of, with_byte, number_from, number_of};

use std::fmt;

// The base of a decimal number.
const DECIMAL: u64 = 10;

// The base of a hexadecimal number.
const HEXADECIMAL: u64 = 16;

// Why a word says no number.
#[derive(Clone, Copy, Debug, PartialEq, Eq)]
pub enum NumberError {
    // The number is above 2^64 - 1.
    TooLarge,
    // The word has a byte that is no digit, or begins with an underscore, or is empty.
    NoNumber,
}

impl fmt::Display for NumberError {
    fn fmt<W: fmt::Write>(&self, f: &mut fmt::Formatter<W>) -> fmt::Result {
        f.write_str(match self {
            NumberError::TooLarge => "a number above 2^64 - 1",
            NumberError::NoNumber => "no number",
        })
    }
}

// The value of a digit, decimal or hexadecimal.
pub fn digit_of(byte: u8) -> Option<u64>
    ensures { result ≡ digit_of byte }
{
    match byte {
        b'0'..=b'9' => Some(u64::from(byte - b'0')),
        b'a'..=b'f' => Some(u64::from(byte - b'a') + DECIMAL),
        b'A'..=b'F' => Some(u64::from(byte - b'A') + DECIMAL),
        _ => None,
    }
}

// A number of some base with one more digit; None where it is above 2^64 - 1.
pub fn with_digit(base: u64, number: u64, digit: u64) -> Option<u64>
    ensures fits { IsSome result ↔ (number * base + digit < 2 ^ 64) }
    ensures value { IfSome result (λ with. with ≡ number * base + digit) }
{
    let shifted = number.checked_mul(base)?;
    shifted.checked_add(digit)
}

// A number with one more digit of its base; an underscore is passed over.
fn append(number: u64, byte: u8, base: u64) -> Result<u64, NumberError>
    ensures { result ≡ with_byte base number byte }
{
    if byte == b'_' {
        return Ok(number);
    }
    let digit = digit_of(byte)
        .filter(|&digit| digit < base)
        .ok_or(NumberError::NoNumber)?;
    with_digit(base, number, digit).ok_or(NumberError::TooLarge)
}

// The number that some digits of a base say.
#[tactic(auto, unfolding(crate::specs::Says::number_from))]
fn number_in(base: u64, digits: &[u8]) -> Result<u64, NumberError>
    ensures { result ≡ number_from base 0 digits.now }
{
    let mut number = 0;
    for &byte in digits {
        number = append(number, byte, base)?;
    }
    Ok(number)
}

// The number that a word says; its first digit is no underscore.
pub fn number_of(word: &[u8]) -> Result<u64, NumberError>
    ensures { result ≡ number_of word.now }
{
    match word {
        [] | [b'_', ..] => Err(NumberError::NoNumber),
        [b'0', b'x', digits @ ..] if !digits.is_empty() => number_in(HEXADECIMAL, digits),
        _ => number_in(DECIMAL, word),
    }
}
