//! What stands at the front of a text.
ghost use Rattle.std.specs.Prelude.{◌≡◌, ◌≤◌, ◌<◌, ◌+◌, ◌^◌, not, false, length, IfOk, MatchOption, option_copied, [], ◌∷◌};
ghost use Rattle.std.specs.List.{prefix_len};
ghost use Rattle.std.specs.String.{string_bytes};
ghost use Rattle.patr_model.specs.Bytes.{is_digit};
ghost use Rattle.patr_model.specs.Reading.{is_end, bare_front, quoted_front, digits_front, skip};
ghost use Rattle.patr_canon.specs.Fronts.{unquoted_front, IsNumberFront};

use patr_text::Memory;
use std::alloc::Global;

/// The text behind this character, where it stands at the front. The character is ASCII.
pub(crate) fn behind(text: &str, character: char) -> Option<&str>
    requires { character < 128 }
    ensures rest { option_copied result ≡ skip (character ∷ []) text.now }
{
    text.strip_prefix(character)
}

/// The text behind these two characters, where they stand at the front. Both are ASCII.
pub(crate) fn behind_both(text: &str, first: char, second: char) -> Option<&str>
    requires first { first < 128 }
    requires second { second < 128 }
    ensures rest { option_copied result ≡ skip (first ∷ second ∷ []) text.now }
{
    behind(behind(text, first)?, second)
}

/// Whether a text without quotes ends before this byte.
fn is_end(byte: u8) -> bool
    ensures { result ≡ is_end byte }
{
    matches!(byte, b' ' | b':' | b']')
}

/// How many bytes a text without quotes has.
fn bare_len(bytes: &[u8]) -> usize
    ensures { result ≡ prefix_len (λ b. not (is_end b)) bytes.now }
{
    bytes.iter().take_while(|byte| !is_end(**byte)).count()
}

/// The text without quotes at the front, and what is behind it.
pub(crate) fn bare_front(text: &str) -> (&str, &str)
    ensures front { bare_front text.now ≡ record { it = result.0.now; rest = result.1.now } }
    ensures len { length result.0.now + length result.1.now ≡ length text.now }
{
    text.split_at(bare_len(text.as_bytes()))
}

/// Appends the text up to the closing quote, without the `\` before a character, and answers what is behind the
/// quote; `None` where there is no closing quote.
pub(crate) fn unquote<'a>(text: &'a str, out: &mut String) -> Result<Option<&'a str>, Memory>
    requires { string_bytes out.old ≡ [] }
    ensures { IfOk result (λ rest. quoted_front text.now false ≡ unquoted_front (string_bytes out.new) rest) }
{
    let mut chars = text.chars();
    let mut escaped = false;
    while let Some(character) = chars.next() {
        if escaped {
            out.push(character)?;
            escaped = false;
            continue;
        }
        if character == '"' {
            return Ok(Some(chars.as_str()));
        }
        if character == '\\' {
            escaped = true;
            continue;
        }
        out.push(character)?;
    }
    Ok(None)
}

fn is_digit(byte: u8) -> bool
    ensures { result ≡ is_digit byte }
{
    byte.is_ascii_digit()
}

/// How many digits stand at the front.
fn digits_len(bytes: &[u8]) -> usize
    ensures { result ≡ prefix_len is_digit bytes.now }
{
    bytes.iter().take_while(|byte| is_digit(**byte)).count()
}

/// The number that these digits spell, where it is below 2^32.
fn number_of(digits: &[u8]) -> Option<u64>
    requires { prefix_len is_digit digits.now ≡ length digits.now }
    ensures { MatchOption result (2 ^ 32 ≤ (digits_front digits.now 0).it) (λ n. (digits_front digits.now 0 ≡ record { it = n; rest = [] }) × (n < 2 ^ 32)) }
{
    let mut number = 0;
    for byte in digits {
        number = number * 10 + u64::from(*byte - b'0');
        if number > u64::from(u32::MAX) {
            return None;
        }
    }
    Some(number)
}

/// The number whose digits stand at the front, and what is behind it; `None` where it is 2^32 at least.
pub(crate) fn number_front(text: &str) -> Option<(u64, &str)>
    ensures { IsNumberFront text.now result }
{
    let (digits, rest) = text.split_at(digits_len(text.as_bytes()));
    let number = number_of(digits.as_bytes())?;
    Some((number, rest))
}
