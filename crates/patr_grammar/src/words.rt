//! Words of the notation.
ghost use Rattle.std.specs.Prelude.{◌≡◌, map};
ghost use Rattle.patr_model.specs.Lexemes.{lower, is_keyword, key_of, all_digits, is_index, without_index};

use patr_model::Keyword;

/// The text is this word of the notation, which has no capital letter.
fn is_keyword(text: &str, word: &str) -> bool
    requires { map lower word.now ≡ word.now }
    ensures { result ≡ is_keyword word.now text.now }
{
    if text.len() != word.len() {
        return false;
    }
    text.eq_ignore_ascii_case(word)
}

/// Which word of the notation a text is: a keyword, or `in` or `out` as they are written.
pub fn key_of(text: &str) -> Keyword
    ensures { result ≡ key_of text.now }
{
    if is_keyword(text, "rule") {
        Keyword::Rule
    } else if is_keyword(text, "let") {
        Keyword::Let
    } else if is_keyword(text, "define") {
        Keyword::Define
    } else if is_keyword(text, "parameter") {
        Keyword::Parameter
    } else if is_keyword(text, "be") {
        Keyword::Be
    } else if is_keyword(text, "as") {
        Keyword::As
    } else if is_keyword(text, "is") {
        Keyword::Is
    } else if is_keyword(text, "start") {
        Keyword::Start
    } else if is_keyword(text, "symbol") {
        Keyword::Symbol
    } else if is_keyword(text, "restrictor") {
        Keyword::Restrictor
    } else if is_keyword(text, "attribute") {
        Keyword::Attribute
    } else if is_keyword(text, "order") {
        Keyword::Order
    } else if text == "in" {
        Keyword::In
    } else if text == "out" {
        Keyword::Out
    } else {
        Keyword::Plain
    }
}

/// Each byte is a digit.
fn all_digits(bytes: &[u8]) -> bool
    ensures { result ≡ all_digits bytes.now }
{
    bytes.iter().all(|byte| byte.is_ascii_digit())
}

/// The bytes are an index: a `_` and digits, at least one.
fn is_index(bytes: &[u8]) -> bool
    ensures { result ≡ is_index bytes.now }
{
    match bytes {
        [b'_', digits @ ..] => !digits.is_empty() && all_digits(digits),
        _ => false,
    }
}

/// A symbol's text without its index, which stands at the end, behind another character.
pub fn without_index(text: &str) -> &str
    ensures { result.now ≡ without_index text.now }
{
    let bytes = text.as_bytes();
    for place in 1..bytes.len() {
        if is_index(&bytes[place..]) {
            return &text[..place];
        }
    }
    text
}
