//! How atoms and attributes print.
ghost use Rattle.std.specs.Prelude.{◌≡◌, ◌++◌, ◌∷◌, [], ◌&&◌, not, false, nat_eq, flat_map, encode_utf8, IfOk};
ghost use Rattle.std.specs.String.{string_bytes};
ghost use Rattle.patr_model.specs.Text.{is_bare, begins_with_greater, goes_on, escaped, printed};

use patr_text::Memory;

/// Whether this byte stands in a text without quotes, apart from what is said of `.` and `-`.
fn is_bare(byte: u8) -> bool
    ensures { result ≡ is_bare byte }
{
    byte > b' '
        && byte != 127
        && !matches!(
            byte,
            b'<' | b'>'
                | b'='
                | b'{'
                | b'}'
                | b'('
                | b')'
                | b'['
                | b']'
                | b'/'
                | b':'
                | b'.'
                | b';'
                | b'"'
                | b'\\'
                | b'#'
        )
}

/// Whether a byte other than `.` stands in a text without quotes, with the bytes behind it.
fn stands_bare(byte: u8, rest: &[u8]) -> bool
    ensures { result ≡ (is_bare byte && not (nat_eq byte 45 && begins_with_greater rest.now)) }
{
    is_bare(byte) && !(byte == b'-' && matches!(rest, [b'>', ..]))
}

/// Whether a text stands for itself: it reads as one word, and has no `"`, `\` and `#`.
fn stands_for_itself(text: &str) -> bool
    ensures { result ≡ goes_on false text.now }
{
    let mut left = text.as_bytes();
    let mut after = false;
    while let [byte, rest @ ..] = left {
        let is_dot = *byte == b'.';
        if is_dot && !after || !is_dot && !stands_bare(*byte, rest) {
            return false;
        }
        after = !is_dot;
        left = rest;
    }
    after
}

/// Appends a character, with a `\` before a `"` or `\`.
fn write_escaped(character: char, out: &mut String) -> Result<(), Memory>
    ensures { IfOk result (λ _. string_bytes out.new ≡ string_bytes out.old ++ flat_map escaped (encode_utf8 character)) }
{
    if character == '"' {
        out.push_str("\\\"")
    } else if character == '\\' {
        out.push_str("\\\\")
    } else {
        out.push(character)
    }
}

/// Appends a text between double quotes, with a `\` before each `"` and `\`.
fn write_quoted(text: &str, out: &mut String) -> Result<(), Memory>
    ensures { IfOk result (λ _. string_bytes out.new ≡ string_bytes out.old ++ 34 ∷ (flat_map escaped text.now ++ 34 ∷ [])) }
{
    out.push('"')?;
    for character in text.chars() {
        write_escaped(character, out)?;
    }
    out.push('"')
}

/// Appends an atom or an attribute as it prints: as it is where it reads as one word without `"`, `\` and `#`, else
/// between double quotes. Fails for want of memory alone.
pub fn write_printed(text: &str, out: &mut String) -> Result<(), Memory>
    ensures { IfOk result (λ _. string_bytes out.new ≡ string_bytes out.old ++ printed text.now) }
{
    if stands_for_itself(text) {
        out.push_str(text)
    } else {
        write_quoted(text, out)
    }
}
