//! The lines of a lexicon: their kinds, their pieces, and places in them.
ghost use Rattle.std.specs.Prelude.{◌≡◌, ◌+◌, ◌-◌, ◌∷◌, ◌++◌, ◌<◌, ◌≤◌, ◌^◌, length, nat_eq, drop, IfSome, ℕ, false, not, ◌&&◌};
ghost use Rattle.std.specs.Option.{option_map};
ghost use Rattle.std.specs.List.{prefix_len, suffix_len};
ghost use Rattle.patr_model.specs.Session.{is_blank, pieces};
ghost use Rattle.patr_model.specs.Tokens.{is_control};
ghost use Rattle.patr_model.specs.LexiconLines.{is_edge, marker_len, blank_len, begins_with, is_white_line, is_comment, marker_of, kind, control, reads_comments, control_in, comments_after, bad_token, line_at, lines};
ghost use Rattle.patr_model.specs.LexiconText.{trimmed};
ghost use Rattle.patr_lexicon.specs.Reading.{place_at};
ghost use Rattle.patr_lexicon.specs.Parts.{NoLf, rest_lines, rest_pieces, rest_text, rest_len, IsCut, past, place_seen};

use patr_model::{LexiconLine, Marker};
use patr_text::BadToken;

/// A line from a place on, up to the line's end.
#[derive(Clone, Copy)]
pub struct Piece<'a> {
    /// Where the piece begins, in bytes of the whole text.
    pub start: usize,
    /// The line, from 1.
    pub line: u32,
    /// 1 and the number of bytes before the piece on its line.
    pub column: u32,
    pub text: &'a str,
}

fn is_blank(byte: u8) -> bool
    ensures { result ≡ is_blank byte }
{
    byte == b' ' || byte == b'\t'
}

fn is_edge(byte: u8) -> bool
    ensures { result ≡ is_edge byte }
{
    is_blank(byte) || byte == b'\r'
}

fn marker_len(text: &[u8]) -> usize
    ensures len { result ≡ marker_len text.now }
    ensures within { result ≤ length text.now }
{
    text.iter().take_while(|byte| !is_edge(**byte)).count()
}

fn blank_len(text: &[u8]) -> usize
    ensures len { result ≡ blank_len text.now }
    ensures within { result ≤ length text.now }
{
    text.iter().take_while(|byte| is_blank(**byte)).count()
}

fn begins_with(byte: u8, text: &[u8]) -> bool
    ensures { result ≡ begins_with byte text.now }
{
    match text {
        [] => false,
        [first, ..] => *first == byte,
    }
}

fn is_white_line(text: &[u8]) -> bool
    ensures { result ≡ is_white_line text.now }
{
    text.iter().all(|byte| is_edge(*byte))
}

fn is_comment(text: &[u8]) -> bool
    ensures { result ≡ is_comment text.now }
{
    begins_with(b';', &text[blank_len(text)..])
}

fn marker_of(text: &[u8]) -> Marker
    ensures { result ≡ marker_of text.now }
{
    match text {
        [b'w'] => Marker::Word,
        [b'c'] => Marker::Category,
        [b'f'] => Marker::Features,
        [b'g'] => Marker::Gloss,
        _ => Marker::Other,
    }
}

/// What a line is, without its LF.
pub fn kind_of(line: &str) -> LexiconLine
    ensures kind { result ≡ kind line.now }
    ensures cut { IsCut line.now result }
{
    let text = line.as_bytes();
    if is_white_line(text) || is_comment(text) {
        return LexiconLine::Ignored;
    }
    if !begins_with(b'\\', text) {
        return LexiconLine::Text;
    }
    let rest = &text[1..];
    let len = marker_len(rest);
    LexiconLine::Begins(marker_of(&rest[..len]), 1 + len)
}

/// The first line of a text without its LF, and what stands behind the LF, where there is one.
pub fn cut_line(text: &str) -> (&str, Option<&str>)
    ensures lines { pieces (nat_eq 10) text.now ≡ result.0.now ∷ rest_lines result.1 }
    ensures cut { text.now ≡ result.0.now ++ rest_text result.1 }
    ensures no_lf { NoLf result.0.now }
    ensures len { length result.0.now + rest_len result.1 ≡ length text.now }
{
    match text.split_once('\n') {
        Some((line, rest)) => (line, Some(rest)),
        None => (text, None),
    }
}

/// How many bytes stand before the first space or tab.
fn word_len(text: &[u8]) -> usize
    ensures len { result ≡ prefix_len (λ b. not (is_blank b)) text.now }
    ensures within { result ≤ length text.now }
{
    text.iter().take_while(|byte| !is_blank(**byte)).count()
}

/// The first piece of a text that is cut at spaces and tabs, and what stands behind the byte that ends
/// it, where there is one.
pub fn cut_word(text: &str) -> (&str, Option<&str>)
    ensures pieces { pieces is_blank text.now ≡ result.0.now ∷ rest_pieces is_blank result.1 }
    ensures len { length result.0.now + rest_len result.1 ≡ length text.now }
{
    let len = word_len(text.as_bytes());
    if len == text.len() {
        return (text, None);
    }
    (&text[..len], Some(&text[len + 1..]))
}

fn is_control(byte: u8) -> bool
    ensures { result ≡ is_control byte }
{
    byte < b' ' && !matches!(byte, b' ' | b'\t' | b'\n' | b'\r') || byte == 127
}

/// A comment begins with this byte, if comments are read.
fn begins_comment(comments: bool, byte: u8) -> bool
    ensures { result ≡ (comments && nat_eq byte 59) }
{
    comments && byte == b';'
}

/// How many bytes stand before the first control character, where a comment ends the search if
/// comments are read.
fn control(comments: bool, text: &[u8]) -> Option<usize>
    ensures place { (l k : ℕ) → option_map (past l k) result ≡ control comments (place_at l k) text.now }
    ensures within { IfSome result (λ n. n < length text.now) }
{
    for (place, byte) in text.iter().enumerate() {
        if is_control(*byte) {
            return Some(place);
        }
        if begins_comment(comments, *byte) {
            return None;
        }
    }
    None
}

fn reads_comments(marker: Marker) -> bool
    ensures { result ≡ reads_comments marker }
{
    matches!(marker, Marker::Features)
}

/// How many bytes of a line of this kind stand before its first bad character, in a field that reads
/// comments or not.
fn control_in(comments: bool, line: &str, kind: LexiconLine) -> Option<usize>
    ensures place { (n : ℕ) → option_map (past n 1) result ≡ control_in comments (line_at n line.now) kind }
    ensures within { IfSome result (λ n. n < length line.now) }
{
    match kind {
        LexiconLine::Ignored => None,
        LexiconLine::Begins(marker, _) => control(reads_comments(marker), line.as_bytes()),
        LexiconLine::Text => control(comments, line.as_bytes()),
    }
}

/// The first bad character of a line of this number and this kind.
pub fn bad_in(comments: bool, number: u32, line: &str, kind: LexiconLine) -> Option<BadToken>
    requires { length line.now < 2 ^ 32 }
    ensures { option_map place_seen result ≡ control_in comments (line_at number line.now) kind }
{
    let before = control_in(comments, line, kind)?;
    Some(BadToken {
        line: number,
        column: 1 + before as u32,
    })
}

/// Whether comments are read behind a line of this kind.
pub fn comments_after(comments: bool, kind: LexiconLine) -> bool
    ensures { result ≡ comments_after comments kind }
{
    match kind {
        LexiconLine::Begins(marker, _) => reads_comments(marker),
        LexiconLine::Ignored | LexiconLine::Text => comments,
    }
}

/// The place of the first bad character of a text: a control character that is no white space and
/// stands outside comments.
pub fn bad_token(text: &str) -> Option<BadToken>
    requires { length text.now < 2 ^ 32 - 1 }
    ensures { option_map place_seen result ≡ bad_token false (lines text.now) }
{
    let mut comments = false;
    let mut rest = text;
    let mut number = 1;
    'lines: loop {
        let (line, behind) = cut_line(rest);
        let kind = kind_of(line);
        if let Some(bad) = bad_in(comments, number, line, kind) {
            return Some(bad);
        }
        let Some(behind) = behind else {
            return None;
        };
        comments = comments_after(comments, kind);
        rest = behind;
        number += 1;
    }
}

/// How many spaces, tabs and CRs a text begins with.
fn edge_len(text: &[u8]) -> usize
    ensures len { result ≡ prefix_len is_edge text.now }
    ensures within { result ≤ length text.now }
{
    text.iter().take_while(|byte| is_edge(**byte)).count()
}

/// How many bytes a text has without the spaces, tabs and CRs at its end.
fn kept_len(text: &[u8]) -> usize
    ensures len { result + suffix_len is_edge text.now ≡ length text.now }
{
    let mut len = text.len();
    while len > 0 && is_edge(text[len - 1]) {
        len -= 1;
    }
    len
}

/// A text without spaces, tabs and CRs at its ends.
pub fn trim(text: &str) -> &str
    ensures { result.now ≡ trimmed text.now }
{
    let rest = &text[edge_len(text.as_bytes())..];
    &rest[..kept_len(rest.as_bytes())]
}
