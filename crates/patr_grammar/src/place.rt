//! Places in a text.
ghost use Rattle.std.specs.Prelude.{◌≡◌, ◌-◌, ◌^◌, ◌<◌, length};
ghost use Rattle.patr_model.specs.Tokens.{after, start_place};
ghost use Rattle.patr_grammar.specs.Views.{place_seen, first_place};

use crate::lexeme::Lexeme;

/// A line and a column, from 1; columns count bytes.
#[derive(Clone, Copy, Debug, PartialEq, Eq)]
pub struct Place {
    pub line: u32,
    pub column: u32,
}

/// The place behind a text.
fn end_of(text: &str) -> Place
    requires { length text.now < 2 ^ 32 - 1 }
    ensures { place_seen result ≡ after start_place text.now }
{
    let mut place = Place { line: 1, column: 1 };
    for byte in text.as_bytes() {
        if *byte == b'\n' {
            place.line += 1;
            place.column = 1;
        } else {
            place.column += 1;
        }
    }
    place
}

/// The place of the first of the lexemes that end a text, or of the text's end.
pub fn place_of(text: &str, lexemes: &[Lexeme]) -> Place
    requires { length text.now < 2 ^ 32 - 1 }
    ensures { place_seen result ≡ first_place (after start_place text.now) lexemes.now }
{
    match lexemes {
        [] => end_of(text),
        [first, ..] => Place {
            line: first.line,
            column: first.column,
        },
    }
}
