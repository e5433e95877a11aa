//! The commands of a session.
ghost use Rattle.std.specs.Prelude.{◌≡◌, [], ◌∷◌, map, IfSome};
ghost use Rattle.std.specs.Option.{option_map};
ghost use Rattle.patr_model.specs.Session.{switch, on_off};
ghost use Rattle.patr_model.specs.Notations.{lines_with_commands};
ghost use Rattle.patr_shell.specs.Spoken.{command_seen, MayBeSet};

use crate::command_line::{MOST_EDGES, number_of};

/// A command of a session.
#[derive(Clone, Copy, Debug, PartialEq, Eq)]
pub enum Command<'a> {
    /// The most edges that a chart may have, from 1 to 200,000.
    Limit(u32),
    /// Whether each analysis is written with its features.
    Features(bool),
    /// Whether the number of edges is written.
    Count(bool),
    /// The variants of this word's entries are written.
    Show(&'a str),
    /// The session ends.
    Quit,
}

/// What `on` and `off` switch to.
fn switch(word: &str) -> Option<bool>
    ensures { result ≡ switch word.now }
{
    match word {
        "on" => Some(true),
        "off" => Some(false),
        _ => None,
    }
}

/// The command of one word.
fn command_of_one<'a>(name: &str) -> Option<Command<'a>>
    ensures command { option_map command_seen result ≡ lines_with_commands.command (name.now ∷ []) }
    ensures limit { IfSome result MayBeSet }
{
    match name {
        ":quit" => Some(Command::Quit),
        _ => None,
    }
}

/// The command of two words.
fn command_of_two<'a>(name: &str, value: &'a str) -> Option<Command<'a>>
    ensures command { option_map command_seen result
        ≡ lines_with_commands.command (name.now ∷ value.now ∷ []) }
    ensures limit { IfSome result MayBeSet }
{
    match name {
        ":limit" => Some(Command::Limit(number_of(MOST_EDGES, value)?)),
        ":features" => Some(Command::Features(switch(value)?)),
        ":count" => Some(Command::Count(switch(value)?)),
        ":show" => Some(Command::Show(value)),
        _ => None,
    }
}

/// The command that the words of a line spell, where they spell one.
pub fn command_of<'a>(words: &[&'a str]) -> Option<Command<'a>>
    ensures command { option_map command_seen result
        ≡ lines_with_commands.command (map (λ w. w.now) words.now) }
    ensures limit { IfSome result MayBeSet }
{
    match words {
        [name] => command_of_one(name),
        [name, value] => command_of_two(name, value),
        _ => None,
    }
}

/// A switch as it is written.
pub fn on_off(on: bool) -> &'static str
    ensures { result.now ≡ on_off on }
{
    if on { "on" } else { "off" }
}
