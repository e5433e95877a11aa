//! A gloss while it is joined from its lines.
ghost use Rattle.std.specs.Prelude.{◌≡◌, [], ◌∷◌, ◌++◌, OnOk};
ghost use Rattle.std.specs.String.{string_bytes};
ghost use Rattle.patr_model.specs.LexiconText.{spaced};
ghost use Rattle.patr_lexicon.specs.Parts.{gloss_seen};

use patr_text::Memory;
use std::alloc::Global;

/// A text joined from parts with a space between two. A part that is alone is not copied.
#[derive(Drop)]
pub struct Gloss<'a> {
    /// The text, where `joined` is empty.
    part: &'a str,
    /// The text of two parts or more, none of which is empty.
    joined: String,
}

impl<'a> Gloss<'a> {
    /// No text.
    pub fn new(alloc: Global) -> Gloss<'a>
        ensures { gloss_seen result ≡ [] }
    {
        Gloss {
            part: "",
            joined: String::new(alloc),
        }
    }

    /// Puts one more part behind the others. An empty one changes nothing. Fails for want of memory alone.
    pub fn push(&mut self, part: &'a str) -> Result<(), Memory>
        ensures { OnOk result (gloss_seen self.new ≡ spaced (gloss_seen self.old) part.now) }
    {
        if part.is_empty() {
            return Ok(());
        }
        if !self.joined.is_empty() {
            return join(&mut self.joined, part);
        }
        if self.part.is_empty() {
            self.part = part;
            return Ok(());
        }
        self.joined.push_str(self.part)?;
        join(&mut self.joined, part)
    }

    /// The text.
    pub fn as_str(&self) -> &str
        ensures { result.now ≡ gloss_seen self.now }
    {
        if self.joined.is_empty() {
            self.part
        } else {
            self.joined.as_str()
        }
    }
}

/// Puts a space and one more part behind a text.
fn join(text: &mut String, part: &str) -> Result<(), Memory>
    ensures { OnOk result (string_bytes text.new ≡ string_bytes text.old ++ 32 ∷ part.now) }
{
    text.push_str(" ")?;
    text.push_str(part)
}
