//! The words in which the lines of a lexicon are defined.

/// The markers of fields.
#[derive(Clone, Copy, Debug, PartialEq, Eq)]
pub enum Marker {
    /// `\w`: the word that begins a record.
    Word,
    /// `\c`: its category.
    Category,
    /// `\f`: its features.
    Features,
    /// `\g`: its gloss.
    Gloss,
    /// Any other: the field is ignored.
    Other,
}

/// What a line of a lexicon is.
#[derive(Clone, Copy, Debug, PartialEq, Eq)]
pub enum LexiconLine {
    /// White space alone, or a comment.
    Ignored,
    /// A field begins, and its text stands behind so many bytes.
    Begins(Marker, usize),
    /// The line belongs to the field before it.
    Text,
}
