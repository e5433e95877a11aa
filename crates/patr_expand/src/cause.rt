//! Why a template, a rule or an entry is refused.
use patr_text::Id;
use thiserror::Error;

/// Why a template, a rule or an entry has no variants that are built. Lines and columns count from 1, columns in bytes.
#[derive(Clone, Copy, Debug, PartialEq, Eq, Error)]
pub enum ExpandCause {
    /// A name among features is that of no template, or in a template of none before it. It stands here.
    #[error("{line}:{column}: unknown name")]
    UnknownName { line: u32, column: u32, name: Id },
    /// There are more than 256 variants; so many they are, told up to 2^32.
    #[error("{line}: more than 256 variants ({count})")]
    TooManyVariants { line: u32, count: u64 },
    /// A variant has more than 1,024 written equations; so many they are, told up to 2^32.
    #[error("{line}: more than 1024 equations ({count})")]
    TooManyEquations { line: u32, count: u64 },
}
