//! How large a row is.
ghost use Rattle.std.specs.Prelude.{◌≡◌, ◌+◌, ◌*◌, ◌^◌, ℕ, max, min, None, Some};
ghost use Rattle.patr_model.specs.Build.{size_fault};
ghost use Rattle.patr_text.specs.declared.symbols.Id.{Id};
ghost use Rattle.std.specs.Option.{option_map};
ghost use Rattle.patr_expand.specs.Seen.{cause_seen};
ghost use Rattle.patr_expand.specs.Sizes.{capped, IsSize};

use crate::cause::ExpandCause;

/// Counts are told up to this one.
const MOST_TOLD: u64 = 1 << 32;

/// The most variants.
const MOST_VARIANTS: u64 = 256;

/// The most written equations of a variant.
const MOST_EQUATIONS: u64 = 1024;

/// How many variants a row has, and how many things the largest of them has; both told up to 2^32.
#[derive(Clone, Copy)]
pub(crate) struct Size {
    pub variants: u64,
    pub equations: u64,
}

/// A product, told up to 2^32.
pub(crate) fn product(a: u64, b: u64) -> u64
    ensures { result ≡ capped (a * b) }
{
    a.saturating_mul(b).min(MOST_TOLD)
}

/// A sum, told up to 2^32.
pub(crate) fn sum(a: u64, b: u64) -> u64
    ensures { result ≡ capped (a + b) }
{
    a.saturating_add(b).min(MOST_TOLD)
}

impl Size {
    /// That of a row with nothing in it.
    pub(crate) const EMPTY: Size = Size {
        variants: 1,
        equations: 0,
    };

    /// That of a single thing.
    pub(crate) const SINGLE: Size = Size {
        variants: 1,
        equations: 1,
    };

    /// That of no alternatives.
    pub(crate) const NONE: Size = Size {
        variants: 0,
        equations: 0,
    };

    /// That of one row with another behind it.
    pub(crate) fn then(self, other: Size) -> Size
        ensures { (a m b n : ℕ) → IsSize a m self → IsSize b n other → IsSize (a * b) (m + n) result }
    {
        Size {
            variants: product(self.variants, other.variants),
            equations: sum(self.equations, other.equations),
        }
    }

    /// That of alternatives with another behind them.
    pub(crate) fn or(self, other: Size) -> Size
        ensures { (a m b n : ℕ) → IsSize a m self → IsSize b n other → IsSize (a + b) (max m n) result }
    {
        Size {
            variants: sum(self.variants, other.variants),
            equations: self.equations.max(other.equations),
        }
    }

    /// Why what stands at this line is too large, where it is.
    pub(crate) fn refusal(self, line: u32) -> Option<ExpandCause>
        ensures { (count most : ℕ) → IsSize count most self → option_map cause_seen result ≡ size_fault {W = Id} line count most }
    {
        if self.variants > MOST_VARIANTS {
            return Some(ExpandCause::TooManyVariants {
                line,
                count: self.variants,
            });
        }
        if self.equations > MOST_EQUATIONS {
            return Some(ExpandCause::TooManyEquations {
                line,
                count: self.equations,
            });
        }
        None
    }
}
