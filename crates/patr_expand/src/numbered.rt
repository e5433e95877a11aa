//! One variant of features by its number.
ghost use Rattle.std.specs.Prelude.{◌≡◌, ◌+◌, ◌<◌, ◌≤◌, ◌++◌, [], IfOk, length, map, get_or};
ghost use Rattle.patr_model.specs.Grammar.{single, variants_of};
ghost use Rattle.patr_grammar.specs.Levels.{equation_seen};
ghost use Rattle.patr_expand.specs.Meant.{meant_by};
ghost use Rattle.patr_expand.specs.Sizes.{item_variants};
ghost use Rattle.patr_expand.specs.Written.{named, element_written, written, choice_written};
ghost use Rattle.patr_expand.specs.Frames.{IsPlace, IsTaken, IsOpened, IsFrame, IsSplit, item_weight, frame_row, variant_at, weight_of};

use crate::templates::Templates;
use patr_grammar::{Element, EquationText};
use patr_text::{Id, Memory};
use std::alloc::Global;

/// A list of elements, how many variants it has, and the number of the one that is taken.
#[derive(Clone, Copy)]
pub(crate) struct Frame<'a> {
    pub elements: &'a [Element],
    pub count: u64,
    pub number: u64,
}

/// What an element stands for in a variant.
#[derive(Clone, Copy)]
pub(crate) enum Opened<'a> {
    Equation(&'a EquationText),
    Frame(Frame<'a>),
}

/// The first element of a frame, and what is behind it.
#[derive(Clone, Copy)]
pub(crate) struct Split<'a> {
    pub opened: Opened<'a>,
    pub behind: Frame<'a>,
}

/// No elements.
fn nothing<'b>() -> Frame<'b>
    ensures elements { result.elements.now ≡ [] }
    ensures count { result.count ≡ 1 }
    ensures number { result.number ≡ 0 }
{
    Frame {
        elements: &[],
        count: 1,
        number: 0,
    }
}

impl<'a> Templates<'a> {
    /// Of a choice the alternative that the variant of this number has; nothing behind the last.
    fn alternative<'b>(&self, alternatives: &'b [Vec<Element>], number: u64) -> Frame<'b>
        requires few { length (variants_of single (choice_written (meant_by self.now) alternatives.now)) ≤ 256 }
        ensures { IsTaken (variants_of single (choice_written (meant_by self.now) alternatives.now)) (2 + weight_of (choice_written (meant_by self.now) alternatives.now)) number (frame_row (meant_by self.now) result) result.count result.number }
    {
        let mut number = number;
        for alternative in alternatives {
            let count = self.measured.size(alternative).variants;
            if number < count {
                return Frame {
                    elements: alternative,
                    count,
                    number,
                };
            }
            number -= count;
        }
        nothing()
    }

    /// What a name stands for in the variant of this number.
    fn template<'b>(&'b self, name: Id, number: u64) -> Frame<'b>
        requires few { length (item_variants (named (meant_by self.now) name)) ≤ 256 }
        requires below { number < length (item_variants (named (meant_by self.now) name)) }
        ensures { IsTaken (item_variants (named (meant_by self.now) name)) (item_weight (named (meant_by self.now) name)) number (frame_row (meant_by self.now) result) result.count result.number }
    {
        let Some(at) = self.measured.number(name) else {
            return nothing();
        };
        let Some(template) = self.templates.get(at) else {
            return nothing();
        };
        let Some(size) = self.measured.sizes.get(at) else {
            return nothing();
        };
        Frame {
            elements: &template.body,
            count: size.variants,
            number,
        }
    }

    /// What an element stands for in the variant of this number.
    fn open<'b>(&'b self, element: &'b Element, number: u64) -> Opened<'b>
        requires few { length (item_variants (element_written (meant_by self.now) element.now)) ≤ 256 }
        requires below { number < length (item_variants (element_written (meant_by self.now) element.now)) }
        ensures { IsOpened (meant_by self.now) (element_written (meant_by self.now) element.now) number result }
    {
        match element {
            Element::Equation(equation) => Opened::Equation(equation),
            Element::Name { name, .. } => Opened::Frame(self.template(*name, number)),
            Element::OneOf(alternatives) => Opened::Frame(self.alternative(alternatives, number)),
        }
    }

    /// What the first element of a frame stands for, and the frame behind it; none where there is no element.
    fn split<'b>(&'b self, frame: Frame<'b>) -> Option<Split<'b>>
        requires { IsFrame (meant_by self.now) frame }
        ensures { IsSplit (meant_by self.now) frame.entry result }
    {
        let [first, rest @ ..] = frame.elements else {
            return None;
        };
        let count = frame.count / self.measured.size_of_element(first).variants;
        let opened = self.open(first, frame.number / count);
        let behind = Frame {
            elements: rest,
            count,
            number: frame.number % count,
        };
        Some(Split { opened, behind })
    }

    /// The equations of the variant of this number, of so many.
    pub(crate) fn variant<'b>(
        &'b self,
        alloc: Global,
        elements: &'b [Element],
        count: u64,
        number: u64,
    ) -> Result<Vec<&'b EquationText>, Memory>
        requires { IsPlace (written (meant_by self.now) elements.now) count number }
        ensures { IfOk result (λ found. map (λ e. equation_seen e.now) found.items ≡ variant_at (written (meant_by self.now) elements.now) number) }
    {
        let mut found = Vec::new(alloc);
        let mut frames = vec![in alloc;
            Frame {
                elements,
                count,
                number
            },
        ]?;
        while let Some(frame) = frames.pop() {
            let Some(Split { opened, behind }) = self.split(frame) else {
                continue;
            };
            frames.push(behind)?;
            match opened {
                Opened::Equation(equation) => found.push(equation)?,
                Opened::Frame(frame) => frames.push(frame)?,
            }
        }
        Ok(found)
    }
}
