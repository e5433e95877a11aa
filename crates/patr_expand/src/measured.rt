//! Templates found by their names, and how large each is.
ghost use Rattle.std.specs.Prelude.{◌≡◌, List, [], length, IfOk};
ghost use Rattle.patr_model.specs.Build.{Meaning};
ghost use Rattle.patr_text.specs.declared.symbols.Id as code_id;
ghost use Rattle.patr_expand.specs.Sizes.{IsItemSize, IsRowSize, AreSizeOf};
ghost use Rattle.patr_expand.specs.Written.{named, element_written, written, choice_written, IsMeasured, IsNumber, IsAdded};

use crate::cause::ExpandCause;
use crate::names::Known;
use crate::size::Size;
use patr_grammar::{Element, Template};
use patr_lists::NumberLists;
use patr_text::{Fault, Id, Memory};
use std::alloc::Global;

/// Of the templates that stand before a place, the numbers by their names, and how large each is.
#[derive(Drop)]
pub(crate) struct Measured {
    pub by_name: NumberLists,
    pub sizes: Vec<Size>,
}

impl Measured {
    /// No templates.
    pub(crate) fn new(alloc: Global) -> Result<Measured, Memory>
        ensures { IfOk result (λ measured. IsMeasured [] measured) }
    {
        Ok(Measured {
            by_name: NumberLists::empty(alloc, 0)?,
            sizes: Vec::new(alloc),
        })
    }

    /// The number of the first template of this name.
    pub(crate) fn number(&self, name: Id) -> Option<usize>
        ensures { (ms : List (Meaning code_id.Id)) → IsMeasured ms self.now → IsNumber ms name result }
    {
        match self.by_name.list(name.0 as usize) {
            [number, ..] => Some(*number as usize),
            [] => None,
        }
    }

    /// How large what a name stands for is; it has no variant where there is no such template.
    fn size_of_name(&self, name: Id) -> Size
        ensures { (ms : List (Meaning code_id.Id)) → IsMeasured ms self.now → IsItemSize (named ms name) result }
    {
        let Some(number) = self.number(name) else {
            return Size::NONE;
        };
        match self.sizes.get(number) {
            Some(size) => *size,
            None => Size::NONE,
        }
    }

    /// How large an element is.
    #[cycle(sizes)]
    pub(crate) fn size_of_element(&self, element: &Element) -> Size
        ensures { (ms : List (Meaning code_id.Id)) → IsMeasured ms self.now → IsItemSize (element_written ms element.now) result }
    {
        match element {
            Element::Equation(_) => Size::SINGLE,
            Element::Name { name, .. } => self.size_of_name(*name),
            Element::OneOf(alternatives) => self.size_of_choice(alternatives),
        }
    }

    /// How large a choice is.
    #[cycle(sizes)]
    fn size_of_choice(&self, alternatives: &[Vec<Element>]) -> Size
        ensures { (ms : List (Meaning code_id.Id)) → IsMeasured ms self.now → AreSizeOf (choice_written ms alternatives.now) result }
    {
        let mut size = Size::NONE;
        for alternative in alternatives {
            size = size.or(self.size(alternative));
        }
        size
    }

    /// How large a list of elements is.
    #[cycle(sizes)]
    pub(crate) fn size(&self, elements: &[Element]) -> Size
        ensures { (ms : List (Meaning code_id.Id)) → IsMeasured ms self.now → IsRowSize (written ms elements.now) result }
    {
        let mut size = Size::EMPTY;
        for element in elements {
            size = size.then(self.size_of_element(element));
        }
        size
    }

    /// Puts a template behind the others, whose names it may have in it.
    pub(crate) fn add(
        &mut self,
        alloc: Global,
        template: &Template,
    ) -> Result<(), Fault<ExpandCause>>
        ensures { (ms : List (Meaning code_id.Id)) → IsMeasured ms self.old → IsAdded ms template.now self.new result }
    {
        if let Some(cause) = Known::ByIndex(self).unknown(&template.body) {
            return Err(Fault::Refused(cause));
        }
        let Ok(number) = u32::try_from(self.sizes.len()) else {
            return Err(Fault::Memory);
        };
        let size = self.size(&template.body);
        let name = template.name.0 as usize;
        self.by_name.grow(alloc, name)?;
        if !self.by_name.put(name, number) {
            return Err(Fault::Memory);
        }
        self.sizes.push(size)?;
        Ok(())
    }
}
