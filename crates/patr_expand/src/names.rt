//! Names that are unknown among features.
ghost use Rattle.std.specs.Prelude.{◌≡◌, List, is_some, nat_eq};
ghost use Rattle.std.specs.List.{list_any};
ghost use Rattle.std.specs.Option.{option_map};
ghost use Rattle.patr_model.specs.Build.{Meaning, meaning_of, unknown_name};
ghost use Rattle.patr_model.specs.Productions.{things};
ghost use Rattle.patr_text.specs.declared.symbols.Id as code_id;
ghost use Rattle.patr_grammar.specs.declared.grammar.Template as code;
ghost use Rattle.patr_grammar.specs.Levels.{features_seen};
ghost use Rattle.patr_expand.specs.Seen.{cause_seen, same};
ghost use Rattle.patr_expand.specs.Written.{Knows, item_unknown, choice_unknown};

use crate::cause::ExpandCause;
use crate::measured::Measured;
use patr_grammar::{Element, Template};
use patr_text::Id;

/// Where names are looked up.
#[derive(Clone, Copy)]
pub(crate) enum Known<'a> {
    /// Among these templates, one after another.
    Among(&'a [Template]),
    /// By an index.
    ByIndex(&'a Measured),
}

/// One of these templates has this name.
fn is_among(name: Id, templates: &[Template]) -> bool
    ensures { result ≡ list_any (λ (t : code.Template). nat_eq t.name.0 name.0) templates.now }
{
    templates.iter().any(|template| template.name == name)
}

impl Known<'_> {
    /// A template has this name.
    fn has(self, name: Id) -> bool
        ensures { (ms : List (Meaning code_id.Id)) → Knows ms self.entry → result ≡ is_some (meaning_of same ms name) }
    {
        match self {
            Known::Among(templates) => is_among(name, templates),
            Known::ByIndex(measured) => measured.number(name).is_some(),
        }
    }

    /// The first unknown name in an element.
    #[cycle(unknown)]
    fn unknown_in_element(self, element: &Element) -> Option<ExpandCause>
        ensures { (ms : List (Meaning code_id.Id)) → Knows ms self.entry → option_map cause_seen result ≡ item_unknown ms element.now }
    {
        match element {
            Element::Equation(_) => None,
            Element::Name { name, line, column } => {
                if self.has(*name) {
                    return None;
                }
                Some(ExpandCause::UnknownName {
                    line: *line,
                    column: *column,
                    name: *name,
                })
            }
            Element::OneOf(alternatives) => self.unknown_in_choice(alternatives),
        }
    }

    /// The first unknown name in a choice.
    #[cycle(unknown)]
    fn unknown_in_choice(self, alternatives: &[Vec<Element>]) -> Option<ExpandCause>
        ensures { (ms : List (Meaning code_id.Id)) → Knows ms self.entry → option_map cause_seen result ≡ choice_unknown ms alternatives.now }
    {
        for alternative in alternatives {
            if let Some(cause) = self.unknown(alternative) {
                return Some(cause);
            }
        }
        None
    }

    /// The first unknown name among features.
    #[cycle(unknown)]
    pub(crate) fn unknown(self, elements: &[Element]) -> Option<ExpandCause>
        ensures { (ms : List (Meaning code_id.Id)) → Knows ms self.entry → option_map cause_seen result ≡ unknown_name same ms (things (features_seen elements.now)) }
    {
        for element in elements {
            if let Some(cause) = self.unknown_in_element(element) {
                return Some(cause);
            }
        }
        None
    }
}
