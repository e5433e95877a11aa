//! Reading the equations of rules, and features, from lexemes.
ghost use Rattle.std.specs.Prelude.{◌≡◌, ◌<◌, ◌≤◌, length, map, OnOk};
ghost use Rattle.patr_model.specs.declared.lookahead.Kind.TheVariants.{CloseBrace};
ghost use Rattle.patr_model.specs.declared.notation.What.TheVariants as what;
ghost use Rattle.patr_model.specs.Built.{stage};
ghost use Rattle.patr_model.specs.Lexemes.{is_kind};
ghost use Rattle.patr_model.specs.Parsing.{plus, star};
ghost use Rattle.patr_model.specs.Productions.{AmongSymbols, begins_feature, choices, elements, feature, ruleitems, single_feature};
ghost use Rattle.patr_grammar.specs.Reading.{equations_seen, features_seen, feature_seen};
ghost use Rattle.patr_grammar.specs.Views.{by_id, Gives, seen_by, begins_by, single_by, as_item, element_by, onto, choices_seen};

use crate::grammar::Element;
use crate::head::Head;
use crate::reader::{MOST_LEVELS, Reader, Refusal};
use patr_model::{Kind, What};
use patr_text::{Fault, Id};

/// What the first word of a path has to be tells the equations of a rule from features.
impl Reader<'_> {
    /// An element may begin here.
    fn begins_element(&self, head: Head) -> bool
        ensures { result ≡ begins_by head.entry self.now.rest.now }
    {
        match head {
            Head::AmongSymbols(_) => self.begins(Kind::Less) || self.begins(Kind::OpenBrace),
            Head::AnyAttribute => {
                self.begins(Kind::Less) || self.begins_symbol() || self.begins(Kind::OpenBrace)
            }
        }
    }

    /// A feature that is no choice.
    fn feature(&mut self) -> Result<Element, Fault<Refusal>>
        ensures gives { Gives feature_seen result self.new.rest.now (as_item (single_feature by_id stage) self.old.rest.now) }
        ensures shorter { OnOk result (length self.new.rest.now < length self.old.rest.now) }
    {
        if self.begins(Kind::Less) {
            let equation = self.equation(Head::AnyAttribute, What::EquationOrName)?;
            return Ok(Element::Equation(equation));
        }
        let name = self.symbol(What::EquationOrName)?;
        Ok(Element::Name {
            name: name.word,
            line: name.line,
            column: name.column,
        })
    }

    /// An element that is no choice.
    fn single(&mut self, head: Head) -> Result<Element, Fault<Refusal>>
        ensures gives { Gives (seen_by head.entry) result self.new.rest.now (as_item (single_by head.entry) self.old.rest.now) }
        ensures shorter { OnOk result (length self.new.rest.now < length self.old.rest.now) }
    {
        match head {
            Head::AmongSymbols(_) => {
                let equation = self.equation(head, What::Equation)?;
                Ok(Element::Equation(equation))
            }
            Head::AnyAttribute => self.feature(),
        }
    }

    /// An element, in which so many levels may be opened.
    #[cycle(elements)]
    fn element(&mut self, head: Head, levels: usize) -> Result<Element, Fault<Refusal>>
        ensures gives { Gives (seen_by head.entry) result self.new.rest.now (element_by head.entry levels self.old.rest.now) }
        ensures shorter { OnOk result (length self.new.rest.now < length self.old.rest.now) }
    {
        if !self.begins(Kind::OpenBrace) {
            return self.single(head);
        }
        if levels == 0 {
            return Err(Fault::Refused(Refusal::TooDeep));
        }
        self.pass(Kind::OpenBrace);
        let inner = self.choices(head, levels - 1)?;
        Ok(Element::OneOf(inner))
    }

    /// The alternatives of a choice, and the brace that closes it.
    #[cycle(elements)]
    fn choices(&mut self, head: Head, levels: usize) -> Result<Vec<Vec<Element>>, Fault<Refusal>>
        ensures gives { Gives (λ v. choices_seen (seen_by head.entry) v.items) result self.new.rest.now (choices by_id (begins_by head.entry) (element_by head.entry levels) (is_kind by_id CloseBrace) what.CloseBrace self.old.rest.now) }
        ensures shorter { OnOk result (length self.new.rest.now < length self.old.rest.now) }
    {
        let mut found = Vec::new(self.alloc);
        let first = self.some_elements(head, levels)?;
        found.push(first)?;
        while self.begins(Kind::Slash) {
            self.pass(Kind::Slash);
            let next = self.some_elements(head, levels)?;
            found.push(next)?;
        }
        self.one(Kind::CloseBrace, What::CloseBrace)?;
        Ok(found)
    }

    /// Elements, one at least.
    #[cycle(elements)]
    fn some_elements(&mut self, head: Head, levels: usize) -> Result<Vec<Element>, Fault<Refusal>>
        ensures gives { Gives (λ v. map (seen_by head.entry) v.items) result self.new.rest.now (plus (begins_by head.entry) (element_by head.entry levels) self.old.rest.now) }
        ensures shorter { OnOk result (length self.new.rest.now < length self.old.rest.now) }
    {
        let mut found = Vec::new(self.alloc);
        let first = self.element(head, levels)?;
        found.push(first)?;
        self.more_elements(found, head, levels)
    }

    /// Elements behind others, as long as one may begin.
    #[cycle(elements)]
    fn more_elements(
        &mut self,
        found: Vec<Element>,
        head: Head,
        levels: usize,
    ) -> Result<Vec<Element>, Fault<Refusal>>
        ensures gives { Gives (λ v. map (seen_by head.entry) v.items) result self.new.rest.now (onto (map (seen_by head.entry) found.items) (star (begins_by head.entry) (element_by head.entry levels) self.old.rest.now)) }
        ensures no_longer { OnOk result (length self.new.rest.now ≤ length self.old.rest.now) }
    {
        let mut found = found;
        while self.begins_element(head) {
            let element = self.element(head, levels)?;
            found.push(element)?;
        }
        Ok(found)
    }

    /// The equations of a rule with these symbols.
    pub fn rule_items(&mut self, symbols: &[Id]) -> Result<Vec<Element>, Fault<Refusal>>
        ensures gives { Gives (λ v. equations_seen v.items) result self.new.rest.now (ruleitems by_id stage (AmongSymbols symbols.now) self.old.rest.now) }
        ensures no_longer { OnOk result (length self.new.rest.now ≤ length self.old.rest.now) }
    {
        let none = Vec::new(self.alloc);
        self.more_elements(none, Head::AmongSymbols(symbols), MOST_LEVELS)
    }

    /// The features of a template.
    pub fn body(&mut self) -> Result<Vec<Element>, Fault<Refusal>>
        ensures gives { Gives (λ v. map feature_seen v.items) result self.new.rest.now (plus (begins_feature by_id) (feature by_id stage) self.old.rest.now) }
        ensures shorter { OnOk result (length self.new.rest.now < length self.old.rest.now) }
    {
        self.some_elements(Head::AnyAttribute, MOST_LEVELS)
    }

    /// Features up to the end.
    pub fn elements(&mut self) -> Result<Vec<Element>, Fault<Refusal>>
        ensures gives { Gives (λ v. features_seen v.items) result self.new.rest.now (elements by_id stage self.old.rest.now) }
    {
        let none = Vec::new(self.alloc);
        let features = self.more_elements(none, Head::AnyAttribute, MOST_LEVELS)?;
        if !self.rest.is_empty() {
            return Err(Fault::Refused(Refusal::Expected(What::EquationOrName)));
        }
        Ok(features)
    }
}
