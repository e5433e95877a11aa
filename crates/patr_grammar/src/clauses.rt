//! Reading the clauses of a grammar from lexemes.
ghost use Rattle.std.specs.Prelude.{◌≡◌, ◌<◌, ◌≤◌, ◌+◌, [], List, length, IfOk, OnOk};
ghost use Rattle.patr_model.specs.Built.{stage};
ghost use Rattle.patr_model.specs.Productions.{rule, fresh_name, template, clause, clauses};
ghost use Rattle.patr_text.specs.declared.symbols.Id as ids;
ghost use Rattle.patr_grammar.specs.Reading.{rule_seen, template_seen};
ghost use Rattle.patr_grammar.specs.Views.{by_id, Gives, AreNames, TakesIn, ReadsClauses};

use crate::grammar::{RuleText, Template};
use crate::lexeme::Lexeme;
use crate::reader::{Reader, Refusal};
use patr_model::{Keyword, Kind, What};
use patr_text::{Fault, Id};
use std::alloc::Global;
use std::collections::HashSet;

/// What the clauses that were read make up.
#[derive(Drop)]
pub struct Clauses {
    pub rules: Vec<RuleText>,
    pub templates: Vec<Template>,
    /// The numbers of the names of the templates.
    named: HashSet<u32>,
}

impl Reader<'_> {
    /// A rule.
    #[tactic(auto, unfolding(patr_model::specs::Productions::rule))]
    fn rule(&mut self) -> Result<RuleText, Fault<Refusal>>
        ensures gives { Gives rule_seen result self.new.rest.now (rule by_id stage self.old.rest.now) }
        ensures shorter { OnOk result (length self.new.rest.now < length self.old.rest.now) }
    {
        let keyword = self.key(Keyword::Rule, What::Clause)?;
        let name = self.rule_name()?;
        let mother = self.symbol(What::Symbol)?;
        self.one(Kind::Arrow, What::Arrow)?;
        let right = self.right_side(mother.word)?;
        self.pass(Kind::Colon);
        let equations = self.rule_items(&right.symbols)?;
        self.pass(Kind::Dot);
        Ok(RuleText {
            line: keyword.line,
            name,
            mother: mother.symbol_text(),
            right: right.items,
            equations,
        })
    }

    /// A name that no template before it has.
    fn fresh_name(&mut self, named: &HashSet<u32>) -> Result<Lexeme, Fault<Refusal>>
        ensures gives { (names : List ids.Id) → AreNames named.now names → Gives (λ t. t) result self.new.rest.now (fresh_name by_id names self.old.rest.now) }
        ensures shorter { OnOk result (length self.new.rest.now < length self.old.rest.now) }
    {
        match self.rest {
            [first, rest @ ..] if first.is_symbol() => {
                if named.contains(&first.word.0) {
                    return Err(Fault::Refused(Refusal::TwiceNamed(first.word)));
                }
                self.rest = rest;
                Ok(*first)
            }
            _ => Err(Fault::Refused(Refusal::Expected(What::Name))),
        }
    }

    /// A template.
    #[tactic(auto, unfolding(patr_model::specs::Productions::template))]
    fn template(&mut self, named: &HashSet<u32>) -> Result<Template, Fault<Refusal>>
        ensures gives { (names : List ids.Id) → AreNames named.now names → Gives template_seen result self.new.rest.now (template by_id stage names self.old.rest.now) }
        ensures shorter { OnOk result (length self.new.rest.now < length self.old.rest.now) }
    {
        let keyword = self.key(Keyword::Let, What::Clause)?;
        let name = self.fresh_name(named)?;
        self.key(Keyword::Be, What::Be)?;
        let body = self.body()?;
        self.pass(Kind::Dot);
        Ok(Template {
            line: keyword.line,
            name: name.word,
            body,
        })
    }

    /// A clause, of which rules and templates are built.
    fn clause(&mut self, found: &mut Clauses) -> Result<(), Fault<Refusal>>
        ensures takes { TakesIn found.old found.new result self.old.rest.now self.new.rest.now }
        ensures shorter { OnOk result (length self.new.rest.now < length self.old.rest.now) }
        ensures few { OnOk result (length found.new.rules.items ≤ length found.old.rules.items + 1) }
    {
        if self.begins_key(Keyword::Let) {
            let template = self.template(&found.named)?;
            found.named.insert(template.name.0)?;
            found.templates.push(template)?;
            return Ok(());
        }
        if self.begins_key(Keyword::Define) || self.begins_key(Keyword::Parameter) {
            return Err(Fault::Refused(Refusal::LaterForm));
        }
        let rule = self.rule()?;
        found.rules.push(rule)?;
        Ok(())
    }

    /// Clauses up to the end.
    pub fn clauses(&mut self) -> Result<Clauses, Fault<Refusal>>
        ensures reads { ReadsClauses result self.old.rest.now self.new.rest.now }
        ensures few { IfOk result (λ c. length c.rules.items ≤ length self.old.rest.now) }
    {
        let mut found = Clauses {
            rules: Vec::new(self.alloc),
            templates: Vec::new(self.alloc),
            named: HashSet::new(self.alloc),
        };
        while !self.rest.is_empty() {
            self.clause(&mut found)?;
        }
        Ok(found)
    }
}
