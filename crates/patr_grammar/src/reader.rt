//! Reading from the front of lexemes.
ghost use Rattle.std.specs.Prelude.{◌≡◌, ◌<◌, ◌≤◌, length, OnOk};
ghost use Rattle.patr_model.specs.Lexemes.{is_kind, is_key, is_symbol, begins};
ghost use Rattle.patr_model.specs.Parsing.{one, maybe};
ghost use Rattle.patr_model.specs.Productions.{name_tokens, rule_name};
ghost use Rattle.patr_grammar.specs.Views.{by_id, Gives};

use crate::lexeme::Lexeme;
use patr_model::{Keyword, Kind, What};
use patr_text::{Fault, Id};
use std::alloc::Global;

/// The most levels of groups and choices in one another.
pub const MOST_LEVELS: usize = 16;

/// Why a lexeme, or the end, is refused.
#[derive(Clone, Copy, Debug, PartialEq, Eq)]
pub enum Refusal {
    /// Something else has to stand there.
    Expected(What),
    /// It is no symbol of the rule that the path belongs to.
    NotAConstituent,
    /// A template before it has this name.
    TwiceNamed(Id),
    /// It is one attribute too many of a path.
    PathTooLong,
    /// It is one symbol too many of a right side.
    TooManySymbols,
    /// It opens one level too many.
    TooDeep,
    /// It begins a form that is not built yet.
    LaterForm,
}

/// Reads from the front of lexemes. A refusal leaves what is refused at the front.
#[derive(Drop)]
pub struct Reader<'a> {
    pub alloc: Global,
    /// The lexemes that are not read yet.
    pub rest: &'a [Lexeme],
}

impl Reader<'_> {
    /// The lexemes begin with one of this kind.
    pub fn begins(&self, kind: Kind) -> bool
        ensures { result ≡ begins (is_kind by_id kind) self.now.rest.now }
    {
        match self.rest {
            [] => false,
            [first, ..] => first.is_kind(kind),
        }
    }

    /// The lexemes begin with a symbol.
    pub fn begins_symbol(&self) -> bool
        ensures { result ≡ begins (is_symbol by_id) self.now.rest.now }
    {
        match self.rest {
            [] => false,
            [first, ..] => first.is_symbol(),
        }
    }

    /// The lexemes begin with this word of the notation.
    pub fn begins_key(&self, key: Keyword) -> bool
        ensures { result ≡ begins (is_key by_id key) self.now.rest.now }
    {
        match self.rest {
            [] => false,
            [first, ..] => first.is_key(key),
        }
    }

    /// One lexeme of this kind.
    pub fn one(&mut self, kind: Kind, what: What) -> Result<Lexeme, Fault<Refusal>>
        ensures gives { Gives (λ t. t) result self.new.rest.now (one (is_kind by_id kind) what self.old.rest.now) }
        ensures shorter { OnOk result (length self.new.rest.now < length self.old.rest.now) }
    {
        match self.rest {
            [first, rest @ ..] if first.is_kind(kind) => {
                self.rest = rest;
                Ok(*first)
            }
            _ => Err(Fault::Refused(Refusal::Expected(what))),
        }
    }

    /// One word of the notation.
    pub fn key(&mut self, key: Keyword, what: What) -> Result<Lexeme, Fault<Refusal>>
        ensures gives { Gives (λ t. t) result self.new.rest.now (one (is_key by_id key) what self.old.rest.now) }
        ensures shorter { OnOk result (length self.new.rest.now < length self.old.rest.now) }
    {
        match self.rest {
            [first, rest @ ..] if first.is_key(key) => {
                self.rest = rest;
                Ok(*first)
            }
            _ => Err(Fault::Refused(Refusal::Expected(what))),
        }
    }

    /// One symbol.
    pub fn symbol(&mut self, what: What) -> Result<Lexeme, Fault<Refusal>>
        ensures gives { Gives (λ t. t) result self.new.rest.now (one (is_symbol by_id) what self.old.rest.now) }
        ensures shorter { OnOk result (length self.new.rest.now < length self.old.rest.now) }
    {
        match self.rest {
            [first, rest @ ..] if first.is_symbol() => {
                self.rest = rest;
                Ok(*first)
            }
            _ => Err(Fault::Refused(Refusal::Expected(what))),
        }
    }

    /// Passes one lexeme of this kind, where there is one.
    pub fn pass(&mut self, kind: Kind)
        ensures rest { self.new.rest.now ≡ maybe (is_kind by_id kind) self.old.rest.now }
        ensures shorter { length self.new.rest.now ≤ length self.old.rest.now }
    {
        if let [first, rest @ ..] = self.rest {
            if first.is_kind(kind) {
                self.rest = rest;
            }
        }
    }

    /// The rest of a rule's name: the lexemes up to the closing brace, and that brace.
    fn name_tokens(&mut self) -> Result<Vec<Id>, Fault<Refusal>>
        ensures gives { Gives (λ v. v.items) result self.new.rest.now (name_tokens by_id self.old.rest.now) }
        ensures shorter { length self.new.rest.now ≤ length self.old.rest.now }
    {
        let mut name = Vec::new(self.alloc);
        'tokens: loop {
            match self.rest {
                [] => return Err(Fault::Refused(Refusal::Expected(What::CloseBrace))),
                [first, rest @ ..] => {
                    if first.is_kind(Kind::CloseBrace) {
                        self.rest = rest;
                        return Ok(name);
                    }
                    if first.is_kind(Kind::OpenBrace) {
                        return Err(Fault::Refused(Refusal::Expected(What::CloseBrace)));
                    }
                    name.push(first.word)?;
                    self.rest = rest;
                }
            }
        }
    }

    /// The name of a rule, where there is one.
    pub fn rule_name(&mut self) -> Result<Vec<Id>, Fault<Refusal>>
        ensures gives { Gives (λ v. v.items) result self.new.rest.now (rule_name by_id self.old.rest.now) }
        ensures shorter { length self.new.rest.now ≤ length self.old.rest.now }
    {
        if !self.begins(Kind::OpenBrace) {
            return Ok(Vec::new(self.alloc));
        }
        self.pass(Kind::OpenBrace);
        self.name_tokens()
    }
}
