//! Reading right sides from lexemes.
ghost use Rattle.std.specs.Prelude.{◌≡◌, ◌<◌, ◌≤◌, ◌∷◌, [], List, length, map, true, IfOk, OnOk};
ghost use Rattle.patr_model.specs.declared.notation.What.TheVariants.{Symbol};
ghost use Rattle.patr_model.specs.Built.{stage};
ghost use Rattle.patr_model.specs.Productions.{opens_equations, symbol_item, item, row_right, star_right, alts, right_side, things, Single};
ghost use Rattle.patr_text.specs.declared.symbols.Id as ids;
ghost use Rattle.patr_grammar.specs.Reading.{symbol_seen, item_seen, right_seen};
ghost use Rattle.patr_grammar.specs.Views.{by_id, right_left, GivesAt, Gives, begins_right, onto, group_right, rights_seen, Gathers, symbols_in, symbols_in_all};

use crate::grammar::{Item, SymbolText};
use crate::reader::{MOST_LEVELS, Reader, Refusal};
use patr_model::{Kind, What};
use patr_text::{Fault, Id};

/// The most symbols of a right side.
const MOST_SYMBOLS: usize = 32;

/// A right side, and the symbols of its rule: the mother's, and those of the right side.
#[derive(Drop)]
pub struct RightSide {
    pub items: Vec<Item>,
    pub symbols: Vec<Id>,
}

/// Symbols of a rule are listed as they are read: the mother's comes first.
impl Reader<'_> {
    /// The first lexeme that is no opening brace is a `<`.
    fn opens_equations(&self) -> bool
        ensures { result ≡ opens_equations by_id self.now.rest.now }
    {
        for lexeme in self.rest {
            if !lexeme.is_kind(Kind::OpenBrace) {
                return lexeme.is_kind(Kind::Less);
            }
        }
        false
    }

    /// An item of a right side may begin here: in a group, or outside of groups.
    fn begins_item(&self, outside: bool) -> bool
        ensures { result ≡ begins_right outside self.now.rest.now }
    {
        if self.begins_symbol() || self.begins(Kind::OpenParen) {
            return true;
        }
        if !self.begins(Kind::OpenBrace) {
            return false;
        }
        !outside || !self.opens_equations()
    }

    /// One symbol of a right side, where one may still come.
    fn right_symbol(&mut self, symbols: &mut Vec<Id>) -> Result<SymbolText, Fault<Refusal>>
        ensures gives { GivesAt (λ s. Single (symbol_seen s)) result (right_left symbols.new.items self.new.rest.now) self.new.rest.now (symbol_item by_id (right_left symbols.old.items self.old.rest.now)) }
        ensures gathers { IfOk result (λ s. Gathers symbols.old.items symbols.new.items (s.symbol ∷ [])) }
        ensures shorter { OnOk result (length self.new.rest.now < length self.old.rest.now) }
    {
        match self.rest {
            [first, rest @ ..] if first.is_symbol() => {
                if symbols.len() > MOST_SYMBOLS {
                    return Err(Fault::Refused(Refusal::TooManySymbols));
                }
                symbols.push(first.word)?;
                self.rest = rest;
                Ok(first.symbol_text())
            }
            _ => Err(Fault::Refused(Refusal::Expected(What::Symbol))),
        }
    }

    /// An item of a right side, in which so many levels may be opened.
    #[cycle(right)]
    fn item(&mut self, symbols: &mut Vec<Id>, levels: usize) -> Result<Item, Fault<Refusal>>
        ensures gives { GivesAt item_seen result (right_left symbols.new.items self.new.rest.now) self.new.rest.now (item by_id true levels (right_left symbols.old.items self.old.rest.now)) }
        ensures gathers { IfOk result (λ i. Gathers symbols.old.items symbols.new.items (symbols_in (item_seen i ∷ []))) }
        ensures shorter { OnOk result (length self.new.rest.now < length self.old.rest.now) }
    {
        if self.begins(Kind::OpenParen) {
            let inner = self.group(
                Kind::OpenParen,
                Kind::CloseParen,
                What::CloseParen,
                symbols,
                levels,
            )?;
            return Ok(Item::Optional(inner));
        }
        if self.begins(Kind::OpenBrace) {
            let inner = self.group(
                Kind::OpenBrace,
                Kind::CloseBrace,
                What::CloseBrace,
                symbols,
                levels,
            )?;
            return Ok(Item::OneOf(inner));
        }
        let symbol = self.right_symbol(symbols)?;
        Ok(Item::Symbol(symbol))
    }

    /// The alternatives of a group, from the token that opens it to the one that closes it.
    #[cycle(right)]
    fn group(
        &mut self,
        opens: Kind,
        closes: Kind,
        what: What,
        symbols: &mut Vec<Id>,
        levels: usize,
    ) -> Result<Vec<Vec<Item>>, Fault<Refusal>>
        ensures gives { GivesAt rights_seen result (right_left symbols.new.items self.new.rest.now) self.new.rest.now (group_right opens closes what levels (right_left symbols.old.items self.old.rest.now)) }
        ensures gathers { IfOk result (λ v. Gathers symbols.old.items symbols.new.items (symbols_in_all v)) }
        ensures shorter { OnOk result (length self.new.rest.now < length self.old.rest.now) }
    {
        if levels == 0 {
            return Err(Fault::Refused(Refusal::TooDeep));
        }
        self.one(opens, What::Symbol)?;
        let inner = self.alternatives(symbols, levels - 1)?;
        self.one(closes, what)?;
        Ok(inner)
    }

    /// The alternatives in a group.
    #[cycle(right)]
    fn alternatives(
        &mut self,
        symbols: &mut Vec<Id>,
        levels: usize,
    ) -> Result<Vec<Vec<Item>>, Fault<Refusal>>
        ensures gives { GivesAt rights_seen result (right_left symbols.new.items self.new.rest.now) self.new.rest.now (alts by_id (item by_id true levels) (right_left symbols.old.items self.old.rest.now)) }
        ensures gathers { IfOk result (λ v. Gathers symbols.old.items symbols.new.items (symbols_in_all v)) }
        ensures shorter { OnOk result (length self.new.rest.now < length self.old.rest.now) }
    {
        let mut found = Vec::new(self.alloc);
        let first = self.alternative(symbols, levels)?;
        found.push(first)?;
        while self.begins(Kind::Slash) {
            self.pass(Kind::Slash);
            let next = self.alternative(symbols, levels)?;
            found.push(next)?;
        }
        Ok(found)
    }

    /// One alternative in a group.
    #[cycle(right)]
    fn alternative(
        &mut self,
        symbols: &mut Vec<Id>,
        levels: usize,
    ) -> Result<Vec<Item>, Fault<Refusal>>
        ensures gives { GivesAt (λ v. right_seen v.items) result (right_left symbols.new.items self.new.rest.now) self.new.rest.now (row_right by_id (item by_id true levels) (right_left symbols.old.items self.old.rest.now)) }
        ensures gathers { IfOk result (λ v. Gathers symbols.old.items symbols.new.items (symbols_in (map item_seen v.items))) }
        ensures shorter { OnOk result (length self.new.rest.now < length self.old.rest.now) }
    {
        let mut found = Vec::new(self.alloc);
        let first = self.item(symbols, levels)?;
        found.push(first)?;
        self.more_items(found, symbols, levels, false)
    }

    /// Items behind others, as long as one may begin.
    #[cycle(right)]
    fn more_items(
        &mut self,
        found: Vec<Item>,
        symbols: &mut Vec<Id>,
        levels: usize,
        outside: bool,
    ) -> Result<Vec<Item>, Fault<Refusal>>
        ensures gives { GivesAt (λ v. map item_seen v.items) result (right_left symbols.new.items self.new.rest.now) self.new.rest.now (onto (map item_seen found.items) (star_right by_id (begins_right outside) (item by_id true levels) (right_left symbols.old.items self.old.rest.now))) }
        ensures gathers { (before : List ids.Id) → Gathers before symbols.old.items (symbols_in (map item_seen found.items)) → IfOk result (λ v. Gathers before symbols.new.items (symbols_in (map item_seen v.items))) }
        ensures no_longer { OnOk result (length self.new.rest.now ≤ length self.old.rest.now) }
    {
        let mut found = found;
        while self.begins_item(outside) {
            let item = self.item(symbols, levels)?;
            found.push(item)?;
        }
        Ok(found)
    }

    /// The right side of a rule with this mother.
    pub fn right_side(&mut self, mother: Id) -> Result<RightSide, Fault<Refusal>>
        ensures gives { Gives (λ r. right_seen r.items.items) result self.new.rest.now (right_side by_id stage self.old.rest.now) }
        ensures symbols { IfOk result (λ r. r.symbols.items ≡ mother ∷ symbols_in (map item_seen r.items.items)) }
        ensures few { IfOk result (λ r. length (things (right_seen r.items.items)) ≤ 32) }
        ensures no_longer { OnOk result (length self.new.rest.now ≤ length self.old.rest.now) }
    {
        let mut symbols = vec![in self.alloc; mother]?;
        let none = Vec::new(self.alloc);
        let items = self.more_items(none, &mut symbols, MOST_LEVELS, true)?;
        Ok(RightSide { items, symbols })
    }
}
