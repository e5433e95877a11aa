//! The words in which the notation of grammars is defined.

/// Which word of the notation a text is.
#[derive(Clone, Copy, Debug, PartialEq, Eq)]
pub enum Keyword {
    /// None of the others.
    Plain,
    /// `Rule`, in any case of its letters.
    Rule,
    /// `Let`, in any case.
    Let,
    /// `Define`, in any case.
    Define,
    /// `Parameter`, in any case.
    Parameter,
    /// `be`, in any case.
    Be,
    /// `as`, in any case.
    As,
    /// `is`, in any case.
    Is,
    /// `start`, in any case.
    Start,
    /// `symbol`, in any case.
    Symbol,
    /// `restrictor`, in any case.
    Restrictor,
    /// `attribute`, in any case.
    Attribute,
    /// `order`, in any case.
    Order,
    /// `in`, exactly so.
    In,
    /// `out`, exactly so.
    Out,
}

/// What is expected at a place of a grammar.
#[derive(Clone, Copy, Debug, PartialEq, Eq)]
pub enum What {
    /// A word that begins a clause.
    Clause,
    /// A symbol: a mother, the first item of an alternative, a start symbol, the first word of a path.
    Symbol,
    /// `->`, after the mother.
    Arrow,
    /// `}`, after a name or alternatives.
    CloseBrace,
    /// `)`, after the alternatives of a group.
    CloseParen,
    /// The name of a template or a lexical rule.
    Name,
    /// `be`, after the name of a template.
    Be,
    /// `as`, after the name of a lexical rule.
    As,
    /// A feature.
    EquationOrName,
    /// An equation.
    Equation,
    /// The first word of a path of attributes, or of an order.
    Attribute,
    /// `>`, after a path's words.
    Greater,
    /// `=`, after an equation's left path.
    Equal,
    /// What stands after `=`.
    PathOrAtom,
    /// A setting, after `Parameter`.
    Parameter,
    /// `symbol`, after `start`.
    SymbolWord,
    /// `order`, after `attribute`.
    OrderWord,
    /// `is`, in a setting.
    Is,
    /// The first path of a restrictor.
    Path,
}
