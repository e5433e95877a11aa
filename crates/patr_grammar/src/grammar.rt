//! What the bytes of a grammar stand for.
ghost use Rattle.std.specs.Prelude.{◌≡◌, ◌<◌, ◌≤◌, ◌^◌, [], length};
ghost use Rattle.patr_model.specs.GrammarText.{what_text};
ghost use Rattle.patr_model.specs.Productions.{things};
ghost use Rattle.patr_grammar.specs.Defaults.{paths_seen, by_category};
ghost use Rattle.patr_grammar.specs.Levels.{right_seen};

use patr_model::What;
use patr_text::Id;
use thiserror::Error;

/// A symbol of a rule, and its category: the symbol's text without its index.
#[derive(Clone, Copy, Debug, PartialEq, Eq)]
pub struct SymbolText {
    pub symbol: Id,
    pub category: Id,
}

/// An item of a right side.
#[derive(Debug, Drop)]
pub enum Item {
    /// A constituent.
    Symbol(SymbolText),
    /// `( a / b )`: one of these alternatives, or nothing.
    Optional(Vec<Vec<Item>>),
    /// `{ a / b }`: one of these alternatives.
    OneOf(Vec<Vec<Item>>),
}

/// A path: the symbol of the constituent at which it begins, where it has one, and its attributes.
#[derive(Debug, Drop)]
pub struct PathText {
    pub head: Option<Id>,
    pub attributes: Vec<Id>,
}

/// What a path equals: an atom, or what another path leads to.
#[derive(Debug, Drop)]
pub enum TermText {
    /// This atom.
    Atom(Id),
    /// What this path leads to.
    Path(PathText),
}

/// A path equation (Shieber 1986): both sides are defined and have one value.
#[derive(Debug, Drop)]
pub struct EquationText {
    pub left: PathText,
    pub right: TermText,
}

/// An element of a rule's equations or of features.
#[derive(Debug, Drop)]
pub enum Element {
    /// A path equation.
    Equation(EquationText),
    /// The name of a template, in features alone, and the place where it stands.
    Name { name: Id, line: u32, column: u32 },
    /// `{ a / b }`: one of these alternatives.
    OneOf(Vec<Vec<Element>>),
}

/// A rule as it is written.
#[derive(Debug, Drop)]
pub struct RuleText {
    /// The line of its first word, from 1.
    pub line: u32,
    /// The texts of the tokens of its name, of which there may be none.
    pub name: Vec<Id>,
    pub mother: SymbolText,
    pub right: Vec<Item>,
    /// In each path the first word is a symbol of the rule.
    pub equations: Vec<Element>,
    ghost few: { length (things (right_seen right.items)) ≤ 32 },
}

/// A template as it is written.
#[derive(Debug, Drop)]
pub struct Template {
    /// The line of its first word, from 1.
    pub line: u32,
    pub name: Id,
    /// The features that the name stands for.
    pub body: Vec<Element>,
}

/// A lexical rule as it is written.
#[derive(Debug, Drop)]
pub struct LexicalRule {
    /// The line of its first word, from 1.
    pub line: u32,
    pub name: Id,
    /// In each path the first word is `in` or `out`.
    pub equations: Vec<EquationText>,
}

/// A grammar as it is written.
#[derive(Debug, Drop)]
pub struct Grammar {
    pub rules: Vec<RuleText>,
    pub templates: Vec<Template>,
    pub lexical_rules: Vec<LexicalRule>,
    /// The category that sentences have.
    pub start: Id,
    /// The paths whose atoms prediction compares.
    pub restrictor: Vec<Vec<Id>>,
    /// The attributes that are written first, in this order.
    pub order: Vec<Id>,
    ghost few: { length rules.items < 2 ^ 32 },
    // No lexical rule and no parameter is built yet.
    ghost no_lexical_rules: { lexical_rules.items ≡ [] },
    ghost default_restrictor: { paths_seen restrictor.items ≡ by_category },
    ghost no_order: { order.items ≡ [] },
}

/// Why bytes stand for no grammar. Lines and columns count from 1, columns in bytes.
#[derive(Clone, Copy, Debug, PartialEq, Eq, Error)]
pub enum GrammarCause {
    /// The bytes are no text; `at` is the length of their longest front that is one.
    #[error("not UTF-8 at byte {at}")]
    NotUtf8 { at: u64 },
    /// A control character stands outside a comment.
    #[error("{line}:{column}: bad character")]
    BadToken { line: u32, column: u32 },
    /// Something else has to stand here.
    #[error("{line}:{column}: expected {}", expected_text(.what))]
    Expected { line: u32, column: u32, what: What },
    /// The first word of a path is no symbol of its rule.
    #[error("{line}:{column}: not a constituent")]
    NotAConstituent { line: u32, column: u32 },
    /// A template has the name of one that stands before it.
    #[error("{line}:{column}: name given twice")]
    TwiceNamed { line: u32, column: u32, name: Id },
    /// A path has more than 32 attributes; the first too many stands here.
    #[error("{line}:{column}: path too long")]
    PathTooLong { line: u32, column: u32 },
    /// A right side has more than 32 symbols; the first too many stands here.
    #[error("{line}:{column}: too many symbols")]
    TooManySymbols { line: u32, column: u32 },
    /// There is no rule.
    #[error("no rules")]
    NoRules,
    /// Groups and choices are open in 16 levels, and here begins one more.
    #[error("{line}:{column}: too deep")]
    TooDeep { line: u32, column: u32 },
    /// A form that is not built yet begins here.
    #[error("{line}:{column}: not built yet")]
    LaterForm { line: u32, column: u32 },
}

/// What is expected, as a fault tells it.
pub fn expected_text(what: &What) -> &'static str
    ensures { result.now ≡ what_text what.now }
{
    match what {
        What::Clause => "a clause",
        What::Symbol => "a symbol",
        What::Arrow => "'->'",
        What::CloseBrace => "'}'",
        What::CloseParen => "')'",
        What::Name => "a name",
        What::Be => "'be'",
        What::As => "'as'",
        What::EquationOrName => "an equation or a name",
        What::Equation => "an equation",
        What::Attribute => "an attribute",
        What::Greater => "'>'",
        What::Equal => "'='",
        What::PathOrAtom => "a path or an atom",
        What::Parameter => "a parameter",
        What::SymbolWord => "'symbol'",
        What::OrderWord => "'order'",
        What::Is => "'is'",
        What::Path => "a path",
    }
}
