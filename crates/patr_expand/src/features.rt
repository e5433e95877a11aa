//! The variants of features.
ghost use Rattle.std.specs.Prelude.{◌≡◌, ◌≤◌, None, IfOk, IfErr, length, map};
ghost use Rattle.patr_model.specs.Build as model;
ghost use Rattle.patr_model.specs.Build.{templates_fault};
ghost use Rattle.patr_grammar.specs.Reading.{equation_seen, path_seen, term_seen, template_seen};
ghost use Rattle.patr_expand.specs.Meant.{meant_by};
ghost use Rattle.patr_expand.specs.Seen.{number, path_at, term_at, equation_at, equations_at, lists_at, fault_of_features, feature_variants, IsRefusedBy, meant, same};

use crate::cause::ExpandCause;
use crate::equation::{Equation, SlotPath, Term};
use crate::names::Known;
use crate::templates::Templates;
use patr_grammar::{Element, EquationText, Grammar, PathText, TermText};
use patr_text::{Fault, Memory};
use std::alloc::Global;

/// A path of features: it begins at slot 0.
fn feature_path(alloc: Global, path: &PathText) -> Result<SlotPath, Memory>
    ensures { IfOk result (λ found. path_at found ≡ model.feature_path number (path_seen path.now)) }
{
    let path = path.attributes.to_vec(alloc)?;
    Ok(SlotPath { slot: 0, path })
}

/// The right side of an equation of features.
fn feature_term(alloc: Global, term: &TermText) -> Result<Term, Memory>
    ensures { IfOk result (λ found. term_at found ≡ model.feature_term number (term_seen term.now)) }
{
    match term {
        TermText::Atom(atom) => Ok(Term::Atom(*atom)),
        TermText::Path(path) => {
            let path = feature_path(alloc, path)?;
            Ok(Term::Path(path))
        }
    }
}

/// Equations of features, over slot 0.
fn feature_equations(alloc: Global, written: &[&EquationText]) -> Result<Vec<Equation>, Memory>
    ensures { IfOk result (λ found. equations_at found.items ≡ map (λ e. model.feature_equation number (equation_seen e.now)) written.now) }
{
    let mut found = Vec::with_capacity(alloc, written.len())?;
    for equation in written {
        let left = feature_path(alloc, &equation.left)?;
        let right = feature_term(alloc, &equation.right)?;
        found.push(Equation { left, right })?;
    }
    Ok(found)
}

impl<'a> Templates<'a> {
    /// The variants of features that stand at this line, at most 256, in the order of the notation.
    ///
    /// `Fault::Refused` is the first unknown name, or else that there are more than 256 variants, or else that a
    /// variant has more than 1,024 written equations.
    pub fn expand<'b>(
        &'b self,
        alloc: Global,
        features: &'b [Element],
        line: u32,
    ) -> Result<Vec<Vec<Equation>>, Fault<ExpandCause>>
        ensures few { IfOk result (λ found. length found.items ≤ 256) }
        ensures variants { IfOk result (λ found. lists_at found.items ≡ feature_variants (meant_by self.now) features.now) }
        ensures faultless { IfOk result (λ _. fault_of_features (meant_by self.now) line features.now ≡ None) }
        ensures refused { IfErr result (λ fault. IsRefusedBy (fault_of_features (meant_by self.now) line features.now) fault) }
    {
        if let Some(cause) = Known::ByIndex(&self.measured).unknown(features) {
            return Err(Fault::Refused(cause));
        }
        let size = self.measured.size(features);
        if let Some(cause) = size.refusal(line) {
            return Err(Fault::Refused(cause));
        }
        let mut found = Vec::with_capacity(alloc, size.variants as usize)?;
        for number in 0..size.variants {
            let variant = self.variant(alloc, features, size.variants, number)?;
            let equations = feature_equations(alloc, &variant)?;
            found.push(equations)?;
        }
        Ok(found)
    }
}

/// The variants of features that stand at this line, whose names are those of the grammar's templates: `Templates::expand` where
/// there is one call alone.
///
/// `Fault::Refused` is the first unknown name, or else that there are more than 256 variants, or else that a variant has more
/// than 1,024 written equations.
pub fn expand_features(
    alloc: Global,
    grammar: &Grammar,
    body: &[Element],
    line: u32,
) -> Result<Vec<Vec<Equation>>, Fault<ExpandCause>>
    requires { templates_fault same (map template_seen grammar.now.templates.items) ≡ None }
    ensures few { IfOk result (λ found. length found.items ≤ 256) }
    ensures variants { IfOk result (λ found. lists_at found.items ≡ feature_variants (meant grammar.now.templates.items) body.now) }
    ensures faultless { IfOk result (λ _. fault_of_features (meant grammar.now.templates.items) line body.now ≡ None) }
    ensures refused { IfErr result (λ fault. IsRefusedBy (fault_of_features (meant grammar.now.templates.items) line body.now) fault) }
{
    match Templates::new(alloc, grammar) {
        Ok(templates) => templates.expand(alloc, body, line),
        Err(_) => Err(Fault::Memory),
    }
}
