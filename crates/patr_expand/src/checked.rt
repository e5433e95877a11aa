//! Looking through the templates of a grammar.
ghost use Rattle.std.specs.Prelude.{◌≡◌, None, IfOk, IfErr, MatchResult, Some, [], map};
ghost use Rattle.patr_model.specs.Build.{templates_fault};
ghost use Rattle.patr_grammar.specs.Reading.{template_seen};
ghost use Rattle.patr_expand.specs.Meant.{meant_by};
ghost use Rattle.patr_expand.specs.Seen.{IsRefusedBy, cause_seen, meant, same};

use crate::cause::ExpandCause;
use crate::measured::Measured;
use crate::names::Known;
use crate::templates::Templates;
use patr_grammar::Grammar;
use patr_text::{Fault, Memory};
use std::alloc::Global;

/// Looks through the templates of a grammar, and keeps nothing. An error names the first unknown name in them: in a template
/// a name may be that of one before it.
pub fn check_templates(grammar: &Grammar) -> Result<(), ExpandCause>
    ensures { MatchResult result (λ _. templates_fault same (map template_seen grammar.now.templates.items) ≡ None) (λ cause. templates_fault same (map template_seen grammar.now.templates.items) ≡ Some (cause_seen cause)) }
{
    let templates = &grammar.templates;
    for (number, template) in templates.iter().enumerate() {
        let before = &templates[..number];
        if let Some(cause) = Known::Among(before).unknown(&template.body) {
            return Err(cause);
        }
    }
    Ok(())
}

impl<'a> Templates<'a> {
    /// No templates: each name is unknown.
    pub(crate) fn none<'b>(alloc: Global) -> Result<Templates<'b>, Memory>
        ensures { IfOk result (λ templates. meant_by templates ≡ []) }
    {
        let measured = Measured::new(alloc)?;
        Ok(Templates {
            templates: &[],
            measured,
        })
    }

    /// The templates of a grammar.
    ///
    /// `Fault::Refused` is the first unknown name in them: in a template a name may be that of one before it.
    pub fn new(alloc: Global, grammar: &'a Grammar) -> Result<Templates<'a>, Fault<ExpandCause>>
        ensures meant { IfOk result (λ templates. meant_by templates ≡ meant grammar.now.templates.items) }
        ensures faultless { IfOk result (λ _. templates_fault same (map template_seen grammar.now.templates.items) ≡ None) }
        ensures refused { IfErr result (λ fault. IsRefusedBy (templates_fault same (map template_seen grammar.now.templates.items)) fault) }
    {
        let templates = &grammar.templates;
        let mut measured = Measured::new(alloc)?;
        for template in templates {
            measured.add(alloc, template)?;
        }
        Ok(Templates {
            templates,
            measured,
        })
    }
}
