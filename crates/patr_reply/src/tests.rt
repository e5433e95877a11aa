//! Tests of the public calls, and worked examples in tables.
ghost use Rattle.std.specs.Prelude.{ℕ, List, length};
ghost use Rattle.patr_text.specs.Texts.{first_texts, Extends};
ghost use Rattle.patr_library.specs.Stored.{keys, rules_of};
ghost use Rattle.patr_parse.specs.Found.{IsSound};
ghost use Rattle.patr_reply.specs.Held.{AreHeldBy};

use super::*;
use patr_library::Library;
use patr_parse::{ParseCause, Parsed};
use patr_text::{Memory, Symbols};
use std::alloc::Global;
use std::test::Fail;

/// The reply by the view of what was parsed, with features and the number of edges.
fn whole_reply<'a>(
    alloc: Global,
    symbols: &Symbols,
    library: &Library,
    parsed: &Parsed<'a>,
) -> Result<String, Memory>
    requires first { Extends first_texts symbols.now }
    requires held { AreHeldBy (length symbols.now) library.now }
    requires sound { (ws : List ℕ) × (limit : ℕ) × IsSound (rules_of library.now) keys.cat library.now ws limit parsed.now }
{
    reply(alloc, symbols, library, parsed, &parsed.view(), true, true)
}

#[test]
fn refusals(rt: HostRuntime) -> Result<(), Fail> {
    let words = ["the", "dgo", "barks"];
    for (cause, want) in [
        (
            ParseCause::TooManyWords { count: 300 },
            "error: more than 256 words\n",
        ),
        (
            ParseCause::UnknownWord { position: 2 },
            "error: unknown word at 2: dgo\n",
        ),
        (
            ParseCause::TooManyEdges { limit: 100 },
            "error: more than 100 edges\n",
        ),
    ] {
        let reply = refusal(rt.alloc(), cause, &words)?;
        assert_eq!(rt; reply.as_str(), want);
    }
    Ok(())
}
