//! Explains the fault that ends a run.

ghost use Rattle.std.specs.Prelude.{◌≡◌, List, map, IfOk};
ghost use Rattle.mm_text.specs.Files.{plain_file};
ghost use Rattle.mm_rules.specs.Answer.{plain_refusal};
ghost use Rattle.mm_facts.specs.Explained.{Detail, details_text};
ghost use Rattle.mm_explain.specs.LastFacts.{AreLastFacts};
ghost use Rattle.mm_explain.specs.Mirror.Last.{EndsRun};

use crate::conflict::meaning_facts;
use crate::text_fault::text_facts;
use mm_base::{File, Seed};
use mm_rules::{Refusal, Rule};
use std::alloc::{AllocError, Global};

/// The facts that explain the refusal for the fault that ends the run, if so it is said with the line
/// of an open block, and the position that is told.
pub(crate) fn last_facts<'a>(
    alloc: Global,
    seed: Seed,
    files: &'a [File<'a>],
    refusal: &Refusal<'a>,
    source: bool,
) -> Result<(usize, Vec<u8>), AllocError>
    requires { EndsRun (map plain_file files.now) (plain_refusal refusal.now) }
    ensures { IfOk result (λ told. (details : List Detail)
        × AreLastFacts source (map plain_file files.now) (plain_refusal refusal.now) told.0 details
        × (told.1.items ≡ details_text details)) }
{
    match refusal.rule {
        Rule::Text(_) => text_facts(alloc, seed, files, refusal, source),
        Rule::Meaning(_) => meaning_facts(alloc, seed, files, refusal, source),
        // No rule of another kind ends the run.
        _ => unreachable!(),
    }
}
