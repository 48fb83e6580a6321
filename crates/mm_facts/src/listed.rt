//! The labels in the list of a compressed proof.

ghost use Rattle.std.specs.Prelude.{List, ℕ, IfOk, MatchOption};
ghost use Rattle.mm_code.specs.Layout.{texts};
ghost use Rattle.mm_proof.specs.Tokens.{IsCompressed};
ghost use Rattle.mm_step.specs.Plain.{token_texts};
ghost use Rattle.mm_facts.specs.Explained.{AreListed};

use mm_base::Token;
use mm_proof::{begins_list, fill_texts, parts};
use std::alloc::{AllocError, Global};

/// The labels of the list, if the tokens are those of a compressed proof.
pub fn listed_labels<'t, 'a>(tokens: &'t [Token<'a>]) -> Option<&'t [Token<'a>]>
    ensures { MatchOption
        result
        ((labels letters : List (List ℕ))
        → ¬ (IsCompressed (token_texts tokens.now) labels letters))
        (λ listed. (letters : List (List ℕ))
        × IsCompressed (token_texts tokens.now) (token_texts listed.now) letters) }
{
    match tokens {
        [_, rest @ ..] if begins_list(tokens) => match parts(rest) {
            Some((listed, _)) => Some(listed),
            None => None,
        },
        _ => None,
    }
}

/// Their texts; none, where the tokens are those of another proof.
pub(crate) fn listed_texts<'a>(
    alloc: Global,
    tokens: &[Token<'a>],
) -> Result<Vec<&'a [u8]>, AllocError>
    ensures { IfOk result (λ listed. AreListed (token_texts tokens.now) (texts listed.items)) }
{
    let mut listed = Vec::new(alloc);
    match listed_labels(tokens) {
        Some(labels) => {
            fill_texts(&mut listed, labels)?;
            Ok(listed)
        }
        None => Ok(listed),
    }
}
