//! Where a statement with a label stands, and where its block ends.

ghost use Rattle.std.specs.Prelude.{◌≡◌, ◌<◌, ◌≤◌, ◌+◌, ◌++◌, ◌∷◌, [], List, map, length};
ghost use Rattle.std.specs.Prelude.{OnOk, IfSome, MatchOption, Option, Some, option_map, slice_get};
ghost use Rattle.std.specs.List.{AllZip};
ghost use Rattle.std.specs.Option.{option_to_list};
ghost use Rattle.mm_base.specs.Blocks.{openings, closings};
ghost use Rattle.mm_base.specs.declared.statement.Kind.TheVariants.{Closing};
ghost use Rattle.mm_base.specs.Statement.{PlainStatement};
ghost use Rattle.mm_base.specs.Token.{plain_token};
ghost use Rattle.mm_text.specs.Files.{plain_file};
ghost use Rattle.mm_frame.specs.Sentence.{SomeSentence, sentence_of, IsLabelled};
ghost use Rattle.mm_facts.specs.Explained.{Detail, block_ended_at, details_text};
ghost use Rattle.mm_explain.specs.HypothesisPlaces.{AreScopeFacts, IsBlockEnd};
ghost use Rattle.mm_explain.specs.Mirror.Outlined.{IsBrief};
ghost use Rattle.mm_rules.specs.Places.{token_place};
ghost use Rattle.mm_rules.specs.Verdict.{sentences};

use crate::outline::{Brief, from_index, is_labelled};
use mm_base::{File, Kind, Token};
use mm_facts::{push_block_end, push_stated_at};
use std::alloc::AllocError;

/// The index of the first statement that has the label, if one has it.
fn labelled_at(briefs: &[Brief], label: &[u8]) -> Option<usize>
    ensures there { (statements : List PlainStatement) → AllZip IsBrief statements briefs.now
        → MatchOption result (¬ (SomeSentence (sentences statements) (IsLabelled label.now)))
        (λ index. (h : PlainStatement) × (slice_get statements index ≡ Some h)
        × IsLabelled label.now (sentence_of h)) }
    ensures within { IfSome result (λ index. index < length briefs.now) }
{
    for (index, brief) in briefs.iter().enumerate() {
        if is_labelled(brief, label) {
            return Some(index);
        }
    }
    None
}

/// How many blocks are open within another one behind a statement of the kind, where so many were;
/// none, where it closes that other one.
fn inner_behind(kind: Kind, inner: usize) -> Option<usize>
    requires { inner < usize.MAX }
    ensures counted { (s : PlainStatement) → s.kind ≡ kind
        → MatchOption result ((kind ≡ Closing) × (inner ≡ 0))
        (λ next. openings (s ∷ []) + inner ≡ closings (s ∷ []) + next) }
    ensures few { IfSome result (λ next. next ≤ inner + 1) }
{
    match kind {
        Kind::Opening => Some(inner + 1),
        Kind::Closing => { if inner == 0 { None } else { Some(inner - 1) } }
        _ => Some(inner),
    }
}

/// Where the block ends in which the statement with an index stands, if it ends among these.
fn block_end<'a>(briefs: &[Brief<'a>], index: usize) -> Option<Token<'a>>
    requires { index < length briefs.now }
    ensures { (statements : List PlainStatement) → AllZip IsBrief statements briefs.now
        → (end : Option PlainStatement) × IsBlockEnd statements index end
        × (option_map plain_token result ≡ option_map (λ s. s.first) end) }
{
    let behind = from_index(briefs, index + 1);
    let mut inner = 0;
    for brief in behind {
        match inner_behind(brief.kind, inner) {
            Some(next) => inner = next,
            None => return Some(brief.first),
        }
    }
    None
}

/// Where the block ends, if it does.
fn push_end(out: &mut Vec<u8>, files: &[File], end: Option<Token>) -> Result<(), AllocError>
    ensures { OnOk result (out.new.items ≡ out.old.items
        ++ details_text (map (λ t. block_ended_at (token_place (map plain_file files.now) t))
        (option_to_list (option_map plain_token end.entry)))) }
{
    match end {
        Some(token) => push_block_end(out, files, token),
        None => Ok(()),
    }
}

/// Where the statement with the label stands, if it is one of these, and where its block ends.
pub(crate) fn push_scope(
    out: &mut Vec<u8>,
    files: &[File],
    briefs: &[Brief],
    label: &[u8],
) -> Result<(), AllocError>
    ensures { OnOk result
        ((statements : List PlainStatement) → AllZip IsBrief statements briefs.now
        → (details : List Detail)
        × AreScopeFacts (map plain_file files.now) statements label.now details
        × (out.new.items ≡ out.old.items ++ details_text details)) }
{
    match labelled_at(briefs, label) {
        Some(index) => {
            push_stated_at(out, files, briefs[index].first)?;
            push_end(out, files, block_end(briefs, index))
        }
        None => Ok(()),
    }
}
