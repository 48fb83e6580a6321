//! Finds forward references: labels that are stated only after their use.

ghost use Rattle.std.specs.Prelude.{◌≡◌, ◌++◌, List, Option, [], ◌∷◌, map, drop, option_map, OnOk};
ghost use Rattle.std.specs.Option.{option_to_list};
ghost use Rattle.mm_text.specs.Files.{plain_file};
ghost use Rattle.mm_text.specs.Reading.{PlainFault, Reads};
ghost use Rattle.mm_base.specs.Statement.{PlainStatement};
ghost use Rattle.mm_base.specs.Token.{plain_token};
ghost use Rattle.mm_facts.specs.Explained.{details_text, stated_later_at};
ghost use Rattle.mm_explain.specs.Later.{first_stated as first_stated_of, stated_later};
ghost use Rattle.mm_explain.specs.Mirror.Outlined.{IsKeptOutline};
ghost use Rattle.mm_rules.specs.Places.{token_place};

use crate::outline::{Brief, Outline, from_index};
use crate::place_lines::push_stated_later;
use mm_base::{File, Token};
use std::alloc::AllocError;

/// The label of a statement, if it is this one.
fn with_text<'a>(stated: Option<Token<'a>>, label: &[u8]) -> Option<Token<'a>>
    ensures { option_map plain_token result
        ≡ first_stated_of label.now (option_map plain_token stated.entry ∷ []) }
{
    match stated {
        Some(token) if token.text == label => Some(token),
        _ => None,
    }
}

/// The first of the labels of the statements that is this one.
fn first_stated<'a>(briefs: &[Brief<'a>], label: &[u8]) -> Option<Token<'a>>
    ensures { option_map plain_token result
        ≡ first_stated_of label.now (map (λ b. option_map plain_token b.label) briefs.now) }
{
    for brief in briefs {
        if let Some(token) = with_text(brief.label, label) {
            return Some(token);
        }
    }
    None
}

/// Where a label is stated first among the statements, if it is stated there.
fn push_stated(
    out: &mut Vec<u8>,
    files: &[File],
    briefs: &[Brief],
    label: &[u8],
) -> Result<(), AllocError>
    ensures { OnOk result (out.new.items ≡ out.old.items
        ++ details_text (map (λ t. stated_later_at (token_place (map plain_file files.now) t))
        (option_to_list (first_stated_of label.now
        (map (λ b. option_map plain_token b.label) briefs.now))))) }
{
    match first_stated(briefs, label) {
        Some(token) => push_stated_later(out, files, token.file, token.at as usize),
        None => Ok(()),
    }
}

/// Where the label that is asked for is stated first behind so many statements, if it is there.
pub(crate) fn push_later(
    out: &mut Vec<u8>,
    outline: &mut Outline,
    label: Option<&[u8]>,
    count: usize,
) -> Result<(), AllocError>
    requires { IsKeptOutline (map plain_file outline.old.files.now) outline.old }
    ensures told { OnOk result ((statements : List PlainStatement) (ending : Option PlainFault)
        → Reads (map plain_file outline.old.files.now) statements ending
        → out.new.items ≡ out.old.items
        ++ details_text (stated_later (map plain_file outline.old.files.now)
        (option_map (λ l. l.now) label.entry) (drop count statements))) }
    ensures kept { OnOk result
        (IsKeptOutline (map plain_file outline.old.files.now) outline.new) }
{
    match label {
        Some(label) => {
            outline.read()?;
            push_stated(
                out,
                outline.files,
                from_index(&outline.briefs, count),
                label,
            )
        }
        None => Ok(()),
    }
}
