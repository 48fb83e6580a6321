//! Labels of a compressed proof's list that no step is by.

ghost use Rattle.std.specs.Prelude.{◌≡◌, ◌++◌, ◌||◌, ℕ, List, nat_eq, take};
ghost use Rattle.std.specs.Prelude.{IfOk, OnOk};
ghost use Rattle.std.specs.Str.{bytes_eq};
ghost use Rattle.indexmap.specs.IndexSet.{contains};
ghost use Rattle.mm_code.specs.Layout.{texts};
ghost use Rattle.mm_frame.specs.Sentence.{Sentence};
ghost use Rattle.mm_proof.specs.Mirror.CodeSteps.{code_move, moves_of};
ghost use Rattle.mm_proof.specs.Parsed.{OfProof};
ghost use Rattle.mm_proof.specs.Tokens.{SayMoves, is_incomplete};
ghost use Rattle.mm_rules.specs.Shown.{symbols_text};
ghost use Rattle.mm_step.specs.Moves.{Move};
ghost use Rattle.mm_step.specs.Plain.{ids_in, token_texts};
ghost use Rattle.mm_step.specs.Steps.{AreNumberedMoves};
ghost use Rattle.mm_step.specs.declared.profile.Profile.{Profile};
ghost use Rattle.mm_step.specs.declared.fault.ProofRule.{ProofRule};
ghost use Rattle.mm_facts.specs.Explained.{judged_tokens};
ghost use Rattle.mm_facts.specs.Mirror.Explaining.{IsCauseOf};
ghost use Rattle.mm_explain.specs.Unused.{AreUnused, AreUnusedAtStop, is_by};
ghost use Rattle.mm_explain.specs.Unused.{is_named as is_named_in, unused_in};
ghost use Rattle.mm_explain.specs.Unused.{unused_text, more_unused};

use indexmap::IndexSet;
use mm_base::{Seed, Token};
use mm_code::Code;
use mm_facts::{Cause, listed_labels};
use mm_frame::{Book, Found, LabelId};
use mm_proof::Steps;
use mm_rules::{push_decimal, push_word};
use std::alloc::{AllocError, Global};

/// How many of the labels are told.
const MOST_UNUSED: usize = 3;

/// Puts the label into the set that a code names, if it names one of these.
fn put_named(
    named: &mut IndexSet<u32, Seed>,
    entries: &[LabelId],
    code: &Code,
) -> Result<(), AllocError>
    ensures { OnOk result ((id : ℕ) → contains nat_eq named.new id ≡ (contains nat_eq named.old id
        || is_by nat_eq id (code_move (ids_in entries.now) code.now))) }
{
    match code {
        Code::Number(number) => match entries.get((*number as usize).saturating_sub(1)) {
            Some(id) => {
                named.insert(id.0)?;
                Ok(())
            }
            None => Ok(()),
        },
        Code::Tag => Ok(()),
    }
}

/// The numbers of the labels that the codes name.
fn named_labels(
    alloc: Global,
    seed: Seed,
    entries: &[LabelId],
    said: &[Code],
) -> Result<IndexSet<u32, Seed>, AllocError>
    ensures { IfOk result (λ named. (id : ℕ) → contains nat_eq named id
        ≡ is_named_in nat_eq (moves_of entries.now said.now) id) }
{
    let mut named = IndexSet::with_hasher(alloc, seed);
    for code in said {
        put_named(&mut named, entries, code)?;
    }
    Ok(named)
}

/// Whether one of the moves, the numbers of whose labels these are, is a step by the label.
fn is_named(book: &Book, named: &IndexSet<u32, Seed>, label: &[u8]) -> bool
    ensures { (numbered : List (Move ℕ)) (moves : List (Move (List ℕ)))
        → ((id : ℕ) → contains nat_eq named.now id ≡ is_named_in nat_eq numbered id)
        → AreNumberedMoves book.now.statements numbered moves
        → result ≡ is_named_in bytes_eq moves label.now }
{
    match book.find(label) {
        Found::Assertion(id) => named.contains(&id.0),
        Found::Hypothesis { id, .. } => named.contains(&id.0),
        Found::None => false,
    }
}

/// Those of the listed labels that no step is by.
fn unused_among<'a>(
    alloc: Global,
    book: &Book,
    listed: &[Token<'a>],
    steps: &Steps,
) -> Result<Vec<&'a [u8]>, AllocError>
    ensures { IfOk result (λ unused. (moves : List (Move (List ℕ)))
        → AreNumberedMoves book.now.statements steps.now.moves moves
        → texts unused.items ≡ unused_in moves (token_texts listed.now)) }
{
    let named = named_labels(alloc, book.seed(), &steps.entries, &steps.codes)?;
    let mut unused = Vec::new(alloc);
    for label in listed {
        if !is_named(book, &named, label.text) {
            unused.push(label.text)?;
        }
    }
    Ok(unused)
}

/// Appends each of the labels, behind a space.
fn push_words(out: &mut Vec<u8>, labels: &[&[u8]]) -> Result<(), AllocError>
    ensures { OnOk result (out.new.items ≡ out.old.items ++ symbols_text (texts labels.now)) }
{
    for label in labels {
        push_word(out, label)?;
    }
    Ok(())
}

/// Appends how many more labels there are, if there are such.
fn push_more_unused(out: &mut Vec<u8>, count: usize) -> Result<(), AllocError>
    ensures { OnOk result (out.new.items ≡ out.old.items ++ more_unused count) }
{
    if count == 0 {
        return Ok(());
    }
    out.extend_from_slice(b", and ")?;
    push_decimal(out, count)?;
    out.extend_from_slice(b" more")
}

/// Appends the line that tells these labels, if there are such.
fn push_unused_line(out: &mut Vec<u8>, unused: &[&[u8]]) -> Result<(), AllocError>
    ensures { OnOk result (out.new.items ≡ out.old.items ++ unused_text (texts unused.now)) }
{
    if unused.is_empty() {
        return Ok(());
    }
    out.extend_from_slice(b"  no step is by:")?;
    push_words(out, &unused[..MOST_UNUSED.min(unused.len())])?;
    push_more_unused(out, unused.len().saturating_sub(MOST_UNUSED))?;
    out.push(b'\n')?;
    Ok(())
}

/// Tells the labels of the list that no step is by, where moves stop that the tokens say.
fn push_unused_at_stop(
    out: &mut Vec<u8>,
    alloc: Global,
    book: &Book,
    tokens: &[Token],
    steps: &Steps,
) -> Result<(), AllocError>
    ensures { OnOk result ((before : List Sentence) (s : Sentence) (moves : List (Move (List ℕ)))
        → SayMoves before s (judged_tokens (token_texts tokens.now)) moves
        → AreNumberedMoves book.now.statements steps.now.moves moves
        → steps.now.prefix ≡ is_incomplete (token_texts tokens.now)
        → (unused : List (List ℕ))
        × AreUnusedAtStop before s (token_texts tokens.now) unused
        × (out.new.items ≡ out.old.items ++ unused_text unused)) }
{
    if steps.is_prefix() {
        return Ok(());
    }
    match listed_labels(tokens) {
        Some(listed) => push_unused_line(out, &unused_among(alloc, book, listed, steps)?),
        None => Ok(()),
    }
}

/// Tells the labels of the list that no step is by, of a proof whose fault has this cause.
pub(crate) fn push_unused(
    out: &mut Vec<u8>,
    alloc: Global,
    book: &Book,
    tokens: &[Token],
    cause: &Cause,
) -> Result<(), AllocError>
    ensures { OnOk result ((profile : Profile) (id : ℕ) (rule : ProofRule) (step : ℕ)
        → IsCauseOf profile book.now.statements id (token_texts tokens.now) rule step cause.now
        → OfProof book.now.statements id (λ index s. (unused : List (List ℕ))
        × AreUnused (take index book.now.statements) s (token_texts tokens.now) step unused
        × (out.new.items ≡ out.old.items ++ unused_text unused))) }
{
    match cause {
        Cause::Token { .. } => Ok(()),
        Cause::Moves { steps, .. } => push_unused_at_stop(out, alloc, book, tokens, steps),
    }
}
