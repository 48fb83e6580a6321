//! The strict form of a compressed proof: P15 (the Metamath book, appendix B).

ghost use Rattle.std.specs.Prelude.{◌≡◌, ◌↔◌, ◌<◌, ℕ, List, Contains, All, IsTrue, IfOk, IfErr};
ghost use Rattle.std.specs.Prelude.{OnOk, MatchOption, length, take};
ghost use Rattle.std.specs.List.{AllByRecursion};
ghost use Rattle.mm_code.specs.Letters.{HasSpelling};
ghost use Rattle.mm_frame.specs.FrameIndex.{AreHypotheses};
ghost use Rattle.mm_proof.specs.Answer.{OnRule};
ghost use Rattle.mm_step.specs.declared.fault.ProofRule.TheVariants.{P15};
ghost use Rattle.mm_proof.specs.Tokens.{IsCompressed};
ghost use Rattle.mm_step.specs.Mirror.Sites.{IsSite};
ghost use Rattle.mm_step.specs.Steps.{AreSteps};
ghost use Rattle.mm_proof.specs.Parsed.{OfProof, SaySteps};
ghost use Rattle.mm_proof.specs.Strict.{IsStrict};
ghost use Rattle.mm_step.specs.Plain.{ids_in, label_ids, token_texts};
ghost use Rattle.mm_proof.specs.Mirror.CodeSteps.{AreFor, moves_of};
ghost use Rattle.mm_step.specs.Mirror.CodeRun.{MayBeMade};
ghost use Rattle.mm_proof.specs.Mirror.CodeForm.{AllNew, IsFirstOld, IsAfterAssertion};
ghost use Rattle.mm_proof.specs.Mirror.CodeForm.{AreMarksStrict, IsFirstLoose, IsLooseBy};

use crate::label_set::LabelSet;
use crate::prefix::begins_list;
use mm_base::{Seed, Token};
use mm_code::Code;
use mm_frame::{Book, Hypothesis, LabelId};
use mm_step::{ProofFault, ProofRule, Site, is_assertion};
use std::alloc::{AllocError, Global};

// The labels of the hypotheses.
fn hypothesis_set(
    alloc: Global,
    seed: Seed,
    hypotheses: &[Hypothesis],
) -> Result<LabelSet, AllocError>
    ensures { IfOk result (λ seen. (id : ℕ)
        → Contains seen id ↔ Contains (label_ids hypotheses.now) id) }
{
    let mut seen = LabelSet::new(alloc, seed);
    for hypothesis in hypotheses {
        seen.add(hypothesis.id)?;
    }
    Ok(seen)
}

// The index of the first label that isn't new: one of those that are seen, or of those before it.
fn first_old(seen: &mut LabelSet, listed: &[LabelId]) -> Result<Option<usize>, AllocError>
    ensures { IfOk result (λ found. MatchOption
        found
        (AllNew seen.old (ids_in listed.now))
        (IsFirstOld seen.old (ids_in listed.now))) }
{
    for (index, id) in listed.iter().enumerate() {
        if !seen.add(*id)? {
            return Ok(Some(index));
        }
    }
    Ok(None)
}

// The index of the first label of the list that is spare.
fn spare_label(alloc: Global, site: &Site, listed: &[LabelId]) -> Result<Option<usize>, AllocError>
    ensures { IfOk result (λ found. (numbers : List ℕ) × AreHypotheses
        (record { statements = site.now.statements; index = site.now.index }) numbers
        × MatchOption
        found
        (AllNew numbers (ids_in listed.now))
        (IsFirstOld numbers (ids_in listed.now))) }
{
    let mut seen = hypothesis_set(alloc, site.book.seed(), site.hypotheses())?;
    first_old(&mut seen, listed)
}

// Whether the move before an index is a step by an assertion.
fn is_after_assertion(book: &Book, entries: &[LabelId], codes: &[Code], index: usize) -> bool
    requires within { index < length codes.now }
    requires spelled { All HasSpelling codes.now }
    requires usable { (at : ℕ)
        × AllByRecursion (MayBeMade book.now.statements at) (moves_of entries.now codes.now) }
    ensures { IsTrue result
        ↔ IsAfterAssertion book.now.statements (moves_of entries.now codes.now) index }
{
    if index == 0 {
        return false;
    }
    match codes[index - 1] {
        Code::Number(number) => match entries.get(number as usize - 1) {
            Some(id) => is_assertion(book, *id),
            None => false,
        },
        Code::Tag => false,
    }
}

// The index of the first mark that doesn't stand directly after a step by an assertion.
fn loose_mark(book: &Book, entries: &[LabelId], codes: &[Code]) -> Option<usize>
    requires spelled { All HasSpelling codes.now }
    requires usable { (at : ℕ)
        × AllByRecursion (MayBeMade book.now.statements at) (moves_of entries.now codes.now) }
    ensures { MatchOption
        result
        (AreMarksStrict book.now.statements (moves_of entries.now codes.now))
        (IsFirstLoose book.now.statements (moves_of entries.now codes.now)) }
{
    for (index, one) in codes.iter().enumerate() {
        if let Code::Tag = one {
            if !is_after_assertion(book, entries, codes, index) {
                return Some(index);
            }
        }
    }
    None
}

/// What keeps a proof from the strict form.
#[derive(Clone, Copy)]
pub enum Loose {
    /// The label with this index in the list is spare: it stands there before, or it is that of a
    /// mandatory hypothesis.
    Label(usize),
    /// The move with this number is a mark that doesn't stand directly after a step by an
    /// assertion.
    Mark(usize),
}

/// What keeps the proof of the `$p` from the strict form first, if something does, where these are
/// the labels of its list, if it is compressed, and its entries and codes.
pub fn first_loose(
    alloc: Global,
    site: &Site,
    tokens: &[Token],
    listed: &[LabelId],
    entries: &[LabelId],
    codes: &[Code],
) -> Result<Option<Loose>, AllocError>
    requires site { IsSite site.now }
    requires listed { (labels letters : List (List ℕ))
        → IsCompressed (token_texts tokens.now) labels letters
        → AreFor site.now.statements site.now.index (ids_in listed.now) labels }
    requires says { OfProof site.now.statements site.now.number (λ index s.
        SaySteps site.now.statements index s (token_texts tokens.now)
        (moves_of entries.now codes.now)) }
    requires steps { AreSteps site.now.statements site.now.number (moves_of entries.now codes.now) }
    requires spelled { All HasSpelling codes.now }
    ensures { IfOk result (λ found. MatchOption
        found
        (OfProof site.now.statements site.now.number (λ index s.
        IsStrict (take index site.now.statements) s (token_texts tokens.now)))
        (λ loose. OfProof site.now.statements site.now.number (λ index s.
        IsLooseBy (take index site.now.statements) s (token_texts tokens.now) loose))) }
{
    if !begins_list(tokens) {
        return Ok(None);
    }
    if let Some(index) = spare_label(alloc, site, listed)? {
        return Ok(Some(Loose::Label(index)));
    }
    match loose_mark(site.book, entries, codes) {
        Some(number) => Ok(Some(Loose::Mark(number))),
        None => Ok(None),
    }
}

/// Whether the proof of the `$p` has the strict form, where these are the labels of its
/// list, if it is compressed, and its entries and codes: else P15.
pub(crate) fn judge_form(
    alloc: Global,
    site: &Site,
    tokens: &[Token],
    listed: &[LabelId],
    entries: &[LabelId],
    codes: &[Code],
) -> Result<(), ProofFault>
    requires site { IsSite site.now }
    requires listed { (labels letters : List (List ℕ))
        → IsCompressed (token_texts tokens.now) labels letters
        → AreFor site.now.statements site.now.index (ids_in listed.now) labels }
    requires says { OfProof site.now.statements site.now.number (λ index s.
        SaySteps site.now.statements index s (token_texts tokens.now)
        (moves_of entries.now codes.now)) }
    requires steps { AreSteps site.now.statements site.now.number (moves_of entries.now codes.now) }
    requires spelled { All HasSpelling codes.now }
    ensures strict { OnOk result (OfProof site.now.statements site.now.number (λ index s.
        IsStrict (take index site.now.statements) s (token_texts tokens.now))) }
    ensures fault { IfErr result (λ e. OnRule e (λ rule step.
        OfProof site.now.statements site.now.number (λ index s. (step ≡ 0) × (rule ≡ P15)
        × ¬ (IsStrict (take index site.now.statements) s (token_texts tokens.now))))) }
{
    match first_loose(alloc, site, tokens, listed, entries, codes)? {
        Some(_) => Err(ProofFault::Rule {
            rule: ProofRule::P15,
            step: 0,
        }),
        None => Ok(()),
    }
}
