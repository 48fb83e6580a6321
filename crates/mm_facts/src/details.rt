//! The facts that a report on a faulty proof has, and their order.

ghost use Rattle.std.specs.Prelude.{◌≡◌, ◌≤◌, ◌+◌, ◌++◌, ℕ, List, length, map, take, slice_get};
ghost use Rattle.std.specs.Prelude.{OnOk, IfOk, IsTrue, Some, true, ◌⊎◌, ◌↔◌};
ghost use Rattle.std.specs.List.{sum_by};
ghost use Rattle.mm_base.specs.MostBytes.{most_bytes};
ghost use Rattle.mm_base.specs.Token.{plain_token, PlainToken};
ghost use Rattle.mm_text.specs.Files.{plain_file, PlainFile};
ghost use Rattle.mm_code.specs.Layout.{texts};
ghost use Rattle.mm_code.specs.Words.{texts_of};
ghost use Rattle.mm_frame.specs.Sentence.{Sentence, IsAssertion, IsHypothesis};
ghost use Rattle.mm_frame.specs.Active.{IsActive};
ghost use Rattle.mm_frame.specs.Numbers.{IsNumbered};
ghost use Rattle.mm_frame.specs.FrameIndex.{before_it};
ghost use Rattle.mm_frame.specs.Form.{IsSound};
ghost use Rattle.mm_step.specs.Mirror.CodeVerify.{AreHypothesesOf};
ghost use Rattle.mm_step.specs.declared.fault.ProofRule.TheVariants.{P2, P8, P9, P10, P11, P12};
ghost use Rattle.mm_step.specs.Plain.{token_texts};
ghost use Rattle.mm_step.specs.Stores.{entries_in};
ghost use Rattle.mm_listing.specs.Halted.{TellsEntry};
ghost use Rattle.mm_proof.specs.Parsed.{OfProof, SaySteps};
ghost use Rattle.mm_proof.specs.ReadSteps.{ReadSteps};
ghost use Rattle.mm_proof.specs.Verified.{OfMoves};
ghost use Rattle.mm_step.specs.Substitution.{Symbol};
ghost use Rattle.mm_step.specs.Steps.{IsProofNumber, AreSteps, IsNumberedMove};
ghost use Rattle.mm_proof.specs.Tokens.{is_incomplete};
ghost use Rattle.mm_step.specs.Profiles.{limit_of};
ghost use Rattle.mm_proof.specs.Strict.{HasFormOf, IsTextFault};
ghost use Rattle.mm_proof.specs.UnderProfile.{IsPrefixAllowedUnder};
ghost use Rattle.mm_facts.specs.Explained.{Detail, IsTokensFault, AreDetails, AreLeftOver};
ghost use Rattle.mm_facts.specs.Explained.{details_text, judged_tokens, hypotheses_stated};
ghost use Rattle.mm_facts.specs.Explained.{entries_given, AreEndDetails, AreStepDetails};
ghost use Rattle.mm_facts.specs.Explained.{AreMoveDetails, AreHaltDetails, AreTokenDetails};
ghost use Rattle.mm_facts.specs.Explained.{AreWholeDetails, pairs_lacking, AreNearLabels};
ghost use Rattle.mm_facts.specs.Mirror.Explaining.{IsHaltOf, AddsAtHalt, StepFacts, LabelFacts};
ghost use Rattle.mm_facts.specs.Mirror.Explaining.{AreJudgedSteps, IsJudgedWhole, AskedFacts};
ghost use Rattle.mm_facts.specs.Mirror.Explaining.{TypeFacts, TurnFacts, TellsSteps};
ghost use Rattle.mm_facts.specs.Explained.{is_parenthesis as is_parenthesis_there};
ghost use Rattle.mm_facts.specs.Mirror.Explaining.{AreNamedPairs, DisjointFacts, IsCauseOf};

use crate::disjoint::push_disjoint_pairs;
use crate::fact_lines::{
    push_asks_where, push_counts, push_end, push_given, push_marks, push_missing, push_most,
    push_near, push_stated, push_step, push_token, push_type_asked, push_types,
};
use crate::listed::listed_texts;
use crate::named_halt::NamedHalt;
use crate::step_texts::named_halt;
use crate::types::{codes_given, codes_taken, first_of_other_type};
use mm_base::{File, Token};
use mm_distinct::{asked_by, lacking_pairs};
use mm_frame::{Book, Frame, Hypothesis, LabelId, LabelKind, Sym};
use mm_listing::{Halt, HaltAt};
use mm_near::Nearest;
use mm_places::whole_place;
use mm_proof::{Parsed, Steps};
use mm_step::{Profile, ProofFault, ProofRule};
use std::alloc::{AllocError, Global};

/// What each entry of the stack is, where moves stop.
fn push_entries(
    out: &mut Vec<u8>,
    book: &Book,
    id: LabelId,
    stop: &NamedHalt,
) -> Result<(), AllocError>
    requires { (limit : ℕ) × IsHaltOf limit book.now.statements id.0 stop.now.halt }
    ensures { OnOk result ((limit : ℕ) → AddsAtHalt limit book.now.statements id.0 stop.now
        (λ before s stack kept steps left details. details ≡ entries_given steps stack)
        out.old.items out.new.items) }
{
    for index in 0..stop.halt.origins.len() {
        push_given(out, book, &stop.texts[index], stop.halt.entry(index))?;
    }
    Ok(())
}

/// What all moves of a proof leave, where it breaks the rule.
fn push_at_end(
    out: &mut Vec<u8>,
    book: &Book,
    id: LabelId,
    stop: &NamedHalt,
    rule: ProofRule,
) -> Result<(), AllocError>
    requires halt { (limit : ℕ) × IsHaltOf limit book.now.statements id.0 stop.now.halt }
    requires end { stop.now.halt.at ≡ HaltAt.End }
    requires rule { stop.now.halt.rule ≡ Some rule }
    ensures { OnOk result ((limit : ℕ) → AddsAtHalt limit book.now.statements id.0 stop.now
        (λ before s stack kept steps left details. AreEndDetails s stack steps rule details)
        out.old.items out.new.items) }
{
    match rule {
        ProofRule::P14 => push_end(
            out,
            book,
            book.expression(id),
            &stop.texts[0],
            stop.halt.entry(0),
        ),
        _ => push_entries(out, book, id, stop),
    }
}

/// What each of these hypotheses states.
fn push_hypotheses(
    out: &mut Vec<u8>,
    book: &Book,
    hypotheses: &[Hypothesis],
) -> Result<(), AllocError>
    requires { (stated : List Sentence) × AreHypothesesOf book.now.statements
        (map (λ h. h.id.0) hypotheses.now) stated }
    ensures { OnOk result ((stated : List Sentence) → AreHypothesesOf book.now.statements
        (map (λ h. h.id.0) hypotheses.now) stated
        → out.new.items ≡ out.old.items ++ details_text (hypotheses_stated stated)) }
{
    for hypothesis in hypotheses {
        push_stated(
            out,
            book,
            book.label(hypothesis.id),
            book.expression(hypothesis.id),
        )?;
    }
    Ok(())
}

/// The entries that the step by an assertion takes, and those that there are.
fn push_too_few(
    out: &mut Vec<u8>,
    book: &Book,
    id: LabelId,
    stop: &NamedHalt,
    label: LabelId,
) -> Result<(), AllocError>
    requires sound { IsSound book.now.statements }
    requires halt { (limit : ℕ) × IsHaltOf limit book.now.statements id.0 stop.now.halt }
    requires place { stop.now.halt.at ≡ HaltAt.Label label }
    requires rule { stop.now.halt.rule ≡ Some P8 }
    ensures { OnOk result ((limit : ℕ) → AddsAtHalt limit book.now.statements id.0 stop.now
        (StepFacts limit P8) out.old.items out.new.items) }
{
    let hypotheses = book.frame(label).hypotheses();
    push_counts(out, hypotheses.len(), stop.halt.origins.len())?;
    push_hypotheses(out, book, hypotheses)?;
    push_entries(out, book, id, stop)
}

/// The entries of the stack that is left from an index on.
fn entries_from<'h>(
    alloc: Global,
    halt: &'h Halt,
    base: usize,
) -> Result<Vec<&'h [Sym]>, AllocError>
    requires { base ≤ length halt.now.origins.items }
    ensures count { IfOk result (λ entries.
        base + length entries.items ≡ length halt.now.origins.items) }
    ensures entries { IfOk result (λ entries. (k : ℕ) (numbers : List ℕ)
        → slice_get (entries_in entries.items) k ≡ Some numbers
        → TellsEntry halt.now (base + k) numbers) }
{
    let mut entries = Vec::new(alloc);
    for index in base..halt.origins.len() {
        entries.push(halt.entry(index))?;
    }
    Ok(entries)
}

/// The first entry of another type than its hypothesis asks, and the types of all.
fn push_types_asked(
    out: &mut Vec<u8>,
    alloc: Global,
    book: &Book,
    id: LabelId,
    stop: &NamedHalt,
    label: LabelId,
) -> Result<(), AllocError>
    requires sound { IsSound book.now.statements }
    requires halt { (limit : ℕ) × IsHaltOf limit book.now.statements id.0 stop.now.halt }
    requires place { stop.now.halt.at ≡ HaltAt.Label label }
    requires rule { stop.now.halt.rule ≡ Some P9 }
    ensures { OnOk result ((limit : ℕ) → AddsAtHalt limit book.now.statements id.0 stop.now
        TypeFacts out.old.items out.new.items) }
{
    let hypotheses = book.frame(label).hypotheses();
    let base = stop.halt.origins.len() - hypotheses.len();
    let entries = entries_from(alloc, &stop.halt, base)?;
    match first_of_other_type(hypotheses, &entries) {
        Some((index, code)) => {
            let asking = book.label(hypotheses[index].id);
            let step = &stop.texts[base + index];
            push_type_asked(out, book, asking, book.name(code), step, entries[index])?;
            let taken = codes_taken(alloc, book, hypotheses)?;
            push_types(out, book, &taken, &codes_given(alloc, &entries)?)
        }
        // Some entry has another type than its hypothesis: P9 is broken.
        None => unreachable!(),
    }
}

/// What each hypothesis of an assertion asks that isn't met, or that is, and the entry that there
/// is for it.
fn push_asked(
    out: &mut Vec<u8>,
    alloc: Global,
    book: &Book,
    id: LabelId,
    stop: &NamedHalt,
    label: LabelId,
    unmet: bool,
) -> Result<(), AllocError>
    requires sound { IsSound book.now.statements }
    requires halt { (limit : ℕ) × IsHaltOf limit book.now.statements id.0 stop.now.halt }
    requires place { stop.now.halt.at ≡ HaltAt.Label label }
    requires rule { stop.now.halt.rule ≡ Some P10 }
    ensures { OnOk result ((limit : ℕ) → AddsAtHalt limit book.now.statements id.0 stop.now
        (AskedFacts unmet) out.old.items out.new.items) }
{
    let hypotheses = book.frame(label).hypotheses();
    let base = stop.halt.origins.len() - hypotheses.len();
    let entries = entries_from(alloc, &stop.halt, base)?;
    for index in 0..hypotheses.len() {
        let asked = asked_by(alloc, book, id, label, &entries, index)?;
        let name = book.label(hypotheses[index].id);
        push_asks_where(
            out,
            book,
            name,
            &asked,
            &stop.texts[base + index],
            entries[index],
            unmet,
        )?;
    }
    Ok(())
}

/// What each hypothesis of an assertion asks, and the entry that there is for it, those first that
/// aren't met.
fn push_asked_in_turn(
    out: &mut Vec<u8>,
    alloc: Global,
    book: &Book,
    id: LabelId,
    stop: &NamedHalt,
    label: LabelId,
) -> Result<(), AllocError>
    requires sound { IsSound book.now.statements }
    requires halt { (limit : ℕ) × IsHaltOf limit book.now.statements id.0 stop.now.halt }
    requires place { stop.now.halt.at ≡ HaltAt.Label label }
    requires rule { stop.now.halt.rule ≡ Some P10 }
    ensures { OnOk result ((limit : ℕ) → AddsAtHalt limit book.now.statements id.0 stop.now
        TurnFacts out.old.items out.new.items) }
{
    push_asked(out, alloc, book, id, stop, label, true)?;
    push_asked(out, alloc, book, id, stop, label, false)
}

/// What is told of the mandatory pairs of an assertion.
fn push_pairs_asked(
    out: &mut Vec<u8>,
    alloc: Global,
    book: &Book,
    id: LabelId,
    stop: &NamedHalt,
    label: LabelId,
    rule: ProofRule,
) -> Result<(), AllocError>
    requires sound { IsSound book.now.statements }
    requires halt { (limit : ℕ) × IsHaltOf limit book.now.statements id.0 stop.now.halt }
    requires place { stop.now.halt.at ≡ HaltAt.Label label }
    requires broken { stop.now.halt.rule ≡ Some rule }
    requires apart { (rule ≡ P11) ⊎ (rule ≡ P12) }
    ensures { OnOk result ((limit : ℕ) → AddsAtHalt limit book.now.statements id.0 stop.now
        (DisjointFacts rule) out.old.items out.new.items) }
{
    let frame = book.frame(label);
    let base = stop.halt.origins.len() - frame.hypotheses().len();
    let entries = entries_from(alloc, &stop.halt, base)?;
    push_disjoint_pairs(out, alloc, book, id, rule, &entries, frame.pairs())
}

/// What is told of the step by a label that breaks a rule, behind that label.
fn push_step_details(
    out: &mut Vec<u8>,
    alloc: Global,
    book: &Book,
    id: LabelId,
    profile: Profile,
    stop: &NamedHalt,
    step: (LabelId, ProofRule),
) -> Result<(), AllocError>
    requires sound { IsSound book.now.statements }
    requires halt { IsHaltOf (limit_of profile) book.now.statements id.0 stop.now.halt }
    requires place { stop.now.halt.at ≡ HaltAt.Label step.0 }
    requires broken { stop.now.halt.rule ≡ Some step.1 }
    ensures { OnOk result (AddsAtHalt (limit_of profile) book.now.statements id.0 stop.now
        (StepFacts (limit_of profile) step.1) out.old.items out.new.items) }
{
    match step.1 {
        ProofRule::P8 => push_too_few(out, book, id, stop, step.0),
        ProofRule::P9 => push_types_asked(out, alloc, book, id, stop, step.0),
        ProofRule::P10 => push_asked_in_turn(out, alloc, book, id, stop, step.0),
        ProofRule::P11 => push_pairs_asked(out, alloc, book, id, stop, step.0, step.1),
        ProofRule::P12 => push_pairs_asked(out, alloc, book, id, stop, step.0, step.1),
        ProofRule::L1 => push_most(out, profile.limit()),
        _ => Ok(()),
    }
}

/// What is told of the step by a label that breaks a rule.
fn push_at_label(
    out: &mut Vec<u8>,
    alloc: Global,
    book: &Book,
    id: LabelId,
    profile: Profile,
    stop: &NamedHalt,
    step: (LabelId, ProofRule),
) -> Result<(), AllocError>
    requires sound { IsSound book.now.statements }
    requires halt { IsHaltOf (limit_of profile) book.now.statements id.0 stop.now.halt }
    requires place { stop.now.halt.at ≡ HaltAt.Label step.0 }
    requires broken { stop.now.halt.rule ≡ Some step.1 }
    ensures { OnOk result (AddsAtHalt (limit_of profile) book.now.statements id.0 stop.now
        (LabelFacts (limit_of profile) step.1) out.old.items out.new.items) }
{
    push_step(out, book.label(step.0))?;
    push_step_details(out, alloc, book, id, profile, stop, step)
}

/// The facts of the place where moves stop by the rule.
fn push_halt(
    out: &mut Vec<u8>,
    alloc: Global,
    book: &Book,
    id: LabelId,
    profile: Profile,
    stop: &NamedHalt,
    rule: ProofRule,
) -> Result<(), AllocError>
    requires sound { IsSound book.now.statements }
    requires halt { IsHaltOf (limit_of profile) book.now.statements id.0 stop.now.halt }
    requires broken { stop.now.halt.rule ≡ Some rule }
    ensures { OnOk result (AddsAtHalt (limit_of profile) book.now.statements id.0 stop.now
        (λ before s stack kept steps left details.
        AreHaltDetails (limit_of profile) before s stack kept steps left rule details)
        out.old.items out.new.items) }
{
    match stop.halt.at {
        HaltAt::End => push_at_end(out, book, id, stop, rule),
        HaltAt::Label(label) => push_at_label(out, alloc, book, id, profile, stop, (label, rule)),
        HaltAt::Tag(tag) => push_marks(out, tag, stop.halt.passed - stop.halt.steps),
        HaltAt::Mark => Ok(()),
    }
}

/// The `$d` statements of these pairs.
fn push_pairs(out: &mut Vec<u8>, book: &Book, pairs: &[(Sym, Sym)]) -> Result<(), AllocError>
    requires { (named : List (Symbol × Symbol))
        × AreNamedPairs book.now.statements pairs.now named }
    ensures { OnOk result ((named : List (Symbol × Symbol))
        → AreNamedPairs book.now.statements pairs.now named
        → out.new.items ≡ out.old.items ++ details_text (pairs_lacking named)) }
{
    for pair in pairs {
        push_missing(out, book.name(pair.0), book.name(pair.1))?;
    }
    Ok(())
}

/// The facts of the moves as a whole, which stop by the rule.
fn push_whole(
    out: &mut Vec<u8>,
    alloc: Global,
    book: &Book,
    id: LabelId,
    steps: &Steps,
    rule: ProofRule,
) -> Result<(), AllocError>
    requires { AreSteps book.now.statements id.0 steps.now.moves }
    ensures { OnOk result (OfMoves book.now.statements id.0 steps.now.moves (λ index s moves.
        (details : List Detail)
        × AreWholeDetails (limit_of steps.now.profile) (take index book.now.statements) moves rule
        details
        × (out.new.items ≡ out.old.items ++ details_text details))) }
{
    match rule {
        ProofRule::P12 => push_pairs(out, book, &lacking_pairs(alloc, book, id, steps)?),
        _ => Ok(()),
    }
}

/// The moves of a whole proof, or those of a checked prefix.
fn judged(parsed: Parsed) -> Steps
    ensures whole { (steps : ReadSteps) → parsed ≡ Parsed.Steps steps → result ≡ steps }
    ensures known { (steps : ReadSteps) → parsed ≡ Parsed.Incomplete steps
        → result ≡ steps }
{
    match parsed {
        Parsed::Steps(steps) => steps,
        Parsed::Incomplete(steps) => steps,
    }
}

/// The moves that the tokens, or those of their checked prefix, say.
fn steps_of(
    alloc: Global,
    profile: Profile,
    book: &Book,
    id: LabelId,
    tokens: &[Token],
) -> Result<Steps, AllocError>
    requires proof { (index : ℕ) × (s : Sentence) × IsProofNumber book.now.statements id.0 index s }
    requires room { sum_by length (token_texts tokens.now) ≤ most_bytes }
    requires whole { IsJudgedWhole profile book.now.statements id.0 (token_texts tokens.now) }
    ensures { IfOk result
        (AreJudgedSteps profile book.now.statements id.0 (token_texts tokens.now)) }
{
    match Steps::parse(alloc, profile, book, id, tokens) {
        Ok(parsed) => Ok(judged(parsed)),
        Err(ProofFault::Memory) => Err(AllocError),
        // What breaks a rule over all of the tokens isn't asked for.
        Err(ProofFault::Rule { .. }) => unreachable!(),
    }
}

/// The cause of the fault of a proof.
#[derive(Drop)]
pub enum Cause<'t> {
    /// A rule over the whole of the proof is broken at a byte of a token. Its list has these labels.
    Token {
        index: usize,
        byte: usize,
        text: &'t [u8],
        listed: Vec<&'t [u8]>,
    },
    /// The moves of the judged tokens, and where they stop.
    Moves {
        steps: Steps,
        stop: NamedHalt,
    },
}

/// The cause of the fault of the tokens as the proof of the `$p` with the number, which breaks the
/// rule at the step.
pub fn cause_of<'t>(
    alloc: Global,
    files: &[File],
    profile: Profile,
    book: &Book,
    id: LabelId,
    tokens: &[Token<'t>],
    fault: (ProofRule, usize),
) -> Result<Cause<'t>, AllocError>
    requires proof { (index : ℕ) × (s : Sentence) × IsProofNumber book.now.statements id.0 index s }
    requires room { sum_by length (token_texts tokens.now) ≤ most_bytes }
    requires fault { OfProof book.now.statements id.0 (λ index s.
        IsTokensFault profile (take index book.now.statements) s (token_texts tokens.now)
        fault.0 fault.1) }
    ensures cause { IfOk result
        (IsCauseOf profile book.now.statements id.0 (token_texts tokens.now) fault.0 fault.1) }
    ensures told { IfOk result (TellsSteps (map plain_file files.now) (map plain_token tokens.now)
        book.now.statements id.0) }
{
    // The frame of the `$p` tells that its book is sound.
    let _own = book.frame(id);
    if fault.1 == 0 {
        let (index, byte) = whole_place(alloc, book, id, tokens, fault.0)?;
        let listed = listed_texts(alloc, tokens)?;
        return Ok(Cause::Token {
            index,
            byte,
            text: tokens[index].text,
            listed,
        });
    }
    let steps = steps_of(alloc, profile, book, id, tokens)?;
    let stop = named_halt(alloc, files, book, id, tokens, &steps)?;
    Ok(Cause::Moves { steps, stop })
}

/// Whether a labelled statement is an assertion, or a hypothesis that is active at a frame's index.
fn is_usable(book: &Book, own: &Frame, id: LabelId) -> bool
    requires { own.now.statements ≡ book.now.statements }
    ensures { (index : ℕ) (s : Sentence) → IsNumbered book.now.statements id.0 index s
        → (IsTrue result
        ↔ (IsAssertion s.kind ⊎ (IsHypothesis s.kind × IsActive (before_it own.now) index))) }
{
    match book.kind(id) {
        LabelKind::Floating => own.active(id),
        LabelKind::Essential => own.active(id),
        _ => true,
    }
}

/// The labels that are nearest to the wanted one, of those that the proof of the `$p` with the
/// number may name and that its list has not.
fn near_labels<'a>(
    alloc: Global,
    book: &Book<'a>,
    id: LabelId,
    listed: &[&[u8]],
    wanted: &[u8],
) -> Result<Vec<&'a [u8]>, AllocError>
    requires { (index : ℕ) × (s : Sentence) × IsProofNumber book.now.statements id.0 index s }
    ensures { IfOk result (λ found. OfProof book.now.statements id.0 (λ index s.
        AreNearLabels (take index book.now.statements) (texts listed.now) wanted.now
        (texts found.items))) }
{
    let own = book.frame(id);
    let mut nearest = Nearest::new(alloc, wanted, listed);
    for number in 0..id.0 {
        let label = book.label(LabelId(number));
        if is_usable(book, &own, LabelId(number)) {
            nearest.offer(label)?;
        }
    }
    Ok(nearest.found)
}

/// Whether the token is a parenthesis.
fn is_parenthesis(text: &[u8]) -> bool
    ensures { result ≡ is_parenthesis_there text.now }
{
    text == b"(".as_slice() || text == b")".as_slice()
}

/// A label that no statement before the `$p` with the number has, and those that are near.
fn push_unknown_label(
    out: &mut Vec<u8>,
    alloc: Global,
    book: &Book,
    id: LabelId,
    listed: &[&[u8]],
    label: &[u8],
) -> Result<(), AllocError>
    requires { (index : ℕ) × (s : Sentence) × IsProofNumber book.now.statements id.0 index s }
    ensures { OnOk result (OfProof book.now.statements id.0 (λ index s. (details : List Detail)
        × AreTokenDetails (take index book.now.statements) (texts listed.now) P2 label.now details
        × (out.new.items ≡ out.old.items ++ details_text details))) }
{
    push_token(out, label)?;
    if is_parenthesis(label) {
        return Ok(());
    }
    let near = near_labels(alloc, book, id, listed, label)?;
    push_near(out, &near)
}

/// What is told of a token at which a rule over the whole of a proof is broken.
fn push_at_token(
    out: &mut Vec<u8>,
    alloc: Global,
    book: &Book,
    id: LabelId,
    rule: ProofRule,
    listed: &[&[u8]],
    text: &[u8],
) -> Result<(), AllocError>
    requires { (index : ℕ) × (s : Sentence) × IsProofNumber book.now.statements id.0 index s }
    ensures { OnOk result (OfProof book.now.statements id.0 (λ index s. (details : List Detail)
        × AreTokenDetails (take index book.now.statements) (texts listed.now) rule text.now details
        × (out.new.items ≡ out.old.items ++ details_text details))) }
{
    match rule {
        ProofRule::P2 => push_unknown_label(out, alloc, book, id, listed, text),
        ProofRule::P3 => push_token(out, text),
        ProofRule::P4 => push_token(out, text),
        ProofRule::P15 => push_token(out, text),
        _ => Ok(()),
    }
}

/// The facts that explain a fault, whose cause and rule these are.
pub fn push_cause(
    out: &mut Vec<u8>,
    alloc: Global,
    profile: Profile,
    book: &Book,
    id: LabelId,
    cause: &Cause,
    rule: ProofRule,
) -> Result<(), AllocError>
    requires proof { (index : ℕ) × (s : Sentence) × IsProofNumber book.now.statements id.0 index s }
    requires cause { (tokens : List (List ℕ)) × (step : ℕ)
        × IsCauseOf profile book.now.statements id.0 tokens rule step cause.now }
    ensures { OnOk result ((files : List PlainFile) (tokens : List PlainToken) (step : ℕ)
        → IsCauseOf profile book.now.statements id.0 (texts_of tokens) rule step cause.now
        → TellsSteps files tokens book.now.statements id.0 cause.now
        → OfProof book.now.statements id.0 (λ index s. (details : List Detail)
        × AreDetails files profile (take index book.now.statements) s tokens rule step details
        × (out.new.items ≡ out.old.items ++ details_text details))) }
{
    match cause {
        Cause::Token { text, listed, .. } => {
            push_at_token(out, alloc, book, id, rule, listed, text)
        }
        Cause::Moves { steps, stop } => {
            push_halt(out, alloc, book, id, profile, stop, rule)?;
            push_whole(out, alloc, book, id, steps, rule)
        }
    }
}

/// What the checked prefix of the tokens, which breaks no rule, leaves on the stack.
pub fn push_left_over(
    out: &mut Vec<u8>,
    alloc: Global,
    files: &[File],
    profile: Profile,
    book: &Book,
    id: LabelId,
    tokens: &[Token],
) -> Result<(), AllocError>
    requires proof { (index : ℕ) × (s : Sentence) × IsProofNumber book.now.statements id.0 index s }
    requires room { sum_by length (token_texts tokens.now) ≤ most_bytes }
    requires incomplete { is_incomplete (token_texts tokens.now) ≡ true }
    requires allowed { OfProof book.now.statements id.0 (λ index s.
        IsPrefixAllowedUnder profile (take index book.now.statements) s (token_texts tokens.now)) }
    ensures { OnOk result (OfProof book.now.statements id.0 (λ index s. (details : List Detail)
        × AreLeftOver (map plain_file files.now) profile (take index book.now.statements) s
        (map plain_token tokens.now) details
        × (out.new.items ≡ out.old.items ++ details_text details))) }
{
    // The frame of the `$p` tells that its book is sound.
    let _own = book.frame(id);
    let steps = steps_of(alloc, profile, book, id, tokens)?;
    let stop = named_halt(alloc, files, book, id, tokens, &steps)?;
    push_entries(out, book, id, &stop)?;
    push_stated(out, book, book.label(id), book.expression(id))
}
