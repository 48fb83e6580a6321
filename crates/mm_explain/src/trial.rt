//! `mm try`: whether a text proves a theorem, whatever proof its file has.

ghost use Rattle.std.specs.Prelude.{◌≡◌, ◌≤◌, ℕ, length, map, take, IfOk, IfErr, Some};
ghost use Rattle.std.specs.List.{sum_by};
ghost use Rattle.mm_base.specs.MostBytes.{most_bytes};
ghost use Rattle.mm_base.specs.Token.{plain_token};
ghost use Rattle.mm_text.specs.Files.{plain_file};
ghost use Rattle.mm_text.specs.Shown.{broken_at};
ghost use Rattle.mm_frame.specs.Sentence.{Sentence};
ghost use Rattle.mm_proof.specs.Answer.{OnRule};
ghost use Rattle.mm_step.specs.declared.profile.Profile.TheVariants.{Lenient};
ghost use Rattle.mm_proof.specs.Parsed.{OfProof, SaySteps};
ghost use Rattle.mm_step.specs.Plain.{token_texts};
ghost use Rattle.mm_step.specs.Steps.{AreSteps, IsProofNumber};
ghost use Rattle.mm_proof.specs.Tokens.{is_incomplete};
ghost use Rattle.mm_facts.specs.Explained.{judged_tokens};
ghost use Rattle.mm_facts.specs.Explained.{IsTokensFault};
ghost use Rattle.mm_explain.specs.Mirror.Reached.{AreTried};
ghost use Rattle.mm_explain.specs.Reply.{IsTextFault, IsTokensReply, IsTriedFault, IsTriedPrefix};
ghost use Rattle.mm_explain.specs.Reply.{IsTryReply, IsUntried};
ghost use Rattle.mm_rules.specs.ProofText.{broken_in, proof_end, proof_tokens, proof_words};
ghost use Rattle.mm_rules.specs.Status.{number_of};
ghost use Rattle.mm_verdict.specs.Mirror.Reached.{IsUnhanded};

use crate::why::push_head_at;
use mm_base::{File, Token};
use mm_facts::{cause_of, place_among, push_cause, push_left_over, push_token};
use mm_frame::{Book, LabelId};
use mm_proof::{Parsed, Proved, Steps, verify};
use mm_rules::{AskFault, AskRule, Rule, Status};
use mm_step::{Flat, Profile, ProofFault, ProofRule};
use mm_text::{LoadRule, Wrong};
use mm_verdict::{Reply, Unhanded, ask_reply, handed_tokens, refused_text, text_status};
use std::alloc::{AllocError, Global};

/// The steps that the tokens say as a proof of the `$p` with the number, or that their known prefix
/// says; or the first rule that those break over the whole of them, at step 0.
pub fn judged_steps(
    alloc: Global,
    book: &Book,
    id: LabelId,
    tokens: &[Token],
) -> Result<Steps, ProofFault>
    requires proof { (index : ℕ) × (s : Sentence) × IsProofNumber book.now.statements id.0 index s }
    requires room { sum_by length (token_texts tokens.now) ≤ most_bytes }
    ensures said { IfOk result (λ steps. OfProof book.now.statements id.0 (λ index s.
        SaySteps book.now.statements index s (judged_tokens (token_texts tokens.now))
        steps.moves)) }
    ensures usable { IfOk result (λ steps. AreSteps book.now.statements id.0 steps.moves) }
    ensures prefix { IfOk result (λ steps. steps.prefix ≡ is_incomplete (token_texts tokens.now)) }
    ensures profile { IfOk result (λ steps. steps.profile ≡ Lenient) }
    ensures fault { IfErr result (λ fault. OnRule fault (λ rule step. (step ≡ 0)
        × OfProof book.now.statements id.0 (λ index s.
        IsTokensFault Lenient (take index book.now.statements) s (token_texts tokens.now) rule
        step))) }
{
    match Steps::parse(alloc, Profile::Lenient, book, id, tokens)? {
        Parsed::Steps(steps) => Ok(steps),
        Parsed::Incomplete(steps) => Ok(steps),
    }
}

/// What the tokens are as a proof of the `$p` with the number: a complete one, an incomplete one
/// whose checked prefix breaks no rule, or one with this first fault.
fn try_tokens(
    alloc: Global,
    book: &Book,
    id: LabelId,
    tokens: &[Token],
) -> Result<Proved, ProofFault>
    requires proof { (index : ℕ) × (s : Sentence) × IsProofNumber book.now.statements id.0 index s }
    requires room { sum_by length (token_texts tokens.now) ≤ most_bytes }
    ensures tried { IfOk result (λ proved. OfProof book.now.statements id.0 (λ index s.
        AreTried (take index book.now.statements) s (token_texts tokens.now) proved)) }
    ensures fault { IfErr result (λ fault. OnRule fault (λ rule step.
        OfProof book.now.statements id.0 (λ index s.
        IsTokensFault Lenient (take index book.now.statements) s (token_texts tokens.now) rule
        step))) }
{
    let steps = judged_steps(alloc, book, id, tokens)?;
    let _used = verify(alloc, Flat::new(alloc), book, id, &steps)?;
    if steps.is_prefix() {
        Ok(Proved::Incomplete)
    } else {
        Ok(Proved::Complete)
    }
}

/// The reply where the checked prefix of the tokens breaks no rule: that they are incomplete, and
/// what the prefix leaves on the stack.
fn prefix_reply(
    alloc: Global,
    book: &Book,
    id: LabelId,
    proof: &File,
    tokens: &[Token],
) -> Result<Reply, AllocError>
    requires proof { (index : ℕ) × (s : Sentence) × IsProofNumber book.now.statements id.0 index s }
    requires tokens { token_texts tokens.now ≡ proof_words proof.now.bytes.now }
    requires places { map plain_token tokens.now ≡ proof_tokens proof.now.bytes.now }
    requires room { sum_by length (token_texts tokens.now) ≤ most_bytes }
    requires tried { OfProof book.now.statements id.0 (λ index s.
        AreTried (take index book.now.statements) s (token_texts tokens.now) Proved.Incomplete) }
    ensures { IfOk result (λ reply. OfProof book.now.statements id.0 (λ index s.
        IsTriedPrefix (plain_file proof.now) (take index book.now.statements) s reply.text.items
        (number_of reply.status))) }
{
    let rule = Rule::Ask(AskRule::A3);
    let mut text = refused_text(alloc, rule, 0)?;
    push_left_over(
        &mut text,
        alloc,
        &[*proof],
        Profile::Lenient,
        book,
        id,
        tokens,
    )?;
    Ok(Reply {
        text,
        status: text_status(rule),
    })
}

/// The reply where the proof in the text of a file has this first fault: the fault, and what
/// explains it, with its place in that file.
fn fault_reply(
    alloc: Global,
    book: &Book,
    id: LabelId,
    proof: &File,
    tokens: &[Token],
    end: usize,
    fault: (ProofRule, usize),
) -> Result<Reply, AllocError>
    requires proof { (index : ℕ) × (s : Sentence) × IsProofNumber book.now.statements id.0 index s }
    requires tokens { token_texts tokens.now ≡ proof_words proof.now.bytes.now }
    requires places { map plain_token tokens.now ≡ proof_tokens proof.now.bytes.now }
    requires end { end ≡ proof_end proof.now.bytes.now }
    requires room { sum_by length (token_texts tokens.now) ≤ most_bytes }
    requires fault { OfProof book.now.statements id.0 (λ index s.
        IsTokensFault Lenient (take index book.now.statements) s (token_texts tokens.now) fault.0
        fault.1) }
    ensures { IfOk result (λ reply. OfProof book.now.statements id.0 (λ index s.
        IsTriedFault (plain_file proof.now) (take index book.now.statements) s reply.text.items
        (number_of reply.status))) }
{
    let profile = Profile::Lenient;
    let rule = Rule::Proof(fault.0);
    let cause = cause_of(alloc, &[*proof], profile, book, id, tokens, fault)?;
    let at = place_among(tokens, end, &cause);
    let mut text = refused_text(alloc, rule, fault.1)?;
    push_head_at(&mut text, &[*proof], (0, at), (rule, fault.1), None)?;
    push_cause(&mut text, alloc, profile, book, id, &cause, fault.0)?;
    Ok(Reply {
        text,
        status: text_status(rule),
    })
}

/// The reply what the tokens of the text in a file are as a proof of the `$p` with the number.
fn tokens_reply(
    alloc: Global,
    book: &Book,
    id: LabelId,
    proof: &File,
    tokens: &[Token],
    end: usize,
) -> Result<Reply, AllocError>
    requires proof { (index : ℕ) × (s : Sentence) × IsProofNumber book.now.statements id.0 index s }
    requires tokens { token_texts tokens.now ≡ proof_words proof.now.bytes.now }
    requires places { map plain_token tokens.now ≡ proof_tokens proof.now.bytes.now }
    requires end { end ≡ proof_end proof.now.bytes.now }
    requires room { sum_by length (token_texts tokens.now) ≤ most_bytes }
    ensures { IfOk result (λ reply. OfProof book.now.statements id.0 (λ index s.
        IsTokensReply (plain_file proof.now) (take index book.now.statements) s reply.text.items
        (number_of reply.status))) }
{
    match try_tokens(alloc, book, id, tokens) {
        Ok(Proved::Complete) => Ok(Reply {
            text: Vec::from_slice(alloc, b"proof\n")?,
            status: Status::Done,
        }),
        Ok(Proved::Incomplete) => prefix_reply(alloc, book, id, proof, tokens),
        Err(ProofFault::Rule { rule, step }) => {
            fault_reply(alloc, book, id, proof, tokens, end, (rule, step))
        }
        Err(ProofFault::Memory) => Err(AllocError),
    }
}

/// The reply where the text in a file is wrong itself: the rule, and what explains it, with its
/// place in that file.
fn wrong_reply(alloc: Global, proof: &File, wrong: Wrong) -> Result<Reply, AllocError>
    requires size { length proof.now.bytes.now ≤ most_bytes }
    requires broken { broken_in proof.now.bytes.now ≡ Some (broken_at wrong) }
    ensures { IfOk result (λ reply.
        IsTextFault (plain_file proof.now) reply.text.items (number_of reply.status)) }
{
    let rule = Rule::Text(wrong.rule);
    let mut text = refused_text(alloc, rule, 0)?;
    let position = (0, wrong.token.at as usize);
    push_head_at(&mut text, &[*proof], position, (rule, 0), None)?;
    push_token(&mut text, wrong.token.text)?;
    Ok(Reply {
        text,
        status: text_status(rule),
    })
}

/// The reply where the text in a file has no tokens of a proof.
fn unhanded_reply(alloc: Global, proof: &File, why: Unhanded) -> Result<Reply, AllocError>
    requires { IsUnhanded proof.now.bytes.now why }
    ensures { IfOk result (λ reply. IsUntried (plain_file proof.now) reply.text.items
        (number_of reply.status)) }
{
    match why {
        // A fault of the text alone, which tells no label.
        Unhanded::Size => {
            let rule = Rule::Load(LoadRule::F3);
            ask_reply(alloc, b"", AskFault::Text { rule, step: 0 })
        }
        Unhanded::Wrong(wrong) => wrong_reply(alloc, proof, wrong),
        Unhanded::Memory => Err(AllocError),
    }
}

/// The reply whether the text in a file is a proof of the `$p` with the number.
pub fn try_reply(alloc: Global, book: &Book, id: LabelId, proof: &File) -> Result<Reply, AllocError>
    requires { (index : ℕ) × (s : Sentence) × IsProofNumber book.now.statements id.0 index s }
    ensures { IfOk result (λ reply. OfProof book.now.statements id.0 (λ index s.
        IsTryReply (plain_file proof.now) (take index book.now.statements) s reply.text.items
        (number_of reply.status))) }
{
    match handed_tokens(alloc, proof.bytes) {
        Ok(handed) => tokens_reply(alloc, book, id, proof, &handed.tokens, handed.end),
        Err(why) => unhanded_reply(alloc, proof, why),
    }
}
