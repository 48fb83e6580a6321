//! `mm show --known`: the steps of a proof up to its first fault or `?`.

ghost use Rattle.std.specs.Prelude.{◌≡◌, ◌≤◌, ℕ, List, map, length, take, true, IfOk};
ghost use Rattle.std.specs.List.{sum_by};
ghost use Rattle.mm_base.specs.MostBytes.{most_bytes};
ghost use Rattle.mm_text.specs.Files.{plain_file};
ghost use Rattle.mm_base.specs.Statement.{plain_statement};
ghost use Rattle.mm_base.specs.Token.{plain_token};
ghost use Rattle.mm_frame.specs.Sentence.{Sentence};
ghost use Rattle.mm_step.specs.declared.profile.Profile.TheVariants.{Lenient};
ghost use Rattle.mm_proof.specs.CheckedPrefix.{checked_prefix};
ghost use Rattle.mm_proof.specs.Parsed.{OfProof, SaySteps};
ghost use Rattle.mm_step.specs.Plain.{token_texts};
ghost use Rattle.mm_step.specs.Steps.{AreSteps, IsProofNumber};
ghost use Rattle.mm_proof.specs.Tokens.{is_incomplete};
ghost use Rattle.mm_proof.specs.UnderProfile.{IsPrefixAllowedUnder};
ghost use Rattle.mm_verdict.specs.declared.question.Telling.{Telling};
ghost use Rattle.mm_check.specs.Alone.{AreStepsBefore};
ghost use Rattle.mm_facts.specs.Explained.{judged_tokens};
ghost use Rattle.mm_facts.specs.Explained.{IsTokensFault};
ghost use Rattle.mm_explain.specs.Mirror.Reached.{HasReached};
ghost use Rattle.mm_check.specs.Reply.{IsKnownFault, IsCheckedPrefix, IsKnownReply};
ghost use Rattle.mm_check.specs.Told.{TellsMoves};
ghost use Rattle.mm_rules.specs.Status.{number_of};
ghost use Rattle.mm_rules.specs.Verdict.{proof_of};

use crate::told::told_before;
use mm_base::{File, Token};
use mm_explain::{Reached, judged_steps, push_head};
use mm_facts::{cause_of, fault_place, push_cause, push_left_over};
use mm_frame::{Book, LabelId};
use mm_listing::halt_of;
use mm_proof::Steps;
use mm_rules::{LineCount, Rule, Status, refusal};
use mm_step::{Profile, ProofFault, ProofRule};
use mm_verdict::{Reply, Telling, push_refusal, refusal_status};
use std::alloc::{AllocError, Global};

/// The reply where the proof, or what is known of it, is at fault: the lines of the steps before
/// the fault, the refusal, and what explains it.
fn fault_reply(
    alloc: Global,
    files: &[File],
    reached: &Reached,
    tokens: &[Token],
    lines: Vec<u8>,
    fault: (ProofRule, usize),
) -> Result<Reply, AllocError>
    requires reached { (label : List ℕ) × HasReached (map plain_file files.now) label reached.now }
    requires tokens { token_texts tokens.now ≡ proof_of (plain_statement reached.now.statement) }
    requires placed { map plain_token tokens.now ≡ (plain_statement reached.now.statement).proof }
    requires room { sum_by length (token_texts tokens.now) ≤ most_bytes }
    requires fault { OfProof reached.now.book.statements reached.now.id.0 (λ index s.
        IsTokensFault Lenient (take index reached.now.book.statements) s (token_texts tokens.now)
        fault.0 fault.1) }
    ensures { IfOk result (λ reply. (telling : Telling)
        → OfProof reached.now.book.statements reached.now.id.0 (λ index s.
        AreStepsBefore telling (map plain_file files.now)
        (take index reached.now.book.statements) s (map plain_token tokens.now) fault.1
        lines.items)
        → (label : List ℕ) (r : HasReached (map plain_file files.now) label reached.now)
        → IsKnownFault telling (map plain_file files.now) r.before
        (plain_statement reached.now.statement) reply.text.items (number_of reply.status)) }
{
    let rule = Rule::Proof(fault.0);
    let mut counted = LineCount::new(files);
    let refusal = refusal(
        &mut counted,
        reached.before,
        &reached.statement,
        rule,
        fault.1,
    );
    let book = &reached.book;
    let profile = Profile::Lenient;
    let cause = cause_of(alloc, files, profile, book, reached.id, tokens, fault)?;
    let mut text = lines;
    push_refusal(&mut text, files, &refusal)?;
    let at = fault_place(&reached.statement, &cause);
    push_head(&mut text, files, at, &refusal)?;
    push_cause(&mut text, alloc, profile, book, reached.id, &cause, fault.0)?;
    Ok(Reply {
        text,
        status: refusal_status(rule),
    })
}

/// The reply where the checked prefix of the proof breaks no rule: the lines of its steps, and what
/// it leaves on the stack.
fn prefix_reply(
    alloc: Global,
    files: &[File],
    book: &Book,
    id: LabelId,
    tokens: &[Token],
    lines: Vec<u8>,
) -> Result<Reply, AllocError>
    requires proof { (index : ℕ) × (s : Sentence) × IsProofNumber book.now.statements id.0 index s }
    requires room { sum_by length (token_texts tokens.now) ≤ most_bytes }
    requires incomplete { is_incomplete (token_texts tokens.now) ≡ true }
    requires allowed { OfProof book.now.statements id.0 (λ index s.
        IsPrefixAllowedUnder Lenient (take index book.now.statements) s (token_texts tokens.now)) }
    ensures { IfOk result (λ reply. (telling : Telling)
        → OfProof book.now.statements id.0 (λ index s.
        TellsMoves telling (map plain_file files.now) (take index book.now.statements) s
        (map plain_token tokens.now) (checked_prefix (token_texts tokens.now)) lines.items)
        → OfProof book.now.statements id.0 (λ index s.
        IsCheckedPrefix telling (map plain_file files.now) (take index book.now.statements) s
        (map plain_token tokens.now) reply.text.items (number_of reply.status))) }
{
    let mut text = lines;
    push_left_over(&mut text, alloc, files, Profile::Lenient, book, id, tokens)?;
    Ok(Reply {
        text,
        status: Status::Incomplete,
    })
}

/// The reply where these are the steps of the proof, or of its checked prefix.
fn steps_reply(
    alloc: Global,
    files: &[File],
    reached: &Reached,
    tokens: &[Token],
    steps: &Steps,
    telling: Telling,
) -> Result<Reply, AllocError>
    requires reached { (label : List ℕ) × HasReached (map plain_file files.now) label reached.now }
    requires tokens { token_texts tokens.now ≡ proof_of (plain_statement reached.now.statement) }
    requires placed { map plain_token tokens.now ≡ (plain_statement reached.now.statement).proof }
    requires room { sum_by length (token_texts tokens.now) ≤ most_bytes }
    requires said { OfProof reached.now.book.statements reached.now.id.0 (λ index s.
        SaySteps reached.now.book.statements index s (judged_tokens (token_texts tokens.now))
        steps.now.moves) }
    requires usable { AreSteps reached.now.book.statements reached.now.id.0 steps.now.moves }
    requires prefix { steps.now.prefix ≡ is_incomplete (token_texts tokens.now) }
    requires profile { steps.now.profile ≡ Lenient }
    ensures { IfOk result (λ reply. (label : List ℕ)
        (r : HasReached (map plain_file files.now) label reached.now)
        → IsKnownReply telling (map plain_file files.now) r.before
        (plain_statement reached.now.statement) reply.text.items (number_of reply.status)) }
{
    let halt = halt_of(alloc, &reached.book, reached.id, steps)?;
    let front = (halt.passed, telling);
    let lines = told_before(
        alloc,
        files,
        &reached.book,
        reached.id,
        tokens,
        steps,
        front,
    )?;
    match halt.rule {
        Some(rule) => {
            let fault = (rule, halt.steps + 1);
            fault_reply(alloc, files, reached, tokens, lines, fault)
        }
        None if steps.is_prefix() => {
            prefix_reply(alloc, files, &reached.book, reached.id, tokens, lines)
        }
        None => Ok(Reply {
            text: lines,
            status: Status::Done,
        }),
    }
}

/// The reply how the theorem is proved, as far as that is known.
pub fn known_reply(
    alloc: Global,
    files: &[File],
    reached: &Reached,
    telling: Telling,
) -> Result<Reply, AllocError>
    requires { (label : List ℕ) × HasReached (map plain_file files.now) label reached.now }
    ensures { IfOk result (λ reply. (label : List ℕ)
        (r : HasReached (map plain_file files.now) label reached.now)
        → IsKnownReply telling (map plain_file files.now) r.before
        (plain_statement reached.now.statement) reply.text.items (number_of reply.status)) }
{
    let tokens = &reached.statement.proof;
    match judged_steps(alloc, &reached.book, reached.id, tokens) {
        Ok(steps) => steps_reply(alloc, files, reached, tokens, &steps, telling),
        Err(ProofFault::Rule { rule, step }) => {
            fault_reply(alloc, files, reached, tokens, Vec::new(alloc), (rule, step))
        }
        Err(ProofFault::Memory) => Err(AllocError),
    }
}
