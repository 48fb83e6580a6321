//! `mm normal --known`: the normal proof of a theorem as far as it is known.

ghost use Rattle.std.specs.Prelude.{◌≡◌, ◌≤◌, ℕ, List, length, take, IfOk};
ghost use Rattle.mm_text.specs.Files.{PlainFile};
ghost use Rattle.mm_base.specs.Statement.{plain_statement};
ghost use Rattle.mm_step.specs.Profiles.{limit_of};
ghost use Rattle.mm_step.specs.Proof.{IsWithin};
ghost use Rattle.mm_step.specs.Steps.{AreSteps};
ghost use Rattle.mm_step.specs.declared.profile.Profile.TheVariants.{Lenient};
ghost use Rattle.mm_proof.specs.CheckedPrefix.{Pass};
ghost use Rattle.mm_proof.specs.Parsed.{OfProof, SaySteps};
ghost use Rattle.mm_proof.specs.Tokens.{is_incomplete};
ghost use Rattle.mm_proof.specs.Verified.{OfMoves};
ghost use Rattle.mm_facts.specs.Explained.{judged_tokens};
ghost use Rattle.mm_explain.specs.Mirror.Reached.{HasReached};
ghost use Rattle.mm_rules.specs.Status.{number_of};
ghost use Rattle.mm_check.specs.KnownNormal.{IsBeginningReply, IsKnownNormal, IsKnownNormalReply};

use mm_explain::{Reached, judged_steps};
use mm_frame::{Book, LabelId};
use mm_listing::halt_of;
use mm_proof::Steps;
use mm_render::{beginning_text, unknown_text};
use mm_rules::{Rule, Status};
use mm_step::ProofFault;
use mm_verdict::{Reply, ask_reply, refusal_status};
use std::alloc::{AllocError, Global};

/// The reply with the normal proof of the `$p` with this number, whose first moves are so many of
/// these, which pass, with a `?` behind it, if it is unfinished; and with a status.
fn beginning_reply(
    alloc: Global,
    label: &[u8],
    book: &Book,
    id: LabelId,
    steps: &Steps,
    front: (usize, bool),
    status: Status,
) -> Result<Reply, AllocError>
    requires steps { AreSteps book.now.statements id.0 steps.now.moves }
    requires within { front.0 ≤ length steps.now.moves }
    requires pass { OfMoves book.now.statements id.0 steps.now.moves
        (λ index s moves. Pass (IsWithin (limit_of steps.now.profile))
        (take index book.now.statements) (take front.0 moves)) }
    ensures { IfOk result (λ reply. OfMoves book.now.statements id.0 steps.now.moves
        (λ index s moves. IsBeginningReply front.1 (take index book.now.statements)
        (take front.0 moves) label.now (number_of status) reply.text.items
        (number_of reply.status))) }
{
    match beginning_text(alloc, book, id, steps, front.0, front.1) {
        Ok(text) => Ok(Reply { text, status }),
        Err(fault) => ask_reply(alloc, label, fault),
    }
}

/// The reply where these are the steps of the proof of the `$p` with this number, or of its checked
/// prefix.
fn steps_reply(
    alloc: Global,
    label: &[u8],
    book: &Book,
    id: LabelId,
    steps: &Steps,
) -> Result<Reply, AllocError>
    requires usable { AreSteps book.now.statements id.0 steps.now.moves }
    requires profile { steps.now.profile ≡ Lenient }
    ensures { IfOk result (λ reply. (tokens : List (List ℕ))
        → OfProof book.now.statements id.0 (λ index s.
        SaySteps book.now.statements index s (judged_tokens tokens) steps.now.moves)
        → steps.now.prefix ≡ is_incomplete tokens
        → OfProof book.now.statements id.0 (λ index s.
        IsKnownNormal label.now (take index book.now.statements) s tokens reply.text.items
        (number_of reply.status))) }
{
    let halt = halt_of(alloc, book, id, steps)?;
    let passed = halt.passed;
    match halt.rule {
        Some(rule) => {
            let status = refusal_status(Rule::Proof(rule));
            beginning_reply(alloc, label, book, id, steps, (passed, true), status)
        }
        None if steps.is_prefix() => {
            let status = Status::Incomplete;
            beginning_reply(alloc, label, book, id, steps, (passed, true), status)
        }
        None => {
            let status = Status::Done;
            beginning_reply(alloc, label, book, id, steps, (passed, false), status)
        }
    }
}

/// The reply for the normal proof of the theorem with this label, as far as it is known.
pub(crate) fn known_normal_reply(
    alloc: Global,
    label: &[u8],
    reached: &Reached,
) -> Result<Reply, AllocError>
    requires { (files : List PlainFile) × HasReached files label.now reached.now }
    ensures { IfOk result (λ reply. (files : List PlainFile)
        (r : HasReached files label.now reached.now)
        → IsKnownNormalReply label.now r.before (plain_statement reached.now.statement)
        reply.text.items (number_of reply.status)) }
{
    let book = &reached.book;
    let id = reached.id;
    match judged_steps(alloc, book, id, &reached.statement.proof) {
        Ok(steps) => steps_reply(alloc, label, book, id, &steps),
        Err(ProofFault::Rule { rule, .. }) => Ok(Reply {
            text: unknown_text(alloc)?,
            status: refusal_status(Rule::Proof(rule)),
        }),
        Err(ProofFault::Memory) => Err(AllocError),
    }
}
