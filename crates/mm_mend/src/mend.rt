//! The reply to `mm mend`.

ghost use Rattle.std.specs.Prelude.{◌≡◌, ◌≤◌, ◌++◌, ℕ, List, false, length, map, take, IfOk};
ghost use Rattle.mm_base.specs.Statement.{plain_statement};
ghost use Rattle.mm_text.specs.Files.{plain_file};
ghost use Rattle.mm_step.specs.declared.profile.Profile.TheVariants.{Lenient};
ghost use Rattle.mm_proof.specs.Parsed.{OfProof};
ghost use Rattle.mm_proof.specs.Tokens.{is_incomplete as is_incomplete_proof};
ghost use Rattle.mm_proof.specs.UnderProfile.{IsFaultUnder};
ghost use Rattle.mm_rules.specs.Status.{number_of};
ghost use Rattle.mm_rules.specs.Verdict.{proof_of, sentences};
ghost use Rattle.mm_explain.specs.Mirror.Reached.{HasReached, IsUnreached};
ghost use Rattle.mm_mend.specs.Mend.{proof_text as text_of_proof, reach_of as reach_from};
ghost use Rattle.mm_mend.specs.Reply.{IsJudged, IsMendAnswer, IsMendReply, IsNotFound, TellsMends};
ghost use Rattle.mm_mend.specs.Reply.{leaves_places as leaves_some, long_note, mend_status};
ghost use Rattle.mm_mend.specs.Reply.{none_note};

use crate::change::Change;
use crate::judge::fault_of;
use crate::lines::push_lines;
use crate::search::first_mends;
use crate::tried::{changes_tried, place_count, word_end};
use mm_base::{File, Seed, Statement};
use mm_explain::read_to::read_to;
use mm_explain::{Reached, Unreached};
use mm_facts::{cause_of, fault_place};
use mm_proof::is_incomplete;
use mm_rules::{AskFault, AskRule, Status, bytes_before, bytes_from, bytes_of};
use mm_step::{Profile, ProofRule};
use mm_verdict::{Reply, ask_reply, fault_reply};
use std::alloc::{AllocError, Global};

/// A reply, and the note beside it.
#[derive(Drop)]
pub struct Mended {
    pub reply: Reply,
    /// A line or two for standard error, or nothing.
    pub note: Vec<u8>,
}

/// The text of the statement's proof.
fn proof_text<'a>(files: &[File<'a>], statement: &Statement) -> &'a [u8]
    ensures text { result.now ≡ text_of_proof (map plain_file files.now)
        (plain_statement statement.now) }
    ensures size { length result.now ≤ 4294967295 }
{
    let (begin, end) = statement.span;
    let rest = bytes_from(bytes_of(files, statement.first.file), begin as usize);
    bytes_before(rest, end.saturating_sub(begin) as usize)
}

/// Where the changes begin in a text that begins at a position in its file, for a fault at this one.
fn reach_of(text: &[u8], begin: u32, place: usize) -> usize
    ensures reach { result ≡ reach_from text.now begin place }
    ensures within { result ≤ length text.now }
{
    let at = place.saturating_sub(begin as usize);
    word_end(text, at).min(text.len().saturating_sub(1))
}

/// Whether more places than are tried stand up to this one, in a text of so many bytes.
fn leaves_places(size: usize, reach: usize) -> bool
    requires { reach ≤ 4294967295 }
    ensures { result ≡ leaves_some size reach }
{
    place_count(size, reach) < reach
}

/// What is noted of the mends that were found.
fn note_of(alloc: Global, found: &[Change], leaves: bool) -> Result<Vec<u8>, AllocError>
    ensures { IfOk result (λ note. note.items ≡ none_note found.now ++ long_note leaves) }
{
    let mut note = Vec::new(alloc);
    if found.is_empty() {
        note.extend_from_slice(
            b"mm: note: no change of one byte or of two neighbours makes it a proof\n",
        )?;
    }
    if leaves {
        note.extend_from_slice(
            b"mm: note: the proof is long: places far before its fault weren't tried\n",
        )?;
    }
    Ok(note)
}

/// The status that goes with the mends that were found.
fn status_of(found: &[Change]) -> Status
    ensures { number_of result ≡ mend_status found.now }
{
    if found.is_empty() {
        Status::Refused
    } else {
        Status::Done
    }
}

/// The mends of the proof, whose first fault is at this position in its file.
fn mends_reply(
    alloc: Global,
    files: &[File],
    reached: &Reached,
    place: usize,
) -> Result<Mended, AllocError>
    requires { (label : List ℕ) × HasReached (map plain_file files.now) label reached.now }
    ensures { IfOk result (λ mended. (label : List ℕ)
        (r : HasReached (map plain_file files.now) label reached.now)
        → TellsMends (map plain_file files.now) (sentences r.before)
        (plain_statement reached.now.statement) place mended.reply.text.items
        (number_of mended.reply.status) mended.note.items) }
{
    let statement = &reached.statement;
    let tokens = &statement.proof;
    let proof = proof_text(files, statement);
    let reach = reach_of(proof, statement.span.0, place);
    let changes = changes_tried(alloc, tokens.len(), reach, proof)?;
    let found = first_mends(alloc, &reached.book, reached.id, tokens, proof, &changes)?;
    let mut text = Vec::new(alloc);
    push_lines(&mut text, files, statement, proof, &found)?;
    let note = note_of(alloc, &found, leaves_places(proof.len(), reach))?;
    let status = status_of(&found);
    Ok(Mended {
        reply: Reply { text, status },
        note,
    })
}

/// The reply where the proof has this first fault.
fn mended_reply(
    alloc: Global,
    files: &[File],
    reached: &Reached,
    fault: (ProofRule, usize),
) -> Result<Mended, AllocError>
    requires reached { (label : List ℕ) × HasReached (map plain_file files.now) label reached.now }
    requires complete { is_incomplete_proof (proof_of (plain_statement reached.now.statement))
        ≡ false }
    requires fault { OfProof reached.now.book.statements reached.now.id.0 (λ index s.
        IsFaultUnder Lenient (take index reached.now.book.statements) s
        (proof_of (plain_statement reached.now.statement)) fault.0 fault.1) }
    ensures { IfOk result (λ mended. (label : List ℕ)
        (r : HasReached (map plain_file files.now) label reached.now)
        → IsJudged (map plain_file files.now) (sentences r.before)
        (plain_statement reached.now.statement) mended.reply.text.items
        (number_of mended.reply.status) mended.note.items) }
{
    let (book, id) = (&reached.book, reached.id);
    let tokens = &reached.statement.proof;
    let cause = cause_of(alloc, files, Profile::Lenient, book, id, tokens, fault)?;
    let place = fault_place(&reached.statement, &cause);
    drop(cause);
    mends_reply(alloc, files, reached, place)
}

/// The reply about a theorem whose proof is complete.
fn judged_reply(alloc: Global, files: &[File], reached: &Reached) -> Result<Mended, AllocError>
    requires reached { (label : List ℕ) × HasReached (map plain_file files.now) label reached.now }
    requires complete { is_incomplete_proof (proof_of (plain_statement reached.now.statement))
        ≡ false }
    ensures { IfOk result (λ mended. (label : List ℕ)
        (r : HasReached (map plain_file files.now) label reached.now)
        → IsJudged (map plain_file files.now) (sentences r.before)
        (plain_statement reached.now.statement) mended.reply.text.items
        (number_of mended.reply.status) mended.note.items) }
{
    let found = fault_of(alloc, &reached.book, reached.id, &reached.statement.proof)?;
    match found {
        Some(fault) => mended_reply(alloc, files, reached, fault),
        None => Ok(Mended {
            reply: Reply {
                text: Vec::from_slice(alloc, b"proof\n")?,
                status: Status::Done,
            },
            note: Vec::new(alloc),
        }),
    }
}

/// The answer about the theorem that was reached, which has this label.
fn answer_about(
    alloc: Global,
    files: &[File],
    label: &[u8],
    reached: &Reached,
) -> Result<Mended, AllocError>
    requires { HasReached (map plain_file files.now) label.now reached.now }
    ensures { IfOk result (λ mended.
        (r : HasReached (map plain_file files.now) label.now reached.now)
        → IsMendAnswer (map plain_file files.now) label.now (sentences r.before)
        (plain_statement reached.now.statement) mended.reply.text.items
        (number_of mended.reply.status) mended.note.items) }
{
    if is_incomplete(&reached.statement.proof) {
        return Ok(Mended {
            reply: ask_reply(alloc, label, AskFault::Rule(AskRule::A3))?,
            note: Vec::new(alloc),
        });
    }
    judged_reply(alloc, files, reached)
}

/// The reply where no theorem is found at the label.
fn not_found_reply(
    alloc: Global,
    files: &[File],
    label: &[u8],
    why: Unreached,
) -> Result<Reply, AllocError>
    requires { IsUnreached (map plain_file files.now) label.now why }
    ensures { IfOk result (λ reply. IsNotFound (map plain_file files.now) label.now
        reply.text.items (number_of reply.status)) }
{
    match why {
        Unreached::Check(fault) => fault_reply(alloc, files, &fault),
        Unreached::Ask(rule) => ask_reply(alloc, label, AskFault::Rule(rule)),
    }
}

/// The mends of the proof of the theorem with a label, a line for each, ten at most: the changes of
/// one byte or of two neighbours with which the prover takes it for a proof. Those of two words come
/// first, then those of bytes, from the word at fault back. How other proofs are, and what stands
/// behind the theorem, is left open. Of a proof that is right the reply is `proof`.
///
/// # Errors
///
/// A refused growth.
pub fn mend_reply(
    alloc: Global,
    seed: Seed,
    files: &[File],
    label: &[u8],
) -> Result<Mended, AllocError>
    ensures { IfOk result (λ mended. IsMendReply (map plain_file files.now) label.now
        mended.reply.text.items (number_of mended.reply.status) mended.note.items) }
{
    match read_to(alloc, seed, files, label) {
        Ok(reached) => answer_about(alloc, files, label, &reached),
        Err(why) => Ok(Mended {
            reply: not_found_reply(alloc, files, label, why)?,
            note: Vec::new(alloc),
        }),
    }
}
