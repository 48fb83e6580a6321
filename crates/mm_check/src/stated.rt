//! The reply to the question what stands at a label, whatever the proofs.

ghost use Rattle.std.specs.Prelude.{List, ℕ, map, length, slice_get, IfOk, Some, ◌≡◌, ◌<◌};
ghost use Rattle.mm_base.specs.Statement.{plain_statement};
ghost use Rattle.mm_text.specs.Files.{PlainFile, plain_file};
ghost use Rattle.mm_check.specs.Reply.{IsCommentText, IsStatementReply, IsStatementText};
ghost use Rattle.mm_check.specs.Reply.{IsToldFirst};
ghost use Rattle.mm_explain.specs.Mirror.Stated.{HasStated};
ghost use Rattle.mm_rules.specs.Status.{number_of};

use mm_base::{File, Seed, Statement};
use mm_explain::{Stated, read_statement};
use mm_render::statement_text;
use mm_rules::{AskFault, AskRule, Status};
use mm_text::comment_before;
use mm_verdict::{Reply, ask_reply, fault_reply};
use std::alloc::{AllocError, Global};

/// The comment right before a statement, as it stands in its file, and the end of a line; nothing
/// where no comment stands there.
fn comment_text(alloc: Global, files: &[File], statement: &Statement) -> Result<Vec<u8>, AllocError>
    requires { (f : PlainFile) × (slice_get (map plain_file files.now)
        (plain_statement statement.now).first.file ≡ Some f)
        × ((plain_statement statement.now).first.at < length f.bytes) }
    ensures { IfOk result (λ text. IsCommentText (map plain_file files.now)
        (plain_statement statement.now) text.items) }
{
    let bytes = files[statement.first.file].bytes;
    let Some((start, stop)) = comment_before(bytes, statement.first.at as usize) else {
        return Ok(Vec::new(alloc));
    };
    let mut text = Vec::from_slice(alloc, &bytes[start..stop + 2])?;
    text.push(b'\n')?;
    Ok(text)
}

/// What is told first of a statement: its comment, if that is asked for.
fn told_first(
    alloc: Global,
    files: &[File],
    statement: &Statement,
    comment: bool,
) -> Result<Vec<u8>, AllocError>
    requires { (f : PlainFile) × (slice_get (map plain_file files.now)
        (plain_statement statement.now).first.file ≡ Some f)
        × ((plain_statement statement.now).first.at < length f.bytes) }
    ensures { IfOk result (λ text. IsToldFirst comment (map plain_file files.now)
        (plain_statement statement.now) text.items) }
{
    if comment {
        return comment_text(alloc, files, statement);
    }
    Ok(Vec::new(alloc))
}

/// What is told of the statement that was found.
fn told_reply(
    alloc: Global,
    files: &[File],
    stated: &Stated,
    comment: bool,
) -> Result<Reply, AllocError>
    requires { (label : List ℕ) × HasStated (map plain_file files.now) label stated.now }
    ensures { IfOk result (λ reply. (label : List ℕ)
        → HasStated (map plain_file files.now) label stated.now
        → IsStatementText comment (map plain_file files.now) label reply.text.items
        (number_of reply.status)) }
{
    let statement = &stated.statement;
    let mut text = told_first(alloc, files, statement, comment)?;
    let told = statement_text(alloc, files, &stated.book, stated.id, statement)?;
    text.extend_from_slice(&told)?;
    Ok(Reply {
        text,
        status: Status::Done,
    })
}

/// The reply to the question what stands at a label; if `comment`, with the comment before it.
pub(crate) fn statement_reply(
    alloc: Global,
    seed: Seed,
    files: &[File],
    label: &[u8],
    comment: bool,
) -> Result<Reply, AllocError>
    ensures { IfOk result (λ reply. IsStatementReply comment (map plain_file files.now) label.now
        reply.text.items (number_of reply.status)) }
{
    match read_statement(alloc, seed, files, label) {
        Ok(Some(stated)) => told_reply(alloc, files, &stated, comment),
        Ok(None) => ask_reply(alloc, label, AskFault::Rule(AskRule::A1)),
        Err(fault) => fault_reply(alloc, files, &fault),
    }
}
