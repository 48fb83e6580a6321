//! The way through the statements of files, whatever their proofs, and what is listed of each.

ghost use Rattle.std.specs.Prelude.{◌≡◌, ◌++◌, ◌∷◌, [], ℕ, List, map, IfOk, IfErr, OnOk};
ghost use Rattle.mm_text.specs.Files.{plain_file};
ghost use Rattle.mm_text.specs.Remaining.{IsUnread};
ghost use Rattle.mm_base.specs.Statement.{PlainStatement, HasForm};
ghost use Rattle.mm_frame.specs.Sentence.{Sentence, sentence_of};
ghost use Rattle.mm_frame.specs.Taken.{TakenAs};
ghost use Rattle.mm_rules.specs.Verdict.{CanBeRead};
ghost use Rattle.mm_find.specs.Found.{IsListOf, IsListedOf, IsUnlisted};
ghost use Rattle.mm_find.specs.Plain.{plain_query};
ghost use Rattle.mm_find.specs.Mirror.Types.{type_in};
ghost use Rattle.mm_find.specs.Mirror.Walk.{IsLast, IsListing, IsListOfAll, StopsListing};
ghost use Rattle.mm_find.specs.Mirror.Walk.{IsTakenLast};

use crate::assertion::assertion_at;
use crate::line::push_line;
use crate::query::{Query, is_asked_for};
use crate::types::Types;
use crate::typing::asked_types;
use mm_base::{File, Kind, Seed, Statement};
use mm_frame::{Book, LabelId, Taken};
use mm_rules::{CheckFault, Progress, Stop};
use mm_text::Statements;
use mm_verdict::{beginning, load, take_next};
use std::alloc::{AllocError, Global};

/// Appends the line of the assertion of this kind that was taken last, if it is asked for.
fn push_asked(
    out: &mut Vec<u8>,
    alloc: Global,
    book: &Book,
    id: LabelId,
    kind: Kind,
    query: &Query,
    types: &Types,
) -> Result<(), AllocError>
    requires { (before : List Sentence) × (s : Sentence)
        × IsLast book.now.statements id.0 before s × (kind ≡ s.kind) }
    ensures { OnOk result ((before : List Sentence) (s : Sentence)
        → IsLast book.now.statements id.0 before s → kind ≡ s.kind → (line : List ℕ)
        × IsListedOf (plain_query query.now) (type_in types.now) before s line
        × (out.new.items ≡ out.old.items ++ line)) }
{
    let assertion = assertion_at(alloc, book, id, kind)?;
    let asked = is_asked_for(alloc, query, types, &assertion)?;
    if asked {
        return push_line(out, &assertion);
    }
    Ok(())
}

/// Appends what is listed of the statement of this kind that was taken last.
fn push_listed(
    out: &mut Vec<u8>,
    alloc: Global,
    book: &Book,
    taken: Taken,
    kind: Kind,
    query: &Query,
    types: &Types,
) -> Result<(), AllocError>
    requires { (before : List Sentence) × (s : PlainStatement)
        × IsTakenLast book.now.statements taken before s × (kind ≡ s.kind) }
    ensures { OnOk result ((before : List Sentence) (s : PlainStatement)
        → IsTakenLast book.now.statements taken before s → kind ≡ s.kind → (line : List ℕ)
        × IsListedOf (plain_query query.now) (type_in types.now) before (sentence_of s) line
        × (out.new.items ≡ out.old.items ++ line)) }
{
    match taken {
        Taken::Assertion(id) => push_asked(out, alloc, book, id, kind, query, types),
        _ => Ok(()),
    }
}

/// Appends what is listed of the statements that are left, one after the other.
fn list_rest<'a>(
    alloc: Global,
    files: &[File<'a>],
    statements: &mut Statements<'a>,
    progress: &mut Progress<'a>,
    query: &Query,
    types: &Types,
    out: &mut Vec<u8>,
) -> Result<(), Stop<'a>>
    requires { IsListing (plain_query query.now) (type_in types.now) (map plain_file files.now)
        progress.old statements.old out.old.items }
    ensures listed { OnOk result (IsListOfAll (plain_query query.now) (type_in types.now)
        (map plain_file files.now) out.new.items) }
    ensures stopped { IfErr result (StopsListing (map plain_file files.now)) }
{
    let mut statement = Statement::empty(alloc);
    while let Some(taken) = take_next(files, statements, progress, &mut statement)? {
        push_listed(
            out,
            alloc,
            progress.prover.book(),
            taken,
            statement.kind,
            query,
            types,
        )?;
    }
    Ok(())
}

/// What is listed of the statements that a new reader has.
fn list<'a>(
    alloc: Global,
    seed: Seed,
    files: &'a [File<'a>],
    statements: &mut Statements<'a>,
    query: &Query,
    types: &Types,
) -> Result<Vec<u8>, CheckFault<'a>>
    requires unread { IsUnread (map plain_file files.now) statements.old }
    requires readable { CanBeRead (map plain_file files.now) }
    ensures listed { IfOk result (λ text. IsListOfAll (plain_query query.now) (type_in types.now)
        (map plain_file files.now) text.items) }
    ensures fault { IfErr result (IsUnlisted (map plain_file files.now)) }
{
    let mut progress: Progress<'a> = beginning(alloc, seed, files)?;
    let mut out = Vec::new(alloc);
    match list_rest(
        alloc,
        files,
        statements,
        &mut progress,
        query,
        types,
        &mut out,
    ) {
        Ok(()) => Ok(out),
        Err(stop) => {
            drop(out);
            Err(CheckFault::from(stop))
        }
    }
}

/// The lines of the assertions that are asked for, in database order.
///
/// The files are read, and each statement is judged by the rules of meaning; where variants are asked
/// for, twice. No proof is judged, so that faulty and incomplete proofs don't count.
///
/// # Errors
///
/// `Load` where the files can't be taken as a whole, else `Refused` with the first fault of the
/// text or of meaning; `Memory` where a growth was refused.
pub fn find<'a>(
    alloc: Global,
    seed: Seed,
    files: &'a [File<'a>],
    query: &Query,
) -> Result<Vec<u8>, CheckFault<'a>>
    // What is listed are the lines of exactly those assertions.
    ensures listed { IfOk result (λ text.
        IsListOf (plain_query query.now) (map plain_file files.now) text.items) }

    // A fault is one of the files, whatever their proofs.
    ensures fault { IfErr result (IsUnlisted (map plain_file files.now)) }
{
    let types = asked_types(alloc, seed, files, query.matching)?;
    let mut statements = load(alloc, seed, files)?;
    let outcome = list(alloc, seed, files, &mut statements, query, &types);
    drop(types);
    drop(statements);
    outcome
}
