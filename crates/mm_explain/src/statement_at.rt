//! The statements of files up to the one with a label, whatever its kind and whatever the proofs.

ghost use Rattle.std.specs.Prelude.{◌≡◌, ℕ, List, map, IfOk, IfErr};
ghost use Rattle.mm_text.specs.Files.{plain_file, PlainFile};
ghost use Rattle.mm_text.specs.Remaining.{IsUnread};
ghost use Rattle.mm_base.specs.Statement.{plain_statement};
ghost use Rattle.mm_explain.specs.declared.read_to.Unreached.TheVariants.{Check};
ghost use Rattle.mm_explain.specs.Mirror.Reached.{EndsSeeking, IsUnreached};
ghost use Rattle.mm_explain.specs.Mirror.Stated.{EndsAt};
ghost use Rattle.mm_rules.specs.Verdict.{CanBeRead};

use crate::read_to::take_to;
use mm_base::{File, Seed, Statement};
use mm_frame::{Book, LabelId, Taken};
use mm_rules::{CheckFault, Progress};
use mm_text::Statements;
use mm_verdict::{beginning, load};
use std::alloc::Global;

/// A labelled statement, and a book of the statements before it and of it, which break no rule of
/// meaning. It isn't known how any of them is proved.
#[derive(Drop)]
pub struct Stated<'a> {
    pub book: Book<'a>,
    pub id: LabelId,
    pub statement: Statement<'a>,
}

/// The statement with this number, which was taken last into the progress.
fn stated_at<'a>(progress: Progress<'a>, id: LabelId, statement: Statement<'a>) -> Stated<'a>
    ensures book { result.book.statements ≡ progress.entry.prover.book.statements }
    ensures id { result.id ≡ id }
    ensures statement { result.statement ≡ statement.entry }
{
    Stated {
        book: progress.prover.into_book(),
        id,
        statement,
    }
}

/// The statement that was taken last into the progress, if it was found.
fn stated_in<'a>(
    progress: Progress<'a>,
    taken: Option<Taken>,
    statement: Statement<'a>,
) -> Option<Stated<'a>>
    requires { (files : List PlainFile) × (label : List ℕ)
        × EndsSeeking files label taken progress (plain_statement statement) }
    ensures { (files : List PlainFile) (label : List ℕ)
        → EndsSeeking files label taken progress.entry (plain_statement statement.entry)
        → EndsAt files label result }
{
    match taken {
        None => {
            drop(progress);
            drop(statement);
            None
        }
        Some(Taken::Assertion(id)) => Some(stated_at(progress, id, statement)),
        Some(Taken::Hypothesis(id)) => Some(stated_at(progress, id, statement)),
        // Other statements have no label.
        Some(_) => unreachable!(),
    }
}

/// Reads the statements that a new reader has up to the one with this label.
fn seek_statement<'a>(
    alloc: Global,
    seed: Seed,
    files: &'a [File<'a>],
    statements: &mut Statements<'a>,
    label: &[u8],
) -> Result<Option<Stated<'a>>, CheckFault<'a>>
    requires unread { IsUnread (map plain_file files.now) statements.old }
    requires readable { CanBeRead (map plain_file files.now) }
    ensures stated { IfOk result (EndsAt (map plain_file files.now) label.now) }
    ensures refused { IfErr result (λ fault.
        IsUnreached (map plain_file files.now) label.now (Check fault)) }
{
    let mut progress: Progress<'a> = beginning(alloc, seed, files)?;
    let mut statement = Statement::empty(alloc);
    match take_to(files, statements, &mut progress, label, &mut statement) {
        Ok(taken) => Ok(stated_in(progress, taken, statement)),
        Err(stop) => {
            drop(progress);
            drop(statement);
            Err(CheckFault::from(stop))
        }
    }
}

/// Reads the files up to the statement with this label; nothing where no statement has it. No proof
/// is judged, and what stands after the statement isn't read.
///
/// # Errors
///
/// `Load` where the files can't be taken as a whole, else `Refused` with the first fault of the
/// text or of meaning, if it comes before the label; `Memory` where a growth was refused.
pub fn read_statement<'a>(
    alloc: Global,
    seed: Seed,
    files: &'a [File<'a>],
    label: &[u8],
) -> Result<Option<Stated<'a>>, CheckFault<'a>>
    ensures stated { IfOk result (EndsAt (map plain_file files.now) label.now) }
    ensures refused { IfErr result (λ fault.
        IsUnreached (map plain_file files.now) label.now (Check fault)) }
{
    let mut statements = load(alloc, seed, files)?;
    let outcome = seek_statement(alloc, seed, files, &mut statements, label);
    drop(statements);
    outcome
}
