//! The statements of files up to the theorem with a label, whatever their proofs.

ghost use Rattle.std.specs.Prelude.{◌≡◌, ◌-◌, ◌<◌, ℕ, List, map, IfOk, IfErr};
ghost use Rattle.mm_text.specs.Files.{plain_file, PlainFile};
ghost use Rattle.mm_text.specs.Remaining.{IsUnread};
ghost use Rattle.mm_base.specs.Statement.{plain_statement};
ghost use Rattle.mm_verdict.specs.Alone.{IsNoTheorem};
ghost use Rattle.mm_rules.specs.declared.fault.CheckFault.TheVariants.{Memory};
ghost use Rattle.mm_explain.specs.declared.read_to.Unreached.TheVariants.{Ask, Check};
ghost use Rattle.mm_explain.specs.Mirror.Reached.{EndsSeeking, HasReached, IsSeeking, IsUnreached};
ghost use Rattle.mm_explain.specs.Mirror.Reached.{StopsBefore};
ghost use Rattle.mm_rules.specs.Verdict.{CanBeRead};

use mm_base::{File, Kind, Seed, Statement};
use mm_frame::{Book, LabelId, Taken};
use mm_rules::{AskRule, CheckFault, Progress, Stop};
use mm_text::Statements;
use mm_verdict::{beginning, has_label, load, take_next};
use std::alloc::{AllocError, Global};

/// A theorem, and a book of the statements before it and of it, which break no rule of meaning. It
/// isn't known how any of them is proved.
#[derive(Drop)]
pub struct Reached<'a> {
    pub book: Book<'a>,
    /// How many statements stand before it.
    pub before: usize,
    pub id: LabelId,
    pub statement: Statement<'a>,
}

/// Why no theorem is reached.
#[derive(Drop)]
pub enum Unreached<'a> {
    /// The files can't be taken, or are refused before it is known what stands at the label.
    Check(CheckFault<'a>),
    /// No theorem stands there.
    Ask(AskRule),
}

impl<'a> From<AllocError> for Unreached<'a> {
    ghost from_gives = { λ _ e. e ≡ Check Memory };

    fn from(_e: AllocError) -> Unreached<'a> {
        Unreached::Check(CheckFault::Memory)
    }
}

impl<'a> From<CheckFault<'a>> for Unreached<'a> {
    ghost from_gives = { λ fault e. e ≡ Check fault };

    fn from(fault: CheckFault<'a>) -> Unreached<'a> {
        Unreached::Check(fault)
    }
}

impl<'a> From<AskRule> for Unreached<'a> {
    ghost from_gives = { λ rule e. e ≡ Ask rule };

    fn from(rule: AskRule) -> Unreached<'a> {
        Unreached::Ask(rule)
    }
}

/// Reads and takes statements up to one with this label: what that one was taken as, or nothing
/// where no statement has it.
pub(crate) fn take_to<'a>(
    files: &[File<'a>],
    statements: &mut Statements<'a>,
    progress: &mut Progress<'a>,
    label: &[u8],
    into: &mut Statement<'a>,
) -> Result<Option<Taken>, Stop<'a>>
    requires { IsSeeking (map plain_file files.now) label.now progress.old statements.old }
    ensures ended { IfOk result (λ taken. EndsSeeking (map plain_file files.now) label.now taken
        progress.new (plain_statement into.new)) }
    ensures stopped { IfErr result (StopsBefore (map plain_file files.now) label.now) }
{
    while let Some(taken) = take_next(files, statements, progress, into)? {
        if has_label(into, label) {
            return Ok(Some(taken));
        }
    }
    Ok(None)
}

/// The theorem with this number, which was taken last into the progress.
fn reached_at<'a>(progress: Progress<'a>, id: LabelId, statement: Statement<'a>) -> Reached<'a>
    requires { 0 < progress.count }
    ensures book { result.book.statements ≡ progress.entry.prover.book.statements }
    ensures before { result.before ≡ progress.entry.count - 1 }
    ensures id { result.id ≡ id }
    ensures statement { result.statement ≡ statement.entry }
{
    let before = progress.count - 1;
    let book = progress.prover.into_book();
    Reached {
        book,
        before,
        id,
        statement,
    }
}

/// The theorem that was taken last into the progress, if it was found, and it is one.
fn theorem_in<'a>(
    progress: Progress<'a>,
    taken: Option<Taken>,
    statement: Statement<'a>,
) -> Result<Reached<'a>, AskRule>
    requires { (files : List PlainFile) × (label : List ℕ)
        × EndsSeeking files label taken progress (plain_statement statement) }
    ensures reached { IfOk result (λ reached. (files : List PlainFile) (label : List ℕ)
        → EndsSeeking files label taken progress.entry (plain_statement statement.entry)
        → HasReached files label reached) }
    ensures none { IfErr result (λ rule. (files : List PlainFile) (label : List ℕ)
        → EndsSeeking files label taken progress.entry (plain_statement statement.entry)
        → IsNoTheorem files label rule) }
{
    match taken {
        None => {
            drop(progress);
            drop(statement);
            Err(AskRule::A1)
        }
        Some(Taken::Assertion(id)) if statement.kind == Kind::Provable => {
            Ok(reached_at(progress, id, statement))
        }
        Some(_) => {
            drop(progress);
            drop(statement);
            Err(AskRule::A2)
        }
    }
}

/// Reads the statements that a new reader has up to the theorem with this label.
fn reach<'a>(
    alloc: Global,
    seed: Seed,
    files: &'a [File<'a>],
    statements: &mut Statements<'a>,
    label: &[u8],
) -> Result<Reached<'a>, Unreached<'a>>
    requires unread { IsUnread (map plain_file files.now) statements.old }
    requires readable { CanBeRead (map plain_file files.now) }
    ensures reached { IfOk result (HasReached (map plain_file files.now) label.now) }
    ensures unreached { IfErr result (IsUnreached (map plain_file files.now) label.now) }
{
    let mut progress: Progress<'a> = beginning(alloc, seed, files)?;
    let mut statement = Statement::empty(alloc);
    match take_to(files, statements, &mut progress, label, &mut statement) {
        Ok(taken) => Ok(theorem_in(progress, taken, statement)?),
        Err(stop) => {
            drop(progress);
            drop(statement);
            Err(Unreached::Check(CheckFault::from(stop)))
        }
    }
}

/// Reads the files up to the theorem with this label. What comes first of the following is told: a
/// rule that the files break as a whole, a fault of the text, a rule of meaning that a statement
/// breaks, and that no theorem stands at the label. No proof is judged, and what stands after the
/// theorem isn't read.
pub fn read_to<'a>(
    alloc: Global,
    seed: Seed,
    files: &'a [File<'a>],
    label: &[u8],
) -> Result<Reached<'a>, Unreached<'a>>
    ensures reached { IfOk result (HasReached (map plain_file files.now) label.now) }
    ensures unreached { IfErr result (IsUnreached (map plain_file files.now) label.now) }
{
    let mut statements = load(alloc, seed, files)?;
    let outcome = reach(alloc, seed, files, &mut statements, label);
    drop(statements);
    outcome
}
