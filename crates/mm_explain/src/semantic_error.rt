//! A statement that breaks a rule of meaning, read again with what stands before it.

ghost use Rattle.std.specs.Prelude.{◌≡◌, ◌≢◌, ◌+◌, [], List, ℕ, map, true, IfOk, OnOk};
ghost use Rattle.mm_text.specs.Files.{plain_file};
ghost use Rattle.mm_text.specs.Remaining.{IsUnread};
ghost use Rattle.mm_base.specs.Statement.{plain_statement, HasForm};
ghost use Rattle.mm_base.specs.Token.{plain_token};
ghost use Rattle.mm_frame.specs.Breaking.{BreaksAt};
ghost use Rattle.mm_frame.specs.Sentence.{sentence_of};
ghost use Rattle.mm_explain.specs.MeaningFacts.{token_at};
ghost use Rattle.mm_explain.specs.Mirror.SemanticErrors.{AreMeantBefore, IsSemanticError, IsBroken};
ghost use Rattle.mm_explain.specs.Mirror.SemanticErrors.{IsMeantNext, Site};
ghost use Rattle.mm_verdict.specs.Mirror.Judged.{IsRead, TakesNext};
ghost use Rattle.mm_rules.specs.Verdict.{CanBeRead, sentences};

use mm_base::{File, Seed, Statement, Token};
use mm_frame::MeaningRule;
use mm_rules::{Progress, Stop};
use mm_text::Statements;
use mm_verdict::{beginning, make_room, take};
use std::alloc::{AllocError, Global};

/// A statement that breaks a rule of meaning.
#[derive(Drop)]
pub(crate) struct SemanticError<'a> {
    pub rule: MeaningRule,
    /// How many statements stand before it.
    pub before: usize,
    pub statement: Statement<'a>,
    /// The symbol that breaks the rule; `None` where no symbol does.
    pub index: Option<usize>,
}

impl<'a> SemanticError<'a> {
    /// The token at fault.
    pub fn token(&self) -> Token<'a>
        ensures { plain_token result
            ≡ token_at (plain_statement self.now.statement) self.now.index }
    {
        match self.index {
            None => self.statement.first,
            Some(index) => match self.statement.symbols.get(index) {
                Some(symbol) => *symbol,
                None => self.statement.first,
            },
        }
    }
}

/// Reads the next statement, which is there.
fn read_next<'a>(
    statements: &mut Statements<'a>,
    into: &mut Statement<'a>,
) -> Result<(), AllocError>
    requires { statements.old.statements ≢ [] }
    ensures taken { OnOk result
        (TakesNext statements.old true (plain_statement into.new) statements.new) }
    ensures formed { OnOk result (HasForm (plain_statement into.new)) }
{
    if statements.more(into)? {
        Ok(())
    } else {
        // A statement is left.
        unreachable!()
    }
}

/// Reads the next statement, which breaks no rule of meaning, and takes it into the progress.
fn take_next<'a>(
    files: &[File<'a>],
    statements: &mut Statements<'a>,
    progress: &mut Progress<'a>,
    into: &mut Statement<'a>,
) -> Result<(), AllocError>
    requires read { IsRead (map plain_file files.now) progress.old statements.old }
    requires next { IsMeantNext progress.old.prover.book.statements statements.old }
    ensures read { OnOk result (IsRead (map plain_file files.now) progress.new statements.new) }
    ensures count { OnOk result (progress.new.count ≡ progress.old.count + 1) }
{
    read_next(statements, into)?;
    make_room(files, progress);
    match take(progress, into) {
        Ok(_) => Ok(()),
        Err(Stop::Memory) => Err(AllocError),
        // It breaks no rule of meaning.
        Err(Stop::Refused(_)) => unreachable!(),
    }
}

/// Reads so many statements, which break no rule of meaning, and takes them into the progress.
fn take_before<'a>(
    files: &[File<'a>],
    statements: &mut Statements<'a>,
    progress: &mut Progress<'a>,
    into: &mut Statement<'a>,
    count: usize,
) -> Result<(), AllocError>
    requires read { IsRead (map plain_file files.now) progress.old statements.old }
    requires none { progress.old.count ≡ 0 }
    requires meant { AreMeantBefore (map plain_file files.now) count }
    ensures read { OnOk result (IsRead (map plain_file files.now) progress.new statements.new) }
    ensures count { OnOk result (progress.new.count ≡ count) }
{
    for _ in 0..count {
        take_next(files, statements, progress, into)?;
    }
    Ok(())
}

/// Takes the statements before the one that breaks the rule, which so many are, and reads that one:
/// the symbol that breaks it.
fn breaking_after<'a>(
    files: &[File<'a>],
    statements: &mut Statements<'a>,
    progress: &mut Progress<'a>,
    into: &mut Statement<'a>,
    count: usize,
    rule: MeaningRule,
) -> Result<Option<usize>, AllocError>
    requires read { IsRead (map plain_file files.now) progress.old statements.old }
    requires none { progress.old.count ≡ 0 }
    requires broken { IsBroken (map plain_file files.now) count rule }
    ensures { IfOk result (λ index. (site : Site (map plain_file files.now) count)
        → (plain_statement into.new ≡ site.s)
        × BreaksAt rule (sentences site.before) (sentence_of site.s) index) }
{
    take_before(files, statements, progress, into, count)?;
    read_next(statements, into)?;
    progress.prover.book().breaking_symbol(into, rule)
}

/// Reads up to the statement that breaks the rule, which so many stand before: the symbol that
/// breaks it.
fn find_breaking<'a>(
    alloc: Global,
    seed: Seed,
    files: &'a [File<'a>],
    statements: &mut Statements<'a>,
    into: &mut Statement<'a>,
    count: usize,
    rule: MeaningRule,
) -> Result<Option<usize>, AllocError>
    requires unread { IsUnread (map plain_file files.now) statements.old }
    requires readable { CanBeRead (map plain_file files.now) }
    requires broken { IsBroken (map plain_file files.now) count rule }
    ensures { IfOk result (λ index. (site : Site (map plain_file files.now) count)
        → (plain_statement into.new ≡ site.s)
        × BreaksAt rule (sentences site.before) (sentence_of site.s) index) }
{
    let mut progress: Progress<'a> = beginning(alloc, seed, files)?;
    let index = breaking_after(files, statements, &mut progress, into, count, rule);
    drop(progress);
    index
}

/// The error of the rule by the statement that so many stand before. What stands before it is
/// read and taken again, and no proof is judged.
pub(crate) fn read_semantic_error<'a>(
    alloc: Global,
    seed: Seed,
    files: &'a [File<'a>],
    before: usize,
    rule: MeaningRule,
) -> Result<SemanticError<'a>, AllocError>
    requires readable { CanBeRead (map plain_file files.now) }
    requires broken { IsBroken (map plain_file files.now) before rule }
    ensures error { IfOk result (IsSemanticError (map plain_file files.now)) }
    ensures rule { IfOk result (λ error. error.rule ≡ rule) }
    ensures before { IfOk result (λ error. error.before ≡ before) }
{
    let mut statements = Statements::of_readable(alloc, seed, files)?;
    let mut statement = Statement::empty(alloc);
    let index = find_breaking(
        alloc,
        seed,
        files,
        &mut statements,
        &mut statement,
        before,
        rule,
    )?;
    Ok(SemanticError {
        rule,
        before,
        statement,
        index,
    })
}
