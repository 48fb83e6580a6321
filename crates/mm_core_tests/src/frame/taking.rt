//! Books of the first statements of a database, and what they have under a label.

ghost use Rattle.std.specs.Prelude.{◌≡◌, ◌≤◌, IsTrue, length, sum_by, Ok, Err, true};
ghost use Rattle.mm_base.specs.Statement.{plain_statement, HasForm, bytes_in};
ghost use Rattle.mm_frame.specs.declared.rule.MeaningRule.{MeaningRule};
ghost use Rattle.mm_frame.specs.declared.answer.RuleFault.TheVariants.{Rule};
ghost use Rattle.mm_frame.specs.Sentence.{sentence_in};
ghost use Rattle.mm_frame.specs.Rules.{FirstBroken};

use mm_base::{File, Kind, Seed, Statement, Token};
use mm_frame::{Book, Found, LabelId, RuleFault, Sym, Taken};
use mm_text::Statements;
use std::alloc::Global;
use std::test::Fail;

/// Whether the tokens have no more than 1,000 bytes.
fn are_short(tokens: &[Token]) -> bool
    ensures { IsTrue result → sum_by (λ t. length t.text.now) tokens.now ≤ 1000 }
{
    let mut left = 1000;
    for token in tokens {
        if token.text.len() > left {
            return false;
        }
        left -= token.text.len();
    }
    true
}

/// Whether the statement has no more than 3,000 bytes.
fn is_short(statement: &Statement) -> bool
    ensures { IsTrue result → bytes_in (plain_statement statement.now) ≤ 3000 }
{
    statement.first.text.len() <= 1000
        && are_short(&statement.symbols)
        && are_short(&statement.proof)
}

/// What the book answers to a statement.
pub(crate) fn take<'a>(
    book: &mut Book<'a>,
    statement: &Statement<'a>,
) -> Result<Result<Taken, RuleFault>, Fail>
    requires { HasForm (plain_statement statement.now) }
    ensures { (rule : MeaningRule) → result ≡ Ok (Err (Rule rule))
        → FirstBroken rule book.new.statements (sentence_in statement.now) }
{
    if book.bytes() > 100_000 || !is_short(statement) {
        return Err(Fail::from("a great statement"));
    }
    if statement.kind == Kind::Closing && book.depth() == 0 {
        return Err(Fail::from("a block is closed that isn't open"));
    }
    Ok(book.take(statement))
}

/// Reads the next statement; `false` where there is none.
pub(crate) fn read<'a>(
    statements: &mut Statements<'a>,
    into: &mut Statement<'a>,
) -> Result<bool, Fail>
    ensures { result ≡ Ok true → HasForm (plain_statement into.new) }
{
    Ok(statements.read(into)?)
}

/// A reader of a database.
pub(crate) fn reader<'a>(alloc: Global, files: &'a [File<'a>]) -> Result<Statements<'a>, Fail> {
    Ok(Statements::new(alloc, Seed::known(), files)?)
}

/// A book of no statements.
pub(crate) fn empty_book<'a>(alloc: Global) -> Result<Book<'a>, Fail> {
    Ok(Book::new(alloc, Seed::known())?)
}

/// Takes as many of the next statements, each of which is read into the same.
fn take_by<'a>(
    statements: &mut Statements<'a>,
    into: &mut Statement<'a>,
    book: &mut Book<'a>,
    count: usize,
) -> Result<(), Fail> {
    for _ in 0..count {
        if !read(statements, into)? {
            return Err(Fail::from("a statement is wanting"));
        }
        if take(book, into)?.is_err() {
            return Err(Fail::from("a statement is refused"));
        }
    }
    Ok(())
}

/// Takes as many of the next statements.
pub(crate) fn take_next<'a>(
    alloc: Global,
    statements: &mut Statements<'a>,
    book: &mut Book<'a>,
    count: usize,
) -> Result<(), Fail> {
    let mut statement = Statement::empty(alloc);
    let answer = take_by(statements, &mut statement, book, count);
    drop(statement);
    answer
}

/// A book of as many of the next statements.
fn book_from<'a>(
    alloc: Global,
    statements: &mut Statements<'a>,
    count: usize,
) -> Result<Book<'a>, Fail> {
    let mut book = empty_book(alloc)?;
    match take_next(alloc, statements, &mut book, count) {
        Ok(()) => Ok(book),
        Err(fail) => {
            drop(book);
            Err(fail)
        }
    }
}

/// A book of the first statements of a database.
pub(crate) fn book_of<'a>(
    alloc: Global,
    files: &'a [File<'a>],
    count: usize,
) -> Result<Book<'a>, Fail> {
    let mut statements = reader(alloc, files)?;
    let book = book_from(alloc, &mut statements, count);
    drop(statements);
    book
}

/// The number of a label.
pub(crate) fn id_of(book: &Book, label: &[u8]) -> Option<LabelId> {
    match book.find(label) {
        Found::Hypothesis { id, .. } => Some(id),
        Found::Assertion(id) => Some(id),
        Found::None => None,
    }
}

/// The number of the variable that a `$f` gives its type.
pub(crate) fn variable_of(book: &Book, label: &[u8]) -> Option<Sym> {
    book.expression(id_of(book, label)?).get(1).copied()
}

/// The name of a symbol, if it is a variable.
pub(crate) fn name_of<'a>(book: &Book<'a>, symbol: Sym) -> Option<&'a [u8]> {
    if book.is_variable(symbol) {
        Some(book.name(symbol))
    } else {
        None
    }
}
