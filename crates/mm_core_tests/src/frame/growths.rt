//! A statement for which memory ran out is taken again, and the book is as one that wanted
//! none.

ghost use Rattle.mm_base.specs.Statement.{plain_statement, HasForm};

use crate::frame::alike::{are_books_alike, find_alike};
use crate::frame::databases::DEMO;
use crate::frame::taking::{empty_book, read, reader, take};
use crate::growths::once_more;
use mm_base::Statement;
use mm_frame::{Book, RuleFault, Taken};
use mm_text::Statements;
use std::alloc::Global;
use std::test::Fail;

/// Two books of the same statements.
#[derive(Drop)]
struct Books<'a> {
    one: Book<'a>,
    other: Book<'a>,
}

/// Takes a statement, once more where memory runs out the first time.
fn take_on<'a>(book: &mut Book<'a>, statement: &Statement<'a>) -> Result<Taken, Fail>
    requires { HasForm (plain_statement statement.now) }
{
    match take(book, statement)? {
        Ok(taken) => Ok(taken),
        Err(RuleFault::Memory) => once_more(take(book, statement)?),
        Err(_) => Err(Fail::from("a rule")),
    }
}

/// Takes the next statement into both books; `false` where there is none.
fn take_next<'a>(
    statements: &mut Statements<'a>,
    into: &mut Statement<'a>,
    books: &mut Books<'a>,
) -> Result<bool, Fail> {
    if !read(statements, into)? {
        return Ok(false);
    }
    let is_same = take_on(&mut books.one, into)? == take_on(&mut books.other, into)?;
    if !is_same || !are_books_alike(&books.one, &books.other) {
        return Err(Fail::from("the books differ"));
    }
    if !find_alike(&books.one, &books.other, into.first.text) {
        return Err(Fail::from("the frames differ"));
    }
    Ok(true)
}

/// Takes all statements into both books.
fn take_all<'a>(
    statements: &mut Statements<'a>,
    into: &mut Statement<'a>,
    books: &mut Books<'a>,
) -> Result<(), Fail> {
    for _ in 0..30 {
        if !take_next(statements, into, books)? {
            return Ok(());
        }
    }
    Err(Fail::from("too many statements"))
}

/// The statements of a database in both books.
fn fill<'a>(
    alloc: Global,
    statements: &mut Statements<'a>,
    books: &mut Books<'a>,
) -> Result<(), Fail> {
    let mut statement = Statement::empty(alloc);
    let answer = take_all(statements, &mut statement, books);
    drop(statement);
    answer
}

/// Two empty books.
fn empty_books<'a>(alloc: Global) -> Result<Books<'a>, Fail> {
    let one = empty_book(alloc)?;
    match empty_book(alloc) {
        Ok(other) => Ok(Books { one, other }),
        Err(fail) => {
            drop(one);
            Err(fail)
        }
    }
}

#[test]
fn growths_of_a_book(rt: HostRuntime) -> Result<(), Fail> {
    let mut statements = reader(rt.alloc(), &DEMO)?;
    let mut books = match empty_books(rt.alloc()) {
        Ok(books) => books,
        Err(fail) => {
            drop(statements);
            return Err(fail);
        }
    };
    let answer = fill(rt.alloc(), &mut statements, &mut books);
    drop(books);
    drop(statements);
    answer
}
