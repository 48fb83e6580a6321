//! Books over small databases.

mod alike;
mod asked;
mod breaking;
mod databases;
mod growths;
mod guessed;
mod questions;
mod refused;
mod signatures;
mod taking;

use crate::frame::taking::{book_of, empty_book};
use mm_base::File;
use mm_frame::{Book, Found, MeaningRule, RuleFault, Sym, one_frame, one_number, open_count};
use std::alloc::{AllocError, Global};
use std::test::Fail;

/// An axiom among `$d`: that at index 5 is its mandatory pair, that at 7 isn't active, that at 9 says
/// more, and that at 11 stands behind it.
const FURTHER: [File<'static>; 1] = [File {
    name: b"d.mm",
    bytes: b"$c w $. $v x y z $. fx $f w x $. fy $f w y $. fz $f w z $.
$d x y $. ${ $d x z $. $} $d y z x $. a $a w x y $. $d y x $.\n",
}];

/// The indices of what says more than the mandatory pairs of an assertion, and how many symbols
/// stand at each; nothing where no assertion has the label.
fn further_of(
    alloc: Global,
    book: &Book,
    label: &[u8],
) -> Result<Option<Vec<(usize, usize)>>, AllocError> {
    let Found::Assertion(id) = book.find(label) else {
        return Ok(None);
    };
    let mut told = Vec::new(alloc);
    for index in &book.frame(id).further(alloc)? {
        told.push((*index, book.symbols_at(*index).len()))?;
    }
    Ok(Some(told))
}

#[test]
fn further_distinct_variables(rt: HostRuntime) -> Result<(), Fail> {
    let book = book_of(rt.alloc(), &FURTHER, 11)?;
    let told = further_of(rt.alloc(), &book, b"a")?;
    let is_last = book.symbols_at(11).is_empty();
    drop(book);
    assert!(rt; told.as_deref() == Some(&[(9, 3)]) && is_last);
    Ok(())
}

#[test]
fn book_of_nothing(rt: HostRuntime) -> Result<(), Fail> {
    let book = empty_book(rt.alloc())?;
    let is_new = book.depth() == 0 && book.bytes() == 0 && !book.is_variable(Sym(0));
    drop(book);
    assert!(rt; is_new);
    Ok(())
}

#[test]
fn room_is_no_statement(rt: HostRuntime) -> Result<(), Fail> {
    let mut book = empty_book(rt.alloc())?;
    book.prepare(1 << 20);
    let is_new = book.depth() == 0 && book.bytes() == 0 && !book.is_variable(Sym(0));
    drop(book);
    assert!(rt; is_new);
    Ok(())
}

#[test]
fn faults_have_messages(rt: HostRuntime) -> Result<(), Fail> {
    let text = format!(in rt.alloc(); "{}", RuleFault::Rule(MeaningRule::M7))?;
    assert!(rt; text.as_str() == "the statement breaks M7");
    Ok(())
}

#[test]
fn laws_are_called() {
    one_number();
    one_frame();
    open_count();
}
