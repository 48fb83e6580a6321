//! Labels that are looked up by guesses.

use crate::frame::databases::SAME_ENDS;
use crate::frame::taking::book_of;
use mm_frame::{Book, Found, Guesses};
use std::test::Fail;

/// Labels that are there, the second time each after another whose guess has its place: that of all
/// labels of one byte is one, and so is that of these longer ones.
const THERE: [&[u8]; 10] = [
    b"a",
    b"a",
    b"b",
    b"b",
    b"a",
    b"same-ends-one-same-ends",
    b"same-ends-one-same-ends",
    b"same-ends-two-same-ends",
    b"same-ends-two-same-ends",
    b"same-ends-one-same-ends",
];

/// Labels that aren't there. The guesses at the indices of some of them are those of others.
const ABSENT: [&[u8]; 6] = [
    b"c",
    b"c",
    b"same-ends-new-same-ends",
    b"same-ends-one",
    b"xy",
    b"",
];

/// Whether what is found by guesses is what is found without them.
fn is_same(book: &Book, guesses: &mut Guesses, label: &[u8]) -> bool {
    book.find_guessed(guesses, label) == book.find(label)
}

/// Whether this is so of all the labels, each of which is there or not, as is said of all.
fn are_same(book: &Book, guesses: &mut Guesses, labels: &[&[u8]], there: bool) -> bool {
    for label in labels {
        if !is_same(book, guesses, label) || (book.find(label) != Found::None) != there {
            return false;
        }
    }
    true
}

#[test]
fn guesses_change_no_answer(rt: HostRuntime) -> Result<(), Fail> {
    let book = book_of(rt.alloc(), &SAME_ENDS, 6)?;
    let mut guesses = Guesses::new(rt.alloc());
    let is_right = are_same(&book, &mut guesses, &ABSENT, false)
        && are_same(&book, &mut guesses, &THERE, true)
        && are_same(&book, &mut guesses, &ABSENT, false);
    drop(book);
    assert!(rt; is_right);
    Ok(())
}
