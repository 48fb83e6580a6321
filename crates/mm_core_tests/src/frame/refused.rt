//! Statements that break a rule of meaning: the book is as before, and takes the next one.

use crate::frame::alike::{are_books_alike, find_alike};
use crate::frame::taking::{empty_book, read, reader, take};
use mm_base::{File, Statement, Token};
use mm_frame::{Book, MeaningRule, RuleFault, Taken};
use mm_text::Statements;
use std::alloc::Global;
use std::test::Fail;

/// Statements of which the last one but for a `$}` breaks a rule.
struct Case(&'static [u8], MeaningRule);

/// Whether the books find the same under each of the tokens.
fn find_all_alike(a: &Book, b: &Book, tokens: &[Token]) -> bool {
    for token in tokens {
        if !find_alike(a, b, token.text) {
            return false;
        }
    }
    true
}

/// Whether the books answer alike, what they find under the names in the statement too.
fn are_alike(a: &Book, b: &Book, statement: &Statement) -> bool {
    are_books_alike(a, b)
        && find_alike(a, b, statement.first.text)
        && find_all_alike(a, b, &statement.symbols)
}

/// Two books of the same statements: one is asked to take others too.
#[derive(Drop)]
struct Books<'a> {
    tried: Book<'a>,
    plain: Book<'a>,
}

/// Whether a statement was refused by the rule.
fn is_broken(answer: &Result<Taken, RuleFault>, rule: MeaningRule) -> bool {
    match answer {
        Err(RuleFault::Rule(found)) => *found == rule,
        _ => false,
    }
}

/// Whether both answers take a statement, as the same.
fn are_taken_alike(a: &Result<Taken, RuleFault>, b: &Result<Taken, RuleFault>) -> bool {
    match (a, b) {
        (Ok(a), Ok(b)) => a == b,
        _ => false,
    }
}

/// Takes the next statement into the first book, and into the second where the first takes it.
/// Whether it was refused by the rule, and the books are alike after it; `None` at the end.
fn next_is_refused<'a>(
    statements: &mut Statements<'a>,
    into: &mut Statement<'a>,
    books: &mut Books<'a>,
    rule: MeaningRule,
) -> Result<Option<bool>, Fail> {
    if !read(statements, into)? {
        return Ok(None);
    }
    let answer = take(&mut books.tried, into)?;
    let refused = is_broken(&answer, rule);
    if !refused && !are_taken_alike(&answer, &take(&mut books.plain, into)?) {
        return Err(Fail::from("the answer is another"));
    }
    if !are_alike(&books.tried, &books.plain, into) {
        return Err(Fail::from("the books differ"));
    }
    Ok(Some(refused))
}

/// How many of the next statements are refused, all by the rule, and each with no trace.
fn refusals<'a>(
    statements: &mut Statements<'a>,
    into: &mut Statement<'a>,
    books: &mut Books<'a>,
    rule: MeaningRule,
) -> Result<usize, Fail> {
    let mut count: usize = 0;
    for _ in 0..30 {
        match next_is_refused(statements, into, books, rule)? {
            Some(true) => count = count.saturating_add(1),
            Some(false) => {}
            None => return Ok(count),
        }
    }
    Err(Fail::from("too many statements"))
}

/// How many statements of the text are refused, all by the rule, and each with no trace.
fn count_refused(alloc: Global, text: &[u8], rule: MeaningRule) -> Result<usize, Fail> {
    let files = [File {
        name: b"m.mm",
        bytes: text,
    }];
    let mut statements = reader(alloc, &files)?;
    let mut books = Books {
        tried: empty_book(alloc)?,
        plain: empty_book(alloc)?,
    };
    refusals(
        &mut statements,
        &mut Statement::empty(alloc),
        &mut books,
        rule,
    )
}

/// Whether a case breaks its rule once between two good parts of a database.
fn is_refused_once(
    alloc: Global,
    (prefix, end): (&[u8], &[u8]),
    Case(middle, rule): &Case,
) -> Result<bool, Fail> {
    let mut text = Vec::from_slice(alloc, prefix)?;
    text.extend_from_slice(middle)?;
    text.extend_from_slice(end)?;
    Ok(count_refused(alloc, &text, *rule)? == 1)
}

/// Each case breaks its rule once between two good parts of a database.
fn each_is_refused(alloc: Global, parts: (&[u8], &[u8]), cases: &[Case]) -> Result<(), Fail> {
    for case in cases {
        if !is_refused_once(alloc, parts, case)? {
            return Err(Fail::from("not refused once"));
        }
    }
    Ok(())
}

const PREFIX: &[u8] = b"$c a b $. $v x y $. fx $f a x $. ";

const END: &[u8] = b" fy $f a y $. h $e a x $. ${ $v z $. fz $f a z $. p $a a x z y $. $} $c d $. ";

const PREFIX_OF_BLOCKS: &[u8] = b"$c a b $. ${ $v x $. fx $f a x $. $} ";

const END_OF_BLOCKS: &[u8] = b" ${ $v x $. fy $f a x $. p $a a x $. $} $c d $. ";

const CASES_OF_BLOCKS: [Case; 4] = [
    Case(b"${ $v x $. fy $f b x $. $}", MeaningRule::M13),
    Case(b"$c x $.", MeaningRule::M2),
    Case(b"$c fx $.", MeaningRule::M4),
    Case(b"${ $v x $. a $f a x $. $}", MeaningRule::M6),
];

// What breaks a rule after `PREFIX`. `END` is taken all the same, which needs its names to be free.
// Each function names a short list, since the proof that a list is well formed grows with the
// square of its length.

#[test]
fn refused_declarations(rt: HostRuntime) -> Result<(), Fail> {
    const CASES: [Case; 8] = [
        Case(b"$c x $.", MeaningRule::M2),
        Case(b"$v x $.", MeaningRule::M3),
        Case(b"$v a $.", MeaningRule::M3),
        Case(b"$v fx $.", MeaningRule::M4),
        Case(b"$c a $.", MeaningRule::M2),
        Case(b"$c d d $.", MeaningRule::M2),
        Case(b"$v z z $.", MeaningRule::M3),
        Case(b"$c fx $.", MeaningRule::M4),
    ];
    each_is_refused(rt.alloc(), (PREFIX, END), &CASES)
}

#[test]
fn refused_labelled_statements(rt: HostRuntime) -> Result<(), Fail> {
    const CASES: [Case; 6] = [
        Case(b"fx $f a y $.", MeaningRule::M5),
        Case(b"b $a a $.", MeaningRule::M6),
        Case(b"p $f x y $.", MeaningRule::M10),
        Case(b"p $f a b $.", MeaningRule::M11),
        Case(b"p $f b x $.", MeaningRule::M12),
        Case(b"p $a a y $.", MeaningRule::M15),
    ];
    each_is_refused(rt.alloc(), (PREFIX, END), &CASES)
}

#[test]
fn refused_expressions(rt: HostRuntime) -> Result<(), Fail> {
    const CASES: [Case; 3] = [
        Case(b"p $a a z $.", MeaningRule::M7),
        Case(b"p $a x $.", MeaningRule::M14),
        Case(b"p $e x $.", MeaningRule::M14),
    ];
    each_is_refused(rt.alloc(), (PREFIX, END), &CASES)
}

#[test]
fn refused_in_blocks_and_pairs(rt: HostRuntime) -> Result<(), Fail> {
    const CASES: [Case; 5] = [
        Case(b"${ $c d $. $}", MeaningRule::M1),
        Case(b"$d a x $.", MeaningRule::M8),
        Case(b"$d x x $.", MeaningRule::M9),
        Case(b"$d x z $.", MeaningRule::M7),
        Case(b"${ $v z $. $} $d x z $.", MeaningRule::M7),
    ];
    each_is_refused(rt.alloc(), (PREFIX, END), &CASES)
}

#[test]
fn refused_after_blocks(rt: HostRuntime) -> Result<(), Fail> {
    let parts = (PREFIX_OF_BLOCKS, END_OF_BLOCKS);
    each_is_refused(rt.alloc(), parts, &CASES_OF_BLOCKS)
}
