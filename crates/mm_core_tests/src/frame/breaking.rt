//! Which symbol of a statement breaks a rule of meaning.

ghost use Rattle.mm_base.specs.Statement.{plain_statement, HasForm};

use crate::frame::taking::{empty_book, read, reader, take};
use mm_base::{File, Statement};
use mm_frame::{Book, MeaningRule, RuleFault};
use mm_text::Statements;
use std::alloc::Global;
use std::test::Fail;

/// Statements of which the last breaks a rule, and the index of the symbol that breaks it.
struct Case(&'static [u8], MeaningRule, Option<usize>);

/// What a refused statement breaks: the rule, and the index of the symbol that breaks it.
type Broken = (MeaningRule, Option<usize>);

/// What the statement breaks; `None` where it is taken.
fn broken_by<'a>(book: &mut Book<'a>, statement: &Statement<'a>) -> Result<Option<Broken>, Fail>
    requires { HasForm (plain_statement statement.now) }
{
    if statement.symbols.len() > 1000 {
        return Err(Fail::from("a great statement"));
    }
    match take(book, statement)? {
        Ok(_) => Ok(None),
        Err(RuleFault::Rule(rule)) => Ok(Some((rule, book.breaking_symbol(statement, rule)?))),
        Err(RuleFault::Memory) => Err(Fail::from("no memory")),
    }
}

/// What the first of the next statements breaks that is refused.
fn first_broken<'a>(
    statements: &mut Statements<'a>,
    into: &mut Statement<'a>,
    book: &mut Book<'a>,
) -> Result<Broken, Fail> {
    for _ in 0..30 {
        if !read(statements, into)? {
            return Err(Fail::from("no statement is refused"));
        }
        if let Some(broken) = broken_by(book, into)? {
            return Ok(broken);
        }
    }
    Err(Fail::from("too many statements"))
}

/// What the text breaks first.
fn broken_in(alloc: Global, text: &[u8]) -> Result<Broken, Fail> {
    let files = [File {
        name: b"m.mm",
        bytes: text,
    }];
    let mut statements = reader(alloc, &files)?;
    let mut book = empty_book(alloc)?;
    first_broken(&mut statements, &mut Statement::empty(alloc), &mut book)
}

/// In each case this rule is broken, and by this symbol.
fn each_is_told(alloc: Global, cases: &[Case]) -> Result<(), Fail> {
    for Case(text, rule, index) in cases {
        let (broken, at) = broken_in(alloc, text)?;
        if broken != *rule || at != *index {
            return Err(Fail::from("another symbol is told"));
        }
    }
    Ok(())
}

// Each function names a short list, since the proof that a list is well formed grows with the
// square of its length.

#[test]
fn symbols_of_declarations(rt: HostRuntime) -> Result<(), Fail> {
    const CASES: [Case; 7] = [
        Case(b"$c a $. $c b a a $.", MeaningRule::M2, Some(1)),
        Case(b"${ $v x $. $} $c b x $.", MeaningRule::M2, Some(1)),
        Case(b"$c a b c b a $.", MeaningRule::M2, Some(3)),
        Case(b"$v x $. ${ $v y z x $.", MeaningRule::M3, Some(2)),
        Case(b"$c a $. $v x a $.", MeaningRule::M3, Some(1)),
        Case(b"$v x y y x $.", MeaningRule::M3, Some(2)),
        Case(b"$c a $. l $a a $. $v x l $.", MeaningRule::M4, Some(1)),
    ];
    each_is_told(rt.alloc(), &CASES)
}

#[test]
fn blocks_and_labels_have_no_symbol(rt: HostRuntime) -> Result<(), Fail> {
    const CASES: [Case; 3] = [
        Case(b"${ $c a $.", MeaningRule::M1, None),
        Case(b"$c a $. l $a a $. l $a a a $.", MeaningRule::M5, None),
        Case(b"$c a $. a $a a $.", MeaningRule::M6, None),
    ];
    each_is_told(rt.alloc(), &CASES)
}

#[test]
fn symbols_of_pairs(rt: HostRuntime) -> Result<(), Fail> {
    const CASES: [Case; 4] = [
        Case(
            b"$v x $. ${ $v y $. $} $d x y z $.",
            MeaningRule::M7,
            Some(1),
        ),
        Case(b"$c a $. $v x y $. $d x y a $.", MeaningRule::M8, Some(2)),
        Case(b"$v x y z $. $d x y z y x $.", MeaningRule::M9, Some(3)),
        Case(
            b"$v a b c d e f g h i j $. $d a b c d e f g h i j c b $.",
            MeaningRule::M9,
            Some(10),
        ),
    ];
    each_is_told(rt.alloc(), &CASES)
}

#[test]
fn symbols_of_typings(rt: HostRuntime) -> Result<(), Fail> {
    const CASES: [Case; 4] = [
        Case(b"$v x y $. f $f x y $.", MeaningRule::M10, Some(0)),
        Case(b"$c a b $. f $f a b $.", MeaningRule::M11, Some(1)),
        Case(
            b"$c a $. $v x $. f $f a x $. g $f a x $.",
            MeaningRule::M12,
            Some(1),
        ),
        Case(
            b"$c a b $. ${ $v x $. f $f a x $. $} $v x $. g $f b x $.",
            MeaningRule::M13,
            Some(1),
        ),
    ];
    each_is_told(rt.alloc(), &CASES)
}

#[test]
fn symbols_of_expressions(rt: HostRuntime) -> Result<(), Fail> {
    const CASES: [Case; 3] = [
        Case(b"$c a $. l $a a a b a c $.", MeaningRule::M7, Some(2)),
        Case(b"$c a $. $v x $. l $a x a $.", MeaningRule::M14, Some(0)),
        Case(
            b"$c a $. $v x y z $. f $f a x $. l $a a x y z $.",
            MeaningRule::M15,
            Some(2),
        ),
    ];
    each_is_told(rt.alloc(), &CASES)
}
