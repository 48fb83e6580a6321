//! What a hypothesis asks of the entries, and the variables that keep a step from being made.

ghost use Rattle.std.specs.Prelude.{ℕ};
ghost use Rattle.mm_frame.specs.Sentence.{Sentence};
ghost use Rattle.mm_step.specs.Steps.{IsProofNumber};

use crate::proof::{Theorem, first_theorem};
use mm_base::File;
use mm_distinct::{asked_by, missing_pairs, shared_variables};
use mm_frame::{Book, Found, Sym};
use std::alloc::Global;
use std::test::Fail;

/// Two propositions, one that follows, and a theorem where two variables are distinct.
const STATED: &[u8] = b"\
$c w |- -> ( ) $.
$v p q r s $.
wp $f w p $.
wq $f w q $.
wr $f w r $.
ws $f w s $.
${
  min $e |- p $.
  maj $e |- ( p -> q ) $.
  mp $a |- q $.
$}
$d r s $.
th $p |- ( r -> s ) $= ? $.
";

/// What the hypothesis of an assertion before the theorem asks of the entries.
fn asked(
    alloc: Global,
    theorem: &Theorem,
    label: &[u8],
    entries: &[&[Sym]],
    number: usize,
) -> Result<Vec<Sym>, Fail>
    requires { (index : ℕ) × (s : Sentence)
        × IsProofNumber theorem.now.book.statements theorem.now.id.0 index s }
{
    let book = &theorem.book;
    let Found::Assertion(id) = book.find(label) else {
        return Err(Fail::from("no assertion"));
    };
    if id.0 >= theorem.id.0 {
        return Err(Fail::from("a later assertion"));
    }
    if book.frame(id).hypotheses().len() != entries.len() || number >= entries.len() {
        return Err(Fail::from("another number of entries"));
    }
    Ok(asked_by(alloc, book, theorem.id, id, entries, number)?)
}

/// The symbols of a hypothesis.
fn hypothesis<'b>(book: &'b Book, label: &[u8]) -> Result<&'b [Sym], Fail> {
    match book.find(label) {
        Found::Hypothesis { id, .. } => Ok(book.expression(id)),
        _ => Err(Fail::from("no hypothesis")),
    }
}

/// The variable of a `$f`.
pub(crate) fn variable(book: &Book, label: &[u8]) -> Result<Sym, Fail> {
    match hypothesis(book, label)? {
        [_, variable] => Ok(*variable),
        _ => Err(Fail::from("no variable")),
    }
}

/// Whether the first `$f` asks for its type code before what follows that of the entry.
fn asks_for_its_type(alloc: Global, theorem: &Theorem, entries: &[&[Sym]; 4]) -> Result<bool, Fail>
    requires { (index : ℕ) × (s : Sentence)
        × IsProofNumber theorem.now.book.statements theorem.now.id.0 index s }
{
    let asked = asked(alloc, theorem, b"mp", entries, 0)?;
    let book = &theorem.book;
    let stated = book.expression(theorem.id);
    let typed = hypothesis(book, b"wp")?;
    match (asked.as_slice(), stated, typed) {
        ([first, value @ ..], [_, rest @ ..], [code, _]) => Ok(*first == *code && *value == *rest),
        _ => Err(Fail::from("no expression")),
    }
}

/// Whether the `$e` asks for the implication from what was stated to the last variable.
fn asks_for_the_implication(
    alloc: Global,
    theorem: &Theorem,
    entries: &[&[Sym]; 4],
) -> Result<bool, Fail>
    requires { (index : ℕ) × (s : Sentence)
        × IsProofNumber theorem.now.book.statements theorem.now.id.0 index s }
{
    let asked = asked(alloc, theorem, b"mp", entries, 3)?;
    let [turnstile, open, first, arrow, second, close] = theorem.book.expression(theorem.id) else {
        return Err(Fail::from("another theorem"));
    };
    let expected = [
        *turnstile, *open, *open, *first, *arrow, *second, *close, *arrow, *second, *close,
    ];
    Ok(asked.as_slice() == expected.as_slice())
}

/// Whether the hypotheses of `mp` ask so of the theorem's expression and of `w s`.
fn asks_so(alloc: Global, theorem: &Theorem) -> Result<bool, Fail>
    requires { (index : ℕ) × (s : Sentence)
        × IsProofNumber theorem.now.book.statements theorem.now.id.0 index s }
{
    let stated = theorem.book.expression(theorem.id);
    let last = hypothesis(&theorem.book, b"ws")?;
    let entries = [stated, last, stated, stated];
    Ok(
        asks_for_its_type(alloc, theorem, &entries)?
            && asks_for_the_implication(alloc, theorem, &entries)?,
    )
}

/// Whether the variables are shared that stand in both, each once, in the order of their
/// declarations.
fn are_shared_once(alloc: Global, theorem: &Theorem) -> Result<bool, Fail>
    requires { (index : ℕ) × (s : Sentence)
        × IsProofNumber theorem.now.book.statements theorem.now.id.0 index s }
{
    let book = &theorem.book;
    let [open, _] = hypothesis(book, b"ws")? else {
        return Err(Fail::from("no variable"));
    };
    let q = variable(book, b"wq")?;
    let r = variable(book, b"wr")?;
    let s = variable(book, b"ws")?;
    let first = [*open, s, q, r, s];
    let second = [*open, s, s, r];
    let shared = shared_variables(alloc, book, theorem.id, &first, &second)?;
    Ok(shared.as_slice() == [r, s].as_slice())
}

/// Whether only pairs that aren't active are missing, each once, in the order of their
/// declarations.
fn are_missing_once(alloc: Global, theorem: &Theorem) -> Result<bool, Fail>
    requires { (index : ℕ) × (s : Sentence)
        × IsProofNumber theorem.now.book.statements theorem.now.id.0 index s }
{
    let book = &theorem.book;
    let p = variable(book, b"wp")?;
    let q = variable(book, b"wq")?;
    let r = variable(book, b"wr")?;
    let s = variable(book, b"ws")?;
    let first = [r, p, q];
    let second = [s, q, p, r];
    let missing = missing_pairs(alloc, book, theorem.id, &first, &second)?;
    let expected = [(p, q), (p, r), (p, s), (q, r), (q, s)];
    Ok(missing.as_slice() == expected.as_slice())
}

#[test]
fn hypotheses_ask_of_the_entries(rt: HostRuntime) -> Result<(), Fail> {
    let files = [File {
        name: b"mp.mm",
        bytes: STATED,
    }];
    let theorem = first_theorem(rt.alloc(), &files)?;
    let answer = asks_so(rt.alloc(), &theorem);
    drop(theorem);
    assert!(rt; answer?);
    Ok(())
}

#[test]
fn variables_are_shared(rt: HostRuntime) -> Result<(), Fail> {
    let files = [File {
        name: b"mp.mm",
        bytes: STATED,
    }];
    let theorem = first_theorem(rt.alloc(), &files)?;
    let answer = are_shared_once(rt.alloc(), &theorem);
    drop(theorem);
    assert!(rt; answer?);
    Ok(())
}

#[test]
fn pairs_are_missing(rt: HostRuntime) -> Result<(), Fail> {
    let files = [File {
        name: b"mp.mm",
        bytes: STATED,
    }];
    let theorem = first_theorem(rt.alloc(), &files)?;
    let answer = are_missing_once(rt.alloc(), &theorem);
    drop(theorem);
    assert!(rt; answer?);
    Ok(())
}
