//! Questions to a book, each with its answer.

use crate::frame::signatures::is_signature;
use crate::frame::taking::{book_of, id_of, name_of, variable_of};
use mm_base::File;
use mm_frame::{Book, Found, Hypothesis, LabelId, LabelKind};
use std::alloc::Global;
use std::process::Abort;
use std::test::Fail;

/// A question to a book, with its answer at the end.
pub(crate) enum Question {
    /// How many blocks are open.
    Depth(usize),
    /// That no statement has the label.
    Nothing(&'static [u8]),
    /// The label of a hypothesis, and whether it is active.
    Hypothesis(&'static [u8], bool),
    /// The label of a statement, and its kind.
    Kind(&'static [u8], LabelKind),
    /// The labels of two `$f`, whose variables have one number, and the name of that.
    OneVariable(&'static [u8], &'static [u8], &'static [u8]),
    /// The label of an assertion, those of its mandatory hypotheses with spaces between them, and
    /// how many distinct pairs there are. Its signature is asked for too.
    Frame(&'static [u8], &'static str, usize),
    /// The label of an assertion, and those of the two `$f` of its distinct pair.
    Pair(&'static [u8], &'static [u8], &'static [u8]),
    /// The labels of an assertion and of a hypothesis, and whether this is active at its index.
    Active(&'static [u8], &'static [u8], bool),
    /// The labels of an assertion and of two `$f`, and whether their variables are a distinct pair
    /// at its index.
    Distinct(&'static [u8], &'static [u8], &'static [u8], bool),
}

/// Whether the label is that of a hypothesis, active or not as given.
fn is_hypothesis(book: &Book, label: &[u8], wanted: bool) -> bool {
    match book.find(label) {
        Found::Hypothesis { active, .. } => active == wanted,
        _ => false,
    }
}

/// Whether the statement with a label is of this kind.
fn is_kind(book: &Book, label: &[u8], kind: LabelKind) -> bool {
    match id_of(book, label) {
        Some(id) => book.kind(id) == kind,
        None => false,
    }
}

/// Whether two `$f` are of one variable, of this name.
fn is_one_variable(book: &Book, first: &[u8], second: &[u8], name: &[u8]) -> bool {
    match (variable_of(book, first), variable_of(book, second)) {
        (Some(a), Some(b)) => a == b && book.is_variable(a) && name_of(book, a) == Some(name),
        _ => false,
    }
}

/// Whether the label of a hypothesis is this word.
fn is_label(book: &Book, id: LabelId, word: &str) -> bool {
    book.label(id) == word.as_bytes()
}

/// Whether what stands with the label of a hypothesis is what its statement says.
fn is_typed(book: &Book, hypothesis: &Hypothesis) -> bool {
    match (book.kind(hypothesis.id), book.expression(hypothesis.id)) {
        (LabelKind::Floating, [code, variable]) => hypothesis.typing == Some((*code, *variable)),
        _ => hypothesis.typing.is_none(),
    }
}

/// Whether the labels of hypotheses are these words.
fn are_labels(book: &Book, hypotheses: &[Hypothesis], words: &str) -> bool {
    if words.split_whitespace().count() != hypotheses.len() {
        return false;
    }
    for (hypothesis, word) in hypotheses.iter().zip(words.split_whitespace()) {
        if !is_label(book, hypothesis.id, word) || !is_typed(book, hypothesis) {
            return false;
        }
    }
    true
}

/// Whether the assertion has these mandatory hypotheses, and so many distinct pairs.
fn is_frame(book: &Book, assertion: &[u8], hypotheses: &str, pairs: usize) -> bool {
    match book.find(assertion) {
        Found::Assertion(id) => {
            let frame = book.frame(id);
            are_labels(book, frame.hypotheses(), hypotheses)
                && frame.pairs().len() == pairs
                && is_signature(book, &frame)
        }
        _ => false,
    }
}

/// Whether the distinct pair of the assertion is that of the variables of two `$f`.
fn is_pair(book: &Book, assertion: &[u8], a: &[u8], b: &[u8]) -> bool {
    match (
        book.find(assertion),
        variable_of(book, a),
        variable_of(book, b),
    ) {
        (Found::Assertion(id), Some(a), Some(b)) => match book.frame(id).pairs() {
            [pair] => pair.variables == (a, b),
            _ => false,
        },
        _ => false,
    }
}

/// Whether the hypothesis is active at the index of the assertion, as given.
fn is_active(book: &Book, assertion: &[u8], hypothesis: &[u8], wanted: bool) -> bool {
    match (book.find(assertion), id_of(book, hypothesis)) {
        (Found::Assertion(id), Some(hypothesis)) => book.frame(id).active(hypothesis) == wanted,
        _ => false,
    }
}

/// Whether the variables of two `$f` are a distinct pair at the index of the assertion, as given.
fn is_distinct(book: &Book, assertion: &[u8], a: &[u8], b: &[u8], wanted: bool) -> bool {
    match (
        book.find(assertion),
        variable_of(book, a),
        variable_of(book, b),
    ) {
        (Found::Assertion(id), Some(a), Some(b)) => book.frame(id).distinct(a, b) == wanted,
        _ => false,
    }
}

/// Whether the book gives the answer.
fn is_answered(book: &Book, question: &Question) -> bool {
    match question {
        Question::Depth(depth) => book.depth() == *depth,
        Question::Nothing(label) => book.find(label) == Found::None,
        Question::Hypothesis(label, active) => is_hypothesis(book, label, *active),
        Question::Kind(label, kind) => is_kind(book, label, *kind),
        Question::OneVariable(a, b, name) => is_one_variable(book, a, b, name),
        Question::Frame(label, hypotheses, pairs) => is_frame(book, label, hypotheses, *pairs),
        Question::Pair(label, a, b) => is_pair(book, label, a, b),
        Question::Active(label, hypothesis, active) => {
            is_active(book, label, hypothesis, *active)
        }
        Question::Distinct(label, a, b, distinct) => is_distinct(book, label, a, b, *distinct),
    }
}

fn ask_all(rt: &impl Abort, book: &Book, questions: &[Question]) {
    for (at, question) in questions.iter().enumerate() {
        assert!(rt; is_answered(book, question), "question {at}");
    }
}

/// Asks a book of the first statements of a database.
pub(crate) fn ask(
    rt: &impl Abort,
    alloc: Global,
    (files, count): (&'static [File<'static>], usize),
    questions: &[Question],
) -> Result<(), Fail> {
    let book = book_of(alloc, files, count)?;
    ask_all(rt, &book, questions);
    Ok(())
}
