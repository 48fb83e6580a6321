//! Whether two books answer every question alike.

use crate::frame::taking::name_of;
use mm_frame::{Book, Found, Frame, LabelId, Sym};

/// More than the symbols, and the labels, of the databases that are compared.
const MANY: u32 = 16;

fn are_symbols_alike(a: &Book, b: &Book) -> bool {
    for number in 0..MANY {
        let symbol = Sym(number);
        if a.is_variable(symbol) != b.is_variable(symbol)
            || name_of(a, symbol) != name_of(b, symbol)
        {
            return false;
        }
    }
    true
}

fn is_active_alike(a: &Frame, b: &Frame, hypothesis: LabelId) -> bool {
    a.active(hypothesis) == b.active(hypothesis)
}

fn are_actives_alike(a: &Frame, b: &Frame) -> bool {
    for number in 0..MANY {
        if !is_active_alike(a, b, LabelId(number)) {
            return false;
        }
    }
    true
}

fn is_pair_alike(a: &Frame, b: &Frame, first: Sym, second: Sym) -> bool {
    a.distinct(first, second) == b.distinct(first, second)
}

fn are_pairs_alike(a: &Frame, b: &Frame, symbol: Sym) -> bool {
    for number in 0..MANY {
        if !is_pair_alike(a, b, symbol, Sym(number)) {
            return false;
        }
    }
    true
}

fn are_all_pairs_alike(a: &Frame, b: &Frame) -> bool {
    for number in 0..MANY {
        if !are_pairs_alike(a, b, Sym(number)) {
            return false;
        }
    }
    true
}

fn are_frames_alike(a: &Frame, b: &Frame) -> bool {
    a.hypotheses() == b.hypotheses()
        && a.pairs() == b.pairs()
        && a.expression() == b.expression()
        && are_actives_alike(a, b)
        && are_all_pairs_alike(a, b)
}

/// Whether the books find the same under a name.
pub(crate) fn find_alike(a: &Book, b: &Book, name: &[u8]) -> bool {
    match (a.find(name), b.find(name)) {
        (Found::Assertion(x), Found::Assertion(y)) => {
            x == y && are_frames_alike(&a.frame(x), &b.frame(y))
        }
        (x, y) => x == y,
    }
}

fn are_labels_alike(a: &Book, b: &Book, id: LabelId) -> bool {
    a.label(id) == b.label(id)
        && a.kind(id) == b.kind(id)
        && a.expression(id) == b.expression(id)
        && find_alike(a, b, a.label(id))
}

fn are_all_labels_alike(a: &Book, b: &Book) -> bool {
    for number in 0..MANY {
        if !are_labels_alike(a, b, LabelId(number)) {
            return false;
        }
    }
    true
}

/// Whether the books answer each question alike.
pub(crate) fn are_books_alike(a: &Book, b: &Book) -> bool {
    a.depth() == b.depth()
        && a.bytes() == b.bytes()
        && are_symbols_alike(a, b)
        && are_all_labels_alike(a, b)
}
