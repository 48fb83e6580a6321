//! Symbols and statements of two books, compared by their names.

ghost use Rattle.std.specs.Prelude.{◌≡◌, ◌↔◌, ◌<◌, length, IsTrue};
ghost use Rattle.mm_frame.specs.Numbers.{labelled_sentences, symbols_of};
ghost use Rattle.mm_alike.specs.Mirror.Names.{name_at, names_of, said_at, said_of};
ghost use Rattle.mm_alike.specs.Mirror.Names.{AreSymbols, AreLabels};

use mm_frame::{Book, Hypothesis, LabelId, LabelKind, Sym};

/// Whether two symbols have one name.
pub(crate) fn have_one_name(old: &Book, one: Sym, new: &Book, other: Sym) -> bool
    requires one { one.0 < length (symbols_of old.now.statements) }
    requires other { other.0 < length (symbols_of new.now.statements) }
    ensures { IsTrue result
        ↔ (name_at old.now.statements one.0 ≡ name_at new.now.statements other.0) }
{
    old.name(one) == new.name(other)
}

/// Whether two lists of symbols have the same names.
fn have_same_names(old: &Book, one: &[Sym], new: &Book, other: &[Sym]) -> bool
    requires one { AreSymbols old.now.statements one.now }
    requires other { AreSymbols new.now.statements other.now }
    ensures { IsTrue result
        ↔ (names_of old.now.statements one.now ≡ names_of new.now.statements other.now) }
{
    if one.len() != other.len() {
        return false;
    }
    for at in 0..one.len() {
        if !have_one_name(old, one[at], new, other[at]) {
            return false;
        }
    }
    true
}

/// Whether two kinds are the same.
pub fn is_same_kind(kind: LabelKind, other: LabelKind) -> bool
    ensures { IsTrue result ↔ (kind ≡ other) }
{
    kind == other
}

/// Whether two labelled statements say the same: they are of one kind, and have the same symbols.
pub(crate) fn say_one_thing(old: &Book, one: LabelId, new: &Book, other: LabelId) -> bool
    requires one { one.0 < length (labelled_sentences old.now.statements) }
    requires other { other.0 < length (labelled_sentences new.now.statements) }
    ensures { IsTrue result
        ↔ (said_at old.now.statements one.0 ≡ said_at new.now.statements other.0) }
{
    if is_same_kind(old.kind(one), new.kind(other)) {
        have_same_names(old, old.expression(one), new, new.expression(other))
    } else {
        false
    }
}

/// Whether two lists of hypotheses say the same, one after the other.
pub(crate) fn say_the_same(old: &Book, one: &[Hypothesis], new: &Book, other: &[Hypothesis]) -> bool
    requires one { AreLabels old.now.statements one.now }
    requires other { AreLabels new.now.statements other.now }
    ensures { IsTrue result
        ↔ (said_of old.now.statements one.now ≡ said_of new.now.statements other.now) }
{
    if one.len() != other.len() {
        return false;
    }
    for at in 0..one.len() {
        if !say_one_thing(old, one[at].id, new, other[at].id) {
            return false;
        }
    }
    true
}
