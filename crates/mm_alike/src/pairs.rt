//! Distinct pairs of two books, compared by the names of their variables.

ghost use Rattle.std.specs.Prelude.{◌≡◌, ◌↔◌, ◌<◌, ℕ, length, IsTrue, Contains};
ghost use Rattle.mm_frame.specs.Numbers.{symbols_of};
ghost use Rattle.mm_alike.specs.Mirror.Names.{numbers_of_pairs, ArePairsOfSymbols, IsPairOfNames};
ghost use Rattle.mm_alike.specs.Mirror.Names.{IsPairAmong, name_at};
ghost use Rattle.mm_alike.specs.Mirror.Names.{ArePairsAmong as AreAllAmong};

use crate::names::have_one_name;
use mm_frame::{Book, DistinctPair, Sym};

/// Whether a pair has these names, in this order.
fn have_names(old: &Book, one: (Sym, Sym), new: &Book, first: Sym, second: Sym) -> bool
    requires one { (one.0.0 < length (symbols_of old.now.statements))
        × (one.1.0 < length (symbols_of old.now.statements)) }
    requires first { first.0 < length (symbols_of new.now.statements) }
    requires second { second.0 < length (symbols_of new.now.statements) }
    ensures { IsTrue result
        ↔ ((name_at old.now.statements one.0.0 ≡ name_at new.now.statements first.0)
        × (name_at old.now.statements one.1.0 ≡ name_at new.now.statements second.0)) }
{
    if have_one_name(old, one.0, new, first) {
        have_one_name(old, one.1, new, second)
    } else {
        false
    }
}

/// Whether two pairs have the same names, in one order or the other.
fn is_same_pair(old: &Book, one: (Sym, Sym), new: &Book, other: (Sym, Sym)) -> bool
    requires one { (one.0.0 < length (symbols_of old.now.statements))
        × (one.1.0 < length (symbols_of old.now.statements)) }
    requires other { (other.0.0 < length (symbols_of new.now.statements))
        × (other.1.0 < length (symbols_of new.now.statements)) }
    ensures { IsTrue result ↔ IsPairOfNames old.now.statements new.now.statements
        (one.0.0, one.1.0) (other.0.0, other.1.0) }
{
    if have_names(old, one, new, other.0, other.1) {
        true
    } else {
        have_names(old, one, new, other.1, other.0)
    }
}

/// Whether a pair is among pairs.
fn is_pair_among(old: &Book, pair: (Sym, Sym), new: &Book, pairs: &[DistinctPair]) -> bool
    requires pair { (pair.0.0 < length (symbols_of old.now.statements))
        × (pair.1.0 < length (symbols_of old.now.statements)) }
    requires pairs { ArePairsOfSymbols new.now.statements (numbers_of_pairs pairs.now) }
    ensures { IsTrue result ↔ IsPairAmong old.now.statements new.now.statements
        (pair.0.0, pair.1.0) (numbers_of_pairs pairs.now) }
{
    for other in pairs {
        if is_same_pair(old, pair, new, other.variables) {
            return true;
        }
    }
    false
}

/// Whether each of the pairs is among other pairs.
pub(crate) fn are_pairs_among(
    old: &Book,
    pairs: &[DistinctPair],
    new: &Book,
    others: &[DistinctPair],
) -> bool
    requires pairs { ArePairsOfSymbols old.now.statements (numbers_of_pairs pairs.now) }
    requires others { ArePairsOfSymbols new.now.statements (numbers_of_pairs others.now) }
    ensures { IsTrue result ↔ AreAllAmong old.now.statements new.now.statements
        (numbers_of_pairs pairs.now) (numbers_of_pairs others.now) }
{
    for pair in pairs {
        if !is_pair_among(old, pair.variables, new, others) {
            return false;
        }
    }
    true
}
