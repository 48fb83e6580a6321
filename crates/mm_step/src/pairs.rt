//! The distinct pairs of a step by an assertion: P11 and P12.

ghost use Rattle.std.specs.Prelude.{◌≡◌, ◌↔◌, ℕ, ◌+◌, ◌<◌, ◌^◌, List, length, drop, take};
ghost use Rattle.std.specs.Prelude.{Contains, IsTrue, IfSome, MatchBool, Option};
ghost use Rattle.std.specs.List.{AllZip};
ghost use Rattle.mm_frame.specs.Active.{IsVariable};
ghost use Rattle.mm_frame.specs.Form.{IsSound};
ghost use Rattle.mm_frame.specs.Numbers.{symbols_of};
ghost use Rattle.mm_frame.specs.Pieces.{variables_of, HasIndices, HaveIndices};
ghost use Rattle.mm_step.specs.Tree.{ShareNoVariable, AreDistinct};
ghost use Rattle.mm_step.specs.Stores.{numbers_in};
ghost use Rattle.mm_step.specs.Mirror.CodeVariables.{HasItsVariables};
ghost use Rattle.mm_step.specs.Mirror.CodeVerify.{AreDeclaredSymbols, AreStackEntries, SomeValues};
ghost use Rattle.mm_step.specs.Mirror.CodeVerify.{EachValues};
ghost use Rattle.mm_step.specs.Mirror.CodeVerify.{SomePairValues, EachPairValues, pairs_in};
ghost use Rattle.mm_step.specs.Mirror.CodeVerify.{value_of};
ghost use Rattle.mm_step.specs.Mirror.CodeVerify.{IsDisjoint, IsDisjointFromEach, name_at};
ghost use Rattle.mm_step.specs.Mirror.CodeVerify.{names_at};

use crate::flat::Flat;
use crate::store::Store;
use crate::substitution::value_at;
use crate::variables::entries_of_variables;
use mm_frame::{Book, DistinctPair, Frame, Signature, Sym, one_number};

/// Whether the symbol is one of these.
#[tactic(auto, using(crate::proofs::ByNumbers::SharedVariables::symbol_steps))]
pub fn has_symbol(symbols: &[Sym], symbol: Sym) -> bool
    ensures { IsTrue result ↔ Contains (numbers_in symbols.now) symbol.0 }
{
    for other in symbols {
        if other.0 == symbol.0 {
            return true;
        }
    }
    false
}

// Whether the symbol is a variable, and one of these.
fn is_shared(book: &Book, symbol: Sym, f: &[Sym]) -> bool
    requires { symbol.0 < length (symbols_of book.now.statements) }
    ensures { MatchBool result
        (IsVariable book.now.statements (name_at book.now.statements symbol.0)
        × Contains (numbers_in f.now) symbol.0)
        (IsVariable book.now.statements (name_at book.now.statements symbol.0)
        → ¬ (Contains (numbers_in f.now) symbol.0)) }
{
    book.is_variable(symbol) && has_symbol(f, symbol)
}

/// Whether some variable stands in both expressions.
fn share_variable(book: &Book, own: &Frame, e: &[Sym], f: &[Sym]) -> bool
    requires sound { IsSound book.now.statements }
    requires book { own.now.statements ≡ book.now.statements }
    requires first { AreDeclaredSymbols book.now.statements (take own.now.index book.now.statements)
        (numbers_in e.now) }
    requires second { AreDeclaredSymbols book.now.statements
        (take own.now.index book.now.statements)
        (numbers_in f.now) }
    ensures { MatchBool
        result
        (¬ (ShareNoVariable (take own.now.index book.now.statements)
        (names_at book.now.statements (numbers_in e.now))
        (names_at book.now.statements (numbers_in f.now))))
        (ShareNoVariable (take own.now.index book.now.statements)
        (names_at book.now.statements (numbers_in e.now))
        (names_at book.now.statements (numbers_in f.now))) }
{
    one_number();
    for symbol in e {
        if is_shared(book, *symbol, f) {
            return true;
        }
    }
    false
}

// Whether the variable and the symbol are an active pair, if the symbol is a variable.
fn is_disjoint(book: &Book, own: &Frame, variable: Sym, symbol: Sym) -> bool
    requires book { own.now.statements ≡ book.now.statements }
    requires first { variable.0 < length (symbols_of book.now.statements) }
    requires second { symbol.0 < length (symbols_of book.now.statements) }
    ensures { MatchBool
        result
        (IsDisjoint book.now.statements own.now.index variable.0 symbol.0)
        (¬ (IsDisjoint book.now.statements own.now.index variable.0 symbol.0)) }
{
    !book.is_variable(symbol) || own.distinct(variable, symbol)
}

// Whether the symbol is no variable, or an active pair with each variable of the expression.
fn is_disjoint_from_each(book: &Book, own: &Frame, variable: Sym, f: &[Sym]) -> bool
    requires book { own.now.statements ≡ book.now.statements }
    requires first { variable.0 < length (symbols_of book.now.statements) }
    requires second { AreDeclaredSymbols book.now.statements
        (take own.now.index book.now.statements)
        (numbers_in f.now) }
    ensures { MatchBool
        result
        (IsDisjointFromEach book.now.statements own.now.index (numbers_in f.now) variable.0)
        (¬ (IsDisjointFromEach book.now.statements own.now.index (numbers_in f.now) variable.0)) }
{
    if !book.is_variable(variable) {
        return true;
    }
    for symbol in f {
        if !is_disjoint(book, own, variable, *symbol) {
            return false;
        }
    }
    true
}

/// Whether each variable of the one expression and each of the other are an active pair.
fn are_disjoint(book: &Book, own: &Frame, e: &[Sym], f: &[Sym]) -> bool
    requires sound { IsSound book.now.statements }
    requires book { own.now.statements ≡ book.now.statements }
    requires first { AreDeclaredSymbols book.now.statements (take own.now.index book.now.statements)
        (numbers_in e.now) }
    requires second { AreDeclaredSymbols book.now.statements
        (take own.now.index book.now.statements)
        (numbers_in f.now) }
    ensures { MatchBool
        result
        (AreDistinct (take own.now.index book.now.statements)
        (names_at book.now.statements (numbers_in e.now))
        (names_at book.now.statements (numbers_in f.now)))
        (¬ (AreDistinct (take own.now.index book.now.statements)
        (names_at book.now.statements (numbers_in e.now))
        (names_at book.now.statements (numbers_in f.now)))) }
{
    for symbol in e {
        if !is_disjoint_from_each(book, own, *symbol, f) {
            return false;
        }
    }
    true
}

/// Whether what replaces two variables shares a variable.
fn is_shared_pair<S: Store>(
    store: &S,
    base: usize,
    book: &Book,
    own: &Frame,
    pair: DistinctPair,
) -> bool
    requires sound { IsSound book.now.statements }
    requires book { own.now.statements ≡ book.now.statements }
    requires first { base + pair.indices.0 < length (S.stack store.now) }
    requires second { base + pair.indices.1 < length (S.stack store.now) }
    requires fits { length (S.stack store.now) < 2 ^ 64 }
    requires symbols { AreStackEntries book.now.statements (take own.now.index book.now.statements)
        (drop base (S.stack store.now)) }
    ensures { (variables : List (Option ℕ)) → HasIndices variables pair
        → let before = take own.now.index book.now.statements in
        let σ = value_of variables (drop base (S.stack store.now)) in
        MatchBool
        result
        (SomeValues σ pair.variables.0.0 pair.variables.1.0 (λ e f.
        ¬ (ShareNoVariable before (names_at book.now.statements e)
        (names_at book.now.statements f))))
        (EachValues σ pair.variables.0.0 pair.variables.1.0 (λ e f.
        ShareNoVariable before (names_at book.now.statements e) (names_at book.now.statements f))) }
{
    let e = value_at(store, base, pair.indices.0);
    let f = value_at(store, base, pair.indices.1);
    share_variable(book, own, e, f)
}

/// Whether the variables of what replaces two variables are active pairs.
fn is_disjoint_pair<S: Store>(
    store: &S,
    base: usize,
    book: &Book,
    own: &Frame,
    pair: DistinctPair,
) -> bool
    requires sound { IsSound book.now.statements }
    requires book { own.now.statements ≡ book.now.statements }
    requires first { base + pair.indices.0 < length (S.stack store.now) }
    requires second { base + pair.indices.1 < length (S.stack store.now) }
    requires fits { length (S.stack store.now) < 2 ^ 64 }
    requires symbols { AreStackEntries book.now.statements (take own.now.index book.now.statements)
        (drop base (S.stack store.now)) }
    ensures { (variables : List (Option ℕ)) → HasIndices variables pair
        → let before = take own.now.index book.now.statements in
        let σ = value_of variables (drop base (S.stack store.now)) in
        MatchBool
        result
        (EachValues σ pair.variables.0.0 pair.variables.1.0 (λ e f.
        AreDistinct before (names_at book.now.statements e) (names_at book.now.statements f)))
        (SomeValues σ pair.variables.0.0 pair.variables.1.0 (λ e f.
        ¬ (AreDistinct before (names_at book.now.statements e) (names_at book.now.statements f)))) }
{
    let e = value_at(store, base, pair.indices.0);
    let f = value_at(store, base, pair.indices.1);
    are_disjoint(book, own, e, f)
}

// Whether what replaces the members of some pair shares a variable: the entries are looked through.
fn some_pair_shares<S: Store>(
    store: &S,
    base: usize,
    book: &Book,
    own: &Frame,
    signature: &Signature,
) -> bool
    requires sound { IsSound book.now.statements }
    requires book { own.now.statements ≡ book.now.statements }
    requires indices { HaveIndices (variables_of signature.now.hypotheses.now)
        signature.now.pairs.now }
    requires entries { base + length signature.now.hypotheses.now ≡ length (S.stack store.now) }
    requires fits { length (S.stack store.now) < 2 ^ 64 }
    requires symbols { AreStackEntries book.now.statements (take own.now.index book.now.statements)
        (drop base (S.stack store.now)) }
    ensures { let before = take own.now.index book.now.statements in
        let σ = value_of (variables_of signature.now.hypotheses.now)
        (drop base (S.stack store.now)) in
        MatchBool
        result
        (SomePairValues σ (pairs_in signature.now.pairs.now) (λ e f.
        ¬ (ShareNoVariable before (names_at book.now.statements e)
        (names_at book.now.statements f))))
        (EachPairValues σ (pairs_in signature.now.pairs.now) (λ e f.
        ShareNoVariable before (names_at book.now.statements e) (names_at book.now.statements f))) }
{
    for pair in signature.pairs {
        if is_shared_pair(store, base, book, own, *pair) {
            return true;
        }
    }
    false
}

// Whether the variables of what replaces the members of each pair are active pairs: the entries are
// looked through.
fn each_pair_is_disjoint<S: Store>(
    store: &S,
    base: usize,
    book: &Book,
    own: &Frame,
    signature: &Signature,
) -> bool
    requires sound { IsSound book.now.statements }
    requires book { own.now.statements ≡ book.now.statements }
    requires indices { HaveIndices (variables_of signature.now.hypotheses.now)
        signature.now.pairs.now }
    requires entries { base + length signature.now.hypotheses.now ≡ length (S.stack store.now) }
    requires fits { length (S.stack store.now) < 2 ^ 64 }
    requires symbols { AreStackEntries book.now.statements (take own.now.index book.now.statements)
        (drop base (S.stack store.now)) }
    ensures { let before = take own.now.index book.now.statements in
        let σ = value_of (variables_of signature.now.hypotheses.now)
        (drop base (S.stack store.now)) in
        MatchBool
        result
        (EachPairValues σ (pairs_in signature.now.pairs.now) (λ e f.
        AreDistinct before (names_at book.now.statements e) (names_at book.now.statements f)))
        (SomePairValues σ (pairs_in signature.now.pairs.now) (λ e f.
        ¬ (AreDistinct before (names_at book.now.statements e) (names_at book.now.statements f)))) }
{
    for pair in signature.pairs {
        if !is_disjoint_pair(store, base, book, own, *pair) {
            return false;
        }
    }
    true
}

// The entries of a step are looked through as they are where that takes so many comparisons at most:
// lists of their variables take longer to make.
const FEW: usize = 4096;

// Whether it takes more comparisons to look through what replaces the members of the pairs.
fn takes_many<S: Store>(store: &S, base: usize, signature: &Signature) -> bool
    requires indices { HaveIndices (variables_of signature.now.hypotheses.now)
        signature.now.pairs.now }
    requires entries { base + length signature.now.hypotheses.now ≡ length (S.stack store.now) }
    requires fits { length (S.stack store.now) < 2 ^ 64 }
{
    let mut comparisons: usize = 0;
    for pair in signature.pairs {
        let e = value_at(store, base, pair.indices.0);
        let f = value_at(store, base, pair.indices.1);
        comparisons = comparisons.saturating_add(e.len().saturating_mul(f.len()));
        if comparisons > FEW {
            return true;
        }
    }
    false
}

// The entries from the base on, of each its different variables alone, where it takes many comparisons
// to look through the entries, and there is memory for the lists. With them a step takes as long as
// its entries are, and as it takes to compare each two different variables of a pair.
fn listed<S: Store>(store: &S, base: usize, book: &Book, signature: &Signature) -> Option<Flat>
    requires indices { HaveIndices (variables_of signature.now.hypotheses.now)
        signature.now.pairs.now }
    requires entries { base + length signature.now.hypotheses.now ≡ length (S.stack store.now) }
    requires fits { length (S.stack store.now) < 2 ^ 64 }
    ensures { IfSome result (λ entries. AllZip (HasItsVariables book.now.statements)
        (drop base (S.stack store.now)) (⟦<Flat as Store>⟧.stack entries)) }
{
    if !takes_many(store, base, signature) {
        return None;
    }
    entries_of_variables(book.allocator(), store, base, book).ok()
}

/// Whether what replaces the members of some mandatory pair shares a variable. Where there is no
/// memory for lists of variables, it takes longer.
#[cold]
#[inline(never)]
pub fn has_shared_pair<S: Store>(
    store: &S,
    base: usize,
    book: &Book,
    own: &Frame,
    signature: &Signature,
) -> bool
    requires sound { IsSound book.now.statements }
    requires book { own.now.statements ≡ book.now.statements }
    requires indices { HaveIndices (variables_of signature.now.hypotheses.now)
        signature.now.pairs.now }
    requires entries { base + length signature.now.hypotheses.now ≡ length (S.stack store.now) }
    requires fits { length (S.stack store.now) < 2 ^ 64 }
    requires symbols { AreStackEntries book.now.statements (take own.now.index book.now.statements)
        (drop base (S.stack store.now)) }
    ensures { let before = take own.now.index book.now.statements in
        let σ = value_of (variables_of signature.now.hypotheses.now)
        (drop base (S.stack store.now)) in
        MatchBool
        result
        (SomePairValues σ (pairs_in signature.now.pairs.now) (λ e f.
        ¬ (ShareNoVariable before (names_at book.now.statements e)
        (names_at book.now.statements f))))
        (EachPairValues σ (pairs_in signature.now.pairs.now) (λ e f.
        ShareNoVariable before (names_at book.now.statements e) (names_at book.now.statements f))) }
{
    match listed(store, base, book, signature) {
        Some(entries) => some_pair_shares(&entries, 0, book, own, signature),
        None => some_pair_shares(store, base, book, own, signature),
    }
}

// Does as `are_disjoint_pairs`. It is a call, as few steps have pairs, and the others then take fewer
// instructions.
#[inline(never)]
fn all_are_apart<S: Store>(
    store: &S,
    base: usize,
    book: &Book,
    own: &Frame,
    signature: &Signature,
) -> bool
    requires sound { IsSound book.now.statements }
    requires book { own.now.statements ≡ book.now.statements }
    requires indices { HaveIndices (variables_of signature.now.hypotheses.now)
        signature.now.pairs.now }
    requires entries { base + length signature.now.hypotheses.now ≡ length (S.stack store.now) }
    requires fits { length (S.stack store.now) < 2 ^ 64 }
    requires symbols { AreStackEntries book.now.statements (take own.now.index book.now.statements)
        (drop base (S.stack store.now)) }
    ensures { let before = take own.now.index book.now.statements in
        let σ = value_of (variables_of signature.now.hypotheses.now)
        (drop base (S.stack store.now)) in
        MatchBool
        result
        (EachPairValues σ (pairs_in signature.now.pairs.now) (λ e f.
        AreDistinct before (names_at book.now.statements e) (names_at book.now.statements f)))
        (SomePairValues σ (pairs_in signature.now.pairs.now) (λ e f.
        ¬ (AreDistinct before (names_at book.now.statements e) (names_at book.now.statements f)))) }
{
    match listed(store, base, book, signature) {
        Some(entries) => each_pair_is_disjoint(&entries, 0, book, own, signature),
        None => each_pair_is_disjoint(store, base, book, own, signature),
    }
}

/// Whether the variables of what replaces the members of each mandatory pair are active pairs. Where
/// there is no memory for lists of variables, it takes longer.
pub(crate) fn are_disjoint_pairs<S: Store>(
    store: &S,
    base: usize,
    book: &Book,
    own: &Frame,
    signature: &Signature,
) -> bool
    requires sound { IsSound book.now.statements }
    requires book { own.now.statements ≡ book.now.statements }
    requires indices { HaveIndices (variables_of signature.now.hypotheses.now)
        signature.now.pairs.now }
    requires entries { base + length signature.now.hypotheses.now ≡ length (S.stack store.now) }
    requires fits { length (S.stack store.now) < 2 ^ 64 }
    requires symbols { AreStackEntries book.now.statements (take own.now.index book.now.statements)
        (drop base (S.stack store.now)) }
    ensures { let before = take own.now.index book.now.statements in
        let σ = value_of (variables_of signature.now.hypotheses.now)
        (drop base (S.stack store.now)) in
        MatchBool
        result
        (EachPairValues σ (pairs_in signature.now.pairs.now) (λ e f.
        AreDistinct before (names_at book.now.statements e) (names_at book.now.statements f)))
        (SomePairValues σ (pairs_in signature.now.pairs.now) (λ e f.
        ¬ (AreDistinct before (names_at book.now.statements e) (names_at book.now.statements f)))) }
{
    signature.pairs.is_empty() || all_are_apart(store, base, book, own, signature)
}
