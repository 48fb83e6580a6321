//! What a step by an assertion asks of its entries, and what keeps it from being made.

ghost use Rattle.std.specs.Prelude.{◌≡◌, ◌≢◌, ◌<◌, ◌≤◌, ◌*◌, ◌↔◌, ℕ, List, [], ◌∷◌, ◌++◌, length};
ghost use Rattle.std.specs.Prelude.{drop, map, take, vec_capacity, vec_len};
ghost use Rattle.std.specs.Prelude.{slice_get, slice_range, Some, Contains, IsTrue, IfOk, OnOk};
ghost use Rattle.std.specs.List.{AllByRecursion, AllZip};
ghost use Rattle.mm_frame.specs.Sentence.{Sentence};
ghost use Rattle.mm_frame.specs.Numbers.{AreNumbers};
ghost use Rattle.mm_frame.specs.declared.hypothesis.Hypothesis.{Hypothesis};
ghost use Rattle.mm_frame.specs.Pieces.{variables_of, HavePatterns};
ghost use Rattle.mm_step.specs.Tree.{Names};
ghost use Rattle.mm_step.specs.Substitution.{Expression, Symbol};
ghost use Rattle.mm_step.specs.Steps.{IsProofNumber, IsNumberedMove};
ghost use Rattle.mm_step.specs.Moves.{name};
ghost use Rattle.mm_proof.specs.Parsed.{OfProof};
ghost use Rattle.mm_step.specs.Proof.{MeetsHypotheses};
ghost use Rattle.mm_step.specs.Stores.{numbers_in, entries_in, said_by, all_said_by};
ghost use Rattle.mm_step.specs.Stores.{IsWithinIndices};
ghost use Rattle.mm_proof.specs.Asked.{AsksFor, AreDeclared, AreShared, AreMissing};
ghost use Rattle.mm_step.specs.Mirror.CodeAsked.{PutsOnce, AreOnce};
ghost use Rattle.mm_step.specs.Mirror.CodeAsked.{asked_numbers, IsMissingPair};
ghost use Rattle.mm_step.specs.Mirror.CodeAsked.{number_pairs, AddsMissing, IsTurned};
ghost use Rattle.mm_step.specs.Mirror.CodeAsked.{AreSamePairs, IsEachHigher};
ghost use Rattle.mm_step.specs.Mirror.CodeAsked.{ArePutInOrder, AreMissingInOrder};
ghost use Rattle.mm_step.specs.Mirror.CodeAsked.{AreSharedNumbers, AreMissingNumbers};

use mm_frame::{Book, Frame, LabelId, Piece, ShortPiece, Signature, Sym, one_number};
use mm_step::{after_first, has_symbol, variables_in};
use std::alloc::{AllocError, Global};

// Appends what the piece says of the entries to the others.
fn add_said(said: &mut Vec<Sym>, entries: &[&[Sym]], piece: ShortPiece) -> Result<(), AllocError>
    requires { IsWithinIndices (length entries.now) piece }
    ensures { OnOk result (numbers_in said.new.items
        ≡ numbers_in said.old.items ++ said_by (entries_in entries.now) piece) }
{
    match piece.piece() {
        Piece::Symbol(symbol) => said.push(symbol)?,
        Piece::Value(index) => said.extend_from_slice(after_first(entries[index as usize]))?,
    }
    Ok(())
}

// What the pieces say of the entries.
fn said_of(alloc: Global, entries: &[&[Sym]], pieces: &[ShortPiece]) -> Result<Vec<Sym>, AllocError>
    requires { AllByRecursion (IsWithinIndices (length entries.now)) pieces.now }
    ensures { IfOk result (λ said. numbers_in said.items
        ≡ all_said_by (entries_in entries.now) pieces.now) }
{
    let mut said = Vec::new(alloc);
    for piece in pieces {
        add_said(&mut said, entries, *piece)?;
    }
    Ok(said)
}

// The type code, and behind it what follows the first symbol of the entry.
fn typed_value(alloc: Global, code: Sym, entry: &[Sym]) -> Result<Vec<Sym>, AllocError>
    ensures { IfOk result (λ value. numbers_in value.items
        ≡ code.0 ∷ drop 1 (numbers_in entry.now)) }
{
    let mut value = Vec::new(alloc);
    value.push(code)?;
    value.extend_from_slice(after_first(entry))?;
    Ok(value)
}

// What the hypothesis at the number asks of the entries.
fn asked_in(
    alloc: Global,
    signature: &Signature,
    entries: &[&[Sym]],
    number: usize,
) -> Result<Vec<Sym>, AllocError>
    requires patterns { (statements : List Sentence)
        × HavePatterns statements (variables_of signature.now.hypotheses.now)
        signature.now.pieces.now
        signature.now.hypotheses.now }
    requires entries { length signature.now.hypotheses.now ≡ length entries.now }
    requires number { number < length entries.now }
    ensures { (hypothesis : Hypothesis)
        → slice_get signature.now.hypotheses.now number ≡ Some hypothesis
        → IfOk result (λ asked. numbers_in asked.items
        ≡ asked_numbers (entries_in entries.now) number
        (slice_range signature.now.pieces.now hypothesis.pattern.start hypothesis.pattern.end)
        hypothesis.typing) }
{
    let hypothesis = &signature.hypotheses[number];
    match hypothesis.typing {
        Some((code, _)) => typed_value(alloc, code, entries[number]),
        None => said_of(alloc, entries, signature.pattern(hypothesis)),
    }
}

/// What the mandatory hypothesis with a number, from 0 on, of an assertion asks, where these are
/// the entries of all of them, in order: in the proof of the `$p` with the number `id`.
///
/// # Errors
///
/// Where a growth was refused.
pub fn asked_by(
    alloc: Global,
    book: &Book,
    id: LabelId,
    assertion: LabelId,
    entries: &[&[Sym]],
    number: usize,
) -> Result<Vec<Sym>, AllocError>
    requires proof { (index : ℕ) × (s : Sentence) × IsProofNumber book.now.statements id.0 index s }
    // The proof may take the assertion, and there is an entry for each of its hypotheses.
    requires step { OfProof book.now.statements id.0 (λ index s.
        (label : List ℕ) × IsNumberedMove book.now.statements (name assertion.0) (name label)
        × (at : ℕ) × (a : Sentence) × (hypotheses : List Sentence)
        × Names (take index book.now.statements) label at a hypotheses
        × (length hypotheses ≡ length entries.now)) }
    requires number { number < length entries.now }
    ensures asked { IfOk result (λ asked. OfProof book.now.statements id.0 (λ index s.
        (label : List ℕ) → IsNumberedMove book.now.statements (name assertion.0) (name label)
        → (stack given : List Expression)
        → AllZip (AreNumbers book.now.statements) (entries_in entries.now) given
        → (m : MeetsHypotheses (take index book.now.statements) stack label)
        → m.entries ≡ given
        → (e : Expression) × AreNumbers book.now.statements (numbers_in asked.items) e
        × AsksFor (take index book.now.statements) stack label number e)) }
{
    one_number();
    // The frame of the `$p` tells that its book is sound.
    let _own = book.frame(id);
    let signature = book.frame(assertion).signature();
    asked_in(alloc, &signature, entries, number)
}

// Puts the symbol behind the others where it stands in the expression, and isn't among them.
fn add_shared(shared: &mut Vec<Sym>, symbol: Sym, f: &[Sym]) -> Result<(), AllocError>
    ensures { OnOk result (PutsOnce (Contains (numbers_in f.now) symbol.0)
        (Contains (numbers_in shared.old.items) symbol.0)
        (numbers_in shared.old.items) symbol.0 (numbers_in shared.new.items)) }
{
    if !has_symbol(f, symbol) || has_symbol(shared, symbol) {
        return Ok(());
    }
    shared.push(symbol)?;
    Ok(())
}

// Those of the symbols that stand in the expression, each once.
fn those_in(alloc: Global, symbols: &[Sym], f: &[Sym]) -> Result<Vec<Sym>, AllocError>
    ensures { IfOk result (λ shared. AreOnce (Contains (numbers_in f.now))
        (numbers_in symbols.now) (numbers_in shared.items)) }
{
    let mut shared = Vec::new(alloc);
    for symbol in symbols {
        add_shared(&mut shared, *symbol, f)?;
    }
    Ok(shared)
}

// The variables that stand in both expressions, each once, in the order of their declarations.
fn shared_numbers(alloc: Global, book: &Book, e: &[Sym], f: &[Sym]) -> Result<Vec<Sym>, AllocError>
    ensures { IfOk result (λ shared. AreSharedNumbers book.now.statements (numbers_in e.now)
        (numbers_in f.now) (numbers_in shared.items)) }
{
    let first = variables_in(alloc, book, e)?;
    let second = variables_in(alloc, book, f)?;
    let mut shared = those_in(alloc, &first, &second)?;
    shared.sort_unstable();
    Ok(shared)
}

/// The variables that stand in both expressions, each once, in the order of their declarations: in
/// the proof of the `$p` with the number. It is told of a first expression whose symbols are
/// declared before the `$p`, as those of all entries are.
///
/// # Errors
///
/// Where a growth was refused.
pub fn shared_variables(
    alloc: Global,
    book: &Book,
    id: LabelId,
    e: &[Sym],
    f: &[Sym],
) -> Result<Vec<Sym>, AllocError>
    requires proof { (index : ℕ) × (s : Sentence) × IsProofNumber book.now.statements id.0 index s }
    ensures shared { IfOk result (λ shared. OfProof book.now.statements id.0 (λ index s.
        (x y : List Symbol) → AreNumbers book.now.statements (numbers_in e.now) x
        → AreNumbers book.now.statements (numbers_in f.now) y
        → AreDeclared (take index book.now.statements) x
        → (u : List Symbol) × AreNumbers book.now.statements (numbers_in shared.items) u
        × AreShared (take index book.now.statements) x y u)) }
{
    one_number();
    // The frame of the `$p` tells that its book is sound.
    let _own = book.frame(id);
    shared_numbers(alloc, book, e, f)
}

// Whether both are variables, and not an active pair.
fn is_missing(book: &Book, own: &Frame, u: Sym, v: Sym) -> bool
    requires { own.now.statements ≡ book.now.statements }
    ensures { IsTrue result ↔ IsMissingPair book.now.statements own.now.index u.0 v.0 }
{
    if u.0 == v.0 || !book.is_variable(u) || !book.is_variable(v) {
        return false;
    }
    !own.distinct(u, v)
}

// Puts the pairs in the order of the declarations, each once.
fn sort_once(pairs: &mut Vec<(Sym, Sym)>)
    ensures same { AreSamePairs (number_pairs pairs.old.items) (number_pairs pairs.new.items) }
    ensures rising { IsEachHigher (number_pairs pairs.new.items) }
    ensures capacity { vec_capacity pairs.new ≡ vec_capacity pairs.old }
{
    pairs.sort_unstable();
    pairs.dedup();
}

// Makes room for a pair more. Where there is none, repeated pairs are dropped, and the list grows
// only if they were no more than half of it: so it never takes far more memory than the pairs that
// differ. Then half of it at least is free, so that each pair is sorted few times.
fn make_room_for_pair(pairs: &mut Vec<(Sym, Sym)>) -> Result<(), AllocError>
    ensures same { OnOk result (AreSamePairs (number_pairs pairs.old.items)
        (number_pairs pairs.new.items)) }
    ensures room { OnOk result (vec_len pairs.new < vec_capacity pairs.new) }
    ensures half { OnOk result (vec_capacity pairs.old ≤ vec_len pairs.old
        → 2 * vec_len pairs.new ≤ vec_capacity pairs.new) }
{
    if pairs.len() < pairs.capacity() {
        return Ok(());
    }
    sort_once(pairs);
    if pairs.len() >= pairs.capacity() / 2 {
        pairs.reserve(pairs.len().max(1))?;
    }
    Ok(())
}

// Adds the pair to the others where it is missing.
fn add_missing(
    missing: &mut Vec<(Sym, Sym)>,
    book: &Book,
    own: &Frame,
    u: Sym,
    v: Sym,
) -> Result<(), AllocError>
    requires { own.now.statements ≡ book.now.statements }
    ensures { OnOk result (AddsMissing book.now.statements own.now.index u.0 (v.0 ∷ [])
        (number_pairs missing.old.items) (number_pairs missing.new.items)) }
{
    if !is_missing(book, own, u, v) {
        return Ok(());
    }
    make_room_for_pair(missing)?;
    missing.push((u, v))?;
    Ok(())
}

/// Adds the missing pairs of the symbol and of those in the expression to the others, some
/// repeatedly.
pub(crate) fn add_missing_of(
    missing: &mut Vec<(Sym, Sym)>,
    book: &Book,
    own: &Frame,
    u: Sym,
    f: &[Sym],
) -> Result<(), AllocError>
    requires { own.now.statements ≡ book.now.statements }
    ensures { OnOk result (AddsMissing book.now.statements own.now.index u.0 (numbers_in f.now)
        (number_pairs missing.old.items) (number_pairs missing.new.items)) }
{
    for v in f {
        add_missing(missing, book, own, u, *v)?;
    }
    Ok(())
}

// The missing pairs, one of each list, some repeatedly.
fn missing_among(
    alloc: Global,
    book: &Book,
    own: &Frame,
    e: &[Sym],
    f: &[Sym],
) -> Result<Vec<(Sym, Sym)>, AllocError>
    requires { own.now.statements ≡ book.now.statements }
    ensures { IfOk result (λ missing. AreMissingNumbers book.now.statements own.now.index
        (numbers_in e.now) (numbers_in f.now) (number_pairs missing.items)) }
{
    let mut missing = Vec::new(alloc);
    for u in e {
        add_missing_of(&mut missing, book, own, *u, f)?;
    }
    Ok(missing)
}

// The same pair, with the symbol first that was declared first.
fn in_order(pair: (Sym, Sym)) -> (Sym, Sym)
    ensures { IsTurned pair result }
{
    if pair.1.0 < pair.0.0 {
        (pair.1, pair.0)
    } else {
        pair
    }
}

// Turns the pairs, so that the symbol stands first in each that was declared first.
fn turn_all(pairs: &mut [(Sym, Sym)])
    ensures { AllZip IsTurned pairs.old pairs.new }
{
    for pair in pairs.iter_mut() {
        *pair = in_order(*pair);
    }
}

/// Turns the pairs, so that the symbol stands first in each that was declared first, and puts them
/// in the order of these declarations, each once.
pub(crate) fn put_in_order(pairs: &mut Vec<(Sym, Sym)>)
    requires { (p : ℕ × ℕ) → Contains (number_pairs pairs.old.items) p → p.0 ≢ p.1 }
    ensures { ArePutInOrder (number_pairs pairs.old.items) (number_pairs pairs.new.items) }
{
    turn_all(pairs);
    sort_once(pairs);
}

// The missing pairs, one of each expression, in order.
fn missing_numbers(
    alloc: Global,
    book: &Book,
    own: &Frame,
    e: &[Sym],
    f: &[Sym],
) -> Result<Vec<(Sym, Sym)>, AllocError>
    requires { own.now.statements ≡ book.now.statements }
    ensures { IfOk result (λ missing. AreMissingInOrder book.now.statements own.now.index
        (numbers_in e.now) (numbers_in f.now) (number_pairs missing.items)) }
{
    let first = variables_in(alloc, book, e)?;
    let second = variables_in(alloc, book, f)?;
    let mut missing = missing_among(alloc, book, own, &first, &second)?;
    put_in_order(&mut missing);
    Ok(missing)
}

/// The pairs of variables, one of each expression, that a `$d` has to state for the proof of the
/// `$p` with the number: those that differ and aren't active pairs, each once, the one first that
/// was declared first, and in the order of their declarations. It is told of expressions whose
/// symbols are declared before the `$p`, as those of all entries are.
///
/// # Errors
///
/// Where a growth was refused.
pub fn missing_pairs(
    alloc: Global,
    book: &Book,
    id: LabelId,
    e: &[Sym],
    f: &[Sym],
) -> Result<Vec<(Sym, Sym)>, AllocError>
    requires proof { (index : ℕ) × (s : Sentence) × IsProofNumber book.now.statements id.0 index s }
    ensures missing { IfOk result (λ missing. OfProof book.now.statements id.0 (λ index s.
        (x y : List Symbol) → AreNumbers book.now.statements (numbers_in e.now) x
        → AreNumbers book.now.statements (numbers_in f.now) y
        → AreDeclared (take index book.now.statements) x
        → AreDeclared (take index book.now.statements) y
        → (pairs : List (Symbol × Symbol))
        × AreNumbers book.now.statements (map (λ p. p.0.0) missing.items) (map (λ p. p.0) pairs)
        × AreNumbers book.now.statements (map (λ p. p.1.0) missing.items) (map (λ p. p.1) pairs)
        × AreMissing (take index book.now.statements) x y pairs)) }
{
    one_number();
    let own = book.frame(id);
    missing_numbers(alloc, book, &own, e, f)
}
