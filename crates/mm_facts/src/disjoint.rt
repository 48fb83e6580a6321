//! Explains P11 and P12: which disjoint-variable conditions of a step fail.

ghost use Rattle.std.specs.Prelude.{◌≡◌, ◌<◌, ◌++◌, ℕ, length, drop, OnOk};
ghost use Rattle.std.specs.Prelude.{slice_get, Some, List, map};
ghost use Rattle.mm_frame.specs.Numbers.{symbols_of};
ghost use Rattle.mm_step.specs.declared.fault.ProofRule.TheVariants.{P11, P12};
ghost use Rattle.mm_step.specs.Stores.{numbers_in, entries_in};
ghost use Rattle.mm_step.specs.Substitution.{Symbol};
ghost use Rattle.mm_distinct.specs.InOrder.{AreDifferent, AreInOrder};
ghost use Rattle.mm_facts.specs.Explained.{details_text, step_lacks};
ghost use Rattle.mm_facts.specs.Mirror.Explaining.{IsDeclaredIn, AddsDisjoint, AreNamedPairs};
ghost use Rattle.mm_facts.specs.Mirror.Explaining.{AreEntriesIn, IsPairWithin, AddsPair, AddsPairs};
ghost use Rattle.mm_frame.specs.declared.distinct.DistinctPair.{DistinctPair};

use crate::fact_lines::{push_pair, push_shared, push_step_lacks};
use mm_distinct::{missing_pairs, pairs_in_order, shared_variables};
use mm_frame::{Book, DistinctPair, LabelId, Sym};
use mm_step::ProofRule;
use std::alloc::{AllocError, Global};

/// A mandatory pair, and what replaces its members, where these share variables; and those.
fn push_sharing(
    out: &mut Vec<u8>,
    alloc: Global,
    book: &Book,
    id: LabelId,
    variables: (Sym, Sym),
    e: &[Sym],
    f: &[Sym],
) -> Result<(), AllocError>
    requires first { IsDeclaredIn book.now.statements id.0 (numbers_in e.now) }
    requires second { IsDeclaredIn book.now.statements id.0 (numbers_in f.now) }
    requires x { variables.0.0 < length (symbols_of book.now.statements) }
    requires y { variables.1.0 < length (symbols_of book.now.statements) }
    ensures { OnOk result (AddsDisjoint book.now.statements id.0 P11 variables
        (numbers_in e.now) (numbers_in f.now) out.old.items out.new.items) }
{
    let shared = shared_variables(alloc, book, id, e, f)?;
    if shared.is_empty() {
        return Ok(());
    }
    push_pair(
        out,
        book,
        book.name(variables.0),
        book.name(variables.1),
        e,
        f,
    )?;
    push_shared(out, book, &shared)
}

/// The `$d` statements of these pairs, which the step lacks.
fn push_lacked(out: &mut Vec<u8>, book: &Book, pairs: &[(Sym, Sym)]) -> Result<(), AllocError>
    requires { (named : List (Symbol × Symbol))
        × AreNamedPairs book.now.statements pairs.now named }
    ensures { OnOk result ((named : List (Symbol × Symbol))
        → AreNamedPairs book.now.statements pairs.now named
        → out.new.items ≡ out.old.items
        ++ details_text (map (λ p. step_lacks p.0 p.1) named)) }
{
    for pair in pairs {
        push_step_lacks(out, book.name(pair.0), book.name(pair.1))?;
    }
    Ok(())
}

/// A mandatory pair, and what replaces its members, where a `$d` of their variables is missing; and
/// each such `$d`.
fn push_lacking(
    out: &mut Vec<u8>,
    alloc: Global,
    book: &Book,
    id: LabelId,
    variables: (Sym, Sym),
    e: &[Sym],
    f: &[Sym],
) -> Result<(), AllocError>
    requires first { IsDeclaredIn book.now.statements id.0 (numbers_in e.now) }
    requires second { IsDeclaredIn book.now.statements id.0 (numbers_in f.now) }
    requires x { variables.0.0 < length (symbols_of book.now.statements) }
    requires y { variables.1.0 < length (symbols_of book.now.statements) }
    ensures { OnOk result (AddsDisjoint book.now.statements id.0 P12 variables
        (numbers_in e.now) (numbers_in f.now) out.old.items out.new.items) }
{
    let missing = missing_pairs(alloc, book, id, e, f)?;
    if missing.is_empty() {
        return Ok(());
    }
    push_pair(
        out,
        book,
        book.name(variables.0),
        book.name(variables.1),
        e,
        f,
    )?;
    push_lacked(out, book, &missing)
}

/// What follows the first symbol.
fn behind_first(entry: &[Sym]) -> &[Sym]
    ensures { numbers_in result.now ≡ drop 1 (numbers_in entry.now) }
{
    match entry {
        [] => entry,
        [_, rest @ ..] => rest,
    }
}

/// What is told of a mandatory pair, where these are the entries of the hypotheses.
fn push_disjoint_pair(
    out: &mut Vec<u8>,
    alloc: Global,
    book: &Book,
    id: LabelId,
    rule: ProofRule,
    entries: &[&[Sym]],
    pair: DistinctPair,
) -> Result<(), AllocError>
    requires entries { AreEntriesIn book.now.statements id.0 (entries_in entries.now) }
    requires pair { IsPairWithin book.now.statements (length entries.now) pair }
    ensures { OnOk result (AddsPair book.now.statements id.0 rule (entries_in entries.now) pair
        out.old.items out.new.items) }
{
    let e = behind_first(entries[pair.indices.0 as usize]);
    let f = behind_first(entries[pair.indices.1 as usize]);
    match rule {
        ProofRule::P11 => push_sharing(out, alloc, book, id, pair.variables, e, f),
        ProofRule::P12 => push_lacking(out, alloc, book, id, pair.variables, e, f),
        _ => Ok(()),
    }
}

/// What is told of each of these pairs, where these are the entries of the hypotheses.
fn push_each_pair(
    out: &mut Vec<u8>,
    alloc: Global,
    book: &Book,
    id: LabelId,
    rule: ProofRule,
    entries: &[&[Sym]],
    pairs: &[DistinctPair],
) -> Result<(), AllocError>
    requires entries { AreEntriesIn book.now.statements id.0 (entries_in entries.now) }
    requires pairs { (i : ℕ) (pair : DistinctPair) → slice_get pairs.now i ≡ Some pair
        → IsPairWithin book.now.statements (length entries.now) pair }
    ensures { OnOk result (AddsPairs book.now.statements id.0 rule (entries_in entries.now)
        pairs.now out.old.items out.new.items) }
{
    for pair in pairs {
        push_disjoint_pair(out, alloc, book, id, rule, entries, *pair)?;
    }
    Ok(())
}

/// What is told of mandatory pairs, where these are the entries of the hypotheses: in the order of
/// the declarations of their variables.
pub(crate) fn push_disjoint_pairs(
    out: &mut Vec<u8>,
    alloc: Global,
    book: &Book,
    id: LabelId,
    rule: ProofRule,
    entries: &[&[Sym]],
    pairs: &[DistinctPair],
) -> Result<(), AllocError>
    requires entries { AreEntriesIn book.now.statements id.0 (entries_in entries.now) }
    requires pairs { (i : ℕ) (pair : DistinctPair) → slice_get pairs.now i ≡ Some pair
        → IsPairWithin book.now.statements (length entries.now) pair }
    requires different { AreDifferent pairs.now }
    ensures { OnOk result ((ordered : List DistinctPair) × AreInOrder pairs.now ordered
        × AddsPairs book.now.statements id.0 rule (entries_in entries.now) ordered
        out.old.items out.new.items) }
{
    let ordered = pairs_in_order(alloc, pairs)?;
    push_each_pair(out, alloc, book, id, rule, entries, &ordered)
}
