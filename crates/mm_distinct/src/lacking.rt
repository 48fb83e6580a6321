//! The pairs of variables that a proof lacks: the `$d` statements to put before its theorem (the
//! Metamath book, sections 4.1.4 and 4.2.4).

ghost use Rattle.std.specs.Prelude.{◌≡◌, ◌+◌, ◌<◌, ◌≤◌, ◌^◌, ℕ, List, [], ◌∷◌, ◌++◌, All, length};
ghost use Rattle.std.specs.Prelude.{take, drop, map, slice_get, Option, Some, OnOk, IfOk};
ghost use Rattle.std.specs.Prelude.{MatchBool};
ghost use Rattle.std.specs.List.{AllByRecursion};
ghost use Rattle.mm_code.specs.Letters.{HasSpelling};
ghost use Rattle.mm_frame.specs.Numbers.{AreNumbers};
ghost use Rattle.mm_frame.specs.Form.{IsSound};
ghost use Rattle.mm_frame.specs.Pieces.{variables_of, HasIndices, HaveIndices};
ghost use Rattle.mm_step.specs.Stores.{numbers_in};
ghost use Rattle.mm_step.specs.Mirror.CodeAsked.{number_pairs};
ghost use Rattle.mm_step.specs.Mirror.CodeVerify.{AreStackEntries, value_of, pairs_in};
ghost use Rattle.mm_step.specs.Mirror.CodeApply.{IsEarlierSignature, IsCallOf};
ghost use Rattle.mm_distinct.specs.Mirror.CodeLacking.{AddsBetween, AddsLacking, StepsWith};
ghost use Rattle.mm_distinct.specs.Mirror.CodeLacking.{AreLackingNumbers};
ghost use Rattle.mm_step.specs.Mirror.CodeRun.{MayBeMade};
ghost use Rattle.mm_step.specs.Mirror.CodeSteps.{MayBeUsed};
ghost use Rattle.mm_proof.specs.Mirror.CodeSteps.{code_moves, moves_of};
ghost use Rattle.mm_step.specs.Substitution.{Symbol};
ghost use Rattle.mm_step.specs.Proof.{IsWithin};
ghost use Rattle.mm_step.specs.Profiles.{limit_of};
ghost use Rattle.mm_step.specs.Steps.{AreSteps};
ghost use Rattle.mm_proof.specs.Verified.{OfMoves};
ghost use Rattle.mm_distinct.specs.Lacking.{AreLacking};

use crate::asked::{add_missing_of, put_in_order};
use mm_code::Code;
use mm_frame::{Book, DistinctPair, Frame, LabelId, Signature, Sym, one_number};
use mm_proof::machine::run;
use mm_proof::{Machine, Steps, calls_of};
use mm_step::{
    Call, CallTable, Flat, Site, Store, are_equal, entries_of_variables, has_shared_pair,
    typing_of, value_at,
};
use std::alloc::{AllocError, Global};

// Adds the missing pairs, one of each list, to the others, some repeatedly.
fn add_between(
    lacking: &mut Vec<(Sym, Sym)>,
    book: &Book,
    own: &Frame,
    e: &[Sym],
    f: &[Sym],
) -> Result<(), AllocError>
    requires { own.now.statements ≡ book.now.statements }
    ensures { OnOk result (AddsBetween book.now.statements own.now.index (numbers_in e.now)
        (numbers_in f.now) (number_pairs lacking.old.items) (number_pairs lacking.new.items)) }
{
    for u in e {
        add_missing_of(lacking, book, own, *u, f)?;
    }
    Ok(())
}

// Adds the missing pairs of what replaces the members of a mandatory pair to the others.
fn add_of_pair<S: Store>(
    lacking: &mut Vec<(Sym, Sym)>,
    store: &S,
    base: usize,
    book: &Book,
    own: &Frame,
    pair: DistinctPair,
) -> Result<(), AllocError>
    requires book { own.now.statements ≡ book.now.statements }
    requires first { base + pair.indices.0 < length (S.stack store.now) }
    requires second { base + pair.indices.1 < length (S.stack store.now) }
    requires fits { length (S.stack store.now) < 2 ^ 64 }
    ensures { OnOk result ((variables : List (Option ℕ)) → HasIndices variables pair
        → AddsLacking book.now.statements own.now.index
        (value_of variables (drop base (S.stack store.now)))
        ((pair.variables.0.0, pair.variables.1.0) ∷ [])
        (number_pairs lacking.old.items) (number_pairs lacking.new.items)) }
{
    let e = value_at(store, base, pair.indices.0);
    let f = value_at(store, base, pair.indices.1);
    add_between(lacking, book, own, e, f)
}

// Adds the missing pairs of what replaces the members of each pair to the others.
fn add_of_each<S: Store>(
    lacking: &mut Vec<(Sym, Sym)>,
    store: &S,
    base: usize,
    book: &Book,
    own: &Frame,
    signature: &Signature,
) -> Result<(), AllocError>
    requires book { own.now.statements ≡ book.now.statements }
    requires indices { HaveIndices (variables_of signature.now.hypotheses.now)
        signature.now.pairs.now }
    requires entries { base + length signature.now.hypotheses.now ≡ length (S.stack store.now) }
    requires fits { length (S.stack store.now) < 2 ^ 64 }
    ensures { OnOk result (AddsLacking book.now.statements own.now.index
        (value_of (variables_of signature.now.hypotheses.now) (drop base (S.stack store.now)))
        (pairs_in signature.now.pairs.now)
        (number_pairs lacking.old.items) (number_pairs lacking.new.items)) }
{
    for pair in signature.pairs {
        add_of_pair(lacking, store, base, book, own, *pair)?;
    }
    Ok(())
}

// Adds the missing pairs of what replaces the members of each mandatory pair to the others:
// those of the different variables of the entries.
fn add_of_pairs<S: Store>(
    alloc: Global,
    lacking: &mut Vec<(Sym, Sym)>,
    store: &S,
    base: usize,
    book: &Book,
    own: &Frame,
    signature: &Signature,
) -> Result<(), AllocError>
    requires book { own.now.statements ≡ book.now.statements }
    requires indices { HaveIndices (variables_of signature.now.hypotheses.now)
        signature.now.pairs.now }
    requires entries { base + length signature.now.hypotheses.now ≡ length (S.stack store.now) }
    requires fits { length (S.stack store.now) < 2 ^ 64 }
    ensures { OnOk result (AddsLacking book.now.statements own.now.index
        (value_of (variables_of signature.now.hypotheses.now) (drop base (S.stack store.now)))
        (pairs_in signature.now.pairs.now)
        (number_pairs lacking.old.items) (number_pairs lacking.new.items)) }
{
    if signature.pairs.is_empty() {
        return Ok(());
    }
    let entries = entries_of_variables(alloc, store, base, book)?;
    add_of_each(lacking, &entries, 0, book, own, signature)
}

// Makes the step by an assertion, unless it breaks a rule besides P12: whether it was made. The
// pairs that it lacks are put among the others.
fn step_assertion<S: Store>(
    alloc: Global,
    lacking: &mut Vec<(Sym, Sym)>,
    store: &mut S,
    book: &Book,
    own: &Frame,
    signature: &Signature,
    limit: usize,
) -> Result<bool, AllocError>
    requires own { own.now.statements ≡ book.now.statements }
    requires sound { IsSound book.now.statements }
    requires signature { (id : ℕ)
        × IsEarlierSignature book.now.statements own.now.index id signature.now }
    requires entries { AreStackEntries book.now.statements (take own.now.index book.now.statements)
        (S.stack store.old) }
    ensures steps { IfOk result (λ made.
        (id : ℕ) → IsEarlierSignature book.now.statements own.now.index id signature.now
        → StepsWith limit book.now.statements own.now.index id (number_pairs lacking.old.items)
        (number_pairs lacking.new.items) (S.stack store.old) (S.stack store.new) made) }
    ensures kept { S.kept store.new ≡ S.kept store.old }
{
    one_number();
    let count = store.len();
    if count < signature.hypotheses.len() {
        return Ok(false);
    }
    let base = count - signature.hypotheses.len();
    let Some(floating) = typing_of(store, base, signature.hypotheses) else {
        return Ok(false);
    };
    if !are_equal(store, base, book, signature, floating) {
        return Ok(false);
    }
    if has_shared_pair(store, base, book, own, signature) {
        return Ok(false);
    }
    add_of_pairs(alloc, lacking, store, base, book, own, signature)?;
    store.conclude(base, signature.conclusion, limit)
}

// Makes the step by what a label stands for, unless it breaks a rule besides P12: whether it was
// made. The pairs that it lacks are put among the others.
fn step_call<S: Store>(
    alloc: Global,
    lacking: &mut Vec<(Sym, Sym)>,
    store: &mut S,
    site: &Site,
    call: &Call,
) -> Result<bool, AllocError>
    requires call { (id : ℕ) × IsCallOf site.now.statements site.now.index id call.now }
    requires entries { AreStackEntries site.now.statements (take site.now.index site.now.statements)
        (S.stack store.old) }
    ensures steps { IfOk result (λ made.
        (id : ℕ) → IsCallOf site.now.statements site.now.index id call.now
        → StepsWith site.now.limit site.now.statements site.now.index id
        (number_pairs lacking.old.items) (number_pairs lacking.new.items) (S.stack store.old)
        (S.stack store.new) made) }
    ensures kept { S.kept store.new ≡ S.kept store.old }
{
    match call {
        Call::Hypothesis(expression) => {
            if expression.len() > site.limit {
                return Ok(false);
            }
            store.push(expression)?;
            Ok(true)
        }
        Call::Assertion(signature) => {
            step_assertion(
                alloc, lacking, store, site.book, &site.own, signature, site.limit,
            )
        }
    }
}

// Makes the step by the entry at an index, unless it breaks a rule besides P12: whether it was
// made. The pairs that it lacks are put among the others.
fn step_entry<S: Store>(
    alloc: Global,
    lacking: &mut Vec<(Sym, Sym)>,
    store: &mut S,
    table: &CallTable,
    index: usize,
) -> Result<bool, AllocError>
    requires used { let site = table.now.site in (id : ℕ) × (label : List ℕ)
        × (slice_get table.now.ids index ≡ Some id)
        × MayBeUsed site.statements site.index label id }
    requires entries { let site = table.now.site in
        AreStackEntries site.statements (take site.index site.statements) (S.stack store.old) }
    ensures steps { let site = table.now.site in
        IfOk result (λ made. (id : ℕ) → slice_get table.now.ids index ≡ Some id
        → StepsWith site.limit site.statements site.index id (number_pairs lacking.old.items)
        (number_pairs lacking.new.items) (S.stack store.old) (S.stack store.new) made) }
    ensures kept { S.kept store.new ≡ S.kept store.old }
{
    step_call(alloc, lacking, store, &table.site, &table.calls[index])
}

// Makes the step by a tag, unless none has it: whether it was made.
fn step_by_tag<S: Store>(store: &mut S, tag: usize, kept: usize) -> Result<bool, AllocError>
    requires { kept ≡ length (S.kept store.old) }
    ensures steps { IfOk result (λ made. MatchBool
        made
        ((e : List ℕ) × (slice_get (S.kept store.old) tag ≡ Some e)
        × (S.stack store.new ≡ S.stack store.old ++ e ∷ []))
        (length (S.kept store.old) ≤ tag)) }
    ensures kept { S.kept store.new ≡ S.kept store.old }
{
    if tag >= kept {
        return Ok(false);
    }
    store.push_copy(tag)?;
    Ok(true)
}

// Keeps what the step before the mark made, unless there is none: whether it was kept.
#[tactic(auto, using(mm_proof::proofs::ProofVerdicts::JudgedMoves::last_split))]
fn keep_last<S: Store>(store: &mut S) -> Result<bool, AllocError>
    ensures marks { IfOk result (λ made. MatchBool
        made
        ((rest : List (List ℕ)) × (e : List ℕ) × (S.stack store.old ≡ rest ++ e ∷ [])
        × (S.kept store.new ≡ S.kept store.old ++ e ∷ []))
        (S.stack store.old ≡ [])) }
    ensures stack { S.stack store.new ≡ S.stack store.old }
{
    if store.len() == 0 {
        return Ok(false);
    }
    store.keep()?;
    Ok(true)
}

// What seeks the pairs that moves lack. The list is lent to it, as the store is, since nothing is
// known of what was lent to a struct that owns memory.
#[derive(Drop)]
struct Seeker<'s, 'e, 'b, 'a, S> {
    alloc: Global,
    store: &'s mut S,
    lacking: &'s mut Vec<(Sym, Sym)>,
    table: &'s CallTable<'e, 'b, 'a>,
    // How many of the moves so far are marks.
    kept: usize,
    // Whether a move broke another rule than P12: those behind it are passed over.
    stopped: bool,
}

impl<'s, 'e, 'b, 'a, S: Store> Machine for Seeker<'s, 'e, 'b, 'a, S> {
    ghost use Rattle.mm_step.specs.Mirror.CodeRun.{MayBeMade};
    ghost use Rattle.mm_distinct.specs.Mirror.CodeLacking.{HasSought};

    type Fault = AllocError;

    ghost entries = { λ first. first.table.now.ids };

    ghost has_run = { HasSought S.stack S.kept };

    ghost may_take = { λ first prefix move. let site = first.table.now.site in
        MayBeMade site.statements site.index move };

    ghost stops = { λ first prefix move fault. Unit {0} };

    fn step(&mut self, index: usize) -> Result<(), AllocError> {
        if self.stopped {
            return Ok(());
        }
        let made = step_entry(self.alloc, self.lacking, self.store, self.table, index)?;
        self.stopped = !made;
        Ok(())
    }

    fn step_again(&mut self, tag: usize) -> Result<(), AllocError> {
        if self.stopped {
            return Ok(());
        }
        let made = step_by_tag(self.store, tag, self.kept)?;
        self.stopped = !made;
        Ok(())
    }

    fn mark(&mut self) -> Result<(), AllocError> {
        if self.stopped {
            return Ok(());
        }
        let made = keep_last(self.store)?;
        self.stopped = !made;
        self.kept += 1;
        Ok(())
    }
}

// The pairs that the moves of all codes lack, some repeatedly.
fn lacking_of_codes<S: Store>(
    alloc: Global,
    store: &mut S,
    table: &CallTable,
    codes: &[Code],
) -> Result<Vec<(Sym, Sym)>, AllocError>
    requires spelled { All HasSpelling codes.now }
    requires usable { let site = table.now.site in
        AllByRecursion (MayBeMade site.statements site.index)
        (code_moves table.now.ids codes.now) }
    requires stack { S.stack store.old ≡ [] }
    requires kept { S.kept store.old ≡ [] }
    ensures { IfOk result (λ lacking. AreLackingNumbers table.now.site (number_pairs lacking.items)
        (code_moves table.now.ids codes.now)) }
{
    let count = table.entries.len();
    let mut lacking = Vec::new(alloc);
    let mut seeker = Seeker {
        alloc,
        store,
        lacking: &mut lacking,
        table,
        kept: 0,
        stopped: false,
    };
    run(&mut seeker, count, codes)?;
    Ok(lacking)
}

// The pairs that the moves lack, in order.
fn lacking_in_frame<S: Store>(
    alloc: Global,
    store: &mut S,
    table: &CallTable,
    codes: &[Code],
) -> Result<Vec<(Sym, Sym)>, AllocError>
    requires spelled { All HasSpelling codes.now }
    requires stack { S.stack store.old ≡ [] }
    requires kept { S.kept store.old ≡ [] }
    requires steps { let site = table.now.site in
        AreSteps site.statements site.number (code_moves table.now.ids codes.now) }
    ensures { let site = table.now.site in IfOk result (λ lacking.
        OfMoves site.statements site.number (code_moves table.now.ids codes.now)
        (λ index s moves. (pairs : List (Symbol × Symbol))
        × AreNumbers site.statements (map (λ p. p.0.0) lacking.items) (map (λ p. p.0) pairs)
        × AreNumbers site.statements (map (λ p. p.1.0) lacking.items) (map (λ p. p.1) pairs)
        × AreLacking (IsWithin site.limit) (take index site.statements) moves pairs)) }
{
    one_number();
    // The site of the table is that of a sound book.
    let _own = table.site.expression();
    let mut lacking = lacking_of_codes(alloc, store, table, codes)?;
    put_in_order(&mut lacking);
    Ok(lacking)
}

/// The pairs of variables that the proof of the `$p` with the number lacks, each once, the one
/// first that was declared first, and in the order of their declarations: with a `$d` for each of
/// them before the `$p`, no step breaks P12. These are the pairs that steps ask for up to the end,
/// or up to a move that breaks another rule.
///
/// # Errors
///
/// Where a growth was refused.
pub fn lacking_pairs(
    alloc: Global,
    book: &Book,
    id: LabelId,
    steps: &Steps,
) -> Result<Vec<(Sym, Sym)>, AllocError>
    requires { AreSteps book.now.statements id.0 steps.now.moves }
    ensures { IfOk result (λ lacking. OfMoves book.now.statements id.0 steps.now.moves
        (λ index s moves. (pairs : List (Symbol × Symbol))
        × AreNumbers book.now.statements (map (λ p. p.0.0) lacking.items) (map (λ p. p.0) pairs)
        × AreNumbers book.now.statements (map (λ p. p.1.0) lacking.items) (map (λ p. p.1) pairs)
        × AreLacking (IsWithin (limit_of steps.now.profile)) (take index book.now.statements) moves
        pairs)) }
{
    let site = Site::new(book, id, steps.profile);
    let calls = calls_of(alloc, book, &steps.entries)?;
    let table = CallTable {
        site,
        entries: &steps.entries,
        calls: &calls,
    };
    let mut store = Flat::new(alloc);
    lacking_in_frame(alloc, &mut store, &table, &steps.codes)
}
