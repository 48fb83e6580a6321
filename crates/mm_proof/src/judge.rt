//! The judge of the moves of a proof.

ghost use Rattle.std.specs.Prelude.{◌≡◌, ◌≢◌, ◌≤◌, ◌<◌, ℕ, List, [], ◌∷◌, ◌++◌, All, take};
ghost use Rattle.std.specs.Prelude.{length, slice_get, Some, Err, IfOk, OnOk};
ghost use Rattle.std.specs.List.{AllByRecursion};
ghost use Rattle.mm_code.specs.Letters.{HasSpelling};
ghost use Rattle.mm_step.specs.Moves.{Move, name};
ghost use Rattle.mm_step.specs.Proof.{IsWithin};
ghost use Rattle.mm_proof.specs.Proof.{IsMoveFault};
ghost use Rattle.mm_step.specs.Steps.{AreNumberedMoves};
ghost use Rattle.mm_step.specs.Mirror.CodeSteps.{MayBeUsed};
ghost use Rattle.mm_proof.specs.Mirror.CodeSteps.{code_moves};
ghost use Rattle.mm_step.specs.Mirror.CodeVerify.{AreStackEntries};
ghost use Rattle.mm_step.specs.Mirror.CodeRun.{MayBeMade, HasRun, AreMarked, CarriesOn, StopsAt};
ghost use Rattle.mm_step.specs.Mirror.CodeRun.{EndsWrong};
ghost use Rattle.mm_step.specs.Stores.{numbers_in};

use crate::machine::{Machine, run};
use mm_code::Code;
use mm_frame::Sym;
use mm_step::{CallTable, ProofFault, ProofRule, Store, is_same, step_by};

/// The proof breaks a rule at a step.
pub(crate) fn fault_at_step(rule: ProofRule, step: usize) -> Result<(), ProofFault>
    ensures { result ≡ Err (ProofFault.Rule rule step) }
{
    Err(ProofFault::Rule { rule, step })
}

/// What is on the stack at the end: only the expression, or P13 or P14.
pub fn ending<S: Store>(store: &S, expression: &[Sym], number: usize) -> Result<(), ProofFault>
    ensures ok { OnOk result (S.stack store.now ≡ numbers_in expression.now ∷ []) }
    ensures fault { (rule : ProofRule) → (at : ℕ) → result ≡ Err (ProofFault.Rule rule at)
        → (at ≡ number) × EndsWrong rule (S.stack store.now) (numbers_in expression.now) }
    ensures told { result ≢ Err ProofFault.Memory }
{
    if store.len() != 1 {
        return fault_at_step(ProofRule::P13, number);
    }
    if !is_same(store.at(0), expression) {
        return fault_at_step(ProofRule::P14, number);
    }
    Ok(())
}

/// The step by a tag.
pub fn step_again<S: Store>(
    store: &mut S,
    tag: usize,
    kept: usize,
    number: usize,
) -> Result<(), ProofFault>
    requires { kept ≡ length (S.kept store.old) }
    ensures ok { OnOk result
        ((e : List ℕ) × (slice_get (S.kept store.old) tag ≡ Some e)
        × (S.stack store.new ≡ S.stack store.old ++ e ∷ [])) }
    ensures kept { S.kept store.new ≡ S.kept store.old }
    ensures fault { (rule : ProofRule) → (at : ℕ) → result ≡ Err (ProofFault.Rule rule at)
        → (at ≡ number) × (rule ≡ ProofRule.P6) × (length (S.kept store.old) ≤ tag) }
{
    if tag >= kept {
        return fault_at_step(ProofRule::P6, number);
    }
    store.push_copy(tag)?;
    Ok(())
}

/// A mark, where a step would have this number.
#[tactic(auto, using(crate::proofs::ProofVerdicts::JudgedMoves::last_split))]
pub fn mark<S: Store>(store: &mut S, number: usize) -> Result<(), ProofFault>
    ensures ok { OnOk result
        ((rest : List (List ℕ)) × (e : List ℕ) × (S.stack store.old ≡ rest ++ e ∷ [])
        × (S.kept store.new ≡ S.kept store.old ++ e ∷ [])) }
    ensures stack { S.stack store.new ≡ S.stack store.old }
    ensures fault { (rule : ProofRule) → (at : ℕ) → result ≡ Err (ProofFault.Rule rule at)
        → (at ≡ number) × (rule ≡ ProofRule.P7) × (S.stack store.old ≡ []) }
{
    if store.len() == 0 {
        return fault_at_step(ProofRule::P7, number);
    }
    store.keep()?;
    Ok(())
}

// The step by the entry at an index, which is marked.
#[inline(always)]
fn step_entry<S: Store>(
    store: &mut S,
    marks: &mut Vec<bool>,
    table: &CallTable,
    index: usize,
    number: usize,
) -> Result<(), ProofFault>
    requires used { let site = table.now.site in (id : ℕ) × (label : List ℕ)
        × (slice_get table.now.ids index ≡ Some id)
        × MayBeUsed site.statements site.index label id }
    requires long { length marks.old.items ≡ length table.now.ids }
    requires entries { let site = table.now.site in
        AreStackEntries site.statements (take site.index site.statements) (S.stack store.old) }
    ensures carried { let site = table.now.site in
        OnOk result ((id : ℕ) → slice_get table.now.ids index ≡ Some id
        → CarriesOn site.limit site.statements site.index id (S.stack store.old)
        (S.stack store.new)) }
    ensures entries { let site = table.now.site in
        OnOk result (AreStackEntries site.statements (take site.index site.statements)
        (S.stack store.new)) }
    ensures long { length marks.new.items ≡ length table.now.ids }
    ensures marked { (prefix : List (Move ℕ)) (id : ℕ) → slice_get table.now.ids index ≡ Some id
        → AreMarked table.now.ids prefix marks.old.items
        → AreMarked table.now.ids (prefix ++ name id ∷ []) marks.new.items }
    ensures kept { S.kept store.new ≡ S.kept store.old }
    ensures fault { let site = table.now.site in
        (rule : ProofRule) → (at : ℕ) → result ≡ Err (ProofFault.Rule rule at)
        → (at ≡ number) × ((id : ℕ) → slice_get table.now.ids index ≡ Some id
        → StopsAt site.limit site.statements site.index id (S.stack store.old) rule) }
{
    marks[index] = true;
    step_by(store, &table.site, &table.calls[index], number)
}

/// What judges moves.
#[derive(Drop)]
pub struct Judge<'s, 'e, 'b, 'a, S> {
    /// The store of their expressions.
    pub store: &'s mut S,
    /// By the index of an entry, whether a move names it.
    pub marks: &'s mut Vec<bool>,
    /// Where the proof is judged, and what its entries stand for.
    pub table: &'s CallTable<'e, 'b, 'a>,
    /// How many of the moves so far are steps.
    pub steps: usize,
    /// How many are marks.
    pub kept: usize,
}

// It stops at the first move that breaks a rule.
impl<'s, 'e, 'b, 'a, S: Store> Machine for Judge<'s, 'e, 'b, 'a, S> {
    ghost use Rattle.mm_proof.specs.Answer.{OnRule};
    ghost use Rattle.mm_step.specs.Mirror.CodeRun.{MayBeMade};
    ghost use Rattle.mm_proof.specs.Mirror.Judges.{HasJudged, BreaksRun};

    type Fault = ProofFault;

    ghost entries = { λ first. first.table.now.ids };

    ghost has_run = { HasJudged S.stack S.kept };

    ghost may_take = { λ first prefix move. let site = first.table.now.site in
        MayBeMade site.statements site.index move };

    ghost stops = { λ first prefix move fault.
        OnRule fault (BreaksRun first.table.now.site prefix move) };

    fn step(&mut self, index: usize) -> Result<(), ProofFault> {
        step_entry(self.store, self.marks, self.table, index, self.steps + 1)?;
        self.steps += 1;
        Ok(())
    }

    fn step_again(&mut self, tag: usize) -> Result<(), ProofFault> {
        step_again(self.store, tag, self.kept, self.steps + 1)?;
        self.steps += 1;
        Ok(())
    }

    fn mark(&mut self) -> Result<(), ProofFault> {
        mark(self.store, self.steps + 1)?;
        self.kept += 1;
        Ok(())
    }
}

/// Judges the moves of all codes, one after the other: how many are steps. The entries that they
/// name are marked.
pub(crate) fn run_codes<S: Store>(
    store: &mut S,
    marks: &mut Vec<bool>,
    table: &CallTable,
    codes: &[Code],
) -> Result<usize, ProofFault>
    requires spelled { All HasSpelling codes.now }
    requires usable { let site = table.now.site in
        AllByRecursion (MayBeMade site.statements site.index)
        (code_moves table.now.ids codes.now) }
    requires long { length marks.old.items ≡ length table.now.ids }
    requires unmarked { AreMarked table.now.ids [] marks.old.items }
    requires stack { S.stack store.old ≡ [] }
    requires kept { S.kept store.old ≡ [] }
    ensures ok { let site = table.now.site in
        IfOk result (λ count. HasRun site.limit site.statements site.index
        (code_moves table.now.ids codes.now) (S.stack store.new) (S.kept store.new) count) }
    ensures count { IfOk result (λ count. count ≤ length codes.now) }
    ensures long { OnOk result (length marks.new.items ≡ length table.now.ids) }
    ensures marked { OnOk result
        (AreMarked table.now.ids (code_moves table.now.ids codes.now) marks.new.items) }
    ensures fault { let site = table.now.site in
        (rule : ProofRule) → (at : ℕ) → result ≡ Err (ProofFault.Rule rule at)
        → (names : List (Move (List ℕ)))
        → AreNumberedMoves site.statements (code_moves table.now.ids codes.now) names
        → IsMoveFault (IsWithin site.limit) (take site.index site.statements) names rule at }
{
    let count = table.entries.len();
    let mut judge = Judge {
        store,
        marks,
        table,
        steps: 0,
        kept: 0,
    };
    run(&mut judge, count, codes)?;
    Ok(judge.steps)
}
