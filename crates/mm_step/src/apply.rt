//! The step by an assertion.

ghost use Rattle.std.specs.Prelude.{◌≡◌, ◌+◌, ◌<◌, ◌^◌, ℕ, List, length, take, drop};
ghost use Rattle.std.specs.Prelude.{Err, OnOk, IsTrue, MatchOption};
ghost use Rattle.std.specs.List.{AllByRecursion};
ghost use Rattle.mm_frame.specs.Sentence.{Sentence};
ghost use Rattle.mm_frame.specs.Form.{IsSound};
ghost use Rattle.mm_frame.specs.FrameIndex.{ArePairs, HaveTypings};
ghost use Rattle.mm_frame.specs.Pieces.{variables_of, HavePatterns, HaveIndices};
ghost use Rattle.mm_step.specs.Plain.{label_ids};
ghost use Rattle.mm_step.specs.Stores.{IsWithinIndices};
ghost use Rattle.mm_step.specs.Mirror.CodeVerify.{AreStackEntries, EachIsSome};
ghost use Rattle.mm_step.specs.Mirror.CodeVerify.{EachEntry};
ghost use Rattle.mm_step.specs.Mirror.CodeVerify.{IsRightCode, all_names_at, pairs_in};
ghost use Rattle.mm_step.specs.Mirror.CodeRun.{CarriesOn, StopsAt};
ghost use Rattle.mm_step.specs.Mirror.CodeApply.{IsAppliedAssertion, IsMatched, IsReady};
ghost use Rattle.mm_step.specs.Mirror.CodeApply.{IsEarlierSignature};

use crate::fault::{ProofFault, ProofRule};
use crate::pairs::{are_disjoint_pairs, has_shared_pair};
use crate::step::{are_equal, typing_of};
use crate::store::Store;
use mm_frame::{Book, Frame, Signature, one_number};

// The first of P10 to P12 that the step breaks, where the entries from the base on are as many as
// the hypotheses, and begin with their type codes. It is reported whether all of these are `$f`.
fn rule_broken<S: Store>(
    store: &mut S,
    base: usize,
    book: &Book,
    own: &Frame,
    signature: &Signature,
    floating: bool,
) -> Option<ProofRule>
    requires sound { IsSound book.now.statements }
    requires own { own.now.statements ≡ book.now.statements }
    requires typed { HaveTypings book.now.statements signature.now.hypotheses.now }
    requires patterns { HavePatterns book.now.statements (variables_of signature.now.hypotheses.now)
        signature.now.pieces.now signature.now.hypotheses.now }
    requires indices { HaveIndices (variables_of signature.now.hypotheses.now)
        signature.now.pairs.now }
    requires floating { IsTrue floating → EachIsSome (variables_of signature.now.hypotheses.now) }
    requires entries { base + length signature.now.hypotheses.now ≡ length (S.stack store.old) }
    requires fits { length (S.stack store.old) < 2 ^ 64 }
    requires symbols { AreStackEntries book.now.statements (take own.now.index book.now.statements)
        (S.stack store.old) }
    ensures judged { (limit id at : ℕ) (hs : List Sentence)
        → IsAppliedAssertion book.now.statements own.now.index id at
        (label_ids signature.now.hypotheses.now) hs
        → ArePairs (record { statements = book.now.statements; index = at })
        (pairs_in signature.now.pairs.now)
        → EachEntry hs (all_names_at book.now.statements
        (drop base (S.stack store.old))) IsRightCode
        → MatchOption
        result
        (IsMatched book.now.statements own.now.index hs (variables_of signature.now.hypotheses.now)
        (drop base (S.stack store.old)) (pairs_in signature.now.pairs.now))
        (λ rule. StopsAt limit book.now.statements own.now.index id (S.stack store.old) rule) }
    ensures stack { S.stack store.new ≡ S.stack store.old }
    ensures kept { S.kept store.new ≡ S.kept store.old }
{
    one_number();
    if !are_equal(store, base, book, signature, floating) {
        return Some(ProofRule::P10);
    }
    // What is apart shares nothing, so that where all is well one question is enough. Where some
    // pair isn't apart, P12 is broken; but P11 comes before it, and so is asked before P12 is
    // answered.
    if are_disjoint_pairs(store, base, book, own, signature) {
        return None;
    }
    if has_shared_pair(store, base, book, own, signature) {
        return Some(ProofRule::P11);
    }
    Some(ProofRule::P12)
}

// What the assertion says of the entries from the base on takes their place, if it is within the
// limit.
fn conclude<S: Store>(
    store: &mut S,
    base: usize,
    signature: &Signature,
    limit: usize,
    number: usize,
) -> Result<(), ProofFault>
    requires entries { base + length signature.now.hypotheses.now ≡ length (S.stack store.old) }
    requires within { AllByRecursion
        (IsWithinIndices (length (drop base (S.stack store.old)))) signature.now.conclusion.now }
    requires fits { length (S.stack store.old) < 2 ^ 64 }
    ensures carried { OnOk result
        ((statements : List Sentence) (index id at : ℕ) → IsSound statements
        → IsReady statements index id at (variables_of signature.now.hypotheses.now)
        (drop base (S.stack store.old)) signature.now.conclusion.now
        → CarriesOn limit statements index id (S.stack store.old) (S.stack store.new)) }
    ensures entries { OnOk result
        ((statements : List Sentence) (index id at : ℕ) → IsSound statements
        → IsReady statements index id at (variables_of signature.now.hypotheses.now)
        (drop base (S.stack store.old)) signature.now.conclusion.now
        → AreStackEntries statements (take index statements) (S.stack store.old)
        → AreStackEntries statements (take index statements) (S.stack store.new)) }
    ensures kept { S.kept store.new ≡ S.kept store.old }
    ensures fault { (rule : ProofRule) → (step : ℕ) → result ≡ Err (ProofFault.Rule rule step)
        → (step ≡ number)
        × ((statements : List Sentence) (index id at : ℕ) → IsSound statements
        → IsReady statements index id at (variables_of signature.now.hypotheses.now)
        (drop base (S.stack store.old)) signature.now.conclusion.now
        → StopsAt limit statements index id (S.stack store.old) rule) }
{
    one_number();
    if !store.conclude(base, signature.conclusion, limit)? {
        return Err(ProofFault::Rule {
            rule: ProofRule::L1,
            step: number,
        });
    }
    Ok(())
}

/// The step by an assertion: the first of P8 to P12 and L1 that it breaks; or the topmost entries
/// are replaced by what it makes of them.
pub(crate) fn apply<S: Store>(
    store: &mut S,
    book: &Book,
    own: &Frame,
    signature: &Signature,
    limit: usize,
    number: usize,
) -> Result<(), ProofFault>
    requires own { own.now.statements ≡ book.now.statements }
    requires sound { IsSound book.now.statements }
    requires signature { (id : ℕ)
        × IsEarlierSignature book.now.statements own.now.index id signature.now }
    requires entries { AreStackEntries book.now.statements (take own.now.index book.now.statements)
        (S.stack store.old) }
    ensures carried { OnOk result
        ((id : ℕ) → IsEarlierSignature book.now.statements own.now.index id signature.now
        → CarriesOn limit book.now.statements own.now.index id (S.stack store.old)
        (S.stack store.new)) }
    ensures entries { OnOk result
        (AreStackEntries book.now.statements (take own.now.index book.now.statements)
        (S.stack store.new)) }
    ensures kept { S.kept store.new ≡ S.kept store.old }
    ensures fault { (rule : ProofRule) → (at : ℕ) → result ≡ Err (ProofFault.Rule rule at)
        → (at ≡ number)
        × ((id : ℕ) → IsEarlierSignature book.now.statements own.now.index id signature.now
        → StopsAt limit book.now.statements own.now.index id (S.stack store.old) rule) }
{
    let count = store.len();
    if count < signature.hypotheses.len() {
        return Err(ProofFault::Rule {
            rule: ProofRule::P8,
            step: number,
        });
    }
    let base = count - signature.hypotheses.len();
    let Some(floating) = typing_of(store, base, signature.hypotheses) else {
        return Err(ProofFault::Rule {
            rule: ProofRule::P9,
            step: number,
        });
    };
    match rule_broken(store, base, book, own, signature, floating) {
        Some(rule) => Err(ProofFault::Rule { rule, step: number }),
        None => conclude(store, base, signature, limit, number),
    }
}
