//! The place in its file of a fault of a proof.

ghost use Rattle.std.specs.Prelude.{◌≡◌, ◌≤◌, ◌<◌, ℕ, Bool, List, length, map, take};
ghost use Rattle.std.specs.List.{sum_by};
ghost use Rattle.mm_base.specs.MostBytes.{most_bytes};
ghost use Rattle.mm_base.specs.Token.{plain_token};
ghost use Rattle.mm_base.specs.Statement.{plain_statement};
ghost use Rattle.mm_frame.specs.Sentence.{Sentence, sentence_of};
ghost use Rattle.mm_step.specs.declared.fault.ProofRule.{ProofRule};
ghost use Rattle.mm_step.specs.declared.profile.Profile.{Profile};
ghost use Rattle.mm_listing.specs.Halted.{HaltsProof};
ghost use Rattle.mm_step.specs.Moves.{Move};
ghost use Rattle.mm_step.specs.Plain.{token_texts};
ghost use Rattle.mm_step.specs.Steps.{IsProofNumber};
ghost use Rattle.mm_facts.specs.Mirror.Explaining.{IsCauseOf, StopsIn};
ghost use Rattle.mm_rules.specs.Verdict.{proof_of};
ghost use Rattle.mm_facts.specs.Why.{IsStopPlace, IsPlaceAmong, IsFaultPlace};

use crate::details::Cause;
use crate::token_position::position_of;
use mm_base::{Statement, Token};
use mm_listing::{Halt, HaltAt};
use mm_places::move_place;

/// The position at which the moves of the tokens up to an end stop.
fn stop_place(tokens: &[Token], end: usize, halt: &Halt) -> usize
    requires room { sum_by length (token_texts tokens.now) ≤ most_bytes }
    requires halt { StopsIn (token_texts tokens.now) halt.now }
    ensures { (limit : ℕ) (statements before : List Sentence) (s : Sentence) (prefix : Bool)
        (moves : List (Move (List ℕ)))
        → (h : HaltsProof limit statements before s prefix moves halt.now)
        → IsStopPlace (map plain_token tokens.now) end (length h.there.earlier) h.there.left
        result }
{
    if let HaltAt::End = halt.at {
        return end;
    }
    match move_place(tokens, halt.passed) {
        Some(place) => position_of(tokens, place),
        // Each move that the judged tokens say stands among the tokens.
        None => unreachable!(),
    }
}

/// The position of the fault of the tokens up to an end, by its cause.
pub fn place_among(tokens: &[Token], end: usize, cause: &Cause) -> usize
    requires room { sum_by length (token_texts tokens.now) ≤ most_bytes }
    requires cause { (profile : Profile) × (statements : List Sentence) × (id : ℕ) × (index : ℕ)
        × (s : Sentence) × (rule : ProofRule) × (step : ℕ) × IsProofNumber statements id index s
        × IsCauseOf profile statements id (token_texts tokens.now) rule step cause.now }
    ensures { (profile : Profile) (statements : List Sentence) (id : ℕ) (index : ℕ)
        (s : Sentence) (rule : ProofRule) (step : ℕ) → IsProofNumber statements id index s
        → IsCauseOf profile statements id (token_texts tokens.now) rule step cause.now
        → IsPlaceAmong profile (take index statements) s (map plain_token tokens.now) end rule step
        result }
{
    match cause {
        Cause::Token { index, byte, .. } => position_of(tokens, (*index, *byte)),
        Cause::Moves { stop, .. } => stop_place(tokens, end, &stop.halt),
    }
}

/// The position of the fault of the statement's proof, by its cause.
pub fn fault_place(statement: &Statement, cause: &Cause) -> usize
    requires room { sum_by length (proof_of (plain_statement statement.now)) ≤ most_bytes }
    requires cause { (profile : Profile) × (statements : List Sentence) × (id : ℕ) × (index : ℕ)
        × (rule : ProofRule) × (step : ℕ)
        × IsProofNumber statements id index (sentence_of (plain_statement statement.now))
        × IsCauseOf profile statements id (proof_of (plain_statement statement.now)) rule step
        cause.now }
    ensures { (profile : Profile) (statements : List Sentence) (id : ℕ) (index : ℕ)
        (rule : ProofRule) (step : ℕ)
        → IsProofNumber statements id index (sentence_of (plain_statement statement.now))
        → IsCauseOf profile statements id (proof_of (plain_statement statement.now)) rule step
        cause.now
        → IsFaultPlace profile (take index statements) (plain_statement statement.now) rule step
        result }
{
    let end = statement.span.1 as usize;
    place_among(&statement.proof, end, cause)
}
