//! What reads the moves of one proof after the other.

ghost use Rattle.std.specs.Prelude.{◌≡◌, ◌≤◌, ℕ, length, take, false, IfOk, IfErr};
ghost use Rattle.std.specs.List.{sum_by};
ghost use Rattle.mm_base.specs.MostBytes.{most_bytes};
ghost use Rattle.mm_frame.specs.Sentence.{Sentence};
ghost use Rattle.mm_proof.specs.Answer.{OnRule};
ghost use Rattle.mm_proof.specs.Parsed.{OfProof, SaySteps};
ghost use Rattle.mm_step.specs.Plain.{token_texts};
ghost use Rattle.mm_step.specs.Steps.{AreSteps, IsProofNumber};
ghost use Rattle.mm_proof.specs.Strict.{HasFormOf, IsTextFault};

use crate::moves::Steps;
use crate::parse::{ParseLists, read_steps};
use mm_base::Token;
use mm_frame::{Book, LabelId};
use mm_step::{Profile, ProofFault};
use std::alloc::Global;
use std::marker::Model;

/// What reads the moves of proofs, one after the other in the same memory, with guesses of the
/// labels that were looked up lately.
///
/// Nothing that it answers depends on the proofs before.
#[derive(Drop)]
pub struct StepsReader<'a> {
    lists: ParseLists<'a>,
}

// What it holds between two proofs is nothing that a caller can tell.
impl<'a> Model for StepsReader<'a> {
    ghost Value = { Unit {0} };

    ghost view = { λ r. tt };
}

impl<'a> StepsReader<'a> {
    /// A reader that has read nothing.
    pub fn new(alloc: Global) -> StepsReader<'a> {
        StepsReader {
            lists: ParseLists::new(alloc),
        }
    }

    /// The moves that the tokens of a whole proof say as that of the `$p` with this number, which
    /// are judged under the profile.
    ///
    /// It answers what `Steps::parse` does where no token holds a `?`.
    ///
    /// # Errors
    ///
    /// The first of P1 to P5 and then P15 that they break, at step 0; or `Memory`.
    pub fn read(
        &mut self,
        alloc: Global,
        profile: Profile,
        book: &Book,
        id: LabelId,
        tokens: &[Token<'a>],
    ) -> Result<Steps, ProofFault>
        requires proof { (index : ℕ) × (s : Sentence)
            × IsProofNumber book.now.statements id.0 index s }
        requires room { sum_by length (token_texts tokens.now) ≤ most_bytes }
        // The moves are what the tokens say, and each may be made.
        ensures steps { IfOk result (λ steps. OfProof book.now.statements id.0
            (λ index s. SaySteps book.now.statements index s
            (token_texts tokens.now) steps.moves)) }
        ensures usable { IfOk result (λ steps. AreSteps book.now.statements id.0 steps.moves) }

        // The proof has the form that the profile demands.
        ensures form { IfOk result (λ _. OfProof book.now.statements id.0 (λ index s.
            HasFormOf profile (take index book.now.statements) s (token_texts tokens.now))) }

        // They are the moves of a whole proof, and judged under this profile.
        ensures whole { IfOk result (λ steps. steps.prefix ≡ false) }
        ensures profile { IfOk result (λ steps. steps.profile ≡ profile) }

        // The rule is the first that is broken over the whole proof.
        ensures fault { IfErr result (λ e. OnRule e (λ rule step.
            OfProof book.now.statements id.0 (λ index s. (step ≡ 0)
            × IsTextFault profile (take index book.now.statements) s
            (token_texts tokens.now) rule))) }
    {
        read_steps(&mut self.lists, alloc, profile, book, id, tokens, false)
    }
}
