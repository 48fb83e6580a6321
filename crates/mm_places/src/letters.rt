//! The letters of each step of a proof, in one pass.

ghost use Rattle.std.specs.Prelude.{◌≡◌, ◌<◌, ◌≤◌, ℕ, List, All, length, drop};
ghost use Rattle.std.specs.Prelude.{IfOk, OnOk};
ghost use Rattle.std.specs.List.{flat_map, position_or_len};
ghost use Rattle.mm_code.specs.declared.code.Code.{Code};
ghost use Rattle.mm_code.specs.Letters.{HasSpelling, Letters};
ghost use Rattle.mm_frame.specs.Sentence.{Sentence};
ghost use Rattle.mm_step.specs.Moves.{Move};
ghost use Rattle.mm_step.specs.Plain.{token_texts};
ghost use Rattle.mm_proof.specs.Tokens.{BeginsList, SayMoves};
ghost use Rattle.mm_places.specs.StepLetters.{is_number, AreStepLetters};
ghost use Rattle.mm_places.specs.Mirror.CodeLetters.{AddsStep, AreLabelSteps, AreStepsFrom};

use mm_base::Token;
use mm_code::{Code, CodeFault, read_codes, write_codes};
use mm_proof::{begins_list, fill_texts, parts};
use std::alloc::{AllocError, Global};

/// A step of a proof among its moves, and the letters that stand for it.
#[derive(Drop)]
pub struct StepLetters {
    /// The index of its move, from 0 on.
    pub index: usize,
    /// Those of its number, and a `Z` for each tag right behind it; none in a normal proof.
    pub letters: Vec<u8>,
}

// Whether the code is that of a step.
fn is_number(code: &Code) -> bool
    ensures { result ≡ is_number code.now }
{
    match code {
        Code::Number(_) => true,
        Code::Tag => false,
    }
}

// How many tags the codes begin with.
#[tactic(auto, using(std::proofs::lemmas::List::Sums::position_or_len_is))]
fn tag_count(codes: &[Code]) -> usize
    ensures first { result ≡ position_or_len is_number codes.now }
    ensures within { result ≤ length codes.now }
{
    for (index, code) in codes.iter().enumerate() {
        if is_number(code) {
            return index;
        }
    }
    codes.len()
}

// Appends the step of the code with an index, where it is that of a step.
fn push_step(
    alloc: Global,
    steps: &mut Vec<StepLetters>,
    codes: &[Code],
    index: usize,
) -> Result<(), AllocError>
    requires within { index < length codes.now }
    requires spelled { All HasSpelling codes.now }
    ensures { OnOk result
        (AddsStep index (drop index codes.now) steps.old.items steps.new.items) }
{
    match codes[index] {
        Code::Number(_) => {
            let end = index + 1 + tag_count(&codes[index + 1..]);
            let letters = write_codes(alloc, &codes[index..end])?;
            steps.push(StepLetters { index, letters })?;
            Ok(())
        }
        Code::Tag => Ok(()),
    }
}

// The steps of these codes.
fn steps_of(alloc: Global, codes: &[Code]) -> Result<Vec<StepLetters>, AllocError>
    requires { All HasSpelling codes.now }
    ensures { IfOk result (λ steps. AreStepsFrom 0 codes.now steps.items) }
{
    let mut steps = Vec::new(alloc);
    for index in 0..codes.len() {
        push_step(alloc, &mut steps, codes, index)?;
    }
    Ok(steps)
}

// The codes that the pieces of the letters say, which break no rule.
#[tactic(auto, using(mm_proof::proofs::ProofTokens::ProofCodes::letter_steps))]
fn codes_of(alloc: Global, pieces: &[Token]) -> Result<Vec<Code>, AllocError>
    requires { (said : List Code) × Letters (flat_map (λ p. p) (token_texts pieces.now)) said }
    ensures { IfOk result (λ codes.
        Letters (flat_map (λ p. p) (token_texts pieces.now)) codes.items) }
{
    let mut texts = Vec::new(alloc);
    fill_texts(&mut texts, pieces)?;
    match read_codes(alloc, &texts) {
        Ok(codes) => Ok(codes),
        Err(CodeFault::Memory) => Err(AllocError),
        // They break none.
        Err(CodeFault::Rule(_)) => unreachable!(),
    }
}

// The steps of a compressed proof.
fn code_steps(alloc: Global, tokens: &[Token]) -> Result<Vec<StepLetters>, AllocError>
    requires begun { BeginsList (token_texts tokens.now) }
    requires said { (before : List Sentence) × (s : Sentence) × (moves : List (Move (List ℕ)))
        × SayMoves before s (token_texts tokens.now) moves }
    ensures { IfOk result (λ steps. AreStepLetters (token_texts tokens.now) steps.items) }
{
    let Some((_, pieces)) = parts(&tokens[1..]) else {
        // The list is closed, since there are moves.
        unreachable!()
    };
    let codes = codes_of(alloc, pieces)?;
    steps_of(alloc, &codes)
}

// The steps of a normal proof of so many labels.
fn label_steps(alloc: Global, count: usize) -> Result<Vec<StepLetters>, AllocError>
    ensures { IfOk result (λ steps. AreLabelSteps count steps.items) }
{
    let mut steps = Vec::new(alloc);
    for index in 0..count {
        let letters = Vec::new(alloc);
        steps.push(StepLetters { index, letters })?;
    }
    Ok(steps)
}

/// The steps of a proof, in order: the index of the move of each, and its letters, which are those
/// of its number and then a `Z` for each tag right behind it. In a normal proof they have none.
///
/// # Errors
///
/// Where a growth was refused.
pub fn letters_of_steps(alloc: Global, tokens: &[Token]) -> Result<Vec<StepLetters>, AllocError>
    requires { (before : List Sentence) × (s : Sentence) × (moves : List (Move (List ℕ)))
        × SayMoves before s (token_texts tokens.now) moves }
    // They are the steps that the tokens say, all of them.
    ensures { IfOk result (λ steps. AreStepLetters (token_texts tokens.now) steps.items) }
{
    if begins_list(tokens) {
        code_steps(alloc, tokens)
    } else {
        label_steps(alloc, tokens.len())
    }
}
