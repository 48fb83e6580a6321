//! What tells the steps of a proof in its facts: number, label and place.

ghost use Rattle.std.specs.Prelude.{◌≡◌, ◌<◌, ◌≤◌, ◌++◌, ℕ, List, length, map, take, IfOk};
ghost use Rattle.std.specs.Prelude.{OnOk};
ghost use Rattle.std.specs.List.{sum_by, AllZip};
ghost use Rattle.mm_base.specs.MostBytes.{most_bytes};
ghost use Rattle.mm_base.specs.Token.{plain_token};
ghost use Rattle.mm_text.specs.Files.{plain_file};
ghost use Rattle.mm_frame.specs.Sentence.{Sentence};
ghost use Rattle.mm_step.specs.Moves.{Move};
ghost use Rattle.mm_step.specs.Plain.{token_texts};
ghost use Rattle.mm_step.specs.Profiles.{limit_of};
ghost use Rattle.mm_step.specs.Steps.{IsProofNumber, AreSteps};
ghost use Rattle.mm_proof.specs.Parsed.{OfProof, SaySteps};
ghost use Rattle.mm_proof.specs.Tokens.{SayMoves};
ghost use Rattle.mm_proof.specs.Verified.{OfMoves};
ghost use Rattle.mm_listing.specs.Listing.{StepName, IsNameOf};
ghost use Rattle.mm_listing.specs.Halted.{HaltsProof};
ghost use Rattle.mm_places.specs.Places.{AreMovePlaces};
ghost use Rattle.mm_facts.specs.Explained.{judged_tokens};
ghost use Rattle.mm_facts.specs.StepTexts.{called_text, position_text, TellsMove, IsStepText};
ghost use Rattle.mm_facts.specs.StepTexts.{IsMovePosition};
ghost use Rattle.mm_facts.specs.Mirror.Explaining.{step_index, step_indices_from};
ghost use Rattle.mm_facts.specs.Mirror.Explaining.{AreStepTexts};

use crate::named_halt::NamedHalt;
use crate::token_position::position_of;
use mm_base::{File, Token};
use mm_code::Code;
use mm_frame::{Book, LabelId};
use mm_listing::{Halt, Name, halt_of, names_before};
use mm_places::move_places;
use mm_proof::Steps;
use mm_rules::{LineCount, push_decimal};
use std::alloc::{AllocError, Global};

/// The index of the code, where it is that of a step.
fn push_step_index(indices: &mut Vec<usize>, index: usize, code: &Code) -> Result<(), AllocError>
    ensures { OnOk result (indices.new.items ≡ indices.old.items ++ step_index index code.now) }
{
    match code {
        Code::Number(_) => {
            indices.push(index)?;
            Ok(())
        }
        Code::Tag => Ok(()),
    }
}

/// The index of the move of each step.
fn step_indices(alloc: Global, said: &[Code]) -> Result<Vec<usize>, AllocError>
    ensures { IfOk result (λ indices. indices.items ≡ step_indices_from 0 said.now) }
{
    let mut indices = Vec::new(alloc);
    for (index, code) in said.iter().enumerate() {
        push_step_index(&mut indices, index, code)?;
    }
    Ok(indices)
}

/// What a step is called.
pub(crate) fn push_called(out: &mut Vec<u8>, book: &Book, name: Name) -> Result<(), AllocError>
    ensures { OnOk result ((called : StepName) → IsNameOf book.now.statements name called
        → out.new.items ≡ out.old.items ++ called_text called) }
{
    match name {
        Name::Label(id) => out.extend_from_slice(book.label(id)),
        Name::Step(number) => {
            out.push(b'@')?;
            push_decimal(out, number as usize)
        }
    }
}

/// The line and the column of a position in one of the files.
pub(crate) fn push_position(
    out: &mut Vec<u8>,
    counted: &mut LineCount,
    file: usize,
    at: usize,
) -> Result<(), AllocError>
    ensures position { OnOk result (out.new.items ≡ out.old.items
        ++ position_text counted.old file at) }
    ensures files { counted.new ≡ counted.old }
{
    let place = counted.place_in(file, at);
    push_decimal(out, place.line)?;
    out.push(b':')?;
    push_decimal(out, place.column)
}

/// The position at which the move with an index stands: its file, and where in it.
pub(crate) fn position_of_move(
    tokens: &[Token],
    places: &[(usize, usize)],
    index: usize,
) -> (usize, usize)
    requires room { sum_by length (token_texts tokens.now) ≤ most_bytes }
    requires places { AreMovePlaces (token_texts tokens.now) places.now }
    requires within { index < length places.now }
    ensures { IsMovePosition (map plain_token tokens.now) index result.0 result.1 }
{
    let place = places[index];
    (tokens[place.0].file, position_of(tokens, place))
}

/// What tells the step with a number, which is called so, and is the move with an index.
fn step_text(
    alloc: Global,
    counted: &mut LineCount,
    book: &Book,
    tokens: &[Token],
    places: &[(usize, usize)],
    step: (usize, Name),
    index: usize,
) -> Result<Vec<u8>, AllocError>
    requires room { sum_by length (token_texts tokens.now) ≤ most_bytes }
    requires places { AreMovePlaces (token_texts tokens.now) places.now }
    requires within { index < length places.now }
    ensures text { IfOk result (λ text. (called : StepName)
        → IsNameOf book.now.statements step.1 called
        → TellsMove counted.old (map plain_token tokens.now) index step.0 called text.items) }
    ensures files { counted.new ≡ counted.old }
{
    let (file, at) = position_of_move(tokens, places, index);
    let mut text = Vec::new(alloc);
    push_decimal(&mut text, step.0)?;
    text.extend_from_slice(b", ")?;
    push_called(&mut text, book, step.1)?;
    text.extend_from_slice(b" at ")?;
    push_position(&mut text, counted, file, at)?;
    Ok(text)
}

/// What tells the steps that made the entries of the stack where the moves stop.
fn step_texts(
    alloc: Global,
    files: &[File],
    book: &Book,
    id: LabelId,
    tokens: &[Token],
    steps: &Steps,
    halt: &Halt,
) -> Result<Vec<Vec<u8>>, AllocError>
    requires proof { (index : ℕ) × (s : Sentence) × IsProofNumber book.now.statements id.0 index s }
    requires room { sum_by length (token_texts tokens.now) ≤ most_bytes }
    requires steps { AreSteps book.now.statements id.0 steps.now.moves }
    requires said { OfProof book.now.statements id.0 (λ index s.
        SaySteps book.now.statements index s (judged_tokens (token_texts tokens.now))
        steps.now.moves) }
    requires halted { OfMoves book.now.statements id.0 steps.now.moves (λ index s moves.
        HaltsProof (limit_of steps.now.profile) book.now.statements
        (take index book.now.statements) s steps.now.prefix moves halt.now) }
    ensures count { IfOk result (λ texts. length texts.items ≡ length halt.now.origins.items) }
    ensures texts { IfOk result (λ texts. OfMoves book.now.statements id.0 steps.now.moves
        (λ index s moves.
        AllZip (IsStepText (map plain_file files.now) (map plain_token tokens.now) moves)
        halt.now.origins.items (map (λ t. t.items) texts.items))) }
{
    let names = names_before(alloc, book, id, steps, halt.passed)?;
    let indices = step_indices(alloc, &steps.codes)?;
    let places = move_places(alloc, tokens)?;
    let mut counted = LineCount::new(files);
    let mut texts = Vec::new(alloc);
    for entry in 0..halt.origins.len() {
        let number = halt.origins[entry];
        let step = (number, names[number - 1].name);
        let index = indices[number - 1];
        let text = step_text(alloc, &mut counted, book, tokens, &places, step, index)?;
        texts.push(text)?;
    }
    Ok(texts)
}

/// Where the moves stop that the tokens in the files say, and what tells the steps that made the
/// entries there.
pub(crate) fn named_halt(
    alloc: Global,
    files: &[File],
    book: &Book,
    id: LabelId,
    tokens: &[Token],
    steps: &Steps,
) -> Result<NamedHalt, AllocError>
    requires proof { (index : ℕ) × (s : Sentence) × IsProofNumber book.now.statements id.0 index s }
    requires room { sum_by length (token_texts tokens.now) ≤ most_bytes }
    requires steps { AreSteps book.now.statements id.0 steps.now.moves }
    requires said { OfProof book.now.statements id.0 (λ index s.
        SaySteps book.now.statements index s (judged_tokens (token_texts tokens.now))
        steps.now.moves) }
    ensures halted { IfOk result (λ stop. OfMoves book.now.statements id.0 steps.now.moves
        (λ index s moves. HaltsProof (limit_of steps.now.profile) book.now.statements
        (take index book.now.statements) s steps.now.prefix moves stop.halt)) }
    ensures told { IfOk result (AreStepTexts (map plain_file files.now)
        (map plain_token tokens.now) book.now.statements id.0 steps.now.moves) }
{
    let halt = halt_of(alloc, book, id, steps)?;
    let texts = step_texts(alloc, files, book, id, tokens, steps, &halt)?;
    Ok(NamedHalt { halt, texts })
}
