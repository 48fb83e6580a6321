//! The lines of a listing that tells where each step stands and its letters.

ghost use Rattle.std.specs.Prelude.{◌≡◌, ◌<◌, ◌≤◌, ◌++◌, ℕ, List, length, map, OnOk, IfOk};
ghost use Rattle.std.specs.List.{sum_by, AllZip};
ghost use Rattle.mm_base.specs.MostBytes.{most_bytes};
ghost use Rattle.mm_base.specs.Token.{plain_token};
ghost use Rattle.mm_text.specs.Files.{plain_file};
ghost use Rattle.mm_frame.specs.Sentence.{Sentence};
ghost use Rattle.mm_step.specs.Moves.{Move, steps_in};
ghost use Rattle.mm_step.specs.Plain.{token_texts};
ghost use Rattle.mm_proof.specs.Tokens.{SayMoves};
ghost use Rattle.mm_listing.specs.Listing.{ListedStep, TellsStep};
ghost use Rattle.mm_places.specs.Places.{AreMovePlaces};
ghost use Rattle.mm_places.specs.StepLetters.{AreStepLetters};
ghost use Rattle.mm_facts.specs.Explained.{judged_tokens};
ghost use Rattle.mm_facts.specs.Lettered.{letters_text, AreLetteredLines};
ghost use Rattle.mm_facts.specs.StepTexts.{position_text};
ghost use Rattle.mm_facts.specs.Mirror.Lettered.{line_text, HaveStepLetters};

use crate::step_texts::{position_of_move, push_called, push_position};
use mm_base::{File, Token};
use mm_frame::Book;
use mm_listing::Line;
use mm_places::{StepLetters, letters_of_steps, move_places};
use mm_proof::{checked_prefix, is_incomplete};
use mm_rules::{LineCount, push_decimal, push_symbols};
use std::alloc::{AllocError, Global};

/// The letters, and `-` for none.
fn push_letters(out: &mut Vec<u8>, letters: &[u8]) -> Result<(), AllocError>
    ensures { OnOk result (out.new.items ≡ out.old.items ++ letters_text letters.now) }
{
    if letters.is_empty() {
        out.push(b'-')?;
        Ok(())
    } else {
        out.extend_from_slice(letters)
    }
}

/// The line of the step with a number, which stands at a position and has these letters.
fn push_lettered(
    out: &mut Vec<u8>,
    counted: &mut LineCount,
    book: &Book,
    number: usize,
    position: (usize, usize),
    letters: &[u8],
    line: &Line,
) -> Result<(), AllocError>
    requires { (step : ListedStep) × TellsStep book.now.statements line.now step }
    ensures text { OnOk result ((step : ListedStep) → TellsStep book.now.statements line.now step
        → out.new.items ≡ out.old.items
        ++ line_text counted.old number position letters.now step) }
    ensures files { counted.new ≡ counted.old }
{
    push_decimal(out, number)?;
    out.push(b' ')?;
    push_position(out, counted, position.0, position.1)?;
    out.push(b' ')?;
    push_letters(out, letters)?;
    out.push(b' ')?;
    push_called(out, book, line.name)?;
    push_symbols(out, book, &line.expression)?;
    out.push(b'\n')?;
    Ok(())
}

/// The steps that the tokens say, as far as they are known, with their letters.
fn judged_letters(alloc: Global, tokens: &[Token]) -> Result<Vec<StepLetters>, AllocError>
    requires { (before : List Sentence) × (s : Sentence) × (moves : List (Move (List ℕ)))
        × SayMoves before s (judged_tokens (token_texts tokens.now)) moves }
    ensures { IfOk result (λ steps.
        AreStepLetters (judged_tokens (token_texts tokens.now)) steps.items) }
{
    if is_incomplete(tokens) {
        let prefix = checked_prefix(alloc, tokens)?;
        letters_of_steps(alloc, &prefix)
    } else {
        letters_of_steps(alloc, tokens)
    }
}

/// The text of these lines, which are of the first of these steps.
fn text_of(
    alloc: Global,
    files: &[File],
    book: &Book,
    tokens: &[Token],
    places: &[(usize, usize)],
    steps: &[StepLetters],
    lines: &[Line],
) -> Result<Vec<u8>, AllocError>
    requires room { sum_by length (token_texts tokens.now) ≤ most_bytes }
    requires places { AreMovePlaces (token_texts tokens.now) places.now }
    requires steps { HaveStepLetters (token_texts tokens.now) (length places.now) steps.now }
    requires many { length lines.now ≤ length steps.now }
    requires lines { (told : List ListedStep) × AllZip (TellsStep book.now.statements) lines.now told }
    ensures { IfOk result (λ text. (told : List ListedStep)
        → AllZip (TellsStep book.now.statements) lines.now told
        → AreLetteredLines (map plain_file files.now) (map plain_token tokens.now) told
        text.items) }
{
    let mut counted = LineCount::new(files);
    let mut out = Vec::new(alloc);
    for at in 0..lines.len() {
        let step = &steps[at];
        let position = position_of_move(tokens, places, step.index);
        let letters = &step.letters;
        push_lettered(
            &mut out,
            &mut counted,
            book,
            at + 1,
            position,
            letters,
            &lines[at],
        )?;
    }
    Ok(out)
}

/// The text of these lines, which are of the first steps that the tokens in the files say, as far as
/// they are known: each with its place and its letters.
///
/// # Errors
///
/// Where a growth was refused.
pub fn lettered_text(
    alloc: Global,
    files: &[File],
    book: &Book,
    tokens: &[Token],
    lines: &[Line],
) -> Result<Vec<u8>, AllocError>
    requires room { sum_by length (token_texts tokens.now) ≤ most_bytes }
    requires said { (before : List Sentence) × (s : Sentence) × (moves : List (Move (List ℕ)))
        × SayMoves before s (judged_tokens (token_texts tokens.now)) moves
        × (length lines.now ≤ steps_in moves) }
    requires lines { (told : List ListedStep) × AllZip (TellsStep book.now.statements) lines.now told }
    ensures { IfOk result (λ text. (told : List ListedStep)
        → AllZip (TellsStep book.now.statements) lines.now told
        → AreLetteredLines (map plain_file files.now) (map plain_token tokens.now) told
        text.items) }
{
    let places = move_places(alloc, tokens)?;
    let steps = judged_letters(alloc, tokens)?;
    text_of(alloc, files, book, tokens, &places, &steps, lines)
}
