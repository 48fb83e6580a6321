//! How the steps of a proof are told.

ghost use Rattle.std.specs.Prelude.{◌≤◌, ℕ, List, map, length, take, None, IfOk, IfErr};
ghost use Rattle.std.specs.List.{sum_by, AllZip};
ghost use Rattle.mm_base.specs.MostBytes.{most_bytes};
ghost use Rattle.mm_base.specs.Statement.{PlainStatement};
ghost use Rattle.mm_base.specs.Token.{plain_token};
ghost use Rattle.mm_text.specs.Files.{plain_file};
ghost use Rattle.mm_text.specs.Reading.{Reads};
ghost use Rattle.mm_frame.specs.Sentence.{Sentence};
ghost use Rattle.mm_step.specs.Moves.{Move, steps_in};
ghost use Rattle.mm_step.specs.Plain.{token_texts};
ghost use Rattle.mm_step.specs.Profiles.{limit_of};
ghost use Rattle.mm_step.specs.Proof.{IsWithin};
ghost use Rattle.mm_step.specs.Steps.{AreSteps, IsProofNumber};
ghost use Rattle.mm_proof.specs.CheckedPrefix.{Pass};
ghost use Rattle.mm_proof.specs.Parsed.{OfProof, SaySteps};
ghost use Rattle.mm_proof.specs.Tokens.{SayMoves};
ghost use Rattle.mm_proof.specs.Verified.{OfMoves};
ghost use Rattle.mm_listing.specs.Listing.{ListedStep, TellsStep};
ghost use Rattle.mm_rules.specs.Rests.{IsAskFault};
ghost use Rattle.mm_verdict.specs.declared.question.Telling.TheVariants.{Letters};
ghost use Rattle.mm_facts.specs.Explained.{judged_tokens};
ghost use Rattle.mm_check.specs.Told.{IsTextOfMoves, ListsMoves, TellsProof, TellsSteps};

use mm_base::{File, Token};
use mm_facts::lettered_text;
use mm_frame::{Book, LabelId};
use mm_listing::{Line, lines_before};
use mm_proof::Steps;
use mm_render::{lines_of, text_of, uses_text};
use mm_rules::AskFault;
use mm_verdict::reread::reread;
use mm_verdict::{Checked, Telling};
use std::alloc::{AllocError, Global};

/// The text that tells these lines, which are of the first steps that the tokens in the files say,
/// as far as they are known; if so it is said, with their places and letters.
fn told_text(
    alloc: Global,
    files: &[File],
    book: &Book,
    tokens: &[Token],
    lines: &[Line],
    lettered: bool,
) -> Result<Vec<u8>, AllocError>
    requires room { sum_by length (token_texts tokens.now) ≤ most_bytes }
    requires said { (before : List Sentence) × (s : Sentence) × (moves : List (Move (List ℕ)))
        × SayMoves before s (judged_tokens (token_texts tokens.now)) moves
        × (length lines.now ≤ steps_in moves) }
    requires lines { (steps : List ListedStep)
        × AllZip (TellsStep book.now.statements) lines.now steps }
    ensures { IfOk result (λ text. (steps : List ListedStep)
        → AllZip (TellsStep book.now.statements) lines.now steps
        → TellsSteps lettered (map plain_file files.now) (map plain_token tokens.now) steps
        text.items) }
{
    if lettered {
        lettered_text(alloc, files, book, tokens, lines)
    } else {
        text_of(alloc, book, lines)
    }
}

/// The text that lists the steps among so many first moves of the `$p` with this number, which pass
/// and which the tokens in the files say; if so it is said, with their places and letters.
fn listed_before(
    alloc: Global,
    files: &[File],
    book: &Book,
    id: LabelId,
    tokens: &[Token],
    steps: &Steps,
    front: (usize, bool),
) -> Result<Vec<u8>, AllocError>
    requires proof { (index : ℕ) × (s : Sentence) × IsProofNumber book.now.statements id.0 index s }
    requires room { sum_by length (token_texts tokens.now) ≤ most_bytes }
    requires said { OfProof book.now.statements id.0 (λ index s.
        SaySteps book.now.statements index s (judged_tokens (token_texts tokens.now))
        steps.now.moves) }
    requires steps { AreSteps book.now.statements id.0 steps.now.moves }
    requires within { front.0 ≤ length steps.now.moves }
    requires pass { OfMoves book.now.statements id.0 steps.now.moves
        (λ index s moves. Pass (IsWithin (limit_of steps.now.profile))
        (take index book.now.statements) (take front.0 moves)) }
    ensures { IfOk result (λ text. OfMoves book.now.statements id.0 steps.now.moves
        (λ index s moves. ListsMoves front.1 (map plain_file files.now)
        (take index book.now.statements) (map plain_token tokens.now) (take front.0 moves)
        text.items)) }
{
    let lines = lines_before(alloc, book, id, steps, front.0)?;
    told_text(alloc, files, book, tokens, &lines, front.1)
}

/// The text that tells the steps among so many first moves of the `$p` with this number, which pass
/// and which the tokens in the files say.
pub(crate) fn told_before(
    alloc: Global,
    files: &[File],
    book: &Book,
    id: LabelId,
    tokens: &[Token],
    steps: &Steps,
    front: (usize, Telling),
) -> Result<Vec<u8>, AllocError>
    requires proof { (index : ℕ) × (s : Sentence) × IsProofNumber book.now.statements id.0 index s }
    requires room { sum_by length (token_texts tokens.now) ≤ most_bytes }
    requires said { OfProof book.now.statements id.0 (λ index s.
        SaySteps book.now.statements index s (judged_tokens (token_texts tokens.now))
        steps.now.moves) }
    requires steps { AreSteps book.now.statements id.0 steps.now.moves }
    requires within { front.0 ≤ length steps.now.moves }
    requires pass { OfMoves book.now.statements id.0 steps.now.moves
        (λ index s moves. Pass (IsWithin (limit_of steps.now.profile))
        (take index book.now.statements) (take front.0 moves)) }
    ensures { IfOk result (λ text. OfMoves book.now.statements id.0 steps.now.moves
        (λ index s moves. IsTextOfMoves front.1 (map plain_file files.now)
        (take index book.now.statements) (map plain_token tokens.now) (take front.0 moves)
        text.items)) }
{
    let passed = front.0;
    match front.1 {
        Telling::Steps => listed_before(alloc, files, book, id, tokens, steps, (passed, false)),
        Telling::Letters => listed_before(alloc, files, book, id, tokens, steps, (passed, true)),
        Telling::Uses { essential } => uses_text(alloc, book, id, steps, passed, essential),
    }
}

/// The listing of the proof of the `$p` with this label, with the place and the letters of each step.
pub(crate) fn lettered_listing(
    alloc: Global,
    checked: &Checked,
    label: &[u8],
) -> Result<Vec<u8>, AskFault>
    ensures told { IfOk result (λ text. (statements : List PlainStatement)
        → Reads checked.now.files statements None
        → TellsProof Letters checked.now.files statements label.now text.items) }
    ensures fault { IfErr result (λ fault. (statements : List PlainStatement)
        → Reads checked.now.files statements None → IsAskFault statements label.now fault) }
{
    let theorem = checked.read_theorem(alloc, label)?;
    let files = checked.files;
    let statement = reread(alloc, checked.book.seed(), files, label)?;
    let lines = lines_of(alloc, &checked.book, &theorem)?;
    let tokens = &statement.proof;
    Ok(lettered_text(alloc, files, &checked.book, tokens, &lines)?)
}
