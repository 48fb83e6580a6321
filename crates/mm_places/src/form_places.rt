//! Where among its tokens a proof hasn't the strict form.

ghost use Rattle.std.specs.Prelude.{◌≡◌, ◌<◌, ℕ, List, Contains, All, length, take, IfOk, OnOk};
ghost use Rattle.mm_code.specs.Letters.{HasSpelling};
ghost use Rattle.mm_frame.specs.Sentence.{Sentence};
ghost use Rattle.mm_step.specs.Moves.{Move};
ghost use Rattle.mm_proof.specs.Parsed.{OfProof};
ghost use Rattle.mm_places.specs.Places.{IsMovePlace};
ghost use Rattle.mm_step.specs.Plain.{ids_in, token_texts};
ghost use Rattle.mm_proof.specs.Proof.{IsWhole};
ghost use Rattle.mm_step.specs.Steps.{IsProofNumber};
ghost use Rattle.mm_proof.specs.Strict.{IsStrict};
ghost use Rattle.mm_proof.specs.Tokens.{IsCompressed, SayMoves};
ghost use Rattle.mm_places.specs.WholePlaces.{IsFormPlace};
ghost use Rattle.mm_proof.specs.Mirror.CodeForm.{IsLooseBy};
ghost use Rattle.mm_proof.specs.Mirror.CodeSteps.{IsReading, AreFor, moves_of};
ghost use Rattle.mm_step.specs.Mirror.Sites.{IsSite};

use crate::places::move_place;
use mm_base::Token;
use mm_frame::{Book, LabelId};
use mm_proof::{Loose, ParseLists, fill_steps, first_loose};
use mm_step::{Profile, ProofFault, Site};
use std::alloc::{AllocError, Global};

// Fills the lists with what says the moves of the tokens, which break none of P1 to P5.
fn fill_whole<'a>(
    lists: &mut ParseLists<'a>,
    site: &Site,
    tokens: &[Token<'a>],
) -> Result<(), AllocError>
    requires { IsWhole (take site.now.index site.now.statements) (token_texts tokens.now) }
    ensures read { OnOk result (IsReading site.now.statements site.now.index
        (token_texts tokens.now) (moves_of lists.new.entries.items lists.new.codes.items)) }
    ensures spelled { OnOk result (All HasSpelling lists.new.codes.items) }
    ensures listed { OnOk result ((labels letters : List (List ℕ))
        → IsCompressed (token_texts tokens.now) labels letters
        → AreFor site.now.statements site.now.index (ids_in lists.new.ids.items) labels) }
{
    match fill_steps(lists, site, tokens) {
        Ok(()) => Ok(()),
        Err(ProofFault::Memory) => Err(AllocError),
        // They break none of them.
        Err(ProofFault::Rule { .. }) => unreachable!(),
    }
}

// Where the move with a number stands, which the tokens say.
fn said_place(tokens: &[Token], number: usize) -> (usize, usize)
    requires { (before : List Sentence) × (s : Sentence) × (moves : List (Move (List ℕ)))
        × SayMoves before s (token_texts tokens.now) moves × (number < length moves) }
    ensures { IsMovePlace (token_texts tokens.now) number result.0 result.1 }
{
    match move_place(tokens, number) {
        Some(place) => place,
        // Each move that the tokens say stands among them.
        None => unreachable!(),
    }
}

// Where that stands which keeps the tokens from the strict form first.
fn loose_place(tokens: &[Token], loose: Loose) -> (usize, usize)
    requires { (before : List Sentence) × (s : Sentence)
        × IsLooseBy before s (token_texts tokens.now) loose }
    ensures { (before : List Sentence) (s : Sentence)
        → IsLooseBy before s (token_texts tokens.now) loose
        → IsFormPlace before s (token_texts tokens.now) result.0 result.1 }
{
    match loose {
        Loose::Label(index) => (index + 1, 0),
        Loose::Mark(number) => said_place(tokens, number),
    }
}

// Where the tokens, which break none of P1 to P5, haven't the strict form. The lists are filled.
fn place_with<'a>(
    alloc: Global,
    lists: &mut ParseLists<'a>,
    site: &Site,
    tokens: &[Token<'a>],
) -> Result<(usize, usize), AllocError>
    requires site { IsSite site.now }
    requires loose { OfProof site.now.statements site.now.number (λ index s.
        IsWhole (take index site.now.statements) (token_texts tokens.now)
        × ¬ (IsStrict (take index site.now.statements) s (token_texts tokens.now))) }
    ensures { IfOk result (λ place. OfProof site.now.statements site.now.number (λ index s.
        IsFormPlace (take index site.now.statements) s (token_texts tokens.now)
        place.0 place.1)) }
{
    fill_whole(lists, site, tokens)?;
    let found = first_loose(
        alloc,
        site,
        tokens,
        &lists.ids,
        &lists.entries,
        &lists.codes,
    )?;
    match found {
        Some(loose) => Ok(loose_place(tokens, loose)),
        // Something keeps them from it.
        None => unreachable!(),
    }
}

/// Where the tokens, as a proof of the `$p` with this number that breaks none of P1 to P5, haven't
/// the strict form: the index of the token, and the byte in it.
pub(crate) fn form_place(
    alloc: Global,
    book: &Book,
    id: LabelId,
    tokens: &[Token],
) -> Result<(usize, usize), AllocError>
    requires proof { (index : ℕ) × (s : Sentence) × IsProofNumber book.now.statements id.0 index s }
    requires loose { OfProof book.now.statements id.0 (λ index s.
        IsWhole (take index book.now.statements) (token_texts tokens.now)
        × ¬ (IsStrict (take index book.now.statements) s (token_texts tokens.now))) }
    ensures { IfOk result (λ place. OfProof book.now.statements id.0 (λ index s.
        IsFormPlace (take index book.now.statements) s (token_texts tokens.now)
        place.0 place.1)) }
{
    let site = Site::new(book, id, Profile::Strict);
    let mut lists = ParseLists::new(alloc);
    place_with(alloc, &mut lists, &site, tokens)
}
