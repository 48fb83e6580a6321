//! Where each move of a proof stands among its tokens, in one pass.

ghost use Rattle.std.specs.Prelude.{◌≡◌, ◌+◌, ◌≤◌, ◌++◌, ℕ, List, length, map, false, IfOk, OnOk};
ghost use Rattle.mm_frame.specs.Sentence.{Sentence};
ghost use Rattle.mm_step.specs.Moves.{Move};
ghost use Rattle.mm_step.specs.Plain.{token_texts};
ghost use Rattle.mm_proof.specs.Tokens.{BeginsList, IsNormal, SayMoves};
ghost use Rattle.mm_proof.specs.CheckedPrefix.{checked_prefix};
ghost use Rattle.mm_places.specs.Places.{AreMovePlaces};
ghost use Rattle.mm_places.specs.Mirror.CodePlaces.{ends, behind, ends_from};

use crate::places::{Sought, pass};
use mm_base::Token;
use mm_proof::{begins_list, closing_index};
use std::alloc::{AllocError, Global};

// Appends the places of the codes that end in a piece of the letters, which is the token with an
// index. Whether the letters end with leading digits behind it; None where they break a rule.
fn push_ends(
    places: &mut Vec<(usize, usize)>,
    token: usize,
    text: &[u8],
    digits: bool,
) -> Result<Option<bool>, AllocError>
    ensures places { OnOk result (places.new.items
        ≡ places.old.items ++ map (λ byte. (token, byte)) (ends 0 digits text.now)) }
    ensures digits { IfOk result (λ leads. leads ≡ behind 0 digits text.now) }
{
    let mut inside = digits;
    for (index, byte) in text.iter().enumerate() {
        match pass(index, 0, inside, *byte) {
            Sought::At(end) => {
                places.push((token, end))?;
                inside = false;
            }
            Sought::Behind(_, leads) => inside = leads,
            Sought::Nowhere => return Ok(None),
        }
    }
    Ok(Some(inside))
}

// Appends the places of the codes in the pieces of the letters, the first of which is the token with
// an index.
fn push_codes(
    places: &mut Vec<(usize, usize)>,
    pieces: &[Token],
    first: usize,
) -> Result<(), AllocError>
    requires { first + length pieces.now ≤ usize.MAX }
    ensures { OnOk result (places.new.items ≡ places.old.items
        ++ ends_from first false (token_texts pieces.now)) }
{
    let mut inside = false;
    let mut token = first;
    for piece in pieces {
        match push_ends(places, token, piece.text, inside)? {
            Some(leads) => inside = leads,
            None => return Ok(()),
        }
        token += 1;
    }
    Ok(())
}

// Where the moves of a compressed proof stand.
fn code_places(alloc: Global, tokens: &[Token]) -> Result<Vec<(usize, usize)>, AllocError>
    requires { BeginsList (token_texts tokens.now) }
    ensures { IfOk result (λ places. AreMovePlaces (token_texts tokens.now) places.items) }
{
    let mut places = Vec::new(alloc);
    let Some(closing) = closing_index(&tokens[1..]) else {
        return Ok(places);
    };
    push_codes(&mut places, &tokens[closing + 2..], closing + 2)?;
    Ok(places)
}

// Where the moves of a normal proof stand.
fn label_places(alloc: Global, tokens: &[Token]) -> Result<Vec<(usize, usize)>, AllocError>
    requires { IsNormal (token_texts tokens.now) }
    ensures { IfOk result (λ places. AreMovePlaces (token_texts tokens.now) places.items) }
{
    let mut places = Vec::new(alloc);
    for token in 0..tokens.len() {
        places.push((token, 0))?;
    }
    Ok(places)
}

// Where the moves of a proof stand, of either form.
fn places_of(alloc: Global, tokens: &[Token]) -> Result<Vec<(usize, usize)>, AllocError>
    ensures { IfOk result (λ places. AreMovePlaces (token_texts tokens.now) places.items) }
{
    if begins_list(tokens) {
        code_places(alloc, tokens)
    } else {
        label_places(alloc, tokens)
    }
}

/// Where each move stands, in their order: the index of the token and the byte in it. Up to the
/// place where letters break a rule.
///
/// # Errors
///
/// Where a growth was refused.
pub fn move_places(alloc: Global, tokens: &[Token]) -> Result<Vec<(usize, usize)>, AllocError>
    // They are the places of the moves, all of them.
    ensures places { IfOk result (λ places. AreMovePlaces (token_texts tokens.now) places.items) }

    // So each move that the tokens say has one.
    ensures said { IfOk result (λ places. (before : List Sentence) (s : Sentence)
        (moves : List (Move (List ℕ))) → SayMoves before s (token_texts tokens.now) moves
        → length moves ≤ length places.items) }

    // So has each move of the checked prefix of an incomplete proof.
    ensures known_said { IfOk result (λ places. (before : List Sentence) (s : Sentence)
        (moves : List (Move (List ℕ)))
        → SayMoves before s (checked_prefix (token_texts tokens.now)) moves
        → length moves ≤ length places.items) }
{
    let places = places_of(alloc, tokens)?;
    Ok(places)
}
