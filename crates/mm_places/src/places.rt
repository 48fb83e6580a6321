//! Where a move of a proof stands among its tokens.

ghost use Rattle.std.specs.Prelude.{◌≡◌, ◌<◌, ◌∷◌, ℕ, List, length, false, IfSome, Some};
ghost use Rattle.mm_frame.specs.Sentence.{Sentence};
ghost use Rattle.mm_step.specs.Moves.{Move};
ghost use Rattle.mm_step.specs.Plain.{token_texts};
ghost use Rattle.mm_proof.specs.Tokens.{opening_token, SayMoves};
ghost use Rattle.mm_proof.specs.CheckedPrefix.{checked_prefix};
ghost use Rattle.mm_places.specs.Places.{IsMovePlace};
ghost use Rattle.mm_places.specs.Mirror.CodePlaces.{ended as ended_at, passed, sought, place_in};

use mm_base::Token;
use mm_proof::{begins_list, closing_index};

/// What is found of a code that is sought among letters.
#[derive(Clone, Copy)]
pub(crate) enum Sought {
    /// The byte at this index ends it.
    At(usize),
    /// It is behind these letters: so many codes end before it, and whether the letters end with
    /// leading digits.
    Behind(usize, bool),
    /// The letters break a rule before it.
    Nowhere,
}

// What a byte that ends a code is, where so many codes end before the one that is sought.
fn ended(index: usize, left: usize) -> Sought
    ensures { result ≡ ended_at index left }
{
    if left == 0 {
        Sought::At(index)
    } else {
        Sought::Behind(left - 1, false)
    }
}

/// Passes a letter, behind leading digits or not.
#[tactic(auto, using(crate::proofs::ProofPlaces::MovePlaces::passing_steps))]
pub(crate) fn pass(index: usize, left: usize, inside: bool, byte: u8) -> Sought
    ensures { result ≡ passed index left inside byte }
{
    match byte {
        b'A'..=b'T' => ended(index, left),
        b'U'..=b'Y' => Sought::Behind(left, true),
        b'Z' if !inside => ended(index, left),
        _ => Sought::Nowhere,
    }
}

// Seeks the code in a piece of the letters.
fn seek(piece: &[u8], codes: usize, digits: bool) -> Sought
    ensures { result ≡ sought 0 codes digits piece.now }
{
    let mut left = codes;
    let mut inside = digits;
    for (index, byte) in piece.iter().enumerate() {
        match pass(index, left, inside, *byte) {
            Sought::Behind(next, leads) => (left, inside) = (next, leads),
            found => return found,
        }
    }
    Sought::Behind(left, inside)
}

// The piece of the letters in which the code with a number ends, and the byte in it.
fn code_place(pieces: &[Token], number: usize) -> Option<(usize, usize)>
    ensures { result ≡ place_in 0 number false (token_texts pieces.now) }
{
    let mut left = number;
    let mut inside = false;
    for (index, piece) in pieces.iter().enumerate() {
        match seek(piece.text, left, inside) {
            Sought::At(byte) => return Some((index, byte)),
            Sought::Behind(next, leads) => (left, inside) = (next, leads),
            Sought::Nowhere => return None,
        }
    }
    None
}

// Where the move with a number of a compressed proof, whose tokens after the `(` are these, stands.
fn compressed_place(rest: &[Token], number: usize) -> Option<(usize, usize)>
    ensures place { IfSome result (λ place.
        IsMovePlace (opening_token ∷ token_texts rest.now) number place.0 place.1) }
    ensures found { (token byte : ℕ)
        → IsMovePlace (opening_token ∷ token_texts rest.now) number token byte
        → result ≡ Some (token, byte) }
{
    let closing = closing_index(rest)?;
    let (piece, byte) = code_place(&rest[closing + 1..], number)?;
    Some((closing + 2 + piece, byte))
}

// Where the move with a number stands.
fn place_of(tokens: &[Token], number: usize) -> Option<(usize, usize)>
    ensures place { IfSome result (λ place.
        IsMovePlace (token_texts tokens.now) number place.0 place.1) }
    ensures found { (token byte : ℕ) → IsMovePlace (token_texts tokens.now) number token byte
        → result ≡ Some (token, byte) }
{
    match tokens {
        [_, rest @ ..] if begins_list(tokens) => compressed_place(rest, number),
        _ if number < tokens.len() => Some((number, 0)),
        _ => None,
    }
}

/// Where the move with a number, from 0 on, stands: the index of the token and the byte in it. None
/// where the tokens have no such move.
pub fn move_place(tokens: &[Token], number: usize) -> Option<(usize, usize)>
    // What is found is where the move stands, and it is found where it stands anywhere.
    ensures place { IfSome result (λ place.
        IsMovePlace (token_texts tokens.now) number place.0 place.1) }
    ensures found { (token byte : ℕ) → IsMovePlace (token_texts tokens.now) number token byte
        → result ≡ Some (token, byte) }

    // Each move that the tokens say is found.
    ensures said { (before : List Sentence) → (s : Sentence) → (moves : List (Move (List ℕ)))
        → SayMoves before s (token_texts tokens.now) moves → number < length moves
        → (token : ℕ) × (byte : ℕ) × (result ≡ Some (token, byte)) }

    // So is each move of the checked prefix of an incomplete proof, where it stands in the prefix.
    ensures known { (token byte : ℕ)
        → IsMovePlace (checked_prefix (token_texts tokens.now)) number token byte
        → result ≡ Some (token, byte) }
    ensures known_said { (before : List Sentence) → (s : Sentence) → (moves : List (Move (List ℕ)))
        → SayMoves before s (checked_prefix (token_texts tokens.now)) moves → number < length moves
        → (token : ℕ) × (byte : ℕ) × (result ≡ Some (token, byte)) }
{
    place_of(tokens, number)
}
