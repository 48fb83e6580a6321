//! Where moves stand among the tokens of proofs.

use crate::proof::tokens::token;
use mm_base::Token;
use mm_places::{move_place, move_places};
use std::alloc::{AllocError, Global};
use std::process::Abort;
use std::test::Fail;

/// Whether the moves of the tokens stand at these places, and there are no more: asked for one by
/// one, and all at once.
fn stand_at(
    alloc: Global,
    tokens: &[Token],
    places: &[(usize, usize)],
) -> Result<bool, AllocError> {
    let listed = move_places(alloc, tokens)?;
    for (number, place) in places.iter().enumerate() {
        if move_place(tokens, number) != Some(*place) || listed.get(number) != Some(place) {
            return Ok(false);
        }
    }
    Ok(listed.len() == places.len() && move_place(tokens, places.len()).is_none())
}

#[test]
fn places_in_a_normal_proof(rt: HostRuntime) -> Result<(), Fail> {
    let tokens = [token(b"tze"), token(b"tze"), token(b"tpl")];
    let answer = stand_at(rt.alloc(), &tokens, &[(0, 0), (1, 0), (2, 0)])?
        && stand_at(rt.alloc(), &[], &[])?;
    assert!(rt; answer);
    Ok(())
}

#[test]
fn places_in_a_compressed_proof(rt: HostRuntime) -> Result<(), Fail> {
    // The letters say 1, 1, 2, a mark, 24, 46 and 3: white space cuts the 46 apart.
    let tokens = [
        token(b"("),
        token(b"nil"),
        token(b"cat"),
        token(b")"),
        token(b"AAB"),
        token(b"ZUDV"),
        token(b"FC"),
    ];
    let places = [(4, 0), (4, 1), (4, 2), (5, 0), (5, 2), (6, 0), (6, 1)];
    let answer = stand_at(rt.alloc(), &tokens, &places)?;
    assert!(rt; answer);
    Ok(())
}

#[test]
fn no_places_behind_a_fault_of_letters(rt: HostRuntime) -> Result<(), Fail> {
    let unknown = [token(b"("), token(b")"), token(b"A?B")];
    let cut = [token(b"("), token(b")"), token(b"AU"), token(b"ZB")];
    let endless = [token(b"("), token(b"A")];
    let answer = stand_at(rt.alloc(), &unknown, &[(2, 0)])?
        && stand_at(rt.alloc(), &cut, &[(2, 0)])?
        && stand_at(rt.alloc(), &endless, &[])?;
    assert!(rt; answer);
    Ok(())
}
