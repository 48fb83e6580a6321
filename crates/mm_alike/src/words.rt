//! The words of a proof in the bytes of its file.

ghost use Rattle.std.specs.Prelude.{◌≡◌, ◌≤◌, ◌++◌, ◌∷◌, ℕ, List, [], length, IfOk, OnOk, false};
ghost use Rattle.std.specs.List.{sum_by};
ghost use Rattle.mm_base.specs.MostBytes.{most_bytes};
ghost use Rattle.mm_base.specs.Spelling.{spells};
ghost use Rattle.mm_base.specs.Statement.{plain_statement};
ghost use Rattle.mm_code.specs.Words.{tokens_in};
ghost use Rattle.mm_rules.specs.Verdict.{proof_of};
ghost use Rattle.mm_alike.specs.Mirror.Homes.{words_outside};

use mm_base::{Statement, Token};
use mm_verdict::tokens_of;
use std::alloc::{AllocError, Global};

/// Adds a word to the proof of a statement.
fn push_proof<'a>(statement: &mut Statement<'a>, word: &'a [u8]) -> Result<(), AllocError>
    ensures { OnOk result (proof_of (plain_statement statement.new)
        ≡ proof_of (plain_statement statement.old) ++ word.entry.now ∷ []) }
{
    statement.proof.push(Token {
        text: word,
        file: 0,
        at: 0,
    })?;
    Ok(())
}

/// Adds a word to the proof of a statement where it stands outside comments, and tells whether a
/// comment is open after it.
fn take_word<'a>(
    statement: &mut Statement<'a>,
    is_open: bool,
    word: &'a [u8],
) -> Result<bool, AllocError>
    ensures { IfOk result (λ later. (others : List (List ℕ))
        → proof_of (plain_statement statement.old)
        ++ words_outside is_open (word.entry.now ∷ others)
        ≡ proof_of (plain_statement statement.new) ++ words_outside later others) }
{
    if is_open {
        return Ok(word != b"$)".as_slice());
    }
    if word == b"$(".as_slice() {
        return Ok(true);
    }
    push_proof(statement, word)?;
    Ok(false)
}

/// A statement whose proof is that in these bytes: their words outside comments.
pub(crate) fn proof_in<'a>(alloc: Global, bytes: &'a [u8]) -> Result<Statement<'a>, AllocError>
    requires { length bytes.now ≤ most_bytes }
    ensures { IfOk result (λ statement. proof_of (plain_statement statement)
        ≡ words_outside false (tokens_in bytes.now)) }
{
    let words = tokens_of(alloc, bytes)?;
    let mut statement = Statement::empty(alloc);
    let mut is_open = false;
    for word in &words {
        is_open = take_word(&mut statement, is_open, *word)?;
    }
    Ok(statement)
}
