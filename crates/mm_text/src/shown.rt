//! What stands in one text outside comments.

ghost use Rattle.std.specs.Prelude.{◌≡◌, ◌≤◌, IfOk, length, map, option_map, sum_by};
ghost use Rattle.mm_base.specs.MostBytes.{most_bytes};
ghost use Rattle.mm_base.specs.Token.{plain_token};
ghost use Rattle.mm_text.specs.Shown.{broken_at, clear_tokens, first_broken, shown_in};

use crate::comments::{Position, Wrong, take_token};
use mm_base::Token;
use std::alloc::{AllocError, Global};

/// What stands in a text outside comments: the tokens up to the first fault, and that fault.
#[derive(Drop)]
pub struct ShownTokens<'a> {
    pub tokens: Vec<Token<'a>>,
    pub fault: Option<Wrong<'a>>,
}

/// The tokens of a text outside comments, up to the first fault of the rules X1 to X4: of X4 that a
/// `$)` stands outside a comment. The number of the file is 0 in each token.
pub fn shown_tokens<'a>(alloc: Global, text: &'a [u8]) -> Result<ShownTokens<'a>, AllocError>
    requires { length text.now ≤ most_bytes }
    ensures tokens { IfOk result (λ shown. map plain_token shown.tokens.items
        ≡ clear_tokens (shown_in text.now)) }
    ensures fault { IfOk result (λ shown. option_map broken_at shown.fault
        ≡ first_broken (shown_in text.now)) }
    ensures room { IfOk result (λ shown. sum_by length (map (λ t. t.text.now) shown.tokens.items)
        ≤ length text.now) }
{
    let mut position = Position::begin(text, 0);
    let mut tokens = Vec::new(alloc);
    'tokens: loop {
        match take_token(&mut position) {
            Ok(Some((token, _))) => tokens.push(token)?,
            Ok(None) => {
                return Ok(ShownTokens {
                    tokens,
                    fault: None,
                });
            }
            Err(wrong) => {
                return Ok(ShownTokens {
                    tokens,
                    fault: Some(wrong),
                });
            }
        }
    }
}
