//! The line of an assertion.

ghost use Rattle.std.specs.Prelude.{◌≡◌, ◌++◌, ℕ, List, length, OnOk};
ghost use Rattle.mm_base.specs.Statement.{keyword_of};
ghost use Rattle.mm_code.specs.Layout.{texts};
ghost use Rattle.mm_frame.specs.Sentence.{IsAssertion};
ghost use Rattle.mm_rules.specs.Shown.{symbols_text};
ghost use Rattle.mm_find.specs.Found.{line_of, premises};
ghost use Rattle.mm_find.specs.Found.{sign_before as sign_before_others};
ghost use Rattle.mm_find.specs.Plain.{expressions_in, plain_assertion};

use crate::assertion::Assertion;
use mm_base::Kind;
use mm_rules::push_word;
use std::alloc::AllocError;

/// The keyword of an assertion.
fn keyword(kind: Kind) -> &'static [u8]
    requires { IsAssertion kind }
    ensures { result.now ≡ keyword_of kind }
{
    match kind {
        Kind::Axiom => b"$a",
        _ => b"$p",
    }
}

/// Appends a space and the word, for each of these words.
pub fn push_words(out: &mut Vec<u8>, words: &[&[u8]]) -> Result<(), AllocError>
    ensures { OnOk result (out.new.items ≡ out.old.items ++ symbols_text (texts words.now)) }
{
    for word in words {
        push_word(out, word)?;
    }
    Ok(())
}

/// What stands behind a hypothesis before so many others.
fn sign_before(count: usize) -> &'static [u8]
    ensures { (others : List (List (List ℕ))) → length others ≡ count
        → result.now ≡ sign_before_others others }
{
    if count == 0 { b"=>" } else { b"&" }
}

/// Appends the words of hypotheses, each with its sign behind it.
pub fn push_premises(out: &mut Vec<u8>, hypotheses: &[Vec<&[u8]>]) -> Result<(), AllocError>
    ensures { OnOk result (out.new.items
        ≡ out.old.items ++ symbols_text (premises (expressions_in hypotheses.now))) }
{
    for at in 0..hypotheses.len() {
        push_words(out, &hypotheses[at])?;
        push_word(out, sign_before(hypotheses.len() - at - 1))?;
    }
    Ok(())
}

/// Appends the line of an assertion.
pub(crate) fn push_line(out: &mut Vec<u8>, assertion: &Assertion) -> Result<(), AllocError>
    requires { IsAssertion assertion.now.kind }
    ensures { OnOk result (out.new.items
        ≡ out.old.items ++ line_of (plain_assertion assertion.now)) }
{
    out.extend_from_slice(assertion.label)?;
    push_word(out, keyword(assertion.kind))?;
    push_word(out, b":")?;
    push_premises(out, &assertion.hypotheses)?;
    push_words(out, &assertion.expression)?;
    out.push(b'\n')?;
    Ok(())
}
