//! Explains P9: which entry has another type than its `$f`, and the types of all.

ghost use Rattle.std.specs.Prelude.{◌≡◌, ◌↔◌, ◌++◌, List, length, map, take, slice_get, Some};
ghost use Rattle.std.specs.Prelude.{IsTrue, MatchOption, OnOk, IfOk};
ghost use Rattle.std.specs.List.{flat_map};
ghost use Rattle.mm_frame.specs.Sentence.{Sentence};
ghost use Rattle.mm_frame.specs.Numbers.{AreNumbers};
ghost use Rattle.mm_step.specs.Stores.{numbers_in, entries_in};
ghost use Rattle.mm_step.specs.Mirror.CodeVerify.{AreHypothesesOf};
ghost use Rattle.mm_facts.specs.Explained.{type_codes};
ghost use Rattle.mm_facts.specs.Mirror.Explaining.{HasOwnCode, HasOtherCode, HaveOwnCodes};
ghost use Rattle.mm_facts.specs.Mirror.Explaining.{IsFirstOfOtherCode};

use mm_frame::{Book, Hypothesis, Sym};
use std::alloc::{AllocError, Global};

/// Whether the expression begins with the symbol.
fn begins_with(expression: &[Sym], symbol: Sym) -> bool
    ensures { IsTrue result ↔ (slice_get (numbers_in expression.now) 0 ≡ Some symbol.0) }
{
    match expression {
        [first, ..] => first.0 == symbol.0,
        [] => false,
    }
}

/// The type code of the hypothesis, if it is a `$f` and the entry has another one.
fn other_code(hypothesis: &Hypothesis, entry: &[Sym]) -> Option<Sym>
    ensures { MatchOption
        result
        (HasOwnCode hypothesis.now.typing (numbers_in entry.now))
        (λ code. HasOtherCode hypothesis.now.typing (numbers_in entry.now) code) }
{
    match hypothesis.typing {
        Some((code, _)) if !begins_with(entry, code) => Some(code),
        _ => None,
    }
}

/// The index of the first `$f` whose entry has another type code, and its own.
pub(crate) fn first_of_other_type(
    hypotheses: &[Hypothesis],
    entries: &[&[Sym]],
) -> Option<(usize, Sym)>
    requires { length hypotheses.now ≡ length entries.now }
    ensures { MatchOption
        result
        (HaveOwnCodes hypotheses.now (entries_in entries.now) (length hypotheses.now))
        (λ found. IsFirstOfOtherCode hypotheses.now (entries_in entries.now) found.0 found.1) }
{
    for index in 0..hypotheses.len() {
        if let Some(code) = other_code(&hypotheses[index], entries[index]) {
            return Some((index, code));
        }
    }
    None
}

/// Appends the type code of the expression, its first symbol.
fn push_code(codes: &mut Vec<Sym>, expression: &[Sym]) -> Result<(), AllocError>
    ensures { OnOk result (numbers_in codes.new.items
        ≡ numbers_in codes.old.items ++ take 1 (numbers_in expression.now)) }
{
    match expression {
        [code, ..] => {
            codes.push(*code)?;
            Ok(())
        }
        [] => Ok(()),
    }
}

/// The type codes of the hypotheses.
pub(crate) fn codes_taken(
    alloc: Global,
    book: &Book,
    hypotheses: &[Hypothesis],
) -> Result<Vec<Sym>, AllocError>
    ensures { IfOk result (λ codes. (stated : List Sentence)
        → AreHypothesesOf book.now.statements (map (λ h. h.id.0) hypotheses.now) stated
        → AreNumbers book.now.statements (numbers_in codes.items)
        (type_codes (map (λ h. h.symbols) stated))) }
{
    let mut codes = Vec::new(alloc);
    for hypothesis in hypotheses {
        push_code(&mut codes, book.expression(hypothesis.id))?;
    }
    Ok(codes)
}

/// The type codes of the entries.
pub(crate) fn codes_given(alloc: Global, entries: &[&[Sym]]) -> Result<Vec<Sym>, AllocError>
    ensures { IfOk result (λ codes. numbers_in codes.items
        ≡ flat_map (take 1) (entries_in entries.now)) }
{
    let mut codes = Vec::new(alloc);
    for entry in entries {
        push_code(&mut codes, entry)?;
    }
    Ok(codes)
}
