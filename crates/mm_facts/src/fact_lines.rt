//! The lines of a report on a faulty proof, one for each fact.

ghost use Rattle.std.specs.Prelude.{◌≡◌, ◌≢◌, ◌<◌, ◌++◌, ◌+◌, ◌^◌, ℕ, length, decimal, OnOk, codes};
ghost use Rattle.std.specs.Prelude.{Some, None, IfSome, List, slice_get, map, filter, ◌∷◌, []};
ghost use Rattle.std.specs.List.{AllByRecursion, flat_map};
ghost use Rattle.mm_code.specs.Layout.{texts};
ghost use Rattle.mm_text.specs.Files.{plain_file};
ghost use Rattle.mm_base.specs.Token.{plain_token};
ghost use Rattle.mm_frame.specs.Numbers.{symbols_of};
ghost use Rattle.mm_step.specs.Stores.{numbers_in};
ghost use Rattle.mm_facts.specs.Explained.{detail_text, expression_line, difference_line};
ghost use Rattle.mm_facts.specs.Explained.{but_given_text, pair_asked, end_given, mark_text};
ghost use Rattle.mm_facts.specs.Explained.{symbol_at as symbol_there, is_alone as is_alone_in};
ghost use Rattle.mm_facts.specs.Explained.{replacement_text, replacements_text, unless_alone};
ghost use Rattle.mm_facts.specs.Explained.{token_at_fault, step_label, mark_asked, entry_counts};
ghost use Rattle.mm_facts.specs.Explained.{hypothesis_stated, entry_given, hypothesis_asks};
ghost use Rattle.mm_facts.specs.Explained.{most_symbols, missing_pair, step_lacks, shared_by_both};
ghost use Rattle.mm_facts.specs.Explained.{block_opened, near_labels, stated_at, block_ended_at};
ghost use Rattle.mm_facts.specs.Explained.{told_of};
ghost use Rattle.mm_near.specs.Near.{joined};
ghost use Rattle.mm_facts.specs.Explained.{hypothesis_at, type_asked, types_taken, details_text};
ghost use Rattle.mm_facts.specs.Explained.{missing_before};
ghost use Rattle.mm_facts.specs.Mirror.Explaining.{is_told};
ghost use Rattle.mm_facts.specs.MeaningFacts.{met_as};
ghost use Rattle.mm_rules.specs.Answer.{labels_at};
ghost use Rattle.mm_rules.specs.Places.{place_text, token_place};

use mm_base::{File, Token};
use mm_frame::{Book, MeaningRule, Sym};
use mm_rules::{Place, place_of, push_decimal, push_place, push_symbols};
use std::alloc::AllocError;

/// A word between two others.
#[tactic(auto, using(crate::proofs::DetailTexts::three_parts))]
fn push_between(
    out: &mut Vec<u8>,
    before: &[u8],
    word: &[u8],
    after: &[u8],
) -> Result<(), AllocError>
    ensures { OnOk result (out.new.items ≡ out.old.items
        ++ (before.now ++ word.now ++ after.now)) }
{
    out.extend_from_slice(before)?;
    out.extend_from_slice(word)?;
    out.extend_from_slice(after)
}

/// A number, in decimal, between two words.
#[tactic(auto, using(crate::proofs::DetailTexts::three_parts))]
fn push_number_between(
    out: &mut Vec<u8>,
    before: &[u8],
    number: usize,
    after: &[u8],
) -> Result<(), AllocError>
    ensures { OnOk result (out.new.items ≡ out.old.items
        ++ (before.now ++ decimal number ++ after.now)) }
{
    out.extend_from_slice(before)?;
    push_decimal(out, number)?;
    out.extend_from_slice(after)
}

/// The token at fault.
pub fn push_token(out: &mut Vec<u8>, text: &[u8]) -> Result<(), AllocError>
    ensures { OnOk result (out.new.items ≡ out.old.items ++ detail_text (token_at_fault text.now)) }
{
    push_between(out, b"  token: ", text, b"\n")
}

/// What is missing before the token at fault.
pub fn push_missing_before(out: &mut Vec<u8>, what: &[u8]) -> Result<(), AllocError>
    ensures { OnOk result (out.new.items ≡ out.old.items ++ detail_text (missing_before what.now)) }
{
    push_between(out, b"  missing before it: ", what, b"\n")
}

/// Names, each behind a comma.
fn push_others(out: &mut Vec<u8>, names: &[&[u8]]) -> Result<(), AllocError>
    ensures { OnOk result (out.new.items
        ≡ out.old.items ++ flat_map (λ name. codes ", " ++ name) (texts names.now)) }
{
    for name in names {
        out.extend_from_slice(b", ")?;
        out.extend_from_slice(name)?;
    }
    Ok(())
}

/// Names, with a comma between each two.
pub fn push_joined(out: &mut Vec<u8>, names: &[&[u8]]) -> Result<(), AllocError>
    ensures { OnOk result (out.new.items ≡ out.old.items ++ joined (texts names.now)) }
{
    let Some((first, others)) = names.split_first() else {
        return Ok(());
    };
    out.extend_from_slice(first)?;
    push_others(out, others)
}

/// The labels that are near to the token at fault.
#[tactic(auto, using(crate::proofs::DetailTexts::three_parts))]
fn push_near_line(out: &mut Vec<u8>, labels: &[&[u8]]) -> Result<(), AllocError>
    ensures { OnOk result (out.new.items
        ≡ out.old.items ++ detail_text (near_labels (texts labels.now))) }
{
    out.extend_from_slice(b"  near: ")?;
    push_joined(out, labels)?;
    out.extend_from_slice(b"\n")
}

/// The same, if there are such.
pub(crate) fn push_near(out: &mut Vec<u8>, labels: &[&[u8]]) -> Result<(), AllocError>
    ensures { OnOk result (out.new.items ≡ out.old.items
        ++ details_text (told_of (texts labels.now) (near_labels (texts labels.now) ∷ []))) }
{
    if labels.is_empty() {
        return Ok(());
    }
    push_near_line(out, labels)
}

/// The label of the step.
pub fn push_step(out: &mut Vec<u8>, label: &[u8]) -> Result<(), AllocError>
    ensures { OnOk result (out.new.items ≡ out.old.items ++ detail_text (step_label label.now)) }
{
    push_between(out, b"  step: ", label, b"\n")
}

/// The index, from 0 on, of the first mark whose number isn't told.
const UNTOLD: usize = 999_999_999;

/// The number of the mark with an index. A number of the proof that is too large for its type is
/// read as the largest one, so that of a large index only this is reported.
#[tactic(auto, using(crate::proofs::DetailTexts::mark_numbers))]
fn push_mark(out: &mut Vec<u8>, index: usize) -> Result<(), AllocError>
    ensures { OnOk result (out.new.items ≡ out.old.items ++ mark_text (index + 1)) }
{
    if index < UNTOLD {
        push_decimal(out, index + 1)
    } else {
        out.extend_from_slice(b"1000000000 or a later one")
    }
}

/// Which mark the step by a tag repeats, and how many there are.
#[tactic(auto, using(crate::proofs::DetailTexts::mark_parts))]
pub(crate) fn push_marks(out: &mut Vec<u8>, tag: usize, there: usize) -> Result<(), AllocError>
    ensures { OnOk result (out.new.items ≡ out.old.items
        ++ detail_text (mark_asked (tag + 1) there)) }
{
    out.extend_from_slice(b"  it repeats Z number ")?;
    push_mark(out, tag)?;
    push_number_between(out, b", and there are ", there, b"\n")
}

/// How many entries the step takes, and how many there are.
#[tactic(auto, using(crate::proofs::DetailTexts::five_parts))]
pub(crate) fn push_counts(out: &mut Vec<u8>, needed: usize, there: usize) -> Result<(), AllocError>
    ensures { OnOk result (out.new.items ≡ out.old.items
        ++ detail_text (entry_counts needed there)) }
{
    push_number_between(
        out,
        b"  entries it takes: ",
        needed,
        b", entries there are: ",
    )?;
    push_decimal(out, there)?;
    out.push(b'\n')?;
    Ok(())
}

/// Symbols, on a line of their own.
#[tactic(auto, using(crate::proofs::DetailTexts::three_parts))]
fn push_expression(out: &mut Vec<u8>, book: &Book, symbols: &[Sym]) -> Result<(), AllocError>
    requires { AllByRecursion (λ n. n < length (symbols_of book.now.statements))
        (numbers_in symbols.now) }
    ensures { OnOk result (out.new.items ≡ out.old.items
        ++ expression_line (labels_at (symbols_of book.now.statements) (numbers_in symbols.now))) }
{
    out.extend_from_slice(b"   ")?;
    push_symbols(out, book, symbols)?;
    out.push(b'\n')?;
    Ok(())
}

/// What a hypothesis states.
#[tactic(auto, using(crate::proofs::DetailTexts::two_parts))]
pub(crate) fn push_stated(
    out: &mut Vec<u8>,
    book: &Book,
    label: &[u8],
    stated: &[Sym],
) -> Result<(), AllocError>
    requires { AllByRecursion (λ n. n < length (symbols_of book.now.statements))
        (numbers_in stated.now) }
    ensures { OnOk result (out.new.items ≡ out.old.items
        ++ detail_text (hypothesis_stated label.now
        (labels_at (symbols_of book.now.statements) (numbers_in stated.now)))) }
{
    push_between(out, b"  ", label, b" states\n")?;
    push_expression(out, book, stated)
}

/// What a step gives.
#[tactic(auto, using(crate::proofs::DetailTexts::two_parts))]
pub(crate) fn push_given(
    out: &mut Vec<u8>,
    book: &Book,
    step: &[u8],
    given: &[Sym],
) -> Result<(), AllocError>
    requires { AllByRecursion (λ n. n < length (symbols_of book.now.statements))
        (numbers_in given.now) }
    ensures { OnOk result (out.new.items ≡ out.old.items
        ++ detail_text (entry_given step.now
        (labels_at (symbols_of book.now.statements) (numbers_in given.now)))) }
{
    push_between(out, b"  step ", step, b", gives\n")?;
    push_expression(out, book, given)
}

/// The index of the first symbol at which two expressions differ; none where they are the same.
fn difference(e: &[Sym], f: &[Sym]) -> Option<usize>
    ensures same { result ≡ None → numbers_in e.now ≡ numbers_in f.now }
    ensures differ { IfSome result (λ index. slice_get (numbers_in e.now) index
        ≢ slice_get (numbers_in f.now) index) }
    ensures room { IfSome result (λ index. index < usize.MAX) }
    ensures first { IfSome result (λ index. (i : ℕ) → i < index
        → slice_get (numbers_in e.now) i ≡ slice_get (numbers_in f.now) i) }
{
    for index in 0..e.len().min(f.len()) {
        if e[index].0 != f[index].0 {
            return Some(index);
        }
    }
    if e.len() == f.len() {
        None
    } else {
        Some(e.len().min(f.len()))
    }
}

/// The name of the symbol at an index.
#[tactic(auto, using(crate::proofs::DetailTexts::named))]
fn symbol_at<'a>(book: &Book<'a>, symbols: &[Sym], index: usize) -> &'a [u8]
    requires { AllByRecursion (λ n. n < length (symbols_of book.now.statements))
        (numbers_in symbols.now) }
    ensures { result.now ≡ symbol_there
        (labels_at (symbols_of book.now.statements) (numbers_in symbols.now)) index }
{
    if index < symbols.len() {
        book.name(symbols[index])
    } else {
        b"nothing"
    }
}

/// Where what is given differs from what is asked.
#[tactic(auto, using(crate::proofs::DetailTexts::three_groups))]
fn push_difference(
    out: &mut Vec<u8>,
    book: &Book,
    asked: &[Sym],
    given: &[Sym],
    index: usize,
) -> Result<(), AllocError>
    requires asked { AllByRecursion (λ n. n < length (symbols_of book.now.statements))
        (numbers_in asked.now) }
    requires given { AllByRecursion (λ n. n < length (symbols_of book.now.statements))
        (numbers_in given.now) }
    requires room { index < usize.MAX }
    ensures { OnOk result (out.new.items ≡ out.old.items
        ++ difference_line (labels_at (symbols_of book.now.statements) (numbers_in asked.now))
        (labels_at (symbols_of book.now.statements) (numbers_in given.now)) (Some index)) }
{
    push_number_between(out, b"  they differ at symbol ", index + 1, b": ")?;
    out.extend_from_slice(symbol_at(book, given, index))?;
    push_between(
        out,
        b" where ",
        symbol_at(book, asked, index),
        b" is asked\n",
    )
}

/// What is asked, what a step gives, and where they differ.
fn push_but_given(
    out: &mut Vec<u8>,
    book: &Book,
    asked: &[Sym],
    step: &[u8],
    given: &[Sym],
) -> Result<(), AllocError>
    requires asked { AllByRecursion (λ n. n < length (symbols_of book.now.statements))
        (numbers_in asked.now) }
    requires given { AllByRecursion (λ n. n < length (symbols_of book.now.statements))
        (numbers_in given.now) }
    ensures { OnOk result (out.new.items ≡ out.old.items
        ++ but_given_text (labels_at (symbols_of book.now.statements) (numbers_in asked.now))
        step.now (labels_at (symbols_of book.now.statements) (numbers_in given.now))) }
{
    push_expression(out, book, asked)?;
    push_between(out, b"  but step ", step, b", gives\n")?;
    push_expression(out, book, given)?;
    match difference(asked, given) {
        Some(index) => push_difference(out, book, asked, given, index),
        None => Ok(()),
    }
}

/// What a hypothesis asks, and what a step gives.
fn push_asks(
    out: &mut Vec<u8>,
    book: &Book,
    label: &[u8],
    asked: &[Sym],
    step: &[u8],
    given: &[Sym],
) -> Result<(), AllocError>
    requires asked { AllByRecursion (λ n. n < length (symbols_of book.now.statements))
        (numbers_in asked.now) }
    requires given { AllByRecursion (λ n. n < length (symbols_of book.now.statements))
        (numbers_in given.now) }
    ensures { OnOk result (out.new.items ≡ out.old.items
        ++ detail_text (hypothesis_asks label.now
        (labels_at (symbols_of book.now.statements) (numbers_in asked.now)) step.now
        (labels_at (symbols_of book.now.statements) (numbers_in given.now)))) }
{
    match difference(asked, given) {
        Some(_) => {
            push_between(out, b"  ", label, b" asks\n")?;
            push_but_given(out, book, asked, step, given)
        }
        None => {
            push_between(out, b"  ", label, b" asks, and step ")?;
            push_between(out, b"", step, b", gives\n")?;
            push_expression(out, book, asked)
        }
    }
}

/// Whether a hypothesis isn't met, where those that aren't are wanted; else whether it is.
fn is_wanted(unmet: bool, book: &Book, asked: &[Sym], given: &[Sym]) -> bool
    requires asked { AllByRecursion (λ n. n < length (symbols_of book.now.statements))
        (numbers_in asked.now) }
    requires given { AllByRecursion (λ n. n < length (symbols_of book.now.statements))
        (numbers_in given.now) }
    ensures { (label step : List ℕ) → result ≡ is_told unmet (hypothesis_asks label
        (labels_at (symbols_of book.now.statements) (numbers_in asked.now)) step
        (labels_at (symbols_of book.now.statements) (numbers_in given.now))) }
{
    let differ = difference(asked, given).is_some();
    if unmet { differ } else { !differ }
}

/// What a hypothesis asks, and what a step gives, where it isn't met, or where it is.
pub(crate) fn push_asks_where(
    out: &mut Vec<u8>,
    book: &Book,
    label: &[u8],
    asked: &[Sym],
    step: &[u8],
    given: &[Sym],
    unmet: bool,
) -> Result<(), AllocError>
    requires asked { AllByRecursion (λ n. n < length (symbols_of book.now.statements))
        (numbers_in asked.now) }
    requires given { AllByRecursion (λ n. n < length (symbols_of book.now.statements))
        (numbers_in given.now) }
    ensures { OnOk result (out.new.items ≡ out.old.items
        ++ details_text (filter (is_told unmet) (hypothesis_asks label.now
        (labels_at (symbols_of book.now.statements) (numbers_in asked.now)) step.now
        (labels_at (symbols_of book.now.statements) (numbers_in given.now)) ∷ []))) }
{
    if is_wanted(unmet, book, asked, given) {
        return push_asks(out, book, label, asked, step, given);
    }
    Ok(())
}

/// The type code that a `$f` asks for, and the entry of another one that a step gives.
#[tactic(auto, using(crate::proofs::DetailTexts::type_parts))]
pub(crate) fn push_type_asked(
    out: &mut Vec<u8>,
    book: &Book,
    label: &[u8],
    code: &[u8],
    step: &[u8],
    given: &[Sym],
) -> Result<(), AllocError>
    requires { AllByRecursion (λ n. n < length (symbols_of book.now.statements))
        (numbers_in given.now) }
    ensures { OnOk result (out.new.items ≡ out.old.items
        ++ detail_text (type_asked label.now code.now step.now
        (labels_at (symbols_of book.now.statements) (numbers_in given.now)))) }
{
    push_between(out, b"  ", label, b" asks a ")?;
    push_between(out, b"", code, b"; step ")?;
    push_between(out, b"", step, b", gives")?;
    push_symbols(out, book, given)?;
    out.push(b'\n')?;
    Ok(())
}

/// The type codes that a step takes, and those of the entries that it gets.
#[tactic(auto, using(crate::proofs::DetailTexts::types_parts))]
pub(crate) fn push_types(
    out: &mut Vec<u8>,
    book: &Book,
    taken: &[Sym],
    given: &[Sym],
) -> Result<(), AllocError>
    requires taken { AllByRecursion (λ n. n < length (symbols_of book.now.statements))
        (numbers_in taken.now) }
    requires given { AllByRecursion (λ n. n < length (symbols_of book.now.statements))
        (numbers_in given.now) }
    ensures { OnOk result (out.new.items ≡ out.old.items
        ++ detail_text (types_taken
        (labels_at (symbols_of book.now.statements) (numbers_in taken.now))
        (labels_at (symbols_of book.now.statements) (numbers_in given.now)))) }
{
    out.extend_from_slice(b"  takes")?;
    push_symbols(out, book, taken)?;
    out.extend_from_slice(b"; gets")?;
    push_symbols(out, book, given)?;
    out.push(b'\n')?;
    Ok(())
}

/// What is to be proved, and what the last step gives.
#[tactic(auto, using(crate::proofs::DetailTexts::behind_word))]
pub(crate) fn push_end(
    out: &mut Vec<u8>,
    book: &Book,
    stated: &[Sym],
    step: &[u8],
    given: &[Sym],
) -> Result<(), AllocError>
    requires stated { AllByRecursion (λ n. n < length (symbols_of book.now.statements))
        (numbers_in stated.now) }
    requires given { AllByRecursion (λ n. n < length (symbols_of book.now.statements))
        (numbers_in given.now) }
    ensures { OnOk result (out.new.items ≡ out.old.items
        ++ detail_text (end_given
        (labels_at (symbols_of book.now.statements) (numbers_in stated.now)) step.now
        (labels_at (symbols_of book.now.statements) (numbers_in given.now)))) }
{
    out.extend_from_slice(b"  it states\n")?;
    push_but_given(out, book, stated, step, given)
}

/// The variables that both have.
#[tactic(auto, using(crate::proofs::DetailTexts::three_parts))]
pub(crate) fn push_shared(
    out: &mut Vec<u8>,
    book: &Book,
    variables: &[Sym],
) -> Result<(), AllocError>
    requires { AllByRecursion (λ n. n < length (symbols_of book.now.statements))
        (numbers_in variables.now) }
    ensures { OnOk result (out.new.items ≡ out.old.items
        ++ detail_text (shared_by_both
        (labels_at (symbols_of book.now.statements) (numbers_in variables.now)))) }
{
    out.extend_from_slice(b"  both have:")?;
    push_symbols(out, book, variables)?;
    out.push(b'\n')?;
    Ok(())
}

/// Two variables of a `$d` that this step lacks.
pub(crate) fn push_step_lacks(out: &mut Vec<u8>, x: &[u8], y: &[u8]) -> Result<(), AllocError>
    ensures { OnOk result (out.new.items ≡ out.old.items
        ++ detail_text (step_lacks x.now y.now)) }
{
    push_between(out, b"  this step lacks: $d ", x, b" ")?;
    push_between(out, b"", y, b" $.\n")
}

/// Two variables of a `$d` that the whole proof lacks.
pub(crate) fn push_missing(out: &mut Vec<u8>, x: &[u8], y: &[u8]) -> Result<(), AllocError>
    ensures { OnOk result (out.new.items ≡ out.old.items
        ++ detail_text (missing_pair x.now y.now)) }
{
    push_between(out, b"  the whole proof lacks: $d ", x, b" ")?;
    push_between(out, b"", y, b" $.\n")
}

/// Two variables that must stay apart.
fn push_disjoint(out: &mut Vec<u8>, x: &[u8], y: &[u8]) -> Result<(), AllocError>
    ensures { OnOk result (out.new.items ≡ out.old.items
        ++ (codes "  it asks $d " ++ x.now ++ codes " " ++ y.now ++ codes " $.")) }
{
    push_between(out, b"  it asks $d ", x, b" ")?;
    push_between(out, b"", y, b" $.")
}

/// What replaces a variable.
fn push_replaced(
    out: &mut Vec<u8>,
    book: &Book,
    x: &[u8],
    symbols: &[Sym],
) -> Result<(), AllocError>
    requires { AllByRecursion (λ n. n < length (symbols_of book.now.statements))
        (numbers_in symbols.now) }
    ensures { OnOk result (out.new.items ≡ out.old.items ++ replacement_text x.now
        (labels_at (symbols_of book.now.statements) (numbers_in symbols.now))) }
{
    push_between(out, b"", x, b" is\n")?;
    push_expression(out, book, symbols)
}

/// Whether the expression is the variable alone.
fn is_alone(book: &Book, x: &[u8], e: &[Sym]) -> bool
    requires { AllByRecursion (λ n. n < length (symbols_of book.now.statements))
        (numbers_in e.now) }
    ensures { result ≡ is_alone_in x.now
        (labels_at (symbols_of book.now.statements) (numbers_in e.now)) }
{
    match e {
        [symbol] => x == book.name(*symbol),
        _ => false,
    }
}

/// What replaces a variable, unless it is the variable itself.
fn push_unless_alone(out: &mut Vec<u8>, book: &Book, x: &[u8], e: &[Sym]) -> Result<(), AllocError>
    requires { AllByRecursion (λ n. n < length (symbols_of book.now.statements))
        (numbers_in e.now) }
    ensures { OnOk result (out.new.items ≡ out.old.items ++ unless_alone x.now
        (labels_at (symbols_of book.now.statements) (numbers_in e.now))
        (is_alone_in x.now (labels_at (symbols_of book.now.statements) (numbers_in e.now)))) }
{
    if is_alone(book, x, e) {
        return push_between(out, b"", b"\n", b"");
    }
    out.extend_from_slice(b", where ")?;
    push_replaced(out, book, x, e)
}

/// What replaces two variables, unless it is the variable itself.
fn push_replacements(
    out: &mut Vec<u8>,
    book: &Book,
    x: &[u8],
    y: &[u8],
    e: &[Sym],
    f: &[Sym],
) -> Result<(), AllocError>
    requires first { AllByRecursion (λ n. n < length (symbols_of book.now.statements))
        (numbers_in e.now) }
    requires second { AllByRecursion (λ n. n < length (symbols_of book.now.statements))
        (numbers_in f.now) }
    ensures { OnOk result (out.new.items ≡ out.old.items ++ replacements_text x.now y.now
        (labels_at (symbols_of book.now.statements) (numbers_in e.now))
        (labels_at (symbols_of book.now.statements) (numbers_in f.now))
        (is_alone_in x.now (labels_at (symbols_of book.now.statements) (numbers_in e.now)))
        (is_alone_in y.now (labels_at (symbols_of book.now.statements) (numbers_in f.now)))) }
{
    if is_alone(book, x, e) {
        return push_unless_alone(out, book, y, f);
    }
    out.extend_from_slice(b", where ")?;
    push_replaced(out, book, x, e)?;
    if is_alone(book, y, f) {
        return Ok(());
    }
    out.extend_from_slice(b"  and ")?;
    push_replaced(out, book, y, f)
}

/// Two variables that must stay apart, and what replaces them.
pub(crate) fn push_pair(
    out: &mut Vec<u8>,
    book: &Book,
    x: &[u8],
    y: &[u8],
    e: &[Sym],
    f: &[Sym],
) -> Result<(), AllocError>
    requires first { AllByRecursion (λ n. n < length (symbols_of book.now.statements))
        (numbers_in e.now) }
    requires second { AllByRecursion (λ n. n < length (symbols_of book.now.statements))
        (numbers_in f.now) }
    ensures { OnOk result (out.new.items ≡ out.old.items
        ++ detail_text (pair_asked x.now y.now
        (labels_at (symbols_of book.now.statements) (numbers_in e.now))
        (labels_at (symbols_of book.now.statements) (numbers_in f.now)))) }
{
    push_disjoint(out, x, y)?;
    push_replacements(out, book, x, y, e, f)
}

/// The most symbols that an expression may have.
pub(crate) fn push_most(out: &mut Vec<u8>, symbols: usize) -> Result<(), AllocError>
    ensures { OnOk result (out.new.items ≡ out.old.items ++ detail_text (most_symbols symbols)) }
{
    push_number_between(out, b"  an expression may have ", symbols, b" symbols\n")
}

/// The place where a token stands, between words.
#[tactic(auto, using(crate::proofs::DetailTexts::three_parts))]
fn push_where(
    out: &mut Vec<u8>,
    before: &[u8],
    files: &[File],
    token: Token,
    after: &[u8],
) -> Result<(), AllocError>
    ensures { OnOk result (out.new.items ≡ out.old.items
        ++ (before.now ++ token_place (map plain_file files.now) (plain_token token.entry)
        ++ after.now)) }
{
    out.extend_from_slice(before)?;
    push_place(out, files, place_of(files, token.file, token.at as usize))?;
    out.extend_from_slice(after)
}

/// Where the block begins in which the statement stands, without the lines that show it.
pub fn push_block(out: &mut Vec<u8>, files: &[File], token: Token) -> Result<(), AllocError>
    ensures { OnOk result (out.new.items ≡ out.old.items ++ detail_text
        (block_opened (token_place (map plain_file files.now) (plain_token token.entry)) [])) }
{
    let words = b": the block is opened here, and not closed\n";
    push_where(out, b"", files, token, words)
}

/// Where a name was met before, by what the rule says that it was met as.
pub fn push_met(
    out: &mut Vec<u8>,
    files: &[File],
    rule: MeaningRule,
    token: Token,
) -> Result<(), AllocError>
    ensures { OnOk result (out.new.items ≡ out.old.items ++ detail_text
        (met_as rule (token_place (map plain_file files.now) (plain_token token.entry)))) }
{
    match rule {
        MeaningRule::M4 | MeaningRule::M5 => push_where(out, b"  labelled: ", files, token, b"\n"),
        MeaningRule::M9 => push_where(out, b"  before: ", files, token, b"\n"),
        MeaningRule::M12 | MeaningRule::M13 => push_where(out, b"  typed: ", files, token, b"\n"),
        _ => push_where(out, b"  declared: ", files, token, b"\n"),
    }
}

/// Where a hypothesis is stated.
pub fn push_stated_at(out: &mut Vec<u8>, files: &[File], token: Token) -> Result<(), AllocError>
    ensures { OnOk result (out.new.items ≡ out.old.items ++ detail_text
        (stated_at (token_place (map plain_file files.now) (plain_token token.entry)))) }
{
    push_where(out, b"  stated: ", files, token, b"\n")
}

/// Where the block ends in which it stands.
pub fn push_block_end(out: &mut Vec<u8>, files: &[File], token: Token) -> Result<(), AllocError>
    ensures { OnOk result (out.new.items ≡ out.old.items ++ detail_text
        (block_ended_at (token_place (map plain_file files.now) (plain_token token.entry)))) }
{
    push_where(out, b"  its block ends: ", files, token, b"\n")
}

/// Where a hypothesis of the theorem itself is stated, and its label.
#[tactic(auto, using(crate::proofs::DetailTexts::three_groups))]
pub fn push_hypothesis_at(
    out: &mut Vec<u8>,
    files: &[File],
    place: Place,
    label: &[u8],
) -> Result<(), AllocError>
    ensures { OnOk result (out.new.items ≡ out.old.items ++ detail_text
        (hypothesis_at (place_text (map plain_file files.now) place) label.now)) }
{
    out.extend_from_slice(b"    ")?;
    push_place(out, files, place)?;
    push_between(out, b" ", label, b"\n")
}
