//! Where among its tokens a proof breaks a rule that is judged over the whole of it.

ghost use Rattle.std.specs.Prelude.{◌≡◌, ◌↔◌, ◌+◌, ◌<◌, ◌≤◌, ℕ, List, Contains, All};
ghost use Rattle.std.specs.Prelude.{length, take, slice_get, Some, IfOk, IsTrue, MatchOption};
ghost use Rattle.std.specs.Prelude.{true, false};
ghost use Rattle.std.specs.List.{flat_map};
ghost use Rattle.mm_code.specs.declared.code.CodeRule.TheVariants as code;
ghost use Rattle.mm_code.specs.Letters.{IsLetter, LettersBreak};
ghost use Rattle.mm_frame.specs.Form.{IsSound};
ghost use Rattle.mm_frame.specs.Numbers.{IsNumbered};
ghost use Rattle.mm_frame.specs.Sentence.{Sentence};
ghost use Rattle.mm_step.specs.declared.profile.Profile.{Profile};
ghost use Rattle.mm_proof.specs.declared.labels.Use.TheVariants.{Unknown, Idle};
ghost use Rattle.mm_proof.specs.CheckedPrefix.{checked_prefix};
ghost use Rattle.mm_proof.specs.Parsed.{OfProof};
ghost use Rattle.mm_step.specs.Plain.{token_texts};
ghost use Rattle.mm_step.specs.Steps.{IsProofNumber};
ghost use Rattle.mm_proof.specs.Strict.{IsTextFault};
ghost use Rattle.mm_proof.specs.Tokens.{IsIncomplete, AreLabels, AreLetters, IsCompressed};
ghost use Rattle.mm_places.specs.WholePlaces.{AreLabelsFrom, IsFirstLabel, IsWholePlace};
ghost use Rattle.mm_places.specs.Mirror.CodeWhole.{HasBlamed, IsBlamed, IsBegun, IsBehind};
ghost use Rattle.mm_places.specs.Mirror.CodeWhole.{IsCutAt, IsByteOf, IsFaultIndex, rule_of};

use crate::form_places::form_place;
use mm_base::Token;
use mm_code::CodeRule;
use mm_frame::{Book, Frame, Guesses, LabelId};
use mm_proof::{Use, begins_list, checked_prefix, is_incomplete, parts, use_of};
use mm_step::ProofRule;
use std::alloc::{AllocError, Global};

// The labels of a proof, and the index of the token that is the first of them.
fn labels_of<'t, 'a>(tokens: &'t [Token<'a>]) -> (usize, &'t [Token<'a>])
    requires { (labels : List (List ℕ)) × AreLabels (token_texts tokens.now) labels }
    ensures { AreLabelsFrom (token_texts tokens.now) result.0 (token_texts result.1.now) }
{
    match tokens {
        [_, rest @ ..] if begins_list(tokens) => match parts(rest) {
            Some((listed, _)) => (1, listed),
            // The list is closed, since there are labels.
            None => unreachable!(),
        },
        _ => (0, tokens),
    }
}

/// What a label of a proof is blamed for.
#[derive(Clone, Copy)]
enum Blame {
    /// No statement before the proof's own has it: P2.
    Unknown,
    /// A hypothesis that isn't active has it: P3.
    Idle,
}

// Whether no statement before the proof's own has the label that stands for this.
fn is_unknown(found: Use) -> bool
    ensures { IsTrue result ↔ (found ≡ Unknown) }
{
    matches!(found, Use::Unknown)
}

// Whether a hypothesis that isn't active has it.
fn is_idle(found: Use) -> bool
    ensures { IsTrue result ↔ (found ≡ Idle) }
{
    matches!(found, Use::Idle)
}

// Whether the label is to blame.
fn is_blamed(
    book: &Book,
    guesses: &mut Guesses,
    own: &Frame,
    id: LabelId,
    label: &[u8],
    blame: Blame,
) -> bool
    requires sound { IsSound book.now.statements }
    requires book { own.now.statements ≡ book.now.statements }
    requires own { (s : Sentence) × IsNumbered book.now.statements id.0 own.now.index s }
    ensures { IsTrue result ↔ IsBlamed blame book.now.statements own.now.index label.now }
{
    let found = use_of(book, guesses, own, id, label);
    match blame {
        Blame::Unknown => is_unknown(found),
        Blame::Idle => is_idle(found),
    }
}

// The index of the first of the labels that is to blame.
fn first_blamed(
    alloc: Global,
    book: &Book,
    own: &Frame,
    id: LabelId,
    labels: &[Token],
    blame: Blame,
) -> Option<usize>
    requires sound { IsSound book.now.statements }
    requires book { own.now.statements ≡ book.now.statements }
    requires own { (s : Sentence) × IsNumbered book.now.statements id.0 own.now.index s }
    ensures { let blamed = IsBlamed blame book.now.statements own.now.index in
        MatchOption
        result
        ((label : List ℕ) → Contains (token_texts labels.now) label → ¬ (blamed label))
        (λ index. (label : List ℕ) × (slice_get (token_texts labels.now) index ≡ Some label)
        × blamed label
        × ((other : List ℕ) → Contains (take index (token_texts labels.now)) other
        → ¬ (blamed other))) }
{
    let mut guesses = Guesses::new(alloc);
    for (index, label) in labels.iter().enumerate() {
        if is_blamed(book, &mut guesses, own, id, label.text, blame) {
            return Some(index);
        }
    }
    None
}

// The index of the token that is the first label to blame.
fn label_index(
    alloc: Global,
    book: &Book,
    own: &Frame,
    id: LabelId,
    tokens: &[Token],
    blame: Blame,
) -> usize
    requires sound { IsSound book.now.statements }
    requires book { own.now.statements ≡ book.now.statements }
    requires own { (s : Sentence) × IsNumbered book.now.statements id.0 own.now.index s }
    requires blamed { HasBlamed blame book.now.statements own.now.index (token_texts tokens.now) }
    ensures { IsFirstLabel (IsBlamed blame book.now.statements own.now.index)
        (token_texts tokens.now) result }
{
    let (base, labels) = labels_of(tokens);
    match first_blamed(alloc, book, own, id, labels, blame) {
        Some(index) => base + index,
        // Some label is to blame.
        None => unreachable!(),
    }
}

// The tokens, joined.
fn joined(alloc: Global, tokens: &[Token]) -> Result<Vec<u8>, AllocError>
    ensures { IfOk result (λ text. text.items ≡ flat_map (λ l. l) (token_texts tokens.now)) }
{
    let mut text = Vec::new(alloc);
    for token in tokens {
        text.extend_from_slice(token.text)?;
    }
    Ok(text)
}

// Whether the byte is none of the letters `A` to `Z`.
fn is_stray(byte: u8) -> bool
    ensures stray { result ≡ true → ¬ (IsLetter byte) }
    ensures letter { result ≡ false → IsLetter byte }
{
    !matches!(byte, b'A'..=b'Z')
}

// The index of the first byte that is no letter.
fn stray_index(letters: &[u8]) -> Option<usize>
    ensures { MatchOption
        result
        (All IsLetter letters.now)
        (λ index. (letter : ℕ) × (slice_get letters.now index ≡ Some letter)
        × All IsLetter (take index letters.now) × ¬ (IsLetter letter)) }
{
    for (index, byte) in letters.iter().enumerate() {
        if is_stray(*byte) {
            return Some(index);
        }
    }
    None
}

/// What is known behind a letter.
#[derive(Clone, Copy)]
enum Behind {
    /// The index of the first digit of the number that is begun, if one is.
    Begun(Option<usize>),
    /// The letter cuts the number whose first digit has this index.
    Cut(usize),
}

// Passes the letter with an index, behind the number that is begun, if one is.
fn pass(begun: Option<usize>, index: usize, letter: u8) -> Behind
    requires { IsLetter letter }
    ensures { (letters : List ℕ) → index ≡ length letters → IsBegun letters begun
        → IsBehind letters letter result }
{
    match letter {
        b'A'..=b'T' => Behind::Begun(None),
        b'U'..=b'Y' => Behind::Begun(Some(begun.unwrap_or(index))),
        _ => match begun {
            Some(first) => Behind::Cut(first),
            None => Behind::Begun(None),
        },
    }
}

// The index of the first digit of the first number that isn't ended.
fn cut_index(letters: &[u8]) -> usize
    requires { LettersBreak code.P5 letters.now }
    ensures { IsCutAt letters.now result }
{
    let mut begun = None;
    for (index, letter) in letters.iter().enumerate() {
        match pass(begun, index, *letter) {
            Behind::Begun(next) => begun = next,
            Behind::Cut(first) => return first,
        }
    }
    match begun {
        Some(first) => first,
        // Some number isn't ended.
        None => unreachable!(),
    }
}

// The index of the letter at which the letters break the rule.
fn fault_index(letters: &[u8], rule: CodeRule) -> usize
    requires { LettersBreak rule letters.now }
    ensures { IsFaultIndex rule letters.now result }
{
    match rule {
        CodeRule::P4 => match stray_index(letters) {
            Some(index) => index,
            // Some byte is no letter.
            None => unreachable!(),
        },
        CodeRule::P5 => cut_index(letters),
    }
}

// The piece in which the byte with an index of the joined pieces stands, and the byte in it.
fn byte_of(pieces: &[Token], index: usize) -> (usize, usize)
    requires { index < length (flat_map (λ l. l) (token_texts pieces.now)) }
    ensures { IsByteOf (token_texts pieces.now) index result.0 result.1 }
{
    let mut left = index;
    for (piece, token) in pieces.iter().enumerate() {
        if left < token.text.len() {
            return (piece, left);
        }
        left -= token.text.len();
    }
    // The pieces have more bytes.
    unreachable!()
}

// The letters of a compressed proof, and the index of the token that is the first of them.
fn letters_of<'t, 'a>(tokens: &'t [Token<'a>]) -> (usize, &'t [Token<'a>])
    requires { (text : List ℕ) × AreLetters (token_texts tokens.now) text }
    ensures { (labels : List (List ℕ))
        × IsCompressed (token_texts tokens.now) labels (token_texts result.1.now)
        × (result.0 ≡ length labels + 2) }
{
    match tokens {
        [_, rest @ ..] if begins_list(tokens) => match parts(rest) {
            Some((listed, letters)) => (listed.len() + 2, letters),
            // The list is closed, since there are letters.
            None => unreachable!(),
        },
        // There is a list.
        _ => unreachable!(),
    }
}

// The place of the letter at which the letters break the rule.
fn letter_place(
    alloc: Global,
    tokens: &[Token],
    rule: CodeRule,
) -> Result<(usize, usize), AllocError>
    requires { (text : List ℕ) × AreLetters (token_texts tokens.now) text × LettersBreak rule text }
    ensures { IfOk result (λ place. (before : List Sentence) (s : Sentence)
        → IsWholePlace before s (token_texts tokens.now) (rule_of rule) place.0 place.1) }
{
    let (base, letters) = letters_of(tokens);
    let text = joined(alloc, letters)?;
    let (piece, byte) = byte_of(letters, fault_index(&text, rule));
    Ok((base + piece, byte))
}

// Where the tokens as the proof of the `$p` break the rule.
fn place_in(
    alloc: Global,
    book: &Book,
    own: &Frame,
    id: LabelId,
    tokens: &[Token],
    rule: ProofRule,
) -> Result<(usize, usize), AllocError>
    requires sound { IsSound book.now.statements }
    requires book { own.now.statements ≡ book.now.statements }
    requires own { (s : Sentence) × IsProofNumber book.now.statements id.0 own.now.index s }
    requires broken { OfProof book.now.statements id.0 (λ index s.
        (profile : Profile)
        × IsTextFault profile (take index book.now.statements) s (token_texts tokens.now) rule) }
    ensures { IfOk result (λ place. OfProof book.now.statements id.0 (λ index s.
        IsWholePlace (take index book.now.statements) s (token_texts tokens.now) rule
        place.0 place.1)) }
{
    match rule {
        ProofRule::P1 => Ok((0, 0)),
        ProofRule::P2 => Ok((label_index(alloc, book, own, id, tokens, Blame::Unknown), 0)),
        ProofRule::P3 => Ok((label_index(alloc, book, own, id, tokens, Blame::Idle), 0)),
        ProofRule::P4 => letter_place(alloc, tokens, CodeRule::P4),
        ProofRule::P5 => letter_place(alloc, tokens, CodeRule::P5),
        ProofRule::P15 => form_place(alloc, book, id, tokens),
        // No other rule is judged over the whole of a proof.
        _ => unreachable!(),
    }
}

/// Where the tokens, as a proof of the `$p` with this number, break the rule, which is the first of
/// P1 to P5 and then P15 that they break over the whole of them: the index of the token, and the
/// byte in it. Where a step is unknown, it is that of the checked prefix.
///
/// # Errors
///
/// Where a growth was refused.
pub fn whole_place(
    alloc: Global,
    book: &Book,
    id: LabelId,
    tokens: &[Token],
    rule: ProofRule,
) -> Result<(usize, usize), AllocError>
    requires proof { (index : ℕ) × (s : Sentence) × IsProofNumber book.now.statements id.0 index s }
    requires fault { ¬ (IsIncomplete (token_texts tokens.now)) → OfProof book.now.statements id.0
        (λ index s. (profile : Profile)
        × IsTextFault profile (take index book.now.statements) s (token_texts tokens.now) rule) }
    requires known_fault { IsIncomplete (token_texts tokens.now) → OfProof book.now.statements id.0
        (λ index s. (profile : Profile) × IsTextFault profile (take index book.now.statements) s
        (checked_prefix (token_texts tokens.now)) rule) }
    // It is where the rule is broken first.
    ensures place { ¬ (IsIncomplete (token_texts tokens.now)) → IfOk result (λ place.
        OfProof book.now.statements id.0 (λ index s. IsWholePlace (take index book.now.statements) s
        (token_texts tokens.now) rule place.0 place.1)) }
    ensures known_place { IsIncomplete (token_texts tokens.now) → IfOk result (λ place.
        OfProof book.now.statements id.0 (λ index s. IsWholePlace (take index book.now.statements) s
        (checked_prefix (token_texts tokens.now)) rule place.0 place.1)) }

    // It is in one of the tokens.
    ensures within { IfOk result (λ place. (text : List ℕ)
        × (slice_get (token_texts tokens.now) place.0 ≡ Some text) × (place.1 ≤ length text)) }
{
    let own = book.frame(id);
    if is_incomplete(tokens) {
        let prefix = checked_prefix(alloc, tokens)?;
        place_in(alloc, book, &own, id, &prefix, rule)
    } else {
        place_in(alloc, book, &own, id, tokens, rule)
    }
}
