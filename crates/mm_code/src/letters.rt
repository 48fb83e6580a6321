//! The letters of compressed proofs, read and written.

ghost use Rattle.std.specs.Prelude.{◌≡◌, ℕ, List, [], Result};
ghost use Rattle.std.specs.Prelude.{◌+◌, ◌*◌, min, ◌∷◌, ◌++◌, ◌≤◌, ◌<◌, All, IfOk, OnOk, IsErrOf};
ghost use Rattle.std.specs.Prelude.{length, take};
ghost use Rattle.std.specs.List.{flat_map, list_all};
ghost use Rattle.std.specs.Char.{is_ascii_uppercase};
ghost use Rattle.mm_code.specs.Letters.{largest, SpellsCodes, Letters, code_for, HasSpelling};
ghost use Rattle.mm_code.specs.Letters.{IsExact, Answers, Fills, LettersBreak, joined_tokens};
ghost use Rattle.mm_code.specs.Mirror.Writing.{AppendsLeading, AppendsCode};
ghost use Rattle.mm_code.specs.Mirror.Reading.{with_prefix, reading, rule_behind, FaultOf};
ghost use Rattle.mm_code.specs.Mirror.Reading.{ReadsOn, PutsOn, calm_value};

use crate::code::{Code, CodeFault, CodeRule};
use std::alloc::{AllocError, Global};

/// The leading value with one more leading digit, up to the largest `u32`: once a value is above
/// it, it stays so.
fn leading_after(value: u32, digit: u8) -> u32
    ensures { result ≡ min (5 * value + digit) largest }
{
    value.saturating_mul(5).saturating_add(u32::from(digit))
}

/// The number that a last digit ends, up to the largest `u32`.
fn number_after(value: u32, digit: u8) -> u32
    ensures { result ≡ min (20 * value + digit) largest }
{
    value.saturating_mul(20).saturating_add(u32::from(digit))
}

/// The largest leading value behind which no letter reaches the largest `u32`, or less.
const CALM: u32 = 0x0800_0000;

/// Takes any letter behind leading digits of this value (0 for none): puts the code that it ends
/// in the slot at the index, and answers the index and the leading digits' value behind it.
#[tactic(auto, using(crate::proofs::LetterSteps::reading_steps))]
fn put_any(
    slots: &mut [Code],
    index: usize,
    value: u32,
    byte: u8,
) -> Result<(usize, u32), CodeFault>
    requires { index < length slots.old }
    ensures size { length slots.new ≡ length slots.old }
    ensures next { IfOk result (λ next. next.0 ≤ index + 1) }
    ensures reads { (rest : List ℕ) → PutsOn slots.new result rest
        (with_prefix (take index slots.old) (reading value (byte ∷ rest))) }
{
    match byte {
        b'A'..=b'T' => {
            slots[index] = Code::Number(number_after(value, byte - b'A' + 1));
            Ok((index + 1, 0))
        }
        b'U'..=b'Y' => Ok((index, leading_after(value, byte - b'U' + 1))),
        b'Z' if value == 0 => {
            slots[index] = Code::Tag;
            Ok((index + 1, 0))
        }
        b'Z' => Err(CodeFault::Rule(CodeRule::P5)),
        _ => Err(CodeFault::Rule(CodeRule::P4)),
    }
}

/// Does as `put_any`, and sooner, behind leading digits of a value that no letter brings above the
/// largest `u32`: a letter ends a number about as often as not, so no branch asks whether it does.
/// What a leading digit puts in the slot is put over.
#[inline(always)]
#[tactic(auto, using(crate::proofs::LetterSteps::reading_steps))]
fn put_calm(
    slots: &mut [Code],
    index: usize,
    value: u32,
    byte: u8,
) -> Result<(usize, u32), CodeFault>
    requires slot { index < length slots.old }
    requires calm { value ≤ calm_value }
    ensures size { length slots.new ≡ length slots.old }
    ensures next { IfOk result (λ next. next.0 ≤ index + 1) }
    ensures reads { (rest : List ℕ) → PutsOn slots.new result rest
        (with_prefix (take index slots.old) (reading value (byte ∷ rest))) }
{
    // 65 is the letter `A`. It is counted in 32 bits, as all that follows is.
    let digit = u32::from(byte).wrapping_sub(65);
    if digit >= 25 {
        return put_any(slots, index, value, byte);
    }
    let longer = (5 * value + digit).wrapping_sub(19);
    slots[index] = Code::Number(20 * value + digit + 1);
    if digit < 20 {
        Ok((index + 1, 0))
    } else {
        Ok((index, longer))
    }
}

/// Does as `put_any`, and sooner for nearly every value.
fn put_letter(
    slots: &mut [Code],
    index: usize,
    value: u32,
    byte: u8,
) -> Result<(usize, u32), CodeFault>
    requires { index < length slots.old }
    ensures size { length slots.new ≡ length slots.old }
    ensures next { IfOk result (λ next. next.0 ≤ index + 1) }
    ensures reads { (rest : List ℕ) → PutsOn slots.new result rest
        (with_prefix (take index slots.old) (reading value (byte ∷ rest))) }
{
    if value <= CALM {
        put_calm(slots, index, value, byte)
    } else {
        put_any(slots, index, value, byte)
    }
}

/// Whether each byte is a letter `A` to `Z`.
fn are_letters(bytes: &[u8]) -> bool
    ensures { result ≡ list_all is_ascii_uppercase bytes.now }
{
    bytes.iter().all(|byte| byte.is_ascii_uppercase())
}

/// The rule that is broken by a number that is cut before these bytes: a byte that is no letter
/// comes first.
#[tactic(auto, unfolding(crate::specs::Mirror::Reading::rule_behind))]
fn rule_behind_cut(bytes: &[u8]) -> CodeRule
    ensures { result ≡ rule_behind bytes.now }
{
    if are_letters(bytes) {
        CodeRule::P5
    } else {
        CodeRule::P4
    }
}

/// The fault of the letters so far and of these, which follow them.
#[tactic(auto, using(crate::proofs::LetterSteps::cut_goes_on))]
fn fault_with(fault: CodeFault, bytes: &[u8]) -> CodeFault
    ensures { (rest : List ℕ) (read : Result (List Code) CodeRule) →
        FaultOf fault (bytes.now ++ rest) read → FaultOf result rest read }
{
    match fault {
        CodeFault::Rule(CodeRule::P5) => CodeFault::Rule(rule_behind_cut(bytes)),
        CodeFault::Rule(CodeRule::P4) => fault,
        CodeFault::Memory => fault,
    }
}

/// Puts the codes of a token's letters behind leading digits of this value in the slots from the
/// index on, and answers the index and the leading digits' value behind the token.
fn put_token(
    slots: &mut [Code],
    from: usize,
    leading: u32,
    token: &[u8],
) -> Result<(usize, u32), CodeFault>
    requires { from + length token.now ≤ length slots.old }
    ensures size { length slots.new ≡ length slots.old }
    ensures reads { (rest : List ℕ) → PutsOn slots.new result rest
        (with_prefix (take from slots.old) (reading leading (token.now ++ rest))) }
{
    let mut index = from;
    let mut value = leading;
    // By index, since a letter at fault is reported with those behind it.
    for at in 0..token.len() {
        match put_letter(slots, index, value, token[at]) {
            Ok(next) => (index, value) = next,
            Err(fault) => return Err(fault_with(fault, &token[at + 1..])),
        }
    }
    Ok((index, value))
}

/// Takes a token's letters behind leading digits of this value, and answers their value behind the
/// token.
fn read_token(codes: &mut Vec<Code>, leading: u32, token: &[u8]) -> Result<u32, CodeFault>
    ensures { (rest : List ℕ) → ReadsOn codes.new.items result rest
        (with_prefix codes.old.items (reading leading (token.now ++ rest))) }
{
    let from = codes.len();
    codes.resize(from + token.len(), Code::Tag)?;
    let (index, value) = put_token(codes.as_mut_slice(), from, leading, token)?;
    codes.truncate(index);
    Ok(value)
}

/// The fault of the letters so far and of these tokens, which are all that follow them.
fn fault_with_tokens(fault: CodeFault, tokens: &[&[u8]]) -> CodeFault
    ensures { (read : Result (List Code) CodeRule) →
        FaultOf fault (joined_tokens tokens.now) read → FaultOf result [] read }
{
    let mut known = fault;
    for token in tokens {
        known = fault_with(known, token);
    }
    known
}

/// Fills the list with the codes of the tokens, read from the left.
fn read_tokens(codes: &mut Vec<Code>, tokens: &[&[u8]]) -> Result<(), CodeFault>
    ensures { Fills result codes.new.items (reading 0 (joined_tokens tokens.now)) }
{
    codes.clear();
    let mut value = 0;
    for (at, token) in tokens.iter().enumerate() {
        match read_token(codes, value, token) {
            Ok(next) => value = next,
            Err(fault) => return Err(fault_with_tokens(fault, &tokens[at + 1..])),
        }
    }
    if value > 0 {
        return Err(CodeFault::Rule(CodeRule::P5));
    }
    Ok(())
}

/// Fills the list with the codes that the letters of a compressed proof say, as `read_codes` does:
/// what it held before is forgotten, and its memory is used again.
///
/// # Errors
///
/// As for `read_codes`; the list then holds some codes or none.
pub fn fill_codes(codes: &mut Vec<Code>, tokens: &[&[u8]]) -> Result<(), CodeFault>
    // What the list is filled with is what the letters say.
    ensures read { OnOk result (Letters (joined_tokens tokens.now) codes.new.items) }
    // It is filled with what the letters say.
    ensures whole { (said : List Code) → Letters (joined_tokens tokens.now) said
        → Fills result codes.new.items (Ok said) }

    // A rule is answered only where the letters break it, and where they break it.
    ensures rule { (rule : CodeRule) →
        IsErrOf result (CodeFault.Rule rule) → LettersBreak rule (joined_tokens tokens.now) }
    ensures broken { (rule : CodeRule) → LettersBreak rule (joined_tokens tokens.now)
        → Fills result codes.new.items (Err rule) }
{
    read_tokens(codes, tokens)
}

/// The codes that the letters of a compressed proof say (the Metamath book, appendix B). White
/// space may cut the letters anywhere, inside a number too: the tokens are read as if they were
/// joined.
///
/// `A` to `T` are the last digits 1 to 20 of a number, `U` to `Y` its leading digits 1 to 5, and
/// `Z` is a tag. A number is 20 times the base-5 value of its leading digits, plus its last digit.
/// A spelled number above 4,294,967,295 is read as 4,294,967,295.
///
/// # Errors
///
/// `Rule(P4)` where a byte is no letter `A` to `Z`; or else `Rule(P5)` where leading digits are
/// followed by `Z` or by the end; `Memory` where a growth was refused.
pub fn read_codes(alloc: Global, tokens: &[&[u8]]) -> Result<Vec<Code>, CodeFault>
    // What is read is what the letters say.
    ensures read { IfOk result (λ codes. Letters (joined_tokens tokens.now) codes.items) }
    // What the letters say is read.
    ensures whole { (codes : List Code) →
        Letters (joined_tokens tokens.now) codes → Answers result (Ok codes) }

    // A rule is answered only where the letters break it, and where they break it.
    ensures rule { (rule : CodeRule) →
        IsErrOf result (CodeFault.Rule rule) → LettersBreak rule (joined_tokens tokens.now) }
    ensures broken { (rule : CodeRule) →
        LettersBreak rule (joined_tokens tokens.now) → Answers result (Err rule) }
{
    let mut codes = Vec::new(alloc);
    match fill_codes(&mut codes, tokens) {
        Ok(()) => Ok(codes),
        Err(fault) => Err(fault),
    }
}

/// Writes the leading digits that are worth this value: none for 0.
fn push_leading(text: &mut Vec<u8>, value: u32) -> Result<(), AllocError>
    ensures { OnOk result (AppendsLeading text.old.items text.new.items value) }
{
    if value > 0 {
        push_leading(text, (value - 1) / 5)?;
        text.push(b'U' + ((value - 1) % 5) as u8)?;
    }
    Ok(())
}

/// Writes the spelling of a number.
fn push_number(text: &mut Vec<u8>, number: u32) -> Result<(), AllocError>
    requires { 1 ≤ number }
    ensures { OnOk result (AppendsCode text.old.items text.new.items (Code.Number number)) }
{
    push_leading(text, (number - 1) / 20)?;
    text.push(b'A' + ((number - 1) % 20) as u8)?;
    Ok(())
}

/// Writes what says one code.
fn push_code(text: &mut Vec<u8>, code: Code) -> Result<(), AllocError>
    requires { HasSpelling code }
    ensures appends { OnOk result (AppendsCode text.old.items text.new.items code) }
    ensures same { code_for code ≡ code }
{
    match code {
        Code::Number(number) => push_number(text, number),
        Code::Tag => {
            text.push(b'Z')?;
            Ok(())
        }
    }
}

/// The letters of codes: the one spelling of each number, and `Z` for each tag, joined (the
/// Metamath book, appendix B).
///
/// Each number is at least 1. Reading the letters gives the codes back; below 4,294,967,295 no
/// other letters do.
///
/// # Errors
///
/// Where a growth was refused.
pub fn write_codes(alloc: Global, codes: &[Code]) -> Result<Vec<u8>, AllocError>
    requires { All HasSpelling codes.now }

    // The text is the spellings, and so reading it gives the codes.
    ensures spelled { IfOk result (λ text. SpellsCodes text.items codes.now) }
    ensures letters { IfOk result (λ text. Letters text.items codes.now) }
    // No other text has these codes, where no number may stand for a larger one.
    ensures only { IfOk result (λ text.
        All IsExact codes.now → (other : List ℕ) → Letters other codes.now → other ≡ text.items) }
{
    let mut text = Vec::new(alloc);
    for code in codes {
        push_code(&mut text, *code)?;
    }
    Ok(text)
}
