//! What `mm explain` prints.

ghost use Rattle.std.specs.Prelude.{◌≡◌, ◌≢◌, ◌++◌, Contains, map, IfOk, IfErr, IfSome, IfNone};
ghost use Rattle.std.specs.Prelude.{string_bytes};
ghost use Rattle.std.specs.List.{AllByRecursion};
ghost use Rattle.std.specs.Option.{option_copied};
ghost use Rattle.mm_help.specs.Explained.{advice_on, asked_code, code_in_reply, rules_in};
ghost use Rattle.mm_help.specs.Explained.{IsExplanation, IsExplanationFault};

use crate::rule_text::RuleText;
use crate::texts::Texts;
use mm_words::Stop;
use std::alloc::{AllocError, Global};
use strsim::damerau_levenshtein;

/// What is said of a fault whose rule is explained.
const ADVICE: &str = "This is the rule; `mm why FILES..` explains the fault.\n";

/// The code of the rule on asked proofs that are incomplete.
const INCOMPLETE: &str = "A3";

/// The code that a reply names, by its words.
fn code_in_reply<'w>(words: &[&'w str]) -> Option<&'w str>
    ensures { option_copied result ≡ code_in_reply (map (λ word. word.now) words.now) }
{
    let Some(first) = words.first() else {
        return None;
    };
    if *first == "no" || *first == "limit" {
        return words.get(words.len().saturating_sub(2)).copied();
    }
    if *first == "load" || *first == "ask" || *first == "text" {
        return words.get(1).copied();
    }
    if *first == "incomplete" {
        return Some(INCOMPLETE);
    }
    None
}

/// The code that a line asks for: that of the reply that it is, or else the whole line.
fn asked_code<'l>(alloc: Global, line: &'l str) -> Result<&'l str, AllocError>
    ensures { IfOk result (λ code. code.now ≡ asked_code line.now) }
{
    let words = line.split(' ').collect::<Vec<&str>>(alloc)?;
    Ok(code_in_reply(&words).unwrap_or(line))
}

/// What is said after the text of the rule that a line asks for: where the line is a refusal, how
/// to see the fault explained.
fn advice_on(line: &[u8]) -> &'static str
    ensures { result.now ≡ advice_on line.now }
{
    if line.starts_with(b"no ".as_slice()) || line.starts_with(b"limit ".as_slice()) {
        ADVICE
    } else {
        ""
    }
}

/// A text, and then what is said after it.
fn text_with(alloc: Global, text: &str, added: &str) -> Result<String, AllocError>
    ensures { IfOk result (λ whole. string_bytes whole ≡ text.now ++ added.now) }
{
    let mut whole = String::new(alloc);
    whole.push_str(text)?;
    whole.push_str(added)?;
    Ok(whole)
}

/// The rule of a chapter with this code.
fn rule_with<'t>(rules: &[RuleText<'t>], code: &str) -> Option<RuleText<'t>>
    ensures found { IfSome result (λ rule. Contains rules.now rule × (rule.code.now ≡ code.now)) }
    ensures unknown { IfNone result
        (AllByRecursion (λ rule. rule.code.now ≢ code.now) rules.now) }
{
    for rule in rules {
        if rule.code == code {
            return Some(*rule);
        }
    }
    None
}

/// The rule with this code, in one of the chapters.
fn rule_among<'t>(chapters: &[&'t [RuleText<'t>]], code: &str) -> Option<RuleText<'t>>
    ensures found { IfSome result
        (λ rule. Contains (rules_in chapters.now) rule × (rule.code.now ≡ code.now)) }
    ensures unknown { IfNone result
        (AllByRecursion (λ rule. rule.code.now ≢ code.now) (rules_in chapters.now)) }
{
    for chapter in chapters {
        if let Some(rule) = rule_with(chapter, code) {
            return Some(rule);
        }
    }
    None
}

/// The number in a code, as 16 in `P16`.
fn number_in(code: &str) -> usize {
    let mut number: usize = 0;
    for byte in code.bytes() {
        if byte.is_ascii_digit() {
            number = number
                .saturating_mul(10)
                .saturating_add((byte - b'0') as usize);
        }
    }
    number
}

/// How far two codes are apart: by their letters and digits, and then by their numbers.
fn distance_of(alloc: Global, one: &str, other: &str) -> Result<(usize, usize), AllocError> {
    let changes = damerau_levenshtein(alloc, one, other)?;
    Ok((changes, number_in(one).abs_diff(number_in(other))))
}

/// The code that is nearest to one that no rule has. Codes have capitals, and so `p8` is near `P8`;
/// `P15` is nearer to `P16` than `P1` is.
fn nearest_code<'t>(
    alloc: Global,
    chapters: &[&'t [RuleText<'t>]],
    code: &str,
) -> Result<&'t str, AllocError> {
    let capitals = code.to_ascii_uppercase(alloc)?;
    let mut nearest = "X1";
    let mut least = (usize::MAX, usize::MAX);
    for rule in chapters.iter().copied().flatten() {
        let distance = distance_of(alloc, rule.code, &capitals)?;
        if distance < least {
            nearest = rule.code;
            least = distance;
        }
    }
    Ok(nearest)
}

/// Whether a text has the form of a code: a letter, and then digits.
fn has_code_form(text: &str) -> bool {
    let Some((first, digits)) = text.as_bytes().split_first() else {
        return false;
    };
    first.is_ascii_alphabetic()
        && !digits.is_empty()
        && digits.iter().all(|byte| byte.is_ascii_digit())
}

/// What is said of a text that is no rule's code. Another code is near only to one that has the form
/// of a code.
fn unknown_code(
    alloc: Global,
    chapters: &[&[RuleText<'_>]],
    code: &str,
) -> Result<String, AllocError> {
    if !has_code_form(code) {
        return format!(in alloc; "mm: no rule has the code {code}\n`mm explain` lists all codes\n");
    }
    let nearest = nearest_code(alloc, chapters, code)?;
    format!(in alloc;
        "mm: no rule has the code {code}; the nearest is {nearest}\n`mm explain` lists all codes\n"
    )
}

/// The text of the rule for whose code the words ask, and for a pasted refusal a line on how to see
/// the fault explained; without words the list of the codes.
pub fn explanation<'a>(alloc: Global, texts: &Texts<'_>, asked: &[&str]) -> Result<String, Stop<'a>>
    ensures text { IfOk result (λ text.
        IsExplanation texts.now (map (λ word. word.now) asked.now) (string_bytes text)) }
    ensures unknown { IfErr result
        (IsExplanationFault texts.now (map (λ word. word.now) asked.now)) }
{
    if asked.is_empty() {
        return Ok(text_with(alloc, texts.codes, "")?);
    }
    let line = asked.join(alloc, " ")?;
    let code = asked_code(alloc, &line)?;
    let capitals = code.to_ascii_uppercase(alloc)?;
    match rule_among(texts.chapters, &capitals) {
        Some(rule) => Ok(text_with(alloc, rule.text, advice_on(line.as_bytes()))?),
        None => Err(Stop::Usage(unknown_code(alloc, texts.chapters, code)?)),
    }
}
