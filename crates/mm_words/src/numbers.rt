//! Numbers among the words: behind an option, or in front of the names of files.

ghost use Rattle.std.specs.Prelude.{◌≡◌, ◌≤◌, Any, map, IfOk, IfErr, MatchOption, drop, take};
ghost use Rattle.std.specs.Prelude.{length, true};
ghost use Rattle.std.specs.Char.{is_ascii_digit};
ghost use Rattle.std.specs.List.{AllByRecursion, AllZip, list_all};
ghost use Rattle.clap.specs.Words.{first_of, found_of, rows_of};
ghost use Rattle.mm_words.specs.Words.{BeginsWithName, IsNumberBehind, SaysNumber, is_decimal};
ghost use Rattle.mm_words.specs.RefusedWords.{IsFaultFor, IsNumberFault, SaysNoNumber};

use crate::matches::optional_word;
use crate::stop::Stop;
use clap::ArgMatches;
use std::alloc::{AllocError, Global};

/// What is said of a word that says no number.
const NO_NUMBER: &str = "it is no number from 1 to 4294967295";

/// What is said of a word in the place of an argument that says no number, as `clap` says it of a bad
/// value.
fn no_number(alloc: Global, argument: &str, word: &str) -> Result<String, AllocError> {
    format!(in alloc;
        "error: invalid value '{word}' for '{argument}': {NO_NUMBER}

For more information, try '--help'.
"
    )
}

/// That of the word behind an option.
fn no_number_behind(alloc: Global, option: &str, word: &str) -> Result<String, AllocError> {
    let argument = format!(in alloc; "--{option} <{option}>")?;
    let text = no_number(alloc, &argument, word);
    drop(argument);
    text
}

/// The number that a word says: from 1 on, and below 2 ^ 32.
fn number_said(word: &str) -> Option<usize>
    ensures { MatchOption result (SaysNoNumber word.now) (SaysNumber word.now) }
{
    let Ok(number) = word.parse::<u32>() else {
        return None;
    };
    if number == 0 {
        return None;
    }
    Some(number as usize)
}

/// The number that the word behind an option says, in the matches of its command; this one, where
/// the option isn't given.
pub(crate) fn number_behind<'a>(
    alloc: Global,
    matches: &ArgMatches<'a>,
    option: &str,
    usual: usize,
) -> Result<usize, Stop<'a>>
    ensures number { IfOk result
        (IsNumberBehind (first_of option.now (rows_of (found_of matches.now))) usual) }
    ensures fault { IfErr result
        (IsNumberFault (first_of option.now (rows_of (found_of matches.now)))) }
{
    let Some(word) = optional_word(matches, option) else {
        return Ok(usual);
    };
    match number_said(word) {
        Some(number) => Ok(number),
        None => Err(Stop::Usage(no_number_behind(alloc, option, word)?)),
    }
}

/// Whether each byte is a decimal digit.
fn are_digits(text: &[u8]) -> bool
    ensures { result ≡ list_all is_ascii_digit text.now }
{
    text.iter().all(|byte| byte.is_ascii_digit())
}

/// Whether a word is made of decimal digits alone, of one at least.
fn is_decimal(word: &[u8]) -> bool
    ensures { result ≡ is_decimal word.now }
{
    !word.is_empty() && are_digits(word)
}

/// How many of the words are made of decimal digits alone, from the first on, up to one that isn't.
pub(crate) fn decimal_count(words: &[&str]) -> usize
    ensures within { result ≤ length words.now }
    ensures decimals { AllByRecursion (λ word. is_decimal word ≡ true)
        (map (λ word. word.now) (take result words.now)) }
    ensures others { BeginsWithName (map (λ word. word.now) (drop result words.now)) }
{
    for at in 0..words.len() {
        if !is_decimal(words[at].as_bytes()) {
            return at;
        }
    }
    words.len()
}

/// The numbers that the words say, one each.
pub(crate) fn numbers_said<'a>(alloc: Global, words: &[&str]) -> Result<Vec<usize>, Stop<'a>>
    ensures numbers { IfOk result (λ numbers. AllZip SaysNumber (map (λ word. word.now) words.now)
        numbers.items) }
    ensures fault { IfErr result (IsFaultFor
        (Any SaysNoNumber (map (λ word. word.now) words.now))) }
{
    let mut numbers = Vec::new(alloc);
    for word in words {
        let Some(number) = number_said(word) else {
            return Err(Stop::Usage(no_number(alloc, "[NUMBER]...", word)?));
        };
        numbers.push(number)?;
    }
    Ok(numbers)
}
