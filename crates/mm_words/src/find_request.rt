//! What the words of `mm find` and `mm statement` ask for.

ghost use Rattle.std.specs.Prelude.{◌≡◌, ◌≢◌, ◌≤◌, ◌↔◌, ◌∷◌, [], List, map, length, IfOk};
ghost use Rattle.std.specs.Prelude.{IfErr, IsTrue, false, true, codes, unwrap_or};
ghost use Rattle.std.specs.List.{AllByRecursion};
ghost use Rattle.clap.specs.Words.{Text, all_of, first_of, found_of, rows_of};
ghost use Rattle.mm_base.specs.MostBytes.{most_bytes};
ghost use Rattle.mm_code.specs.Layout.{texts};
ghost use Rattle.mm_words.specs.Words.{AreFit, AreShort, Asks, AsksStatement, Commands, IsGapless};
ghost use Rattle.mm_words.specs.RefusedWords.{IsWordFault};

use crate::command_line::{
    ALL, AND, COMMENT, FILES, FIND_USE, HYPOTHESES, PATTERN, SHAPE, STATEMENT_USE, WHOLE,
};
use crate::matches::{asked_word, is_given, label_and_names, values_of};
use crate::request::{AskedPatterns, Request};
use crate::stop::Stop;
use clap::ArgMatches;
use mm_text::BYTE_LIMIT;
use mm_verdict::tokens_of;
use std::alloc::{AllocError, Global};

/// What stands in a pattern for any number of symbols.
const GAP: &[u8] = b"$*";

/// The request to list all assertions in the files with these names, with which no comments can be
/// asked for.
fn assertions_request<'a>(
    alloc: Global,
    names: Vec<&'a str>,
    comment: bool,
) -> Result<Request<'a>, Stop<'a>>
    ensures request { IfOk result (λ request. (words : List Text)
        → AsksStatement words true comment (map (λ name. name.now) names.entry.items)
        → Asks words request) }
    ensures fault { IfErr result (λ stop. (words : List Text)
        → AsksStatement words true comment (map (λ name. name.now) names.entry.items)
        → IsWordFault words stop) }
{
    if comment {
        return Err(Stop::Usage(format!(in alloc;
            "mm: --comment and --all exclude each other\nUsage: {STATEMENT_USE}\n"
        )?));
    }
    let command = mm_verdict::Command::Find {
        patterns: &[],
        whole: true,
        shape: false,
        hypotheses: false,
    };
    Ok(Request::Run { command, names })
}

/// What the matches of the command `statement` ask for: with `--all` each word names a file, else
/// the first is a label.
pub(crate) fn statement_request<'a>(
    alloc: Global,
    matches: &ArgMatches<'a>,
) -> Result<Request<'a>, Stop<'a>>
    ensures request { IfOk result (λ request. (words : List Text)
        → Commands words (codes "statement") (rows_of (found_of matches.now))
        → Asks words request) }
    ensures fault { IfErr result (λ stop. (words : List Text)
        → Commands words (codes "statement") (rows_of (found_of matches.now))
        → IsWordFault words stop) }
{
    let words = values_of(alloc, matches, FILES)?;
    let comment = is_given(matches, COMMENT);
    if is_given(matches, ALL) {
        return assertions_request(alloc, words, comment);
    }
    let (label, names) = label_and_names(alloc, &words, STATEMENT_USE)?;
    let label = label.as_bytes();
    let command = mm_verdict::Command::Statement { label, comment };
    Ok(Request::Run { command, names })
}

/// The patterns in the matches of the command `find`: the one behind the command, and each behind
/// `--and`.
fn patterns_of<'a>(alloc: Global, matches: &ArgMatches<'a>) -> Result<Vec<&'a str>, AllocError>
    ensures { IfOk result (λ patterns. map (λ pattern. pattern.now) patterns.items
        ≡ unwrap_or (first_of (codes "PATTERN") (rows_of (found_of matches.now))) []
        ∷ unwrap_or (all_of (codes "and") (rows_of (found_of matches.now))) []) }
{
    let others = values_of(alloc, matches, AND)?;
    let mut patterns = Vec::new(alloc);
    patterns.push(asked_word(matches, PATTERN))?;
    patterns.extend_from_slice(&others)?;
    Ok(patterns)
}

/// Whether no pattern has more bytes than files may have.
#[tactic(auto, using(crate::proofs::AskedWords::short_more, crate::proofs::AskedWords::short_at))]
fn are_short(patterns: &[&str]) -> bool
    ensures short { IsTrue result → AreShort (map (λ pattern. pattern.now) patterns.now) }
    ensures long { result ≡ false → ¬ (AreShort (map (λ pattern. pattern.now) patterns.now)) }
{
    for pattern in patterns {
        if pattern.len() > BYTE_LIMIT {
            return false;
        }
    }
    true
}

/// Whether none of the tokens is `$*`.
fn hold_no_gap(tokens: &[&[u8]]) -> bool
    ensures { IsTrue result
        ↔ AllByRecursion (λ token. token ≢ codes "$*") (texts tokens.now) }
{
    for token in tokens {
        if *token == GAP {
            return false;
        }
    }
    true
}

/// Whether no token of the pattern is `$*`.
fn is_gapless(alloc: Global, pattern: &[u8]) -> Result<bool, AllocError>
    requires { length pattern.now ≤ most_bytes }
    ensures { IfOk result (λ gapless. IsTrue gapless ↔ IsGapless pattern.now) }
{
    let tokens = tokens_of(alloc, pattern)?;
    Ok(hold_no_gap(&tokens))
}

/// Whether no token of any of the patterns is `$*`.
fn are_gapless(alloc: Global, patterns: &[&str]) -> Result<bool, AllocError>
    requires { AreShort (map (λ pattern. pattern.now) patterns.now) }
    ensures { IfOk result (λ gapless. IsTrue gapless
        ↔ AllByRecursion IsGapless (map (λ pattern. pattern.now) patterns.now)) }
{
    for pattern in patterns {
        let gapless = is_gapless(alloc, pattern.as_bytes())?;
        if !gapless {
            return Ok(false);
        }
    }
    Ok(true)
}

/// Whether the patterns may be sought so: by their shape where none of them holds `$*`.
fn are_fit(alloc: Global, shape: bool, patterns: &[&str]) -> Result<bool, AllocError>
    requires { AreShort (map (λ pattern. pattern.now) patterns.now) }
    ensures { IfOk result (λ fit. IsTrue fit
        ↔ AreFit shape (map (λ pattern. pattern.now) patterns.now)) }
{
    if shape {
        are_gapless(alloc, patterns)
    } else {
        Ok(true)
    }
}

/// What the matches of the command `find` ask for.
pub(crate) fn find_request<'a>(
    alloc: Global,
    matches: &ArgMatches<'a>,
) -> Result<Request<'a>, Stop<'a>>
    ensures request { IfOk result (λ request. (words : List Text)
        → Commands words (codes "find") (rows_of (found_of matches.now))
        → Asks words request) }
    ensures fault { IfErr result (λ stop. (words : List Text)
        → Commands words (codes "find") (rows_of (found_of matches.now))
        → IsWordFault words stop) }
{
    let patterns = patterns_of(alloc, matches)?;
    let whole = is_given(matches, WHOLE);
    let shape = is_given(matches, SHAPE);
    let hypotheses = is_given(matches, HYPOTHESES);
    let names = values_of(alloc, matches, FILES)?;
    if !are_short(&patterns) {
        return Err(Stop::Usage(format!(in alloc;
            "mm: a pattern has more than {BYTE_LIMIT} bytes\nUsage: {FIND_USE}\n"
        )?));
    }
    let fit = are_fit(alloc, shape, &patterns)?;
    if !fit {
        return Err(Stop::Usage(format!(in alloc; "mm: --shape takes no $*\nUsage: {FIND_USE}\n")?));
    }
    Ok(Request::Find(AskedPatterns {
        patterns,
        whole,
        shape,
        hypotheses,
        names,
    }))
}
