//! What the words of `mm lemmas` ask for.

ghost use Rattle.std.specs.Prelude.{◌↔◌, List, IfOk, IfErr, IsTrue, codes, is_some, option_map};
ghost use Rattle.clap.specs.Words.{Text, found_of, rows_of};
ghost use Rattle.mm_words.specs.Words.{AreLemmasFlags, Asks, Commands, StandTogether};
ghost use Rattle.mm_words.specs.RefusedWords.{IsWordFault};

use crate::command_line::{ALL, COMMENT, FILES, LEAST, LEMMAS_USE, LIST, MOST, PREFIX};
use crate::lemma_file_request::lemma_file;
use crate::matches::{is_given, lack_of, optional_word, values_of};
use crate::numbers::number_behind;
use crate::request::Request;
use crate::stop::Stop;
use clap::ArgMatches;
use std::alloc::{AllocError, Global};

/// How many lemmas there are at most, where nothing is said.
const MOST_LEMMAS: usize = 100;

/// How many bytes each of them saves at least, where nothing is said.
const LEAST_BYTES: usize = 1;

/// Which flags of `lemmas` are given, and which words behind `--prefix` and `--comment`.
#[derive(Clone, Copy)]
struct LemmasFlags<'a> {
    list: bool,
    all: bool,
    prefix: Option<&'a str>,
    comment: Option<&'a str>,
}

/// Those in the matches of the command.
fn lemmas_flags<'a>(matches: &ArgMatches<'a>) -> LemmasFlags<'a>
    ensures { AreLemmasFlags (rows_of (found_of matches.now)) result.list result.all
        (option_map (λ word. word.now) result.prefix)
        (option_map (λ word. word.now) result.comment) }
{
    LemmasFlags {
        list: is_given(matches, LIST),
        all: is_given(matches, ALL),
        prefix: optional_word(matches, PREFIX),
        comment: optional_word(matches, COMMENT),
    }
}

/// Whether flags of `lemmas` stand beside each other: `--list` or `--all`, and `--prefix` and
/// `--comment` beside `--all` alone.
fn stand_together(list: bool, all: bool, prefix: bool, comment: bool) -> bool
    ensures { IsTrue result ↔ StandTogether list all prefix comment }
{
    match list {
        true => !all && !prefix && !comment,
        false => all,
    }
}

/// What is said of flags of `lemmas` that don't stand beside each other.
fn flags_apart(alloc: Global, list: bool) -> Result<String, AllocError> {
    if !list {
        return lack_of(alloc, "<--list|--all>", LEMMAS_USE);
    }
    format!(in alloc;
        "mm: --list and --all exclude each other, and --prefix and --comment stand beside --all
Usage: {LEMMAS_USE}
"
    )
}

/// What the matches of the command `lemmas` ask for.
pub(crate) fn lemmas_request<'a>(
    alloc: Global,
    matches: &ArgMatches<'a>,
) -> Result<Request<'a>, Stop<'a>>
    ensures request { IfOk result (λ request. (words : List Text)
        → Commands words (codes "lemmas") (rows_of (found_of matches.now))
        → Asks words request) }
    ensures fault { IfErr result (λ stop. (words : List Text)
        → Commands words (codes "lemmas") (rows_of (found_of matches.now))
        → IsWordFault words stop) }
{
    let words = values_of(alloc, matches, FILES)?;
    let flags = lemmas_flags(matches);
    let has_prefix = flags.prefix.is_some();
    let has_comment = flags.comment.is_some();
    if !stand_together(flags.list, flags.all, has_prefix, has_comment) {
        return Err(Stop::Usage(flags_apart(alloc, flags.list)?));
    }
    let most = number_behind(alloc, matches, MOST, MOST_LEMMAS)?;
    let least = number_behind(alloc, matches, LEAST, LEAST_BYTES)?;
    if flags.list {
        let command = mm_verdict::Command::Lemmas { most, least };
        return Ok(Request::Run {
            command,
            names: words,
        });
    }
    let asked = lemma_file(alloc, &words, flags.prefix, flags.comment, most, least)?;
    Ok(Request::LemmaFile(asked))
}
