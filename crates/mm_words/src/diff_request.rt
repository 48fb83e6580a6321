//! What the words of `mm diff` ask for.

ghost use Rattle.std.specs.Prelude.{◌≡◌, ◌≢◌, [], List, map, IfOk, IfErr, IfSome, IfNone, codes};
ghost use Rattle.std.specs.Prelude.{◌⊎◌, drop};
ghost use Rattle.clap.specs.Words.{Row, Text};
ghost use Rattle.mm_words.specs.Words.{Asks, AreSides, Commands};
ghost use Rattle.mm_words.specs.RefusedWords.{IsWordFault};

use crate::command_line::DIFF_USE;
use crate::matches::number_of;
use crate::request::{AskedVersions, Request};
use crate::stop::Stop;
use std::alloc::Global;

/// What stands between the files of two versions.
const DASHES: &str = "--";

/// The words behind the program's name and the command.
fn behind_command<'a>(words: &'a [&'a str]) -> &'a [&'a str]
    ensures { map (λ word. word.now) result.now ≡ drop 2 (map (λ word. word.now) words.entry.now) }
{
    match words {
        [_, _, behind @ ..] => behind,
        _ => &[],
    }
}

/// The versions in the files with these names, where there are some on both sides.
fn versions_in<'a>(old: &'a [&'a str], new: &'a [&'a str]) -> Option<AskedVersions<'a>>
    ensures some { IfSome result (λ sides. (sides.old.now ≡ old.entry.now)
        × (sides.new.now ≡ new.entry.now) × (old.entry.now ≢ []) × (new.entry.now ≢ [])) }
    ensures none { IfNone result ((old.entry.now ≡ []) ⊎ (new.entry.now ≡ [])) }
{
    if old.is_empty() || new.is_empty() {
        None
    } else {
        Some(AskedVersions { old, new })
    }
}

/// The names of the files on both sides of the first `--` among these words, where there are some
/// on each; where no word is `--`, of two words the first and the second.
fn sides_of<'a>(words: &'a [&'a str]) -> Option<AskedVersions<'a>>
    ensures some { IfSome result (λ sides. AreSides (map (λ word. word.now) words.entry.now)
        (map (λ name. name.now) sides.old.now) (map (λ name. name.now) sides.new.now)) }
    ensures none { IfNone result ((old new : List Text)
        → ¬ (AreSides (map (λ word. word.now) words.entry.now) old new)) }
{
    match number_of(words, DASHES) {
        Some(number) => versions_in(&words[..number], &words[number + 1..]),
        None if words.len() == 2 => versions_in(&words[..1], &words[1..]),
        None => None,
    }
}

/// What these words ask for, whose command is `diff`. For `clap` a `--` ends the options, and is
/// left out: so the files are taken from the words themselves, which hold no option.
pub(crate) fn diff_request<'a>(alloc: Global, words: &'a [&'a str]) -> Result<Request<'a>, Stop<'a>>
    ensures request { IfOk result (λ request. (rows : List Row)
        → Commands (map (λ word. word.now) words.entry.now) (codes "diff") rows
        → Asks (map (λ word. word.now) words.entry.now) request) }
    ensures fault { IfErr result (λ stop. (rows : List Row)
        → Commands (map (λ word. word.now) words.entry.now) (codes "diff") rows
        → IsWordFault (map (λ word. word.now) words.entry.now) stop) }
{
    match sides_of(behind_command(words)) {
        Some(asked) => Ok(Request::Diff(asked)),
        None => Err(Stop::Usage(format!(in alloc;
            "mm: diff takes two files, or files on both sides of --\nUsage: {DIFF_USE}\n"
        )?)),
    }
}
