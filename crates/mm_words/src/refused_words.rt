//! What is said of words that `clap` refuses.

ghost use Rattle.std.specs.Prelude.{◌≡◌, map, IfOk, IfErr, option_map};
ghost use Rattle.clap.specs.Words.{app_of, kind_of};
ghost use Rattle.mm_words.specs.CommandLine.{command_line, first_command};
ghost use Rattle.mm_words.specs.RefusedWords.{IsFaultOfKind, IsOfKind};

use crate::command_line::{AXIOMS, FILES, LABEL, MINIMIZE, PROOF};
use crate::request::Request;
use crate::stop::Stop;
use clap::error::ErrorKind;
use clap::{Command, Error};
use std::alloc::{AllocError, Global};

/// How `clap` begins the advice to pass an unknown option as a value.
const ADVICE: &str = "\n\n  tip: to pass '";

/// How it begins the usage, which comes after that advice.
const USAGE: &str = "\n\nUsage: ";

/// How it says that files are missing.
const NO_FILES: &str = "\n  <FILES>...";

/// The command that the first word after the program's name names.
pub(crate) fn first_topic<'a>(command: &Command<'a>, words: &[&str]) -> Option<&'a str>
    requires { app_of command.now ≡ command_line }
    ensures { option_map (λ name. name.now) result
        ≡ first_command (map (λ word. word.now) words.now) }
{
    let word = words.get(1)?;
    match command.find_subcommand(word) {
        Some(named) => Some(named.get_name()),
        None => None,
    }
}

/// The parts of clap's text before and after its advice to pass an unknown option as a value.
fn around_advice(text: &str) -> Option<(&str, &str)> {
    let (found, advice) = text.split_once(ADVICE)?;
    let (_, usage) = advice.split_once(USAGE)?;
    Some((found, usage))
}

/// The command that does what a word asks for elsewhere, if there is one.
fn kin_of(word: &str) -> &'static str {
    match word {
        "verify" | "read" => "\n`mm check FILES..` checks a database\n",
        "save" => "\n`mm packed --file LABEL FILES..` writes a file with a packed proof\n",
        "prove" => "\n`mm try LABEL PROOF FILES..` tells whether a text is a proof\n",
        _ => "",
    }
}

/// Where a command alone is given, a label is missing before its files. For `clap` these are all
/// files, as with `--all` and `--list`.
fn with_label(alloc: Global, text: String, words: &[&str]) -> Result<String, AllocError> {
    let [_, AXIOMS | MINIMIZE] = words else {
        return Ok(text);
    };
    match text.split_once(NO_FILES) {
        Some((before, after)) => format!(in alloc; "{before}\n  <LABEL>{NO_FILES}{after}"),
        None => Ok(text),
    }
}

/// What is said of words that `clap` refuses: which word isn't understood, and the usage.
fn refusal(alloc: Global, error: &Error, words: &[&str]) -> Result<String, AllocError> {
    let text = with_label(alloc, format!(in alloc; "{error}")?, words)?;
    let kin = match words.get(1) {
        Some(word) => kin_of(word),
        None => "",
    };
    match around_advice(&text) {
        Some((found, usage)) => format!(in alloc; "{found}{USAGE}{usage}{kin}"),
        None => format!(in alloc; "{text}{kin}"),
    }
}

/// What clap's answer in place of matches is to the program: help on the topic or the version where
/// that was asked for, else a fault of the words.
pub(crate) fn request_of_error<'a>(
    alloc: Global,
    error: &Error,
    topic: Option<&'a str>,
    words: &[&str],
) -> Result<Request<'a>, Stop<'a>>
    ensures request { IfOk result (IsOfKind (kind_of error.now)
        (option_map (λ name. name.now) topic.entry)) }
    ensures fault { IfErr result (IsFaultOfKind (kind_of error.now)) }
{
    match error.kind() {
        ErrorKind::OutOfMemory => Err(Stop::Memory),
        ErrorKind::DisplayHelp => Ok(Request::Help(topic)),
        ErrorKind::DisplayVersion => Ok(Request::Version),
        _ => Err(Stop::Usage(refusal(alloc, error, words)?)),
    }
}
