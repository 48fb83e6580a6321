//! What the words of `mm minimize` ask for.

ghost use Rattle.std.specs.Prelude.{◌≡◌, ◌↔◌, List, IfOk, IfErr, IsTrue, codes};
ghost use Rattle.clap.specs.Words.{Text, found_of, rows_of};
ghost use Rattle.mm_verdict.specs.declared.question.Command.TheVariants.{Whole};
ghost use Rattle.mm_verdict.specs.declared.question.WholeQuestion.TheVariants.{Shorter};
ghost use Rattle.mm_words.specs.Words.{Asks, AreMinimizeFlags, Commands, DoAgree};
ghost use Rattle.mm_words.specs.RefusedWords.{IsWordFault};
ghost use Rattle.mm_step.specs.declared.profile.Profile.TheVariants.{Lenient};
ghost use Rattle.mm_words.specs.declared.request.Request.TheVariants.{Run};

use crate::command_line::{ALL, DUPLICATES, FILE, FILES, LIST, MINIMIZE_USE};
use crate::matches::{is_given, label_and_names, named_file, values_of};
use crate::request::Request;
use crate::stop::Stop;
use clap::ArgMatches;
use mm_step::Profile;
use mm_verdict::{Question, WholeQuestion};
use std::alloc::Global;

/// Which flags of `minimize` are given.
#[derive(Clone, Copy)]
struct MinimizeFlags {
    whole: bool,
    all: bool,
    list: bool,
    duplicates: bool,
}

/// Those in the matches of the command.
fn minimize_flags(matches: &ArgMatches) -> MinimizeFlags
    ensures { AreMinimizeFlags (rows_of (found_of matches.now)) result.whole result.all result.list
        result.duplicates }
{
    MinimizeFlags {
        whole: is_given(matches, FILE),
        all: is_given(matches, ALL),
        list: is_given(matches, LIST),
        duplicates: is_given(matches, DUPLICATES),
    }
}

/// Whether flags of `minimize` stand beside each other: `--file` and `--list` each alone, and
/// `--duplicates` beside `--all`.
fn do_agree(flags: MinimizeFlags) -> bool
    ensures { IsTrue result ↔ DoAgree flags.whole flags.all flags.list flags.duplicates }
{
    match (flags.whole, flags.list) {
        (true, list) => !flags.all && !list && !flags.duplicates,
        (false, true) => !flags.all && !flags.duplicates,
        (false, false) => flags.all || !flags.duplicates,
    }
}

/// The request to list the proofs in the files with these names that become shorter.
fn listed_request(names: Vec<&str>) -> Request<'_>
    ensures { result ≡ Run (Whole Lenient Shorter) names.entry }
{
    Request::Run {
        command: mm_verdict::Command::Whole {
            profile: Profile::Lenient,
            question: WholeQuestion::Shorter,
        },
        names,
    }
}

/// What the matches of the command `minimize` ask for.
pub(crate) fn minimize_request<'a>(
    alloc: Global,
    matches: &ArgMatches<'a>,
) -> Result<Request<'a>, Stop<'a>>
    ensures request { IfOk result (λ request. (words : List Text)
        → Commands words (codes "minimize") (rows_of (found_of matches.now))
        → Asks words request) }
    ensures fault { IfErr result (λ stop. (words : List Text)
        → Commands words (codes "minimize") (rows_of (found_of matches.now))
        → IsWordFault words stop) }
{
    let words = values_of(alloc, matches, FILES)?;
    let flags = minimize_flags(matches);
    if !do_agree(flags) {
        return Err(Stop::Usage(format!(in alloc;
            "mm: --file and --list stand alone, and --duplicates beside --all
Usage: {MINIMIZE_USE}
"
        )?));
    }
    if flags.list {
        return Ok(listed_request(words));
    }
    if flags.all {
        let (file, names) = named_file(alloc, &words, MINIMIZE_USE)?;
        let command = mm_verdict::Command::Shorter {
            file,
            duplicates: flags.duplicates,
        };
        return Ok(Request::Run { command, names });
    }
    let (label, names) = label_and_names(alloc, &words, MINIMIZE_USE)?;
    let command = mm_verdict::Command::About {
        label: label.as_bytes(),
        question: Question::Minimized { whole: flags.whole },
    };
    Ok(Request::Run { command, names })
}
