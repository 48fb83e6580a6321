//! What the words of `mm axioms` ask for.

ghost use Rattle.std.specs.Prelude.{◌≢◌, ◌↔◌, ◌∷◌, [], List, IfOk, IfErr, IsTrue, false};
ghost use Rattle.std.specs.Prelude.{is_some, codes, option_map};
ghost use Rattle.clap.specs.Words.{Text, found_of, rows_of};
ghost use Rattle.mm_words.specs.Words.{AreAxiomsFlags, Asks, AsksAbout, AsksAxioms, ToStandsAlone};
ghost use Rattle.mm_words.specs.Words.{Commands};
ghost use Rattle.mm_words.specs.RefusedWords.{IsWordFault};

use crate::command_line::{ALL, AXIOMS_USE, ESSENTIAL, FILES, TO};
use crate::matches::{is_given, label_and_names, optional_word, values_of};
use crate::request::Request;
use crate::stop::Stop;
use clap::ArgMatches;
use mm_step::Profile;
use mm_verdict::{Question, WholeQuestion};
use std::alloc::Global;

/// Which flags of `axioms` are given, and the word behind `--to`.
#[derive(Clone, Copy)]
struct AxiomsFlags<'a> {
    all: bool,
    essential: bool,
    to: Option<&'a str>,
}

/// Those in the matches of the command.
fn axioms_flags<'a>(matches: &ArgMatches<'a>) -> AxiomsFlags<'a>
    ensures { AreAxiomsFlags (rows_of (found_of matches.now)) result.all result.essential
        (option_map (λ label. label.now) result.to) }
{
    AxiomsFlags {
        all: is_given(matches, ALL),
        essential: is_given(matches, ESSENTIAL),
        to: optional_word(matches, TO),
    }
}

/// Whether `--to` is given without the other flags of `axioms`, if it is.
fn to_stands_alone(all: bool, essential: bool, to: bool) -> bool
    ensures { IsTrue result ↔ ToStandsAlone all essential to }
{
    match to {
        true => !all && !essential,
        false => true,
    }
}

/// The question that the flags ask about a theorem; behind `--to` stands another label.
fn axioms_question<'a>(essential: bool, to: Option<&'a str>) -> Question<'a>
    ensures { (words names : List Text) (label : Text)
        → ToStandsAlone false essential (is_some to.entry)
        → AsksAxioms words false essential (option_map (λ other. other.now) to.entry)
        (label ∷ names)
        → names ≢ [] → AsksAbout words label result names }
{
    match to {
        Some(other) => Question::Chain(other.as_bytes()),
        None => Question::Axioms { essential },
    }
}

/// What the matches of the command `axioms` ask for: with `--all` each word names a file, else the
/// first is a label.
pub(crate) fn axioms_request<'a>(
    alloc: Global,
    matches: &ArgMatches<'a>,
) -> Result<Request<'a>, Stop<'a>>
    ensures request { IfOk result (λ request. (words : List Text)
        → Commands words (codes "axioms") (rows_of (found_of matches.now))
        → Asks words request) }
    ensures fault { IfErr result (λ stop. (words : List Text)
        → Commands words (codes "axioms") (rows_of (found_of matches.now))
        → IsWordFault words stop) }
{
    let words = values_of(alloc, matches, FILES)?;
    let flags = axioms_flags(matches);
    if !to_stands_alone(flags.all, flags.essential, flags.to.is_some()) {
        return Err(Stop::Usage(format!(in alloc;
            "mm: --to excludes --all and --essential\nUsage: {AXIOMS_USE}\n"
        )?));
    }
    if flags.all {
        let command = mm_verdict::Command::Whole {
            profile: Profile::Lenient,
            question: WholeQuestion::Axioms {
                essential: flags.essential,
            },
        };
        return Ok(Request::Run {
            command,
            names: words,
        });
    }
    let (label, names) = label_and_names(alloc, &words, AXIOMS_USE)?;
    let command = mm_verdict::Command::About {
        label: label.as_bytes(),
        question: axioms_question(flags.essential, flags.to),
    };
    Ok(Request::Run { command, names })
}
