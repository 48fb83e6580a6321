//! What the words of `mm normal`, `mm packed` and `mm small` ask for.

ghost use Rattle.std.specs.Prelude.{◌≡◌, List, map, IfOk, IfErr, codes, false, true, ℕ};
ghost use Rattle.clap.specs.Words.{Text, found_of, rows_of};
ghost use Rattle.mm_verdict.specs.declared.question.Command.TheVariants.{File};
ghost use Rattle.mm_words.specs.Words.{Asks, Commands, IsForAll, IsGiven, name_of_form};
ghost use Rattle.mm_words.specs.Words.{number_among};
ghost use Rattle.mm_words.specs.RefusedWords.{IsAllFault, IsWordFault};
ghost use Rattle.mm_words.specs.declared.request.Request.TheVariants.{Run};

use crate::command_line::{ALL, FILE, FILES, KNOWN, LABEL, NORMAL, PACKED, SMALL};
use crate::matches::{asked_word, is_given, number_of, values_of};
use crate::request::Request;
use crate::stop::Stop;
use clap::ArgMatches;
use mm_verdict::{Form, LoneQuestion, Question};
use std::alloc::Global;

/// What is said where flags of `normal` are given that exclude each other.
const NORMAL_FLAGS: &str = "mm: --known excludes --file and --all
Usage: mm normal --known LABEL FILES..
";

/// The name of the command that asks for proofs in a form.
fn form_name(form: Form) -> &'static str
    ensures { result.now ≡ name_of_form form }
{
    match form {
        Form::Normal => NORMAL,
        Form::Packed => PACKED,
        Form::Small => SMALL,
    }
}

/// The request for the file with a name among these, with each proof in a form. It stands beside no
/// request for the file of one proof, `whole`.
fn all_request<'a>(
    alloc: Global,
    form: Form,
    whole: bool,
    name: &str,
    names: Vec<&'a str>,
) -> Result<Request<'a>, Stop<'a>>
    ensures request { IfOk result (λ request. (number : ℕ)
        × (request ≡ Run (File form number) names.entry) × (whole ≡ false)
        × (number_among (map (λ n. n.now) names.entry.items) name.now ≡ Some number)) }
    ensures fault { IfErr result (IsAllFault whole name.now
        (map (λ n. n.now) names.entry.items)) }
{
    let command = form_name(form);
    if whole {
        return Err(Stop::Usage(format!(in alloc;
            "mm: --file and --all exclude each other\nUsage: mm {command} --all NAME FILES..\n"
        )?));
    }
    let Some(file) = number_of(&names, name) else {
        return Err(Stop::Usage(format!(in alloc;
            "mm: {name} is none of the files\nUsage: mm {command} --all NAME FILES..\n"
        )?));
    };
    let command = mm_verdict::Command::File { form, file };
    Ok(Request::Run { command, names })
}

/// What the matches of the command that asks for proofs in a form ask for.
pub(crate) fn proof_request<'a>(
    alloc: Global,
    matches: &ArgMatches<'a>,
    form: Form,
) -> Result<Request<'a>, Stop<'a>>
    ensures request { IfOk result (λ request. (words : List Text)
        → Commands words (name_of_form form) (rows_of (found_of matches.now))
        → IsForAll form (rows_of (found_of matches.now)) → Asks words request) }
    ensures fault { IfErr result (λ stop. (words : List Text)
        → Commands words (name_of_form form) (rows_of (found_of matches.now))
        → IsWordFault words stop) }
{
    let word = asked_word(matches, LABEL);
    let whole = is_given(matches, FILE);
    let names = values_of(alloc, matches, FILES)?;
    if is_given(matches, ALL) {
        return all_request(alloc, form, whole, word, names);
    }
    let label = word.as_bytes();
    let command = mm_verdict::Command::About {
        label,
        question: Question::Form { form, whole },
    };
    Ok(Request::Run { command, names })
}

/// What the matches of the command `normal` ask for, where `--known` is given: for a proof as far as
/// it is known.
fn known_request<'a>(alloc: Global, matches: &ArgMatches<'a>) -> Result<Request<'a>, Stop<'a>>
    requires { IsGiven (codes "known") (rows_of (found_of matches.now)) true }
    ensures request { IfOk result (λ request. (words : List Text)
        → Commands words (codes "normal") (rows_of (found_of matches.now))
        → Asks words request) }
    ensures fault { IfErr result (λ stop. (words : List Text)
        → Commands words (codes "normal") (rows_of (found_of matches.now))
        → IsWordFault words stop) }
{
    if is_given(matches, FILE) || is_given(matches, ALL) {
        return Err(Stop::Usage(format!(in alloc; "{NORMAL_FLAGS}")?));
    }
    let label = asked_word(matches, LABEL).as_bytes();
    let names = values_of(alloc, matches, FILES)?;
    let command = mm_verdict::Command::Lone {
        label,
        question: LoneQuestion::KnownNormal,
    };
    Ok(Request::Run { command, names })
}

/// What the matches of the command `normal` ask for.
pub(crate) fn normal_request<'a>(
    alloc: Global,
    matches: &ArgMatches<'a>,
) -> Result<Request<'a>, Stop<'a>>
    ensures request { IfOk result (λ request. (words : List Text)
        → Commands words (codes "normal") (rows_of (found_of matches.now))
        → Asks words request) }
    ensures fault { IfErr result (λ stop. (words : List Text)
        → Commands words (codes "normal") (rows_of (found_of matches.now))
        → IsWordFault words stop) }
{
    if is_given(matches, KNOWN) {
        return known_request(alloc, matches);
    }
    proof_request(alloc, matches, Form::Normal)
}
