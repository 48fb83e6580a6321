//! What the program is asked by its words: the requests that are made of what `clap` found in them.

ghost use Rattle.std.specs.Prelude.{◌≡◌, List, map, IfOk, IfErr, IfSome, IfNone, codes};
ghost use Rattle.clap.specs.Words.{Row, Text, app_of, found_of, rows_of};
ghost use Rattle.mm_words.specs.CommandLine.{command_line};
ghost use Rattle.mm_words.specs.Words.{AreMatchesOf, Asks, AsksUnder, AsksWhole, Commands};
ghost use Rattle.mm_words.specs.Words.{name_of_text};
ghost use Rattle.mm_words.specs.RefusedWords.{IsWordFault, NamesNoForm, NamesNoText};
ghost use Rattle.mm_step.specs.declared.profile.Profile.{Profile};

use crate::axioms_request::axioms_request;
use crate::command_line::{
    ALL, AXIOMS, CHECK, CODE, COMMAND, DIFF, EXPLAIN, FAULTS, FILES, FIND, HELP, LABEL, LEMMAS,
    MEND, MINIMIZE, NORMAL, PACKED, PROOF, SAME, SHOW, SMALL, SOURCE, STATEMENT, STRICT, TRY,
    USERS, VERSION, WHY, whole_command,
};
use crate::diff_request::diff_request;
use crate::find_request::{find_request, statement_request};
use crate::form_request::{normal_request, proof_request};
use crate::lemmas_request::lemmas_request;
use crate::matches::{asked_profile, asked_word, is_given, values_of};
use crate::minimize_request::minimize_request;
use crate::refused_words::{first_topic, request_of_error};
use crate::request::{AskedMend, AskedText, Request, TextQuestion};
use crate::show_request::show_request;
use crate::stop::Stop;
use clap::{ArgMatches, Command};
use mm_verdict::{Form, Question, WholeQuestion};
use std::alloc::{AllocError, Global};

/// What the matches of a command that asks this question about the whole database ask for.
fn whole_request<'a>(
    alloc: Global,
    matches: &ArgMatches<'a>,
    question: WholeQuestion,
) -> Result<Request<'a>, AllocError>
    ensures { IfOk result (λ request. (words : List Text) (name : Text)
        → Commands words name (rows_of (found_of matches.now))
        → ((profile : Profile) (names : List Text) → AsksUnder name words profile names
        → AsksWhole words question profile names)
        → Asks words request) }
{
    Ok(Request::Run {
        command: mm_verdict::Command::Whole {
            profile: asked_profile(matches, STRICT),
            question,
        },
        names: values_of(alloc, matches, FILES)?,
    })
}

/// What the matches of the command `why` ask for.
fn why_request<'a>(alloc: Global, matches: &ArgMatches<'a>) -> Result<Request<'a>, AllocError>
    ensures { IfOk result (λ request. (words : List Text)
        → Commands words (codes "why") (rows_of (found_of matches.now))
        → Asks words request) }
{
    let profile = asked_profile(matches, STRICT);
    let source = is_given(matches, SOURCE);
    let names = values_of(alloc, matches, FILES)?;
    let command = mm_verdict::Command::Whole {
        profile,
        question: WholeQuestion::Why { source },
    };
    Ok(Request::Run { command, names })
}

/// What the matches of the command `users` ask for.
fn users_request<'a>(alloc: Global, matches: &ArgMatches<'a>) -> Result<Request<'a>, AllocError>
    ensures { IfOk result (λ request. (words : List Text)
        → Commands words (codes "users") (rows_of (found_of matches.now))
        → Asks words request) }
{
    let label = asked_word(matches, LABEL).as_bytes();
    let all = is_given(matches, ALL);
    let names = values_of(alloc, matches, FILES)?;
    let command = mm_verdict::Command::About {
        label,
        question: Question::Users { all },
    };
    Ok(Request::Run { command, names })
}

/// What the matches of a command that asks this about a proof's text ask for.
fn asked_text<'a>(
    alloc: Global,
    matches: &ArgMatches<'a>,
    question: TextQuestion,
) -> Result<Request<'a>, AllocError>
    ensures { IfOk result (λ request. (words : List Text)
        → Commands words (name_of_text question) (rows_of (found_of matches.now))
        → Asks words request) }
{
    Ok(Request::Text(AskedText {
        question,
        label: asked_word(matches, LABEL),
        proof: asked_word(matches, PROOF),
        names: values_of(alloc, matches, FILES)?,
    }))
}

/// What the matches of the command `mend` ask for.
fn mend_request<'a>(alloc: Global, matches: &ArgMatches<'a>) -> Result<Request<'a>, AllocError>
    ensures { IfOk result (λ request. (words : List Text)
        → Commands words (codes "mend") (rows_of (found_of matches.now))
        → Asks words request) }
{
    Ok(Request::Mend(AskedMend {
        label: asked_word(matches, LABEL),
        names: values_of(alloc, matches, FILES)?,
    }))
}

/// What these matches of the words ask for by the commands `normal`, `packed`, `small`, `minimize`,
/// `same`, `try`, `lemmas` and `mend`; nothing where they name none of these.
fn form_request<'a>(
    alloc: Global,
    matches: &ArgMatches<'a>,
) -> Result<Option<Request<'a>>, Stop<'a>>
    ensures request { IfOk result (λ asked. IfSome asked (λ request. (words : List Text)
        → AreMatchesOf words matches.now → Asks words request)) }
    ensures none { IfOk result (λ asked. IfNone asked ((words : List Text)
        → AreMatchesOf words matches.now → NamesNoForm words)) }
    ensures fault { IfErr result (λ stop. (words : List Text)
        → AreMatchesOf words matches.now → IsWordFault words stop) }
{
    if let Some(normal) = matches.subcommand_matches(NORMAL) {
        return Ok(Some(normal_request(alloc, normal)?));
    }
    if let Some(packed) = matches.subcommand_matches(PACKED) {
        return Ok(Some(proof_request(alloc, packed, Form::Packed)?));
    }
    if let Some(small) = matches.subcommand_matches(SMALL) {
        return Ok(Some(proof_request(alloc, small, Form::Small)?));
    }
    if let Some(minimize) = matches.subcommand_matches(MINIMIZE) {
        return Ok(Some(minimize_request(alloc, minimize)?));
    }
    if let Some(same) = matches.subcommand_matches(SAME) {
        return Ok(Some(asked_text(alloc, same, TextQuestion::Same)?));
    }
    if let Some(tried) = matches.subcommand_matches(TRY) {
        return Ok(Some(asked_text(alloc, tried, TextQuestion::Try)?));
    }
    if let Some(lemmas) = matches.subcommand_matches(LEMMAS) {
        return Ok(Some(lemmas_request(alloc, lemmas)?));
    }
    if let Some(mend) = matches.subcommand_matches(MEND) {
        return Ok(Some(mend_request(alloc, mend)?));
    }
    Ok(None)
}

/// What these matches of the words ask for by the commands `explain`, `help` and `version`; nothing
/// where they name none of these.
fn text_request<'a>(
    alloc: Global,
    matches: &ArgMatches<'a>,
) -> Result<Option<Request<'a>>, AllocError>
    ensures request { IfOk result (λ asked. IfSome asked (λ request. (words : List Text)
        → AreMatchesOf words matches.now → Asks words request)) }
    ensures none { IfOk result (λ asked. IfNone asked ((words : List Text)
        → AreMatchesOf words matches.now → NamesNoText words)) }
{
    if let Some(explain) = matches.subcommand_matches(EXPLAIN) {
        return Ok(Some(Request::Explain(values_of(alloc, explain, CODE)?)));
    }
    if let Some(help) = matches.subcommand_matches(HELP) {
        return Ok(Some(Request::Help(help.get_str(COMMAND))));
    }
    if matches.subcommand_matches(VERSION).is_some() {
        return Ok(Some(Request::Version));
    }
    Ok(None)
}

/// What these matches of the words ask for, whose command isn't `diff`. The text on the use is that
/// of the command line.
fn request_of_matches<'a>(
    alloc: Global,
    command: &mut Command<'a>,
    matches: &ArgMatches<'a>,
) -> Result<Request<'a>, Stop<'a>>
    requires { (words : List Text) (rows : List Row) → AreMatchesOf words matches.now
        → ¬ (Commands words (codes "diff") rows) }
    ensures request { IfOk result (λ request. (words : List Text)
        → AreMatchesOf words matches.now → Asks words request) }
    ensures fault { IfErr result (λ stop. (words : List Text)
        → AreMatchesOf words matches.now → IsWordFault words stop) }
{
    if let Some(check) = matches.subcommand_matches(CHECK) {
        return Ok(whole_request(alloc, check, WholeQuestion::Check)?);
    }
    if let Some(faults) = matches.subcommand_matches(FAULTS) {
        return Ok(whole_request(alloc, faults, WholeQuestion::Faults)?);
    }
    if let Some(why) = matches.subcommand_matches(WHY) {
        return Ok(why_request(alloc, why)?);
    }
    if let Some(axioms) = matches.subcommand_matches(AXIOMS) {
        return axioms_request(alloc, axioms);
    }
    if let Some(users) = matches.subcommand_matches(USERS) {
        return Ok(users_request(alloc, users)?);
    }
    if let Some(statement) = matches.subcommand_matches(STATEMENT) {
        return statement_request(alloc, statement);
    }
    if let Some(find) = matches.subcommand_matches(FIND) {
        return find_request(alloc, find);
    }
    if let Some(show) = matches.subcommand_matches(SHOW) {
        return show_request(alloc, show);
    }
    if let Some(request) = form_request(alloc, matches)? {
        return Ok(request);
    }
    if let Some(request) = text_request(alloc, matches)? {
        return Ok(request);
    }
    Err(Stop::Usage(command.render_usage()?))
}

/// What the words ask for, of which these are the matches.
fn request_of_words<'a>(
    alloc: Global,
    command: &mut Command<'a>,
    matches: &ArgMatches<'a>,
    words: &'a [&'a str],
) -> Result<Request<'a>, Stop<'a>>
    ensures request { IfOk result (λ request.
        AreMatchesOf (map (λ word. word.now) words.entry.now) matches.now
        → Asks (map (λ word. word.now) words.entry.now) request) }
    ensures fault { IfErr result (λ stop.
        AreMatchesOf (map (λ word. word.now) words.entry.now) matches.now
        → IsWordFault (map (λ word. word.now) words.entry.now) stop) }
{
    if matches.subcommand_matches(DIFF).is_some() {
        return diff_request(alloc, words);
    }
    request_of_matches(alloc, command, matches)
}

/// What the words ask for, by the command line.
fn request_by<'a>(
    alloc: Global,
    command: &mut Command<'a>,
    words: &'a [&'a str],
) -> Result<Request<'a>, Stop<'a>>
    requires { app_of command.old ≡ command_line }
    ensures request { IfOk result (Asks (map (λ word. word.now) words.entry.now)) }
    ensures fault { IfErr result (IsWordFault (map (λ word. word.now) words.entry.now)) }
{
    let topic = first_topic(command, words);
    match command.try_get_matches_from_mut(words) {
        Ok(matches) => {
            let request = request_of_words(alloc, command, &matches, words);
            drop(matches);
            request
        }
        Err(error) => request_of_error(alloc, &error, topic, words),
    }
}

/// Reads the words, of which the first is the program's name.
///
/// # Errors
///
/// `Usage` where the words aren't understood; `Memory` where a growth was refused.
pub fn request_of<'a>(alloc: Global, words: &'a [&'a str]) -> Result<Request<'a>, Stop<'a>>
    ensures request { IfOk result (Asks (map (λ word. word.now) words.entry.now)) }
    ensures fault { IfErr result (IsWordFault (map (λ word. word.now) words.entry.now)) }
{
    let mut command = whole_command(alloc)?;
    let request = request_by(alloc, &mut command, words);
    drop(command);
    request
}
