//! What `clap` found in the words for an argument of a command.

ghost use Rattle.std.specs.Prelude.{◌≡◌, ◌≢◌, ◌∷◌, [], map, IfOk, IfErr, option_map};
ghost use Rattle.std.specs.Prelude.{position, unwrap_or};
ghost use Rattle.std.specs.Str.{bytes_eq};
ghost use Rattle.clap.specs.Words.{all_of, first_of, found_of, rows_of};
ghost use Rattle.mm_words.specs.Words.{IsGiven, NamesFile, is_strict};
ghost use Rattle.mm_words.specs.RefusedWords.{IsFilesFault, IsNamingFault};

use crate::command_line::FILES;
use crate::stop::Stop;
use clap::ArgMatches;
use mm_step::Profile;
use std::alloc::{AllocError, Global};

/// What `clap` finds for a flag that is given.
const GIVEN: &str = "true";

/// The values of an argument, in the matches of its command.
pub(crate) fn values_of<'a>(
    alloc: Global,
    command: &ArgMatches<'a>,
    argument: &str,
) -> Result<Vec<&'a str>, AllocError>
    ensures { IfOk result (λ values. map (λ value. value.now) values.items
        ≡ unwrap_or (all_of argument.now (rows_of (found_of command.now))) []) }
{
    match command.get_strs(argument) {
        Some(values) => values.to_vec(alloc),
        None => Ok(Vec::new(alloc)),
    }
}

/// The word that is given for an argument, in the matches of its command.
pub(crate) fn asked_word<'a>(command: &ArgMatches<'a>, argument: &str) -> &'a str
    ensures { result.now ≡ unwrap_or (first_of argument.now (rows_of (found_of command.now))) [] }
{
    match command.get_str(argument) {
        Some(word) => word,
        None => "",
    }
}

/// The word that is given for an argument, in the matches of its command, where there is one.
pub(crate) fn optional_word<'a>(command: &ArgMatches<'a>, argument: &str) -> Option<&'a str>
    ensures { option_map (λ word. word.now) result
        ≡ first_of argument.now (rows_of (found_of command.now)) }
{
    command.get_str(argument)
}

/// Whether a flag is given, in the matches of its command.
pub(crate) fn is_given(command: &ArgMatches, flag: &str) -> bool
    ensures { IsGiven flag.now (rows_of (found_of command.now)) result }
{
    asked_word(command, flag) == GIVEN
}

/// The profile that is asked for, in the matches of the command: by the flag the strict one.
pub(crate) fn asked_profile(command: &ArgMatches, flag: &str) -> Profile
    ensures { IsGiven flag.now (rows_of (found_of command.now)) (is_strict result) }
{
    match is_given(command, flag) {
        true => Profile::Strict,
        false => Profile::Lenient,
    }
}

/// The number of the first of these names that is this one.
pub(crate) fn number_of(names: &[&str], name: &str) -> Option<usize>
    ensures { result ≡ position (λ other. bytes_eq other.now name.now) names.now }
{
    names.iter().position(|other| *other == name)
}

/// What is said where this argument isn't given, as `clap` says it.
pub(crate) fn lack_of(alloc: Global, argument: &str, usage: &str) -> Result<String, AllocError> {
    format!(in alloc;
        "error: the following required arguments were not provided:
  {argument}

Usage: {usage}

For more information, try '--help'.
"
    )
}

/// A label and the files' names behind it, of which there is one at least, where the command is used
/// so.
pub(crate) fn label_and_names<'a>(
    alloc: Global,
    words: &[&'a str],
    usage: &str,
) -> Result<(&'a str, Vec<&'a str>), Stop<'a>>
    ensures parts { IfOk result (λ parts. (map (λ word. word.now) words.now
        ≡ parts.0.now ∷ map (λ name. name.now) parts.1.items)
        × (map (λ name. name.now) parts.1.items ≢ [])) }
    ensures fault { IfErr result (IsFilesFault (map (λ word. word.now) words.now)) }
{
    match words {
        [label, names @ ..] if !names.is_empty() => Ok((*label, names.to_vec(alloc)?)),
        _ => Err(Stop::Usage(lack_of(alloc, "<FILES>...", usage)?)),
    }
}

/// The number of the file that the first word names, among those that the others name, and the names
/// of these, where the command is used so.
pub(crate) fn named_file<'a>(
    alloc: Global,
    words: &[&'a str],
    usage: &str,
) -> Result<(usize, Vec<&'a str>), Stop<'a>>
    ensures named { IfOk result (λ named. NamesFile (map (λ word. word.now) words.now) named.0
        (map (λ name. name.now) named.1.items)) }
    ensures fault { IfErr result (IsNamingFault (map (λ word. word.now) words.now)) }
{
    let (name, names) = label_and_names(alloc, words, usage)?;
    match number_of(&names, name) {
        Some(file) => Ok((file, names)),
        None => Err(Stop::Usage(format!(in alloc;
            "mm: {name} is none of the files\nUsage: {usage}\n"
        )?)),
    }
}
