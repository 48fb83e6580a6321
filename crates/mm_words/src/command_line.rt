//! The commands of the program, for `clap`: their names, and what stands behind each.

ghost use Rattle.std.specs.Prelude.{◌≡◌, IfOk, false};
ghost use Rattle.clap.specs.Words.{App, Rule, app_of, rule_of, with_rule, with_subcommand};
ghost use Rattle.clap.specs.declared.builder.command.Command.TheViews.{out-Command};
ghost use Rattle.mm_words.specs.CommandLine.{axioms_line, bare_line, check_line, check_lines};
ghost use Rattle.mm_words.specs.CommandLine.{code_rule, command_line, database_line, explain_line};
ghost use Rattle.mm_words.specs.CommandLine.{faults_line, diff_line, versions_line, files_rule};
ghost use Rattle.mm_words.specs.CommandLine.{find_line, flag_rule, form_line, forms_line};
ghost use Rattle.mm_words.specs.CommandLine.{help_line, label_rule, minimize_line, normal_line};
ghost use Rattle.mm_words.specs.CommandLine.{option_rule, options_rule, packed_line, pattern_rule};
ghost use Rattle.mm_words.specs.CommandLine.{profile_line, proof_rule, proofs_line, question_line};
ghost use Rattle.mm_words.specs.CommandLine.{rests_line, same_line, shorter_line, show_line};
ghost use Rattle.mm_words.specs.CommandLine.{small_line, statement_line, text_line, topic_rule};
ghost use Rattle.mm_words.specs.CommandLine.{try_line, users_line, lemmas_line, mend_line};
ghost use Rattle.mm_words.specs.CommandLine.{version_line, why_line};

use clap::{Arg, ArgAction, Command};
use std::alloc::{AllocError, Global};

const PROGRAM: &str = "mm";

pub(crate) const CHECK: &str = "check";

pub(crate) const FAULTS: &str = "faults";

pub(crate) const WHY: &str = "why";

pub(crate) const AXIOMS: &str = "axioms";

pub(crate) const STATEMENT: &str = "statement";

pub(crate) const FIND: &str = "find";

pub(crate) const USERS: &str = "users";

pub(crate) const SHOW: &str = "show";

pub(crate) const NORMAL: &str = "normal";

pub(crate) const PACKED: &str = "packed";

pub(crate) const SMALL: &str = "small";

pub(crate) const MINIMIZE: &str = "minimize";

pub(crate) const LEMMAS: &str = "lemmas";

pub(crate) const SAME: &str = "same";

pub(crate) const TRY: &str = "try";

pub(crate) const MEND: &str = "mend";

pub(crate) const DIFF: &str = "diff";

pub(crate) const EXPLAIN: &str = "explain";

pub(crate) const HELP: &str = "help";

pub(crate) const VERSION: &str = "version";

pub(crate) const FILES: &str = "FILES";

pub(crate) const LABEL: &str = "LABEL";

pub(crate) const PATTERN: &str = "PATTERN";

pub(crate) const FILE: &str = "file";

pub(crate) const ALL: &str = "all";

pub(crate) const COMMENT: &str = "comment";

pub(crate) const LIST: &str = "list";

pub(crate) const DUPLICATES: &str = "duplicates";

pub(crate) const MOST: &str = "most";

pub(crate) const LEAST: &str = "least";

pub(crate) const PREFIX: &str = "prefix";

pub(crate) const KNOWN: &str = "known";

pub(crate) const LETTERS: &str = "letters";

pub(crate) const ESSENTIAL: &str = "essential";

pub(crate) const USES: &str = "uses";

pub(crate) const STRICT: &str = "strict";

pub(crate) const SOURCE: &str = "source";

pub(crate) const TO: &str = "to";

pub(crate) const AND: &str = "and";

pub(crate) const WHOLE: &str = "whole";

pub(crate) const SHAPE: &str = "shape";

pub(crate) const HYPOTHESES: &str = "hypotheses";

pub(crate) const PROOF: &str = "PROOF";

pub(crate) const CODE: &str = "CODE";

pub(crate) const COMMAND: &str = "COMMAND";

/// The names of the files, for `clap`.
fn files_argument<'a>(alloc: Global) -> Arg<'a>
    ensures rule { rule_of result ≡ files_rule }
    ensures local { result.global ≡ false }
{
    Arg::new(alloc, FILES)
        .required(true)
        .num_args(1..)
        .action(ArgAction::Append)
}

/// The label of a theorem, for `clap`.
fn label_argument<'a>(alloc: Global) -> Arg<'a>
    ensures rule { rule_of result ≡ label_rule }
    ensures local { result.global ≡ false }
{
    Arg::new(alloc, LABEL).required(true).action(ArgAction::Set)
}

/// The pattern that an expression has, for `clap`.
fn pattern_argument<'a>(alloc: Global) -> Arg<'a>
    ensures rule { rule_of result ≡ pattern_rule }
    ensures local { result.global ≡ false }
{
    Arg::new(alloc, PATTERN)
        .required(true)
        .action(ArgAction::Set)
}

/// The option with this name and a word behind it, for `clap`.
fn option_argument<'a>(alloc: Global, name: &'a str) -> Arg<'a>
    ensures rule { rule_of result ≡ option_rule name.entry.now }
    ensures local { result.global ≡ false }
{
    Arg::new(alloc, name).long(name).action(ArgAction::Set)
}

/// The option with this name and a word behind it, which may be given again, for `clap`.
fn options_argument<'a>(alloc: Global, name: &'a str) -> Arg<'a>
    ensures rule { rule_of result ≡ options_rule name.entry.now }
    ensures local { result.global ≡ false }
{
    Arg::new(alloc, name).long(name).action(ArgAction::Append)
}

/// The flag with this name, for `clap`.
fn flag_argument<'a>(alloc: Global, name: &'a str) -> Arg<'a>
    ensures rule { rule_of result ≡ flag_rule name.entry.now }
    ensures local { result.global ≡ false }
{
    Arg::new(alloc, name).long(name).action(ArgAction::SetTrue)
}

/// A command with one argument more, for `clap`, where it was made.
fn with_argument<'a>(
    command: Result<Command<'a>, AllocError>,
    argument: Arg<'a>,
) -> Result<Command<'a>, AllocError>
    ensures shape { (line : App) (rule : Rule) → argument.entry.global ≡ false
        → IfOk command.entry (λ c. app_of c ≡ line) → rule_of argument.entry ≡ rule
        → IfOk result (λ with. app_of with ≡ with_rule line rule) }
    ensures local { IfOk command.entry (λ c. (out-Command c).has_globals ≡ false)
        → argument.entry.global ≡ false
        → IfOk result (λ with. (out-Command with).has_globals ≡ false) }
{
    command?.arg(argument)
}

/// The name of the file with a proof's text, for `clap`.
fn proof_argument<'a>(alloc: Global) -> Arg<'a>
    ensures rule { rule_of result ≡ proof_rule }
    ensures local { result.global ≡ false }
{
    Arg::new(alloc, PROOF).required(true).action(ArgAction::Set)
}

/// The code of a rule, or the words of a reply that names one, for `clap`.
fn code_argument<'a>(alloc: Global) -> Arg<'a>
    ensures rule { rule_of result ≡ code_rule }
    ensures local { result.global ≡ false }
{
    Arg::new(alloc, CODE)
        .num_args(0..)
        .action(ArgAction::Append)
}

/// The name of a command, for `clap`.
fn topic_argument<'a>(alloc: Global) -> Arg<'a>
    ensures rule { rule_of result ≡ topic_rule }
    ensures local { result.global ≡ false }
{
    Arg::new(alloc, COMMAND)
        .num_args(0..=1)
        .action(ArgAction::Append)
}

/// A command that checks a database under a profile, for `clap`.
fn profile_command<'a>(
    alloc: Global,
    name: &'a str,
    about: &'a str,
    usage: &'a str,
) -> Result<Command<'a>, AllocError>
    ensures shape { IfOk result (λ command. app_of command ≡ profile_line name.entry.now) }
    ensures local { IfOk result (λ command. (out-Command command).has_globals ≡ false) }
{
    Command::new(alloc, name)
        .about(about)
        .override_usage(usage)
        .arg(flag_argument(alloc, STRICT))?
        .arg(files_argument(alloc))
}

/// The command `check`, for `clap`.
fn check_command<'a>(alloc: Global) -> Result<Command<'a>, AllocError>
    ensures shape { IfOk result (λ command. app_of command ≡ check_line) }
    ensures local { IfOk result (λ command. (out-Command command).has_globals ≡ false) }
{
    profile_command(
        alloc,
        CHECK,
        "checks each statement and each proof of a database",
        "mm check [--strict] FILES..",
    )
}

/// The command `faults`, for `clap`.
fn faults_command<'a>(alloc: Global) -> Result<Command<'a>, AllocError>
    ensures shape { IfOk result (λ command. app_of command ≡ faults_line) }
    ensures local { IfOk result (λ command. (out-Command command).has_globals ≡ false) }
{
    profile_command(
        alloc,
        FAULTS,
        "lists all faults of a database",
        "mm faults [--strict] FILES..",
    )
}

/// The command `why`, for `clap`.
fn why_command<'a>(alloc: Global) -> Result<Command<'a>, AllocError>
    ensures shape { IfOk result (λ command. app_of command ≡ why_line) }
    ensures local { IfOk result (λ command. (out-Command command).has_globals ≡ false) }
{
    profile_command(
        alloc,
        WHY,
        "explains the faults of a database",
        "mm why [--strict] [--source] FILES..",
    )?
    .arg(flag_argument(alloc, SOURCE))
}

/// A command that asks about the statement with a label, for `clap`.
fn question_command<'a>(
    alloc: Global,
    name: &'a str,
    about: &'a str,
    usage: &'a str,
) -> Result<Command<'a>, AllocError>
    ensures shape { IfOk result (λ command. app_of command ≡ question_line name.entry.now) }
    ensures local { IfOk result (λ command. (out-Command command).has_globals ≡ false) }
{
    Command::new(alloc, name)
        .about(about)
        .override_usage(usage)
        .arg(label_argument(alloc))?
        .arg(files_argument(alloc))
}

/// A command that asks for the proof of the theorem with a label in a form, or for its whole file
/// with that proof, or for a file with all its proofs in that form, for `clap`.
fn form_command<'a>(
    alloc: Global,
    name: &'a str,
    about: &'a str,
    usage: &'a str,
) -> Result<Command<'a>, AllocError>
    ensures shape { IfOk result (λ command. app_of command ≡ form_line name.entry.now) }
    ensures local { IfOk result (λ command. (out-Command command).has_globals ≡ false) }
{
    let command = question_command(alloc, name, about, usage);
    let command = with_argument(command, flag_argument(alloc, FILE));
    with_argument(command, flag_argument(alloc, ALL))
}

/// How `axioms` is used.
pub(crate) const AXIOMS_USE: &str = "mm axioms [--essential | --to AXIOM] LABEL FILES..
       mm axioms --all [--essential] FILES..";

/// The command `axioms`, for `clap`.
fn axioms_command<'a>(alloc: Global) -> Result<Command<'a>, AllocError>
    ensures shape { IfOk result (λ command. app_of command ≡ axioms_line) }
    ensures local { IfOk result (λ command. (out-Command command).has_globals ≡ false) }
{
    let command = Command::new(alloc, AXIOMS)
        .about("lists the axioms that a theorem rests on, or each theorem")
        .override_usage(AXIOMS_USE);
    let command = with_argument(Ok(command), flag_argument(alloc, ALL));
    let command = with_argument(command, flag_argument(alloc, ESSENTIAL));
    let command = with_argument(command, option_argument(alloc, TO));
    with_argument(command, files_argument(alloc))
}

/// How `statement` is used.
pub(crate) const STATEMENT_USE: &str = "mm statement [--comment] LABEL FILES..
       mm statement --all FILES..";

/// The command `statement`, for `clap`.
fn statement_command<'a>(alloc: Global) -> Result<Command<'a>, AllocError>
    ensures shape { IfOk result (λ command. app_of command ≡ statement_line) }
    ensures local { IfOk result (λ command. (out-Command command).has_globals ≡ false) }
{
    Command::new(alloc, STATEMENT)
        .about("tells what stands at a label, and its frame, or each assertion in a line")
        .override_usage(STATEMENT_USE)
        .arg(flag_argument(alloc, ALL))?
        .arg(flag_argument(alloc, COMMENT))?
        .arg(files_argument(alloc))
}

/// How `find` is used.
pub(crate) const FIND_USE: &str =
    "mm find PATTERN [--and PATTERN].. [--whole] [--shape] [--hypotheses] FILES..";

/// The command `find`, for `clap`.
fn find_command<'a>(alloc: Global) -> Result<Command<'a>, AllocError>
    ensures shape { IfOk result (λ command. app_of command ≡ find_line) }
    ensures local { IfOk result (λ command. (out-Command command).has_globals ≡ false) }
{
    let command = Command::new(alloc, FIND)
        .about("lists the assertions that have a pattern, a line for each")
        .override_usage(FIND_USE);
    let command = with_argument(Ok(command), pattern_argument(alloc));
    let command = with_argument(command, options_argument(alloc, AND));
    let command = with_argument(command, flag_argument(alloc, WHOLE));
    let command = with_argument(command, flag_argument(alloc, SHAPE));
    let command = with_argument(command, flag_argument(alloc, HYPOTHESES));
    with_argument(command, files_argument(alloc))
}

/// The command `users`, for `clap`.
fn users_command<'a>(alloc: Global) -> Result<Command<'a>, AllocError>
    ensures shape { IfOk result (λ command. app_of command ≡ users_line) }
    ensures local { IfOk result (λ command. (out-Command command).has_globals ≡ false) }
{
    question_command(
        alloc,
        USERS,
        "lists the theorems whose proofs use an assertion",
        "mm users [--all] LABEL FILES..",
    )?
    .arg(flag_argument(alloc, ALL))
}

/// The command `show`, for `clap`.
fn show_command<'a>(alloc: Global) -> Result<Command<'a>, AllocError>
    ensures shape { IfOk result (λ command. app_of command ≡ show_line) }
    ensures local { IfOk result (λ command. (out-Command command).has_globals ≡ false) }
{
    let command = question_command(
        alloc,
        SHOW,
        "lists the steps of the proof of a theorem",
        "mm show [--known] [--letters] LABEL FILES..
       mm show [--essential | --uses] LABEL FILES..",
    );
    let command = with_argument(command, flag_argument(alloc, KNOWN));
    let command = with_argument(command, flag_argument(alloc, LETTERS));
    let command = with_argument(command, flag_argument(alloc, ESSENTIAL));
    with_argument(command, flag_argument(alloc, USES))
}

/// The command `normal`, for `clap`.
fn normal_command<'a>(alloc: Global) -> Result<Command<'a>, AllocError>
    ensures shape { IfOk result (λ command. app_of command ≡ normal_line) }
    ensures local { IfOk result (λ command. (out-Command command).has_globals ≡ false) }
{
    let command = form_command(
        alloc,
        NORMAL,
        "writes the normal proof of a theorem",
        "mm normal [--file | --known] LABEL FILES..\n       mm normal --all NAME FILES..",
    );
    with_argument(command, flag_argument(alloc, KNOWN))
}

/// The command `packed`, for `clap`.
fn packed_command<'a>(alloc: Global) -> Result<Command<'a>, AllocError>
    ensures shape { IfOk result (λ command. app_of command ≡ packed_line) }
    ensures local { IfOk result (λ command. (out-Command command).has_globals ≡ false) }
{
    form_command(
        alloc,
        PACKED,
        "writes the packed proof of a theorem",
        "mm packed [--file] LABEL FILES..\n       mm packed --all NAME FILES..",
    )
}

/// The command `small`, for `clap`.
fn small_command<'a>(alloc: Global) -> Result<Command<'a>, AllocError>
    ensures shape { IfOk result (λ command. app_of command ≡ small_line) }
    ensures local { IfOk result (λ command. (out-Command command).has_globals ≡ false) }
{
    form_command(
        alloc,
        SMALL,
        "writes a small proof of a theorem",
        "mm small [--file] LABEL FILES..\n       mm small --all NAME FILES..",
    )
}

/// How `minimize` is used.
pub(crate) const MINIMIZE_USE: &str = "mm minimize [--file] LABEL FILES..
       mm minimize --all [--duplicates] NAME FILES..
       mm minimize --list FILES..";

/// The command `minimize`, for `clap`.
fn minimize_command<'a>(alloc: Global) -> Result<Command<'a>, AllocError>
    ensures shape { IfOk result (λ command. app_of command ≡ minimize_line) }
    ensures local { IfOk result (λ command. (out-Command command).has_globals ≡ false) }
{
    let command = Command::new(alloc, MINIMIZE)
        .about("writes a shorter proof of a theorem, by what the library has")
        .override_usage(MINIMIZE_USE);
    let command = with_argument(Ok(command), flag_argument(alloc, FILE));
    let command = with_argument(command, flag_argument(alloc, ALL));
    let command = with_argument(command, flag_argument(alloc, LIST));
    let command = with_argument(command, flag_argument(alloc, DUPLICATES));
    with_argument(command, files_argument(alloc))
}

/// How `lemmas` is used.
pub(crate) const LEMMAS_USE: &str = "mm lemmas --list [--most N] [--least BYTES] FILES..
       mm lemmas [NUMBER..] --all [--most N] [--least BYTES]
           [--prefix P] [--comment TEXT] NAME FILES..";

/// The command `lemmas`, for `clap`.
fn lemmas_command<'a>(alloc: Global) -> Result<Command<'a>, AllocError>
    ensures shape { IfOk result (λ command. app_of command ≡ lemmas_line) }
    ensures local { IfOk result (λ command. (out-Command command).has_globals ≡ false) }
{
    let command = Command::new(alloc, LEMMAS)
        .about("lists lemmas that a library lacks, or writes a file with them and smaller proofs")
        .override_usage(LEMMAS_USE);
    let command = with_argument(Ok(command), flag_argument(alloc, LIST));
    let command = with_argument(command, flag_argument(alloc, ALL));
    let command = with_argument(command, option_argument(alloc, MOST));
    let command = with_argument(command, option_argument(alloc, LEAST));
    let command = with_argument(command, option_argument(alloc, PREFIX));
    let command = with_argument(command, option_argument(alloc, COMMENT));
    with_argument(command, files_argument(alloc))
}

/// A command that asks about a proof's text and the theorem with a label, for `clap`.
fn text_command<'a>(
    alloc: Global,
    name: &'a str,
    about: &'a str,
    usage: &'a str,
) -> Result<Command<'a>, AllocError>
    ensures shape { IfOk result (λ command. app_of command ≡ text_line name.entry.now) }
    ensures local { IfOk result (λ command. (out-Command command).has_globals ≡ false) }
{
    let command = Command::new(alloc, name).about(about).override_usage(usage);
    let command = with_argument(Ok(command), label_argument(alloc));
    let command = with_argument(command, proof_argument(alloc));
    with_argument(command, files_argument(alloc))
}

/// The command `same`, for `clap`.
fn same_command<'a>(alloc: Global) -> Result<Command<'a>, AllocError>
    ensures shape { IfOk result (λ command. app_of command ≡ same_line) }
    ensures local { IfOk result (λ command. (out-Command command).has_globals ≡ false) }
{
    text_command(
        alloc,
        SAME,
        "tells whether a proof's text is the same proof as that of a theorem",
        "mm same LABEL PROOF FILES..",
    )
}

/// The command `try`, for `clap`.
fn try_command<'a>(alloc: Global) -> Result<Command<'a>, AllocError>
    ensures shape { IfOk result (λ command. app_of command ≡ try_line) }
    ensures local { IfOk result (λ command. (out-Command command).has_globals ≡ false) }
{
    text_command(
        alloc,
        TRY,
        "tells whether a text is a proof of a theorem, whatever its own proof",
        "mm try LABEL PROOF FILES..",
    )
}

/// The command `mend`, for `clap`.
fn mend_command<'a>(alloc: Global) -> Result<Command<'a>, AllocError>
    ensures shape { IfOk result (λ command. app_of command ≡ mend_line) }
    ensures local { IfOk result (λ command. (out-Command command).has_globals ≡ false) }
{
    question_command(
        alloc,
        MEND,
        "tells which small changes mend the proof of a theorem",
        "mm mend LABEL FILES..",
    )
}

/// How `diff` is used.
pub(crate) const DIFF_USE: &str = "mm diff OLD NEW
       mm diff OLD.. -- NEW..";

/// The command `diff`, for `clap`, which takes the `--` between its files for the end of options.
fn diff_command<'a>(alloc: Global) -> Result<Command<'a>, AllocError>
    ensures shape { IfOk result (λ command. app_of command ≡ diff_line) }
    ensures local { IfOk result (λ command. (out-Command command).has_globals ≡ false) }
{
    Command::new(alloc, DIFF)
        .about("tells what changed between two versions of a database, by label")
        .override_usage(DIFF_USE)
        .arg(files_argument(alloc))
}

/// The command `explain`, for `clap`.
fn explain_command<'a>(alloc: Global) -> Result<Command<'a>, AllocError>
    ensures shape { IfOk result (λ command. app_of command ≡ explain_line) }
    ensures local { IfOk result (λ command. (out-Command command).has_globals ≡ false) }
{
    Command::new(alloc, EXPLAIN)
        .about("says what the rule with this code is; without a code, lists all codes")
        .override_usage("mm explain [CODE]")
        .arg(code_argument(alloc))
}

/// The command `help`, for `clap`.
fn help_command<'a>(alloc: Global) -> Result<Command<'a>, AllocError>
    ensures shape { IfOk result (λ command. app_of command ≡ help_line) }
    ensures local { IfOk result (λ command. (out-Command command).has_globals ≡ false) }
{
    Command::new(alloc, HELP)
        .about("prints the help, or the page of a command")
        .override_usage("mm help [COMMAND]")
        .arg(topic_argument(alloc))
}

/// The command `version`, for `clap`.
fn version_command<'a>(alloc: Global) -> Command<'a>
    ensures shape { app_of result ≡ version_line }
    ensures local { (out-Command result).has_globals ≡ false }
{
    Command::new(alloc, VERSION).about("prints the version")
}

/// The program's command line without its commands, for `clap`.
fn bare_command<'a>(alloc: Global) -> Result<Command<'a>, AllocError>
    ensures shape { IfOk result (λ command. app_of command ≡ bare_line) }
    ensures local { IfOk result (λ command. (out-Command command).has_globals ≡ false) }
{
    Command::new(alloc, PROGRAM)
        .version(PROGRAM)
        .disable_help_subcommand(true)
        .subcommand_required(true)
        .arg_required_else_help(true)
        .bin_name(PROGRAM)
}

/// A command with one command more below it, for `clap`, where both were made.
fn with_command<'a>(
    command: Result<Command<'a>, AllocError>,
    other: Result<Command<'a>, AllocError>,
) -> Result<Command<'a>, AllocError>
    ensures shape { (line below : App)
        → IfOk other.entry (λ o. (out-Command o).has_globals ≡ false)
        → IfOk command.entry (λ c. app_of c ≡ line) → IfOk other.entry (λ o. app_of o ≡ below)
        → IfOk result (λ with. app_of with ≡ with_subcommand line below.top) }
    ensures local { IfOk command.entry (λ c. (out-Command c).has_globals ≡ false)
        → IfOk other.entry (λ o. (out-Command o).has_globals ≡ false)
        → IfOk result (λ with. (out-Command with).has_globals ≡ false) }
{
    command?.subcommand(other?)
}

/// The program's command line with the commands that check a database, for `clap`.
fn check_commands<'a>(alloc: Global) -> Result<Command<'a>, AllocError>
    ensures shape { IfOk result (λ command. app_of command ≡ check_lines) }
    ensures local { IfOk result (λ command. (out-Command command).has_globals ≡ false) }
{
    let command = bare_command(alloc);
    let command = with_command(command, check_command(alloc));
    let command = with_command(command, faults_command(alloc));
    with_command(command, why_command(alloc))
}

/// That with the commands that ask what depends on what, for `clap`.
fn rests_command<'a>(alloc: Global) -> Result<Command<'a>, AllocError>
    ensures shape { IfOk result (λ command. app_of command ≡ rests_line) }
    ensures local { IfOk result (λ command. (out-Command command).has_globals ≡ false) }
{
    let command = check_commands(alloc);
    let command = with_command(command, axioms_command(alloc));
    with_command(command, users_command(alloc))
}

/// That with the commands that ask what stands there, and how it is proved, for `clap`.
fn database_command<'a>(alloc: Global) -> Result<Command<'a>, AllocError>
    ensures shape { IfOk result (λ command. app_of command ≡ database_line) }
    ensures local { IfOk result (λ command. (out-Command command).has_globals ≡ false) }
{
    let command = rests_command(alloc);
    let command = with_command(command, statement_command(alloc));
    let command = with_command(command, find_command(alloc));
    with_command(command, show_command(alloc))
}

/// That with the commands that ask for the forms of a proof, for `clap`.
fn forms_command<'a>(alloc: Global) -> Result<Command<'a>, AllocError>
    ensures shape { IfOk result (λ command. app_of command ≡ forms_line) }
    ensures local { IfOk result (λ command. (out-Command command).has_globals ≡ false) }
{
    let command = database_command(alloc);
    let command = with_command(command, normal_command(alloc));
    let command = with_command(command, packed_command(alloc));
    with_command(command, small_command(alloc))
}

/// That with the commands that ask for shorter proofs, and for lemmas, for `clap`.
fn shorter_command<'a>(alloc: Global) -> Result<Command<'a>, AllocError>
    ensures shape { IfOk result (λ command. app_of command ≡ shorter_line) }
    ensures local { IfOk result (λ command. (out-Command command).has_globals ≡ false) }
{
    let command = forms_command(alloc);
    let command = with_command(command, minimize_command(alloc));
    with_command(command, lemmas_command(alloc))
}

/// That with the commands that ask about a proof's text, and what mends a proof, for `clap`.
fn proofs_command<'a>(alloc: Global) -> Result<Command<'a>, AllocError>
    ensures shape { IfOk result (λ command. app_of command ≡ proofs_line) }
    ensures local { IfOk result (λ command. (out-Command command).has_globals ≡ false) }
{
    let command = shorter_command(alloc);
    let command = with_command(command, same_command(alloc));
    let command = with_command(command, try_command(alloc));
    with_command(command, mend_command(alloc))
}

/// That with the command that compares two versions of a database, for `clap`.
fn versions_command<'a>(alloc: Global) -> Result<Command<'a>, AllocError>
    ensures shape { IfOk result (λ command. app_of command ≡ versions_line) }
    ensures local { IfOk result (λ command. (out-Command command).has_globals ≡ false) }
{
    let command = proofs_command(alloc);
    with_command(command, diff_command(alloc))
}

/// The program's command line, for `clap`.
pub(crate) fn whole_command<'a>(alloc: Global) -> Result<Command<'a>, AllocError>
    ensures { IfOk result (λ command. app_of command ≡ command_line) }
{
    let command = versions_command(alloc);
    let command = with_command(command, explain_command(alloc));
    let command = with_command(command, help_command(alloc));
    with_command(command, Ok(version_command(alloc)))
}
